// Arguments: "an argument goes to its port's oldest entry that lacks it".
ghost use Rattle.std.specs.Prelude.{◌≡◌, true};
ghost use Rattle.queue.specs.Contents.{contents_of};
ghost use Rattle.queue.specs.Arguments.{kind_of, in_range, give, load_address, store_address, store_data};
ghost use Rattle.queue.specs.Outcome.{Moves, moved};
ghost use Rattle.queue.specs.Parts.{queue_of_kind, on_parts};
ghost use Rattle.queue.specs.Internal.{mark_of, set_argument, Given};

use crate::entries::{Mark, oldest_without, pack, unpack};
use crate::ports::has_port;
use crate::sound::check_parts_of;
use crate::{Entry, Frame, Kind, Queue};
use number::refusal::Refusal;

// The three kinds of argument.
#[derive(Clone, Copy, PartialEq, Eq)]
pub enum Argument {
    LoadAddress,
    StoreAddress,
    StoreData,
}

// The kind of access that an argument is for. It and `mark_of` have names, and are no `From`: an argument has a kind and a mark, and is
// neither.
fn kind_of(argument: Argument) -> Kind
    ensures { result ≡ kind_of argument }
{
    match argument {
        Argument::LoadAddress => Kind::Load,
        Argument::StoreAddress | Argument::StoreData => Kind::Store,
    }
}

// The mark of an entry that has the argument.
fn mark_of(argument: Argument) -> Mark
    ensures { result ≡ mark_of argument }
{
    match argument {
        Argument::LoadAddress | Argument::StoreAddress => Mark::Addressed,
        Argument::StoreData => Mark::Filled,
    }
}

// An address is below the memory length; data may be any word.
fn in_range(argument: Argument, memory_length: u16, number: u32) -> bool
    ensures { result ≡ in_range argument memory_length number }
{
    match argument {
        Argument::LoadAddress | Argument::StoreAddress => number < memory_length as u32,
        Argument::StoreData => true,
    }
}

// Gives an entry the argument.
fn set_argument(entry: &mut Entry, argument: Argument, number: u32)
    requires { in_range argument 65536 number ≡ true }
    ensures { entry.new ≡ set_argument argument number entry.old }
{
    match argument {
        Argument::LoadAddress | Argument::StoreAddress => entry.set_address(number as u16),
        Argument::StoreData => entry.set_word(number),
    }
}

// Gives the argument to the port's oldest entry that lacks it; or 24, and changes nothing.
fn give_oldest(
    entries: &mut [u64],
    argument: Argument,
    port: u32,
    number: u32,
) -> Result<(), Refusal>
    requires { in_range argument 65536 number ≡ true }
    ensures { Given argument port number entries.old result entries.new }
{
    let Some(at) = oldest_without(entries, port, mark_of(argument)) else {
        return Err(Refusal::NoneWaits);
    };
    let mut entry = unpack(entries[at]);
    set_argument(&mut entry, argument, number);
    entries[at] = pack(entry);
    Ok(())
}

// An argument on a queue's parts: 40, 22, 23, 24. The entries of its own kind are lent to be changed, those of the other kind to
// be read.
pub fn give_in(
    frame: &Frame,
    own_entries: &mut [u64],
    other_entries: &[u64],
    argument: Argument,
    port: u32,
    number: u32,
) -> Result<(), Refusal>
    ensures { let q = queue_of_kind (kind_of argument) frame.now own_entries.old other_entries.now in
        Moves q (on_parts q.load_entries q.store_entries (give argument (contents_of q) port number))
        (moved result (queue_of_kind (kind_of argument) frame.now own_entries.new other_entries.now)) }
{
    let kind = kind_of(argument);
    check_parts_of(kind, frame, own_entries, other_entries)?;
    if !has_port(&frame.table, kind, port) {
        return Err(Refusal::NoPort);
    }
    if !in_range(argument, frame.memory_length, number) {
        return Err(Refusal::BadAddress);
    }
    let held = frame.side(kind).count as usize;
    give_oldest(&mut own_entries[..held], argument, port, number)
}

impl Queue {
    // Gives an argument to the port's oldest entry of its kind that lacks it. The three public calls, which README.md names, are this one.
    fn give(&mut self, argument: Argument, port: u32, number: u32) -> Result<(), Refusal>
        ensures { Moves self.old (give argument (contents_of self.old) port number) (moved result self.new) }
    {
        let frame = &self.frame;
        let loads = &mut self.load_entries;
        let stores = &mut self.store_entries;
        match kind_of(argument) {
            Kind::Load => give_in(frame, loads, stores, argument, port, number),
            Kind::Store => give_in(frame, stores, loads, argument, port, number),
        }
    }

    // Gives an address to the port's oldest load that has none.
    pub fn load_address(&mut self, port: u32, address: u32) -> Result<(), Refusal>
        ensures { Moves self.old (load_address (contents_of self.old) port address) (moved result self.new) }
    {
        self.give(Argument::LoadAddress, port, address)
    }

    // Gives an address to the port's oldest store that has none.
    pub fn store_address(&mut self, port: u32, address: u32) -> Result<(), Refusal>
        ensures { Moves self.old (store_address (contents_of self.old) port address) (moved result self.new) }
    {
        self.give(Argument::StoreAddress, port, address)
    }

    // Gives data to the port's oldest store that has none.
    pub fn store_data(&mut self, port: u32, word: u32) -> Result<(), Refusal>
        ensures { Moves self.old (store_data (contents_of self.old) port word) (moved result self.new) }
    {
        self.give(Argument::StoreData, port, word)
    }
}
