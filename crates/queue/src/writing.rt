// Writing stores: "a written store puts its data in memory".
ghost use Rattle.std.specs.Prelude.{◌≡◌, ◌<◌, ◌≤◌, length, slice_index_or};
ghost use Rattle.number.specs.Basics.{all_of};
ghost use Rattle.number.specs.Reply.{reply, check_of};
ghost use Rattle.queue.specs.Entry.{entry_of, entry_in};
ghost use Rattle.queue.specs.Contents.{contents_of};
ghost use Rattle.queue.specs.Write.{no_conflict, write_at, write};
ghost use Rattle.queue.specs.Outcome.{Writes, moved};
ghost use Rattle.queue.specs.Parts.{queue_of, OpenedAlike, on_parts};
ghost use Rattle.queue.specs.Internal.{entries_in, Checked, has, may_write_at};

use crate::entries::{Mark, pack, unpack};
use crate::retiring::retire;
use crate::serial::place_of;
use crate::sound::check_parts;
use crate::{Entry, Frame, Queue};
use number::refusal::Refusal;

// An entry that is done with the memory (a served load, a written store), or is known to be of another word, does not
// conflict with a write to the address. Writing past an unserved load of the word would spoil that load.
fn no_conflict(entry: Entry, done: Mark, address: u16) -> bool
    ensures { result ≡ no_conflict (has done) address (entry_of entry) }
{
    entry.has(done) || (entry.addressed && entry.address != address)
}

// Does none of these entries conflict with a write to the address?
fn none_conflict(entries: &[u64], done: Mark, address: u16) -> bool
    ensures { result ≡ all_of (no_conflict (has done) address) (entries_in entries.now) }
{
    entries
        .iter()
        .all(|&number| no_conflict(unpack(number), done, address))
}

// Why the store at a place may not be written: 26, 27, 29, 31, 32.
pub(crate) fn write_fault(
    load_entries: &[u64],
    store_entries: &[u64],
    at: usize,
) -> Result<(), Refusal>
    requires { (at < length store_entries.now) × ((entry_in (slice_index_or store_entries.now at 0)).before ≤ length load_entries.now) }
    ensures { reply result ≡ check_of (may_write_at load_entries.now store_entries.now at) }
{
    let store = unpack(store_entries[at]);
    if store.finished {
        return Err(Refusal::AlreadyDone);
    }
    if !store.addressed {
        return Err(Refusal::NoAddress);
    }
    if !store.filled {
        return Err(Refusal::NoData);
    }
    let loads = store.others_before(load_entries);
    if !none_conflict(loads, Mark::Filled, store.address) {
        return Err(Refusal::LoadConflict);
    }
    if !none_conflict(&store_entries[..at], Mark::Finished, store.address) {
        return Err(Refusal::StoreConflict);
    }
    Ok(())
}

// Write the store at a place: 25, 26, 27, 29, 31, 32.
fn write_at(
    frame: &mut Frame,
    load_entries: &mut [u64],
    store_entries: &mut [u64],
    memory: &mut [u32],
    place: u32,
) -> Result<(), Refusal>
    requires { Checked frame.old load_entries.old store_entries.old × (length memory.old ≡ frame.old.memory_length) }
    ensures writes { let q = queue_of frame.old load_entries.old store_entries.old in
        Writes q memory.old (write_at (contents_of q) memory.old place)
        (moved result (queue_of frame.new load_entries.new store_entries.new)) memory.new }
    ensures opening { OpenedAlike frame.old frame.new }
{
    if frame.stores.count as u32 <= place {
        return Err(Refusal::NoSerial);
    }
    let at = place as usize;
    write_fault(load_entries, store_entries, at)?;
    let mut store = unpack(store_entries[at]);
    memory[store.address as usize] = store.word;
    store.finished = true;
    store_entries[at] = pack(store);
    retire(frame, load_entries, store_entries);
    Ok(())
}

// Write on a queue's parts: 40, 30, and then as `write_at`.
pub fn write_in(
    frame: &mut Frame,
    load_entries: &mut [u64],
    store_entries: &mut [u64],
    memory: &mut [u32],
    serial: u32,
) -> Result<(), Refusal>
    ensures writes { let q = queue_of frame.old load_entries.old store_entries.old in
        Writes q memory.old (on_parts load_entries.old store_entries.old (write (contents_of q) memory.old serial))
        (moved result (queue_of frame.new load_entries.new store_entries.new)) memory.new }
    ensures opening { OpenedAlike frame.old frame.new }
{
    check_parts(frame, load_entries, store_entries)?;
    if memory.len() != frame.memory_length as usize {
        return Err(Refusal::WrongMemory);
    }
    let place = place_of(frame.stores.next, frame.stores.count, serial);
    write_at(frame, load_entries, store_entries, memory, place)
}

impl Queue {
    // Write the store with this serial: its data goes to memory, and finished entries retire.
    pub fn write(&mut self, memory: &mut [u32], serial: u32) -> Result<(), Refusal>
        ensures { Writes self.old memory.old (write (contents_of self.old) memory.old serial) (moved result self.new) memory.new }
    {
        write_in(
            &mut self.frame,
            &mut self.load_entries,
            &mut self.store_entries,
            memory,
            serial,
        )
    }
}
