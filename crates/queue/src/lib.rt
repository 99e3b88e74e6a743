// The group-allocated load-store queue: its record, and every call on it.
// A call changes the queue that is lent to it, or refuses and leaves it as it was. The calls named `.._in` do the work: a frame is
// lent to them, and the entries of both sides as runs of numbers, so that a host may keep these apart. Within the crate they go on as two
// runs too: a serve and an argument change one side and only read the other, and a struct that holds both would be lent as one.

#![tactic(auto)]

ghost use Rattle.std.specs.Prelude.{◌≡◌, ◌<◌, ◌≤◌, length};
ghost use Rattle.queue.specs.Contents.{of_kind, entries_held};
ghost use Rattle.queue.specs.Internal.{entries_in};

use table::Table;

pub mod activation;
pub mod arguments;
pub mod entries;
pub mod opening;
pub mod ports;
pub mod ready;
pub mod retiring;
pub mod serial;
pub mod serving;
pub mod sound;
pub mod taking;
pub mod writing;

// The kind of an access.
#[derive(Clone, Copy, PartialEq, Eq)]
pub enum Kind {
    Load,
    Store,
}

// An access that was activated, a load or a store. A queue holds it packed into a number (`entries`). Marks stand beside the address and
// the word, and no `Option`: an entry is all that its number holds, which may have a word without its mark (`unpack`, `pack`).
#[derive(Clone, Copy, PartialEq, Eq)]
pub struct Entry {
    pub port: u8,
    // how many queued entries of the other kind come before it
    pub before: u8,
    // it has its address, which means something only then
    pub addressed: bool,
    // it has its word, which means something only then: the value of a served load, a store's data
    pub filled: bool,
    // a load was taken, a store was written
    pub finished: bool,
    pub address: u16,
    pub word: u32,
}

// One side of a queue: its depth, how many entries it holds, and the next serial.
#[repr(C)]
#[derive(Clone, Copy, PartialEq, Eq)]
pub struct Side {
    pub depth: u8,
    pub count: u8,
    pub next: u32,
}

impl Side {
    // Of a run with a place for each, the entries that the side holds. A count is asked to be no more than its run is long here, in
    // `load_ready`, `write_fault`, `shift` and `retire`: a frame and runs are lent apart, and no value has the two together.
    pub(crate) fn held<'a>(self, entries: &'a [u64]) -> &'a [u64]
        requires { self.count ≤ length entries.now }
        ensures entries { entries_in result.now ≡ entries_held self.count entries.now }
        ensures few { length result.now < 256 }
    {
        &entries[..self.count as usize]
    }
}

// All of a queue but its entries: its table, the memory length that it was opened for, and both sides.
#[repr(C)]
#[derive(Clone, Copy, PartialEq, Eq)]
pub struct Frame {
    pub table: Table,
    pub memory_length: u16,
    pub loads: Side,
    pub stores: Side,
}

impl Frame {
    // The side of a kind.
    pub(crate) fn side(&self, kind: Kind) -> Side
        ensures { result ≡ of_kind kind self.now.loads self.now.stores }
    {
        match kind {
            Kind::Load => self.loads,
            Kind::Store => self.stores,
        }
    }
}

// A queue: its frame, and each side's entries from the oldest, packed. Places beyond a side's count mean nothing. The counts stand in the
// frame and not with the arrays, since C has a frame and two runs (bindings/c/lsq.h), and a call on this record lends just those.
#[derive(Clone, Copy, PartialEq, Eq)]
pub struct Queue {
    pub frame: Frame,
    pub load_entries: [u64; 64],
    pub store_entries: [u64; 64],
}
