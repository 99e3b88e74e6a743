// Events and traces: their records, and the calls that read and write them. What lies above rests on the contracts, the definitions
// and the laws about them that the proofs publish.

#![tactic(auto)]

pub mod reading;
pub mod writing;

use number::refusal::Refusal;

// The four leading numbers of a trace: load depth, store depth, first serial, memory length.
#[derive(Clone, Copy, PartialEq, Eq)]
pub struct Header {
    pub load_depth: u32,
    pub store_depth: u32,
    pub first: u32,
    pub memory_length: u32,
}

// An event of a trace: its kind, with its own numbers.
#[derive(Clone, Copy, PartialEq, Eq)]
pub enum Event {
    Activate { group: u32 },
    LoadAddress { port: u32, address: u32 },
    StoreAddress { port: u32, address: u32 },
    StoreData { port: u32, word: u32 },
    Serve { serial: u32 },
    Write { serial: u32 },
    Take { port: u32 },
}

// One step of a reader: what it yields, and where it stands then.
#[derive(Clone, Copy, PartialEq, Eq)]
pub struct Stepped {
    pub read: Result<Option<(Event, usize)>, Refusal>,
    pub next: usize,
}
