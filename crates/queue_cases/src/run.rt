// What the script works on: a queue, the table to open with, the memory and the counts that are lent, the shift record.
use crate::show;
use arrayvec::ArrayVec;
use counts::Counts;
use queue::{Frame, Kind, Queue, Side};
use script::{print_all, word};
use shift::ShiftRecord;
use std::io;
use std::io::Write;
use table::Table;
use table::read::read_table;

// The words that are lent as memory.
pub(crate) type Memory = ArrayVec<u32, 8>;

#[derive(Drop)]
pub(crate) struct Run {
    pub queue: Queue,
    pub table: Table,
    pub memory: Memory,
    pub counts: Counts,
    pub kept: ShiftRecord,
}

// The queue of a refused opening, which holds nothing and has no room. Its frame is `no_frame` of `live`, which is private there.
fn no_queue() -> Queue {
    let side = Side {
        depth: 0,
        count: 0,
        next: 0,
    };
    let frame = Frame {
        table: Table::none(),
        memory_length: 0,
        loads: side,
        stores: side,
    };
    Queue {
        frame,
        load_entries: [0; 64],
        store_entries: [0; 64],
    }
}

// The same words once more.
pub(crate) fn copied(memory: &Memory) -> Memory {
    let mut copy = Memory::new();
    for word in memory {
        let _ = copy.try_push(*word);
    }
    copy
}

impl Run {
    // No `Default`, since a queue has none: it is opened.
    pub(crate) fn fresh() -> Run {
        Run {
            queue: no_queue(),
            table: Table::none(),
            memory: Memory::new(),
            counts: Counts::default(),
            kept: ShiftRecord::none(),
        }
    }

    // All that is held, for calls that are not to change it. No derived `Clone`: that of the memory answers a `Result`, as if it could fail.
    pub(crate) fn copy(&self) -> Run {
        Run {
            queue: self.queue,
            table: self.table,
            memory: copied(&self.memory),
            counts: self.counts,
            kept: self.kept,
        }
    }

    // Reads a table, and keeps it where it is right.
    pub(crate) fn read(&mut self, out: &mut impl Write, bytes: &[u8]) -> io::Result<()> {
        match read_table(bytes) {
            Ok(table) => {
                self.table = table;
                out.write_all(b": 0")
            }
            Err(refusal) => show::refused(out, refusal),
        }
    }

    // Opens a queue with the table, and keeps it where it is not refused. Of the numbers: both depths, the first serial, the words.
    pub(crate) fn open(&mut self, out: &mut impl Write, numbers: &[u64]) -> io::Result<()> {
        let first = word(numbers, 2);
        match Queue::open(
            self.table,
            word(numbers, 0),
            word(numbers, 1),
            first,
            word(numbers, 3),
        ) {
            Ok(queue) => {
                self.queue = queue;
                out.write_all(b": 0")
            }
            Err(refusal) => show::refused(out, refusal),
        }
    }

    // The memory is these words, of which there are at most eight.
    pub(crate) fn set_memory(&mut self, numbers: &[u64]) {
        self.memory = Memory::new();
        for number in numbers {
            let _ = self.memory.try_push((*number % 4294967296) as u32);
        }
    }

    pub(crate) fn set_counts(&mut self, loads: u32, forwarded: u32) {
        self.counts = Counts { loads, forwarded };
    }

    // One more load is counted.
    pub(crate) fn count(&mut self, out: &mut impl Write, forwarded: bool) -> io::Result<()> {
        self.counts = self.counts.counted(forwarded);
        write!(out, ": {} {}", self.counts.loads, self.counts.forwarded)
    }

    pub(crate) fn show_share(&self, out: &mut impl Write) -> io::Result<()> {
        write!(out, ": {}", self.counts.share())
    }

    // Does the record escape 40?
    pub(crate) fn show_sound(&self, out: &mut impl Write) -> io::Result<()> {
        if self.queue.sound() {
            return out.write_all(b": yes");
        }
        out.write_all(b": no")
    }

    // Everything that is held.
    pub(crate) fn show(&self, out: &mut impl Write) -> io::Result<()> {
        let queue = &self.queue;
        write!(out, ": words {}", queue.frame.memory_length)?;
        show::side(out, Kind::Load, queue.frame.loads, &queue.load_entries)?;
        show::side(out, Kind::Store, queue.frame.stores, &queue.store_entries)?;
        out.write_all(b"\n  memory")?;
        print_all(out, self.memory.as_slice())?;
        write!(
            out,
            "\n  counts {} {}",
            self.counts.loads, self.counts.forwarded
        )
    }
}
