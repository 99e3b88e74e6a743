// Records made by hand: each command sets a field of the queue's record. That the numbers fit the fields is tested before.
use crate::command::Field;
use queue::entries::pack;
use queue::{Entry, Frame, Kind, Queue, Side};
use script::{byte, word};

// The side of a kind, and its entries.
fn side_of(frame: &mut Frame, kind: Kind) -> &mut Side {
    match kind {
        Kind::Load => &mut frame.loads,
        Kind::Store => &mut frame.stores,
    }
}

// As `word` and `byte` of `script`, of another width.
fn half(numbers: &[u64], place: usize) -> u16 {
    (word(numbers, place) % 65536) as u16
}

// Of the numbers: port, remembered number, addressed, address, filled (served), word, finished. No `From`, which would not say so.
pub(crate) fn entry_of(numbers: &[u64]) -> Entry {
    Entry {
        port: byte(numbers, 0),
        before: byte(numbers, 1),
        addressed: word(numbers, 2) == 1,
        filled: word(numbers, 4) == 1,
        finished: word(numbers, 6) == 1,
        address: half(numbers, 3),
        word: word(numbers, 5),
    }
}

// Of the numbers: place, then the entry's.
fn set_entry(entries: &mut [u64; 64], numbers: &[u64]) {
    if let Some((place, fields)) = numbers.split_first()
        && let Some(entry) = entries.get_mut(*place as usize)
    {
        *entry = pack(entry_of(fields));
    }
}

pub(crate) fn set(queue: &mut Queue, field: Field, numbers: &[u64]) {
    let frame = &mut queue.frame;
    match field {
        Field::Depth(kind) => side_of(frame, kind).depth = byte(numbers, 0),
        Field::Count(kind) => side_of(frame, kind).count = byte(numbers, 0),
        Field::Next(kind) => side_of(frame, kind).next = word(numbers, 0),
        Field::Words => frame.memory_length = half(numbers, 0),
        Field::Entry(Kind::Load) => set_entry(&mut queue.load_entries, numbers),
        Field::Entry(Kind::Store) => set_entry(&mut queue.store_entries, numbers),
    }
}
