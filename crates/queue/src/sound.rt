// "Every call on a queue: first 40": is the record one that the rules speak of? It may come from anywhere.
ghost use Rattle.std.specs.Prelude.{◌≡◌, ◌≤◌, ◌&&◌, length, nat_le};
ghost use Rattle.number.specs.Basics.{all_of};
ghost use Rattle.queue.specs.Entry.{entry_of};
ghost use Rattle.queue.specs.Contents.{contents_of};
ghost use Rattle.queue.specs.Internal.{entries_in, PartsChecked};
ghost use Rattle.queue.specs.Sound.{depth_right, memory_right, entry_right, sound};
ghost use Rattle.queue.specs.Parts.{queue_of, queue_of_kind, whole};

use crate::entries::unpack;
use crate::{Entry, Frame, Kind, Queue, Side};
use number::refusal::Refusal;

// A depth is 1 to 64.
pub(crate) fn depth_right(depth: u32) -> bool
    ensures { result ≡ depth_right depth }
{
    1 <= depth && depth <= 64
}

// The memory length is 1 to 4,096. A function with the limit as a parameter would be no shorter, and each limit has its definition.
pub(crate) fn memory_right(memory_length: u32) -> bool
    ensures { result ≡ memory_right memory_length }
{
    1 <= memory_length && memory_length <= 4096
}

// An entry remembers no more of the other kind than are held, and its address, where filled in, is below the memory length.
fn entry_right(entry: Entry, memory_length: u16, others: u8) -> bool
    ensures { result ≡ entry_right memory_length others (entry_of entry) }
{
    entry.before <= others && (!entry.addressed || entry.address < memory_length)
}

// Is every one of these entries right?
fn entries_right(entries: &[u64], memory_length: u16, others: u8) -> bool
    ensures { result ≡ all_of (entry_right memory_length others) (entries_in entries.now) }
{
    entries.iter().all(|&number| entry_right(unpack(number), memory_length, others))
}

// A depth within its limits, and no more entries than it.
fn side_right(side: Side) -> bool
    ensures { result ≡ depth_right side.depth && nat_le side.count side.depth }
{
    depth_right(side.depth as u32) && side.count <= side.depth
}

// Are these the parts of a sound queue? A run that has not just 64 numbers is no side's places. The cheap tests come first: the
// loops are safe only once the lengths and the counts are known, and the table takes longest.
pub fn sound_in(frame: &Frame, load_entries: &[u64], store_entries: &[u64]) -> bool
    ensures { result ≡ whole load_entries.now store_entries.now
        && sound (contents_of (queue_of frame.now load_entries.now store_entries.now)) }
{
    let loads = frame.loads;
    let stores = frame.stores;
    let words = frame.memory_length;
    if load_entries.len() != 64 {
        return false;
    }
    if store_entries.len() != 64 {
        return false;
    }
    if !side_right(loads) {
        return false;
    }
    if !side_right(stores) {
        return false;
    }
    if !memory_right(words as u32) {
        return false;
    }
    if !entries_right(loads.held(load_entries), words, stores.count) {
        return false;
    }
    if !entries_right(stores.held(store_entries), words, loads.count) {
        return false;
    }
    frame.table.check().is_ok()
}

// 40, where they are not: every call on a queue's parts begins with this.
pub(crate) fn check_parts(
    frame: &Frame,
    load_entries: &[u64],
    store_entries: &[u64],
) -> Result<(), Refusal>
    ensures { PartsChecked (queue_of frame.now load_entries.now store_entries.now) result }
{
    if !sound_in(frame, load_entries, store_entries) {
        return Err(Refusal::Unsound);
    }
    Ok(())
}

// The same, by the entries of one kind and those of the other.
pub(crate) fn check_parts_of(
    kind: Kind,
    frame: &Frame,
    own_entries: &[u64],
    other_entries: &[u64],
) -> Result<(), Refusal>
    ensures { PartsChecked (queue_of_kind kind frame.now own_entries.now other_entries.now) result }
{
    match kind {
        Kind::Load => check_parts(frame, own_entries, other_entries),
        Kind::Store => check_parts(frame, other_entries, own_entries),
    }
}

impl Queue {
    // Is the record one that no call refuses with 40?
    pub fn sound(&self) -> bool
        ensures { result ≡ sound (contents_of self.now) }
    {
        sound_in(&self.frame, &self.load_entries, &self.store_entries)
    }
}
