// Serving loads, as S-7 has it: the earlier stores are walked back, nearest first, to the one that decides where the load's word comes
// from. A load that a store supplies counts as forwarded. The memory and the counts are lent one by one: `serve` and `serve_in` are public,
// and C lends the one and hands the other in (`lsq_serve_in`).
ghost use Rattle.std.specs.Prelude.{◌≡◌, ◌<◌, length};
ghost use Rattle.counts.specs.Counts.{counted};
ghost use Rattle.queue.specs.Entry.{entry_of, with_word};
ghost use Rattle.queue.specs.Contents.{contents_of};
ghost use Rattle.queue.specs.Serve.{source, serve_at, serve};
ghost use Rattle.queue.specs.Outcome.{Serves, gave, with_counts};
ghost use Rattle.queue.specs.Parts.{queue_of, on_parts};
ghost use Rattle.queue.specs.Internal.{entries_in, Checked, source_in, Decides, MadeAnew};

use crate::entries::{pack, unpack};
use crate::serial::place_of;
use crate::sound::check_parts;
use crate::{Entry, Frame, Queue};
use counts::Counts;
use number::refusal::Refusal;

// Where a load's word comes from.
#[derive(Clone, Copy)]
pub(crate) enum Source {
    // the nearest store that is not known to have another address has none yet
    Unknown,
    // the nearest store to the load's address is unwritten and has no data
    NoData,
    // it is unwritten and has this data
    Forwarded(u32),
    // it is written, or there is no such store
    Memory,
}

// The source of a load whose walk comes to this store to its address, whatever lies farther back.
fn from_store(store: Entry) -> Source
    ensures { Decides (entry_of store) result }
{
    if store.finished {
        return Source::Memory;
    }
    if store.filled {
        Source::Forwarded(store.word)
    } else {
        Source::NoData
    }
}

// The source of a load of the address that comes after these stores. They are walked back, nearest first, and no farther than
// to the one that decides: an older store may have any address, or none yet.
pub(crate) fn source_of(stores: &[u64], address: u16) -> Source
    ensures { source_in result ≡ source address (entries_in stores.now) }
{
    for &number in stores.iter().rev() {
        let store = unpack(number);
        if !store.addressed {
            return Source::Unknown;
        }
        if store.address == address {
            return from_store(store);
        }
    }
    Source::Memory
}

// The load at a place gets this word, and is counted: an accepted serve.
fn served(
    load_entries: &mut [u64],
    at: usize,
    word: u32,
    forwarded: bool,
    counts: &mut Counts,
) -> u32
    requires { at < length load_entries.old }
    ensures word { result ≡ word }
    ensures counts { counts.new ≡ counted forwarded counts.old }
    ensures entry { MadeAnew (with_word word) at load_entries.old load_entries.new }
{
    let mut load = unpack(load_entries[at]);
    load.set_word(word);
    load_entries[at] = pack(load);
    *counts = counts.counted(forwarded);
    word
}

// Serve the load at a place: 25, 26, 27, 28, 29. That the parts were found sound (`Checked`) is asked here, by `write_at` and by
// `ready_serials`: each is called once, right behind the test, and all of the parts, some or none are lent to be changed, so no one type
// of lent parts would do.
fn serve_at(
    frame: &Frame,
    load_entries: &mut [u64],
    store_entries: &[u64],
    memory: &[u32],
    counts: &mut Counts,
    place: u32,
) -> Result<u32, Refusal>
    requires { Checked frame.now load_entries.old store_entries.now × (length memory.now ≡ frame.now.memory_length) }
    ensures { let q = queue_of frame.now load_entries.old store_entries.now in
        Serves q counts.old (serve_at (contents_of q) memory.now place)
        (with_counts (gave result (queue_of frame.now load_entries.new store_entries.now)) counts.new) }
{
    if frame.loads.count as u32 <= place {
        return Err(Refusal::NoSerial);
    }
    let at = place as usize;
    let load = unpack(load_entries[at]);
    if load.filled {
        return Err(Refusal::AlreadyDone);
    }
    if !load.addressed {
        return Err(Refusal::NoAddress);
    }
    match source_of(load.others_before(store_entries), load.address) {
        Source::Unknown => Err(Refusal::EarlierStoreUnknown),
        Source::NoData => Err(Refusal::NoData),
        Source::Forwarded(word) => Ok(served(load_entries, at, word, true, counts)),
        Source::Memory => {
            let word = memory[load.address as usize];
            Ok(served(load_entries, at, word, false, counts))
        }
    }
}

// Serve on a queue's parts: 40, 30, and then as `serve_at`. Writing tests these two too, a line each.
pub fn serve_in(
    frame: &Frame,
    load_entries: &mut [u64],
    store_entries: &[u64],
    memory: &[u32],
    counts: &mut Counts,
    serial: u32,
) -> Result<u32, Refusal>
    ensures { let q = queue_of frame.now load_entries.old store_entries.now in
        Serves q counts.old (on_parts load_entries.old store_entries.now (serve (contents_of q) memory.now serial))
        (with_counts (gave result (queue_of frame.now load_entries.new store_entries.now)) counts.new) }
{
    check_parts(frame, load_entries, store_entries)?;
    if memory.len() != frame.memory_length as usize {
        return Err(Refusal::WrongMemory);
    }
    let place = place_of(frame.loads.next, frame.loads.count, serial);
    serve_at(frame, load_entries, store_entries, memory, counts, place)
}

impl Queue {
    // Serve the load with this serial: its value. The counts are lent, and changed in place.
    pub fn serve(
        &mut self,
        memory: &[u32],
        counts: &mut Counts,
        serial: u32,
    ) -> Result<u32, Refusal>
        ensures { Serves self.old counts.old (serve (contents_of self.old) memory.now serial) (with_counts (gave result self.new) counts.new) }
    {
        serve_in(
            &self.frame,
            &mut self.load_entries,
            &self.store_entries,
            memory,
            counts,
            serial,
        )
    }
}
