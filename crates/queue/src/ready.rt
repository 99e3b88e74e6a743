// The ready calls: "the serials that serve (or write) would now accept with memory of the right length, oldest first".
ghost use Rattle.std.specs.Prelude.{◌≡◌, ◌<◌, ◌≤◌, length, IfOk};
ghost use Rattle.queue.specs.Entry.{entry_of};
ghost use Rattle.queue.specs.Contents.{entries_held, contents_of};
ghost use Rattle.queue.specs.Ready.{ready_serials, ready, Readies, readied, front_reply};
ghost use Rattle.queue.specs.Parts.{queue_of, on_parts};
ghost use Rattle.queue.specs.Internal.{Checked, load_ready, InReach, ready_at, Noted, Lists, HandedOut};

use crate::entries::unpack;
use crate::serial::oldest_serial;
use crate::serving::{Source, source_of};
use crate::sound::check_parts;
use crate::writing::write_fault;
use crate::{Entry, Frame, Kind, Queue};
use number::refusal::Refusal;

// One more serial. What is gathered is a lent array and how many of its places hold a serial; the others mean nothing. As
// `PairList::push` of `grouping`, whose places hold packed pairs: neither crate stands on the other.
fn put(numbers: &mut [u32; 64], count: usize, serial: u32) -> usize
    requires { count < 64 }
    ensures { Noted (record { count = count; numbers = numbers.old }) serial (record { count = result; numbers = numbers.new }) }
{
    numbers[count] = serial;
    count + 1
}

// Would the load be served now?
fn load_ready(load: Entry, store_entries: &[u64]) -> bool
    requires { load.before ≤ length store_entries.now }
    ensures { result ≡ load_ready (entries_held load.before store_entries.now) (entry_of load) }
{
    if load.filled || !load.addressed {
        return false;
    }
    match source_of(load.others_before(store_entries), load.address) {
        Source::Unknown | Source::NoData => false,
        Source::Forwarded(_) | Source::Memory => true,
    }
}

// Would the load, or the store, at this place be served, or written, now?
fn ready_at(kind: Kind, load_entries: &[u64], store_entries: &[u64], i: usize) -> bool
    requires { InReach kind load_entries.now store_entries.now i }
    ensures { result ≡ ready_at kind load_entries.now store_entries.now i }
{
    match kind {
        Kind::Load => load_ready(unpack(load_entries[i]), store_entries),
        Kind::Store => write_fault(load_entries, store_entries, i).is_ok(),
    }
}

// Gathers the serials of the loads that would be served now, or of the stores that would be written, and says how many. By places,
// since a store's test reads the run up to it, too.
fn ready_serials(
    frame: &Frame,
    kind: Kind,
    load_entries: &[u64],
    store_entries: &[u64],
    numbers: &mut [u32; 64],
) -> usize
    requires { Checked frame.now load_entries.now store_entries.now }
    ensures { Lists (ready_serials kind (contents_of (queue_of frame.now load_entries.now store_entries.now)))
        (record { count = result; numbers = numbers.new }) }
{
    let side = frame.side(kind);
    let mut count = 0;
    let mut serial = oldest_serial(side.next, side.count);
    for i in 0..side.count as usize {
        if ready_at(kind, load_entries, store_entries, i) {
            count = put(numbers, count, serial);
        }
        serial = serial.wrapping_add(1);
    }
    count
}

// Puts the serials at the front of the lent run, where it has room for them: 10 where not. The rest keeps its contents.
fn hand_out(found: &[u32], out: &mut [u32]) -> Result<usize, Refusal>
    ensures { HandedOut found.now out.old result out.new }
{
    let count = found.len();
    if out.len() < count {
        return Err(Refusal::TooShort);
    }
    out[..count].copy_from_slice(found);
    Ok(count)
}

// Ready on a queue's parts: 40, 10; how many serials stand at the front of the lent run.
pub fn ready_in(
    frame: &Frame,
    load_entries: &[u64],
    store_entries: &[u64],
    kind: Kind,
    out: &mut [u32],
) -> Result<usize, Refusal>
    ensures { let q = queue_of frame.now load_entries.now store_entries.now in
        Readies q out.old (on_parts load_entries.now store_entries.now (ready kind (contents_of q) out.old))
        (readied result q) out.new }
{
    check_parts(frame, load_entries, store_entries)?;
    // No heap: what is ready is known only once it is gathered, and nothing is written to the lent run before that. One array of 64
    // numbers, of 256 bytes, which is cleared in place: with its count in one record it would be cleared by `memset`, a name that C
    // would then have to bring. And no `ArrayVec`: the libraries stand on each other alone.
    let mut numbers = [0; 64];
    let count = ready_serials(frame, kind, load_entries, store_entries, &mut numbers);
    hand_out(&numbers[..count], out)
}

impl Queue {
    // Puts the serials of the loads that serve would now accept, or of the stores that write would, at the front of the lent run,
    // and says how many.
    pub fn ready_into(&self, kind: Kind, out: &mut [u32]) -> Result<usize, Refusal>
        ensures { Readies self.now out.old (ready kind (contents_of self.now) out.old) (readied result self.now) out.new }
    {
        ready_in(
            &self.frame,
            &self.load_entries,
            &self.store_entries,
            kind,
            out,
        )
    }

    // The same, and the front part is handed back. No contract can speak of the rest of the run once a part is handed out;
    // `ready_into` says that it keeps its contents, and that of a refused call the whole run does.
    pub fn ready<'a>(&self, kind: Kind, out: &'a mut [u32]) -> Result<&'a mut [u32], Refusal>
        ensures fronts { front_reply result ≡ ready kind (contents_of self.now) out.old }
        ensures begins { IfOk result (λ front. front.ref_ptr ≡ out.entry.ref_ptr) }
    {
        let count = self.ready_into(kind, &mut *out)?;
        Ok(&mut out[..count])
    }
}
