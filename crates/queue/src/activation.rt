// Activation: "gives the group's loads the next load serials and its stores the next store serials".
ghost use Rattle.std.specs.Prelude.{◌≡◌, ◌+◌, ◌≤◌, ◌&&◌, map, nat_le};
ghost use Rattle.table.specs.Packed.{pair_in};
ghost use Rattle.queue.specs.Contents.{contents_of};
ghost use Rattle.queue.specs.Activate.{activate};
ghost use Rattle.queue.specs.Outcome.{Moves, moved};
ghost use Rattle.queue.specs.Parts.{queue_of, OpenedAlike, on_parts};
ghost use Rattle.queue.specs.Internal.{Has64, PairsFit, Appended, longer};

use crate::entries::pack;
use crate::sound::check_parts;
use crate::{Entry, Frame, Queue, Side};
use number::refusal::Refusal;
use table::Group;
use table::parts::unpack_pair;

impl Side {
    // Enough free places: a finished entry that an older one holds back is not free.
    fn has_room(&self, more: u8) -> bool
        ensures { result ≡ nat_le (self.now.count + more) self.now.depth }
    {
        self.count as u32 + more as u32 <= self.depth as u32
    }

    // `more` entries behind those held: their serials are the next ones.
    fn lengthen(&mut self, more: u8)
        requires { self.old.count + more ≤ 64 }
        ensures { self.new ≡ longer self.old more }
    {
        self.count += more;
        self.next = self.next.wrapping_add(more as u32);
    }
}

// Enough free places on both sides.
fn has_room(frame: &Frame, group: Group) -> bool
    ensures { result ≡ nat_le (frame.now.loads.count + group.loads.count) frame.now.loads.depth
        && nat_le (frame.now.stores.count + group.stores.count) frame.now.stores.depth }
{
    frame.loads.has_room(group.loads.count) && frame.stores.has_room(group.stores.count)
}

// Puts a group's entries of one kind behind those held. An entry comes after all of the other kind that are held and those of
// its group that its offset counts. The count goes beside the run, since what is written stands behind what it counts.
fn append(entries: &mut [u64], held: u8, pairs: &[u16], others: u8)
    requires { PairsFit held (map pair_in pairs.now) × (others ≤ 64) × Has64 entries.old }
    ensures { Appended held (map pair_in pairs.now) others entries.old entries.new }
{
    let start = held as usize;
    for (j, &number) in pairs.iter().enumerate() {
        let pair = unpack_pair(number);
        let entry = Entry {
            port: pair.port,
            before: others + pair.offset,
            addressed: false,
            filled: false,
            finished: false,
            address: 0,
            word: 0,
        };
        entries[start + j] = pack(entry);
    }
}

// Activate on a queue's parts: 40, 20, 21. Each side goes by the other's count before the activation.
pub fn activate_in(
    frame: &mut Frame,
    load_entries: &mut [u64],
    store_entries: &mut [u64],
    group: u32,
) -> Result<(), Refusal>
    ensures moves { let q = queue_of frame.old load_entries.old store_entries.old in
        Moves q (on_parts load_entries.old store_entries.old (activate (contents_of q) group))
        (moved result (queue_of frame.new load_entries.new store_entries.new)) }
    ensures opening { OpenedAlike frame.old frame.new }
{
    check_parts(frame, load_entries, store_entries)?;
    if frame.table.count as u32 <= group {
        return Err(Refusal::NoGroup);
    }
    let chosen = frame.table.group(group as usize);
    if !has_room(frame, chosen) {
        return Err(Refusal::NoPlace);
    }
    let loads = frame.loads.count;
    let stores = frame.stores.count;
    let new_loads = chosen.loads.among(&frame.table.loads);
    let new_stores = chosen.stores.among(&frame.table.stores);
    append(load_entries, loads, new_loads, stores);
    append(store_entries, stores, new_stores, loads);
    frame.loads.lengthen(chosen.loads.count);
    frame.stores.lengthen(chosen.stores.count);
    Ok(())
}

// The methods of `Queue`, here and in the other files, lend its three fields on to the call on parts: one that took that call as a closure
// would be no shorter than each.
impl Queue {
    // Queues the group's accesses, with no argument yet.
    pub fn activate(&mut self, group: u32) -> Result<(), Refusal>
        ensures { Moves self.old (activate (contents_of self.old) group) (moved result self.new) }
    {
        activate_in(
            &mut self.frame,
            &mut self.load_entries,
            &mut self.store_entries,
            group,
        )
    }
}
