// Opening a queue: 4 to 8 of its table, then 11, 12, 13, 14. The depths, the first serial and the memory length stay numbers of their own:
// `open` and `open_in` are public, C hands the same four in (`lsq_open_in`), and `Header`, which has them, is of no crate beneath this one.
ghost use Rattle.std.specs.Prelude.{◌≡◌, ◌≤◌, ◌&&◌, nat_le};
ghost use Rattle.number.specs.Basics.{all_of};
ghost use Rattle.table.specs.Table.{groups_of};
ghost use Rattle.queue.specs.Open.{group_fits, open_queue, fresh_frame, no_queue};
ghost use Rattle.queue.specs.Outcome.{Opens, opening_of};
ghost use Rattle.queue.specs.Parts.{OpensFrame, opened_frame};

use crate::sound::{depth_right, memory_right};
use crate::{Frame, Queue, Side};
use number::refusal::Refusal;
use table::{Group, Table};

// A frame that holds no entry: "both series begin at the first serial".
fn fresh_frame(
    table: Table,
    load_depth: u8,
    store_depth: u8,
    first: u32,
    memory_length: u16,
) -> Frame
    ensures { result ≡ fresh_frame table load_depth store_depth first memory_length }
{
    let loads = Side {
        depth: load_depth,
        count: 0,
        next: first,
    };
    let stores = Side {
        depth: store_depth,
        ..loads
    };
    Frame {
        table,
        memory_length,
        loads,
        stores,
    }
}

// The group has no more loads and stores than their depths. Not by `Side::has_room`: no side is made before this is tested.
fn group_fits(group: Group, load_depth: u32, store_depth: u32) -> bool
    ensures { result ≡ nat_le group.loads.count load_depth && nat_le group.stores.count store_depth }
{
    group.loads.count as u32 <= load_depth && group.stores.count as u32 <= store_depth
}

// Does every group fit? It goes by places, here and in `has_port`, with no slice of groups: a table holds them packed (`Table::group`).
// That the table has at most 16 groups is asked here and there, both behind the check of the table, which gives no value that could carry it.
fn groups_fit(table: &Table, load_depth: u32, store_depth: u32) -> bool
    requires { table.now.count ≤ 16 }
    ensures { result ≡ all_of (group_fits load_depth store_depth) (groups_of table.now) }
{
    for i in 0..table.count as usize {
        let group = table.group(i);
        if !group_fits(group, load_depth, store_depth) {
            return false;
        }
    }
    true
}

// Opens a frame that holds no entry, or answers the first of 4 to 8, 11, 12, 13, 14 that applies. What the runs of entries hold
// that are lent beside it means nothing yet.
pub fn open_in(
    table: Table,
    load_depth: u32,
    store_depth: u32,
    first: u32,
    memory_length: u32,
) -> Result<Frame, Refusal>
    ensures { OpensFrame (fresh_frame table load_depth store_depth first memory_length)
        (open_queue (groups_of table) load_depth store_depth first memory_length) (opened_frame result) }
{
    table.check()?;
    if !depth_right(load_depth) {
        return Err(Refusal::BadLoadDepth);
    }
    if !depth_right(store_depth) {
        return Err(Refusal::BadStoreDepth);
    }
    if !memory_right(memory_length) {
        return Err(Refusal::BadMemoryLength);
    }
    if !groups_fit(&table, load_depth, store_depth) {
        return Err(Refusal::GroupTooLarge);
    }
    Ok(fresh_frame(
        table,
        load_depth as u8,
        store_depth as u8,
        first,
        memory_length as u16,
    ))
}

impl Queue {
    // Opens a queue with no entry, or answers the first of 4 to 8, 11, 12, 13, 14 that applies.
    pub fn open(
        table: Table,
        load_depth: u32,
        store_depth: u32,
        first: u32,
        memory_length: u32,
    ) -> Result<Queue, Refusal>
        ensures { Opens no_queue (open_queue (groups_of table) load_depth store_depth first memory_length) (opening_of no_queue result) }
    {
        let frame = open_in(table, load_depth, store_depth, first, memory_length)?;
        Ok(Queue {
            frame,
            load_entries: [0; 64],
            store_entries: [0; 64],
        })
    }
}
