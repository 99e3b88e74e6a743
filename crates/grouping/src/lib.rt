// How the order that pairs give becomes a group of a table: the accesses in that order, offsets counted.

#![tactic(auto)]

ghost use Rattle.std.specs.Prelude.{◌≡◌, ◌≤◌, ◌<◌, false, IfSome, IfNone};
ghost use Rattle.table.specs.TableBytes.{pack};
ghost use Rattle.grouping.specs.Grouping.{in_order, names_accesses, groups_in_order};
ghost use Rattle.grouping.specs.Internal.{with_pair, with_access, Room, Below, Named, HoldsGroup, one_group};

use ordering::{MOST_ACCESSES, Ordered};
use table::parts::{pack_group, pack_pair};
use table::{Group, Pair, Span, Table};

// The kind and the port of each access, by its number: kind 0 is a load, and any other a store. Two arrays, and no array of pairs,
// since C hands them in.
#[repr(C)]
#[derive(Clone, Copy, PartialEq, Eq)]
pub struct Accesses {
    pub kinds: [u8; MOST_ACCESSES],
    pub ports: [u8; MOST_ACCESSES],
}

// Accesses of one kind, each packed into a number: `count` of them, from the first place on, and 0 behind them. An array with a count,
// since a table has the places as they are.
#[derive(Clone, Copy, Default)]
struct PairList {
    count: u8,
    places: [u16; MOST_ACCESSES],
}

impl PairList {
    // One access more.
    fn push(&mut self, pair: Pair)
        requires { self.old.count < 32 }
        ensures { self.new ≡ with_pair self.old pair }
    {
        self.places[self.count as usize] = pack_pair(pair);
        self.count += 1;
    }
}

// A group in the making: its loads and its stores so far. Lists of its own, though `table` has such a list for itself: there the places go
// into a table that has others already, and here they are the table's.
#[derive(Clone, Copy, Default)]
struct GroupSoFar {
    loads: PairList,
    stores: PairList,
}

impl GroupSoFar {
    // One access more: its offset counts the accesses of the other kind so far. The kind is a number, as C hands it in.
    fn push(&mut self, kind: u8, port: u8)
        requires { Room self.old }
        ensures { self.new ≡ with_access self.old kind port }
    {
        if kind == 0 {
            let offset = self.stores.count;
            self.loads.push(Pair { offset, port });
        } else {
            let offset = self.loads.count;
            self.stores.push(Pair { offset, port });
        }
    }

    // The table of this group.
    fn table(&self) -> Table
        ensures { result ≡ one_group self.now }
    {
        let group = Group {
            loads: Span {
                first: 0,
                count: self.loads.count,
            },
            stores: Span {
                first: 0,
                count: self.stores.count,
            },
        };
        let mut groups = [0; 16];
        groups[0] = pack_group(group);
        Table {
            count: 1,
            groups,
            loads: self.loads.places,
            stores: self.stores.places,
        }
    }
}

// The accesses in the order that the record gives, if it is no refusal and its first `count` places are numbers of accesses.
// It looks at the answer's number, since the record is laid out for C and may come from anywhere.
fn accesses_named(order: &Ordered) -> Option<&[u8]>
    ensures some { IfSome result (λ numbers. Named order.now numbers.now) }
    ensures none { IfNone result (names_accesses order.now ≡ false) }
{
    if order.answer != 0 {
        return None;
    }
    let numbers = order.accesses.get(..order.count as usize)?;
    let named = numbers
        .iter()
        .all(|access| (*access as usize) < MOST_ACCESSES);
    named.then_some(numbers)
}

// The loads and the stores along an order.
fn count_offsets(numbers: &[u8], accesses: &Accesses) -> GroupSoFar
    requires { Below numbers.now }
    ensures { HoldsGroup (in_order accesses.now numbers.now) result }
{
    let mut group = GroupSoFar::default();
    for access in numbers {
        let access = *access as usize;
        group.push(accesses.kinds[access], accesses.ports[access]);
    }
    group
}

// The table whose one group has the accesses in this order. Where the record is a refusal, or has a count or an access above what an
// order has, it is the table of no groups, which writing and opening refuse with 4.
pub fn table_in_order(order: &Ordered, accesses: &Accesses) -> Table
    ensures { result ≡ pack (groups_in_order order.now accesses.now) }
{
    match accesses_named(order) {
        Some(numbers) => count_offsets(numbers, accesses).table(),
        None => Table::none(),
    }
}
