// Reading tables, number by number. A place goes with the bytes, as in `read_number`, which is public: where a number ends is counted from
// the first byte of them all, and a slice from a place on would lose that.
ghost use Rattle.std.specs.Prelude.{◌≡◌, ◌+◌, ◌≤◌, length, take, drop, map, []};
ghost use Rattle.table.specs.Packed.{pair_in};
ghost use Rattle.table.specs.TableBytes.{read_pairs, read_group, read_groups, read_table, table_reply, pack};
ghost use Rattle.table.specs.Internal.{read_two, two_reply, rule_of, RuleRight, pairs_in, pack_pairs, PairsResult};
ghost use Rattle.table.specs.Internal.{seen_of, GroupResult, put_in, Growing, grown, GroupsResult};
ghost use Rattle.table.specs.Table.{none_seen};
ghost use Rattle.number.specs.Reply.{reply};
ghost use Rattle.number.specs.Number.{read_in};

use crate::check::{Ports, Rule, check_pair, counts_right};
use crate::parts::{pack_group, pack_pair};
use crate::{Group, Pair, Span, Table};
use number::reading::read_number;
use number::refusal::Refusal;

// A group's pairs of one kind that were read, each packed into a number: `count` of them, from the first place on. They stand in
// fixed memory: this library has no heap. An array with a count, and no `ArrayVec`: firms take this crate with `number` and no other.
#[derive(Clone, Copy, Default)]
pub(crate) struct Pairs {
    pub count: u8,
    pub places: [u16; 32],
}

// A group that was read: its loads and its stores.
#[derive(Clone, Copy)]
pub(crate) struct NewGroup {
    pub loads: Pairs,
    pub stores: Pairs,
}

// The groups read so far, in the record of their table, and how many loads and stores they have. The counts stand beside the table,
// which is C's record and has none.
#[derive(Clone, Copy)]
pub(crate) struct Gathered {
    pub table: Table,
    pub loads: u8,
    pub stores: u8,
}

// Reads two numbers, and says where they end.
fn read_two(bytes: &[u8], at: usize) -> Result<(u32, u32, usize), Refusal>
    ensures { two_reply result ≡ read_in bytes.now (read_two (drop at bytes.now)) }
{
    let (first, place) = read_number(bytes, at)?;
    let (second, place) = read_number(bytes, place)?;
    Ok((first, second, place))
}

impl Pairs {
    // The numbers that hold them.
    fn numbers(&self) -> &[u16]
        requires { self.now.count ≤ 32 }
        ensures numbers { result.now ≡ take self.now.count self.now.places }
        ensures pairs { map pair_in result.now ≡ pairs_in self.now }
    {
        &self.places[..self.count as usize]
    }

    // Puts them among the places of a table, from one on.
    fn put(&self, places: &mut [u16; 32], from: usize)
        requires { from + self.now.count ≤ 32 }
        ensures { places.new ≡ put_in places.old from self.now }
    {
        places[from..from + self.count as usize].copy_from_slice(self.numbers());
    }
}

// Reads a group's pairs of one kind, each whole and then 8, 6, 7, and says where they end. The marks of the ports seen are lent, and
// take in the pairs' own.
fn read_pairs<'a>(
    bytes: &'a [u8],
    at: usize,
    count: usize,
    rule: Rule<'a>,
    seen: &mut [bool; 32],
) -> Result<(Pairs, usize), Refusal>
    requires { (count ≤ 16) × (at ≤ length bytes.now) × RuleRight rule }
    ensures { PairsResult bytes.now seen.old (read_pairs (rule_of rule.entry) count 0 0 seen.old (drop at bytes.now)) seen.new result }
{
    let mut pairs = Pairs::default();
    let mut low: u32 = 0;
    let mut place = at;
    for i in 0..count {
        let (offset, port, next) = read_two(bytes, place)?;
        check_pair(rule.allows(low, i, offset), seen, port)?;
        pairs.places[i] = pack_pair(Pair {
            offset: offset as u8,
            port: port as u8,
        });
        seen[port as usize] = true;
        low = offset;
        place = next;
    }
    pairs.count = count as u8;
    Ok((pairs, place))
}

// Reads a group: both counts, 5, its loads, its stores; and says where it ends.
fn read_group(bytes: &[u8], at: usize, seen: &mut Ports) -> Result<(NewGroup, usize), Refusal>
    ensures { GroupResult bytes.now (seen_of seen.old) (read_group (seen_of seen.old) (drop at bytes.now)) (seen_of seen.new) result }
{
    let (load_count, store_count, place) = read_two(bytes, at)?;
    if !counts_right(load_count, store_count) {
        return Err(Refusal::BadCounts);
    }
    let rule = Rule::Loads {
        stores: store_count,
    };
    let (loads, place) = read_pairs(bytes, place, load_count as usize, rule, &mut seen.loads)?;
    let rule = Rule::Stores {
        loads: loads.numbers(),
    };
    let (stores, place) = read_pairs(bytes, place, store_count as usize, rule, &mut seen.stores)?;
    Ok((NewGroup { loads, stores }, place))
}

impl Table {
    // The table of no groups. A name of its own: `Default` would not say that it has none.
    pub fn none() -> Table
        ensures { result ≡ pack [] }
    {
        Table {
            count: 0,
            groups: [0; 16],
            loads: [0; 32],
            stores: [0; 32],
        }
    }
}

impl Gathered {
    // Puts a group behind those that it has.
    fn push(&mut self, group: &NewGroup)
        requires { Growing self.old group.now }
        ensures { self.new ≡ grown self.old group.now }
    {
        let placed = Group {
            loads: Span {
                first: self.loads,
                count: group.loads.count,
            },
            stores: Span {
                first: self.stores,
                count: group.stores.count,
            },
        };
        self.table.groups[self.table.count as usize] = pack_group(placed);
        group.loads.put(&mut self.table.loads, self.loads as usize);
        group
            .stores
            .put(&mut self.table.stores, self.stores as usize);
        self.table.count += 1;
        self.loads += group.loads.count;
        self.stores += group.stores.count;
    }
}

// Reads `count` groups, and says where they end. That there are at most 16 is asked where it was just tested.
fn read_groups(bytes: &[u8], at: usize, count: u32) -> Result<(Table, usize), Refusal>
    requires { (count ≤ 16) × (at ≤ length bytes.now) }
    ensures { GroupsResult bytes.now (read_groups count none_seen (drop at bytes.now)) result }
{
    let mut gathered = Gathered {
        table: Table::none(),
        loads: 0,
        stores: 0,
    };
    let mut seen = Ports::default();
    let mut place = at;
    for _ in 0..count {
        let (group, next) = read_group(bytes, place, &mut seen)?;
        gathered.push(&group);
        place = next;
    }
    Ok((gathered.table, place))
}

// Reads a table: the whole of the bytes.
pub fn read_table(bytes: &[u8]) -> Result<Table, Refusal>
    ensures { reply result ≡ table_reply (read_table bytes.now) }
{
    let (fields, place) = read_number(bytes, 0)?;
    if fields != 2 {
        return Err(Refusal::BadFields);
    }
    let (count, place) = read_number(bytes, place)?;
    if count < 1 || 16 < count {
        return Err(Refusal::BadGroupCount);
    }
    let (table, place) = read_groups(bytes, place, count)?;
    if place != bytes.len() {
        return Err(Refusal::LeftOver);
    }
    Ok(table)
}
