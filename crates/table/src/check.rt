// When a table is right: 4, 5, 8, 6, 7 in the order of checking.
ghost use Rattle.std.specs.Prelude.{◌≡◌, ltb, length, map};
ghost use Rattle.number.specs.Basics.{count_where};
ghost use Rattle.number.specs.Reply.{reply};
ghost use Rattle.table.specs.Packed.{pair_in};
ghost use Rattle.table.specs.Group.{pairs_of, before_store};
ghost use Rattle.table.specs.Table.{group_at, counts_right, check_pair, check_table, groups_of, none_seen};
ghost use Rattle.table.specs.Internal.{rule_of, Rising, RuleRight, PairsChecked, seen_of, GroupChecked};

use crate::Table;
use crate::parts::unpack_pair;
use number::refusal::Refusal;

// The ports seen so far in a table, a mark for each: a set of the library takes a heap. `Group`, `NewGroup` and this have loads and stores,
// but are no one type with a parameter: nothing is done with all three alike, and C has `Group`.
#[derive(Clone, Copy, Default)]
pub(crate) struct Ports {
    pub loads: [bool; 32],
    pub stores: [bool; 32],
}

// The rule for the offsets of a group's pairs of one kind. That it is right (`RuleRight`) is asked by three functions: a variant has no
// ghost field, so the fact would take a struct around this enum.
#[derive(Clone, Copy)]
pub(crate) enum Rule<'a> {
    // a load's goes by the group's store count
    Loads { stores: u32 },
    // a store's goes by the group's loads
    Stores { loads: &'a [u16] },
}

// Do more than n loads come before store i? Their offsets never fall, so it is enough to look at load n.
fn more_before(loads: &[u16], n: u32, i: usize) -> bool
    requires { Rising 0 (map pair_in loads.now) }
    ensures { result ≡ ltb n (count_where (before_store i) (map pair_in loads.now)) }
{
    match loads.get(n as usize) {
        Some(&number) => unpack_pair(number).offset as usize <= i,
        None => false,
    }
}

impl<'a> Rule<'a> {
    // Is it the right offset for the ith pair, where the pair before has the offset `low`?
    pub(crate) fn allows(self, low: u32, i: usize, offset: u32) -> bool
        requires { RuleRight self }
        ensures { result ≡ rule_of self.entry low i offset }
    {
        match self {
            Rule::Loads { stores } => low <= offset && offset <= stores,
            Rule::Stores { loads } => {
                !more_before(loads, offset, i) && (offset == 0 || more_before(loads, offset - 1, i))
            }
        }
    }
}

// The first fault of a pair. The marks are lent: a copy for each pair would cost more than the test.
pub(crate) fn check_pair(right: bool, seen: &[bool; 32], port: u32) -> Result<(), Refusal>
    ensures { reply result ≡ check_pair right seen.now port }
{
    if !right {
        return Err(Refusal::BadOffset);
    }
    if 31 < port {
        return Err(Refusal::BadPort);
    }
    if seen[port as usize] {
        return Err(Refusal::PortSeen);
    }
    Ok(())
}

// The first fault of a group's pairs of one kind. The marks of the ports seen are lent, and take in the pairs' own. Inlined: the check of a
// table of 16 groups took a fifth longer with two calls for each.
#[inline(always)]
fn check_pairs<'a>(rule: Rule<'a>, pairs: &'a [u16], seen: &mut [bool; 32]) -> Result<(), Refusal>
    requires { RuleRight rule }
    ensures { PairsChecked (rule_of rule.entry) seen.old (map pair_in pairs.now) seen.new result }
{
    let mut low: u32 = 0;
    for (i, &number) in pairs.iter().enumerate() {
        let pair = unpack_pair(number);
        let offset = pair.offset as u32;
        check_pair(rule.allows(low, i, offset), seen, pair.port as u32)?;
        seen[pair.port as usize] = true;
        low = offset;
    }
    Ok(())
}

// A group's counts are each 0 to 16; an empty group has none of either.
pub(crate) fn counts_right(loads: u32, stores: u32) -> bool
    ensures { result ≡ counts_right loads stores }
{
    loads <= 16 && stores <= 16
}

// The first fault of the group at a place: 5 counts, then its loads, then its stores. The marks of the ports seen are lent.
fn check_group(table: &Table, i: usize, seen: &mut Ports) -> Result<(), Refusal>
    ensures { GroupChecked (seen_of seen.old) (pairs_of table.now.loads table.now.stores (group_at table.now.groups i))
        (seen_of seen.new) result }
{
    let group = table.group(i);
    let few = group.stores.count as u32;
    if !counts_right(group.loads.count as u32, few) {
        return Err(Refusal::BadCounts);
    }
    let loads = group.loads.within(&table.loads);
    check_pairs(Rule::Loads { stores: few }, loads, &mut seen.loads)?;
    let stores = group.stores.within(&table.stores);
    check_pairs(Rule::Stores { loads }, stores, &mut seen.stores)
}

impl Table {
    // The first of 4, 5, 8, 6, 7 that it meets, or it is right. It is lent, so that it is not copied. It may come from anywhere.
    pub fn check(&self) -> Result<(), Refusal>
        ensures { reply result ≡ check_table (groups_of self.now) }
    {
        if self.count < 1 || 16 < self.count {
            return Err(Refusal::BadGroupCount);
        }
        let mut seen = Ports::default();
        for i in 0..self.count as usize {
            check_group(self, i, &mut seen)?;
        }
        Ok(())
    }
}
