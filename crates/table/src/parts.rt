// A table's groups and accesses, and the numbers that they are packed into. Packing has functions with names, and no `From`, which would
// not say that a number is packed.
ghost use Rattle.std.specs.Prelude.{◌≡◌, ◌<◌, get_or, map, take, drop};
ghost use Rattle.table.specs.Packed.{pair_in, packed_pair, span_in, packed_span, group_in, packed_group};
ghost use Rattle.table.specs.Group.{list_of, Inside};
ghost use Rattle.table.specs.Table.{span_meant, group_at};

use crate::{Group, Pair, Span, Table};

// The pair that a number holds: the offset in its lowest eight bits, the port in the others.
pub fn unpack_pair(number: u16) -> Pair
    ensures { result ≡ pair_in number }
{
    Pair {
        offset: (number % 256) as u8,
        port: (number / 256 % 256) as u8,
    }
}

// The number that holds a pair.
pub fn pack_pair(pair: Pair) -> u16
    ensures { result ≡ packed_pair pair }
{
    pair.offset as u16 + 256 * pair.port as u16
}

// The span that the lowest sixteen bits of a number hold: the first place, then the count. The same two lines as for a pair: a function
// for both would hand back two bytes without a name.
fn unpack_span(number: u32) -> Span
    ensures { result ≡ span_in number }
{
    Span {
        first: (number % 256) as u8,
        count: (number / 256 % 256) as u8,
    }
}

// The number that holds a span.
fn pack_span(span: Span) -> u32
    ensures { (result ≡ packed_span span) × (result < 65536) }
{
    span.first as u32 + 256 * span.count as u32
}

// The group that a number holds: where its loads stand in the lowest sixteen bits, where its stores stand in the others.
pub fn unpack_group(number: u32) -> Group
    ensures { result ≡ group_in number }
{
    Group {
        loads: unpack_span(number),
        stores: unpack_span(number / 65536),
    }
}

// The number that holds a group.
pub fn pack_group(group: Group) -> u32
    ensures { result ≡ packed_group group }
{
    pack_span(group.loads) + 65536 * pack_span(group.stores)
}

// The number at a place; beyond the places it is 0, which holds no access.
fn number_at(groups: &[u32; 16], i: usize) -> u32
    ensures { result ≡ get_or (take 16 groups.now) i 0 }
{
    groups.get(i).copied().unwrap_or(0)
}

impl Table {
    // The group at a place, whether or not the count goes so far: its accesses stand within the places. The record may come from
    // anywhere. Groups are gone through by their places: they are packed, so there is no slice of them.
    pub fn group(&self, i: usize) -> Group
        ensures { result ≡ group_at self.now.groups i }
    {
        let group = unpack_group(number_at(&self.groups, i));
        Group {
            loads: group.loads.meant(),
            stores: group.stores.meant(),
        }
    }
}

impl Span {
    // What it stands for: itself, or 17 places, one more than a group may have, where it runs past the 32 places.
    fn meant(self) -> Span
        ensures { result ≡ span_meant self }
    {
        if self.first as u32 + self.count as u32 <= 32 {
            return self;
        }
        if self.count == 0 {
            return Span { first: 0, count: 0 };
        }
        Span {
            first: 0,
            count: 17,
        }
    }

    // The places of its accesses among those of a table: all of them where the span lies within the places, as each of a group from
    // `Table::group` does, and else those up to the last place.
    pub fn among<'a>(self, places: &'a [u16; 32]) -> &'a [u16]
        ensures numbers { result.now ≡ take self.count (drop self.first places.now) }
        ensures pairs { Inside self → map pair_in result.now ≡ list_of places.now self }
    {
        let first = self.first as usize;
        let end = first + self.count as usize;
        places.get(first..end.min(places.len())).unwrap_or(&[])
    }

    // The same of a span that lies within the places. `among` has to find that out first, and the check of a table of 16 small groups,
    // which is most of each call on a queue, took a quarter longer by it.
    pub(crate) fn within<'a>(self, places: &'a [u16; 32]) -> &'a [u16]
        requires { Inside self }
        ensures { map pair_in result.now ≡ list_of places.now self }
    {
        let first = self.first as usize;
        &places[first..first + self.count as usize]
    }
}
