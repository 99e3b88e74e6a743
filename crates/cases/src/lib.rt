// Tables made by hand: what the programs of cases that set a part of a table share.

#![tactic(auto)]

ghost use Rattle.std.specs.Prelude.{◌≡◌};
ghost use Rattle.cases.specs.Parts.{with_part, with_group, with_pair};

use script::{byte, word};
use table::parts::{pack_group, pack_pair};
use table::{Group, Pair, Span, Table};

// The part of a table that is set.
#[derive(Clone, Copy)]
pub enum Part {
    // how many groups
    Count,
    // of a group its first load's place, how many loads, and likewise its stores
    Group,
    // of an access at one of the places its offset and its port
    LoadPair,
    StorePair,
}

// Of the numbers: group, first load's place, loads, first store's place, stores.
fn set_group(groups: &mut [u32; 16], numbers: &[u64])
    ensures { groups.new ≡ with_group numbers.now groups.old }
{
    let loads = Span {
        first: byte(numbers, 1),
        count: byte(numbers, 2),
    };
    let stores = Span {
        first: byte(numbers, 3),
        count: byte(numbers, 4),
    };
    let place = word(numbers, 0) as usize;
    if place < 16 {
        groups[place] = pack_group(Group { loads, stores });
    }
}

// Of the numbers: place, offset, port.
fn set_pair(places: &mut [u16; 32], numbers: &[u64])
    ensures { places.new ≡ with_pair numbers.now places.old }
{
    let pair = Pair {
        offset: byte(numbers, 1),
        port: byte(numbers, 2),
    };
    let place = word(numbers, 0) as usize;
    if place < 32 {
        places[place] = pack_pair(pair);
    }
}

// Sets a part by a line's numbers. There is nothing beyond the last place.
pub fn set_part(table: &mut Table, part: Part, numbers: &[u64])
    ensures { table.new ≡ with_part part numbers.now table.old }
{
    match part {
        Part::Count => table.count = byte(numbers, 0),
        Part::Group => set_group(&mut table.groups, numbers),
        Part::LoadPair => set_pair(&mut table.loads, numbers),
        Part::StorePair => set_pair(&mut table.stores, numbers),
    }
}
