// Writing tables. The length is known before the first byte is written, so a refusal leaves the buffer as it was. Lengths are counted along
// the same way that the bytes then go: one function for both would hand each number to a closure, and say what that has done so far.
// The functions that put take a place and say where they end, as `put_number` does, which is public: one clause, `Puts`, says what each
// put, where a writer that keeps the place would have two states to speak of. That a table has at most 16 groups is asked twice, right
// behind the check: `check` gives no value that could carry it, and a type would stand around C's record.
ghost use Rattle.std.specs.Prelude.{◌≡◌, ◌+◌, ◌*◌, ◌≤◌, length, map};
ghost use Rattle.number.specs.Basics.{flat_map, splice};
ghost use Rattle.number.specs.Number.{bytes_of, HasWritten, Puts};
ghost use Rattle.table.specs.Packed.{pair_in};
ghost use Rattle.table.specs.Group.{pairs_of};
ghost use Rattle.table.specs.Table.{group_at, groups_of};
ghost use Rattle.table.specs.TableBytes.{pair_numbers, group_numbers, table_numbers, wrote_table};

use crate::Table;
use crate::parts::unpack_pair;
use number::refusal::Refusal;
use number::writing::{number_length, put_number};

// How many bytes a group's pairs of one kind take.
fn pairs_length(pairs: &[u16]) -> usize
    requires { length pairs.now ≤ 32 }
    ensures { (result ≡ length (bytes_of (flat_map pair_numbers (map pair_in pairs.now)))) × (result ≤ 320) }
{
    let mut total: usize = 0;
    for &number in pairs {
        let pair = unpack_pair(number);
        total += number_length(pair.offset as u32) + number_length(pair.port as u32);
    }
    total
}

// How many bytes the group at a place takes.
fn group_length(table: &Table, i: usize) -> usize
    ensures { (result ≡ length (bytes_of (group_numbers (pairs_of table.now.loads table.now.stores (group_at table.now.groups i)))))
        × (result ≤ 650) }
{
    let group = table.group(i);
    let counts = number_length(group.loads.count as u32) + number_length(group.stores.count as u32);
    let loads = pairs_length(group.loads.among(&table.loads));
    let stores = pairs_length(group.stores.among(&table.stores));
    counts + loads + stores
}

// How many bytes a table takes.
fn table_length(table: &Table) -> usize
    requires { table.now.count ≤ 16 }
    ensures { result ≡ length (bytes_of (table_numbers (groups_of table.now))) }
{
    let mut total: usize = 0;
    for i in 0..table.count as usize {
        total += group_length(table, i);
    }
    number_length(2) + number_length(table.count as u32) + total
}

// Puts a group's pairs of one kind at a place where they fit, and says where they end.
fn put_pairs(pairs: &[u16], out: &mut [u8], at: usize) -> usize
    requires { at + length (bytes_of (flat_map pair_numbers (map pair_in pairs.now))) ≤ length out.old }
    ensures { Puts out.old at (bytes_of (flat_map pair_numbers (map pair_in pairs.now))) result out.new }
{
    let mut place = at;
    for &number in pairs {
        let pair = unpack_pair(number);
        place = put_number(out, place, pair.offset as u32);
        place = put_number(out, place, pair.port as u32);
    }
    place
}

// Puts the ith group at a place where it fits, and says where it ends.
fn put_group(table: &Table, i: usize, out: &mut [u8], at: usize) -> usize
    requires { at + length (bytes_of (group_numbers (pairs_of table.now.loads table.now.stores (group_at table.now.groups i))))
        ≤ length out.old }
    ensures { Puts out.old at (bytes_of (group_numbers (pairs_of table.now.loads table.now.stores (group_at table.now.groups i))))
        result out.new }
{
    let group = table.group(i);
    let after_loads = put_number(out, at, group.loads.count as u32);
    let after_counts = put_number(out, after_loads, group.stores.count as u32);
    let after_pairs = put_pairs(group.loads.among(&table.loads), out, after_counts);
    put_pairs(group.stores.among(&table.stores), out, after_pairs)
}

// Puts a table at the front of a buffer where it fits.
fn put_table(table: &Table, out: &mut [u8])
    requires { (table.now.count ≤ 16) × (length (bytes_of (table_numbers (groups_of table.now))) ≤ length out.old) }
    ensures { out.new ≡ splice out.old 0 (bytes_of (table_numbers (groups_of table.now))) }
{
    let after_fields = put_number(out, 0, 2);
    let mut place = put_number(out, after_fields, table.count as u32);
    for i in 0..table.count as usize {
        place = put_group(table, i, out, place);
    }
}

// Writes a table at the front of a buffer: 4, 5, 8, 6, 7, then 10.
pub fn write_table(table: &Table, out: &mut [u8]) -> Result<usize, Refusal>
    ensures { HasWritten (wrote_table (groups_of table.now) out.old) result out.new }
{
    table.check()?;
    let length = table_length(table);
    if out.len() < length {
        return Err(Refusal::TooShort);
    }
    put_table(table, out);
    Ok(length)
}
