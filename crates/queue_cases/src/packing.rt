// The calls on an entry alone. A number of 64 bits stands in the script as two: its upper 32 bits, then its lower.
use crate::{records, show};
use queue::{Entry, entries};
use std::io;
use std::io::Write;

// All seven fields, whether or not they mean anything; a mark is said where it is set. No `Display`: the type is another crate's.
fn show_fields(out: &mut impl Write, entry: Entry) -> io::Result<()> {
    write!(out, ": port {} before {}", entry.port, entry.before)?;
    write!(out, " address {} word {}", entry.address, entry.word)?;
    show::mark(out, " addressed", entry.addressed)?;
    show::mark(out, " filled", entry.filled)?;
    show::mark(out, " finished", entry.finished)
}

// The entry that a number holds, and whether packing it gives the number again.
pub(crate) fn unpack(out: &mut impl Write, high: u32, low: u32) -> io::Result<()> {
    let number = high as u64 * 4294967296 + low as u64;
    let entry = entries::unpack(number);
    show_fields(out, entry)?;
    show::same(out, "", entries::pack(entry) == number)
}

// The number that holds an entry, and whether unpacking it gives the entry again.
pub(crate) fn pack(out: &mut impl Write, numbers: &[u64]) -> io::Result<()> {
    let entry = records::entry_of(numbers);
    let number = entries::pack(entry);
    write!(out, ": {number}")?;
    show::same(out, "", entries::unpack(number) == entry)
}
