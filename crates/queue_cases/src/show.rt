// Printing: what a call hands back, and what a queue holds. They are functions, and no `Display`: the types are other crates', and this is
// the script's form of them.
use number::refusal::Refusal;
use queue::entries::unpack;
use queue::{Entry, Kind, Side};
use std::io;
use std::io::Write;

// The same in `table_cases`: its one line is no shorter from elsewhere.
pub(crate) fn refused(out: &mut impl Write, refusal: Refusal) -> io::Result<()> {
    write!(out, ": {}", refusal.number())
}

// An answer, and the value or "-".
pub(crate) fn answer(out: &mut impl Write, answer: Result<Option<u32>, Refusal>) -> io::Result<()> {
    match answer {
        Ok(Some(value)) => write!(out, ": 0 {value}"),
        Ok(None) => out.write_all(b": 0 -"),
        Err(refusal) => write!(out, ": {} -", refusal.number()),
    }
}

// Words, and whether what they name came back as it was handed in.
pub(crate) fn same(out: &mut impl Write, text: &str, is_same: bool) -> io::Result<()> {
    let said = if is_same { " same" } else { " moved" };
    write!(out, "{text}{said}")
}

// Words, and a number that is there or not.
fn optional(out: &mut impl Write, text: &str, number: Option<u32>) -> io::Result<()> {
    match number {
        Some(value) => write!(out, "{text} {value}"),
        None => write!(out, "{text} -"),
    }
}

// A word that is said where it holds.
pub(crate) fn mark(out: &mut impl Write, text: &str, holds: bool) -> io::Result<()> {
    if holds {
        return write!(out, "{text}");
    }
    Ok(())
}

// The two kinds are shown alike but for these words.
fn words(out: &mut impl Write, kind: Kind, load: &str, store: &str) -> io::Result<()> {
    match kind {
        Kind::Load => write!(out, "{load}"),
        Kind::Store => write!(out, "{store}"),
    }
}

fn entry(out: &mut impl Write, kind: Kind, serial: u32, entry: Entry) -> io::Result<()> {
    words(out, kind, "\n  load ", "\n  store ")?;
    write!(out, "{serial} port {} before {}", entry.port, entry.before)?;
    optional(
        out,
        " address",
        entry.addressed.then_some(entry.address as u32),
    )?;
    words(out, kind, " value", " data")?;
    optional(out, "", entry.filled.then_some(entry.word))?;
    if entry.finished {
        words(out, kind, " taken", " written")?;
    }
    Ok(())
}

// A side and its entries, from the oldest. A record made by hand may say that it holds more than there are places.
pub(crate) fn side(
    out: &mut impl Write,
    kind: Kind,
    held: Side,
    entries: &[u64; 64],
) -> io::Result<()> {
    words(out, kind, "\n  loads ", "\n  stores ")?;
    write!(out, "{} of {} next {}", held.count, held.depth, held.next)?;
    let mut serial = held.next.wrapping_sub(held.count as u32);
    for number in entries.iter().take(held.count as usize) {
        entry(out, kind, serial, unpack(*number))?;
        serial = serial.wrapping_add(1);
    }
    Ok(())
}

// What writing a page answers, and the buffer.
pub(crate) fn page(
    out: &mut impl Write,
    written: Result<usize, Refusal>,
    buffer: &[u8],
) -> io::Result<()> {
    match written {
        Ok(count) => {
            write!(out, ": 0 wrote {count}\n")?;
            out.write_all(buffer)
        }
        Err(refusal) => {
            refused(out, refusal)?;
            same(out, "", buffer.iter().all(|byte| *byte == b'.'))
        }
    }
}
