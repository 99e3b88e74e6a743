// A replay of the trace on the table, with all that was lent as it is left.
ghost use Rattle.std.specs.Prelude.{◌≤◌};

use crate::files::Files;
use counts::Counts;
use number::refusal::Refusal;
use replay::replaying;
use script::print_all;
use std::io;
use std::io::Write;
use table::Table;
use table::read::read_table;

// What a replay is lent. Before, the memory's words are 9, the bytes of both buffers 238 and the values 7777; the counts are 5 and 3.
// The last three are runs of their own, as a replay is lent them.
#[derive(Clone, Copy)]
struct Lent {
    memory: [u32; 8],
    counts: Counts,
    answers: [u8; 14],
    given: [u8; 14],
    values: [u32; 14],
}

impl Lent {
    fn fresh() -> Lent {
        Lent {
            memory: [9; 8],
            counts: Counts {
                loads: 5,
                forwarded: 3,
            },
            answers: [238; 14],
            given: [238; 14],
            values: [7777; 14],
        }
    }
}

// The byte at a place as a length, at most so large; 0 where there is none.
fn within(lengths: &[u8], place: usize, most: usize) -> usize
    ensures { result ≤ most }
{
    let length = lengths.get(place).copied().unwrap_or(0);
    (length as usize).min(most)
}

// The answer, the events that were played, and all that was lent.
fn show(out: &mut impl Write, played: Result<usize, Refusal>, lent: &Lent) -> io::Result<()> {
    match played {
        Ok(events) => write!(out, ": 0, events {events}")?,
        Err(refusal) => write!(out, ": {}, events 0", refusal.number())?,
    }
    write!(out, ", loads {}", lent.counts.loads)?;
    write!(out, " forwarded {}", lent.counts.forwarded)?;
    out.write_all(b"\n  memory")?;
    print_all(out, &lent.memory)?;
    out.write_all(b"\n  answers")?;
    print_all(out, &lent.answers)?;
    out.write_all(b"\n  given")?;
    print_all(out, &lent.given)?;
    out.write_all(b"\n  values")?;
    print_all(out, &lent.values)
}

// Lends the first words of the memory, and the first places of the answers, the marks of given values and the values, as the lengths
// say. A table that cannot be read counts as none.
pub(crate) fn replay(out: &mut impl Write, files: &Files, lengths: &[u8]) -> io::Result<()> {
    let table = read_table(&files.table).unwrap_or(Table::none());
    let mut lent = Lent::fresh();
    let played = replaying::replay(
        table,
        &files.trace,
        &mut lent.memory[..within(lengths, 0, 8)],
        &mut lent.counts,
        &mut lent.answers[..within(lengths, 1, 14)],
        &mut lent.given[..within(lengths, 2, 14)],
        &mut lent.values[..within(lengths, 3, 14)],
    );
    show(out, played, &lent)
}
