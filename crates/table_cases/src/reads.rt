// Reading in the bytes: the number or the event at a place, the leading numbers of a trace, or a table. The output and the run go side by
// side, here and in the other files, as `Obeys` lends them.
use crate::command::Read;
use crate::run::Run;
use crate::show;
use number::reading::read_number;
use std::io;
use std::io::Write;
use table::read::read_table;
use trace::reading::{read_event, read_header, step_at};

// The event at a place, and one step of a reader that stands there.
fn event_at(out: &mut impl Write, bytes: &[u8], at: usize) -> io::Result<()> {
    show::event_read(out, read_event(bytes, at))?;
    let stepped = step_at(bytes, at);
    out.write_all(b", step")?;
    show::event_read(out, stepped.read)?;
    write!(out, " then at {}", stepped.next)
}

// Reads a table, and keeps it where it is right.
fn table_in(out: &mut impl Write, run: &mut Run) -> io::Result<()> {
    match read_table(run.bytes.list()) {
        Ok(table) => {
            out.write_all(b": 0")?;
            show::groups(out, &table)?;
            run.table = table;
            Ok(())
        }
        Err(refusal) => show::refused(out, refusal),
    }
}

pub(crate) fn read(
    out: &mut impl Write,
    run: &mut Run,
    what: Read,
    numbers: &[u64],
) -> io::Result<()> {
    let at = numbers.first().copied().unwrap_or(0) as usize;
    match what {
        Read::Number => show::number_read(out, read_number(run.bytes.list(), at)),
        Read::Event => event_at(out, run.bytes.list(), at),
        Read::Header => show::header_read(out, read_header(run.bytes.list())),
        Read::Table => table_in(out, run),
    }
}
