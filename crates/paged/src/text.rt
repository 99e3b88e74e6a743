// The text that the program `page` prints. Both files go as two runs of bytes, as in `printed`: `print_page` is public too.
ghost use Rattle.std.specs.Prelude.{◌≡◌, replicate};
ghost use Rattle.number.specs.Number.{HasWritten};
ghost use Rattle.printed.specs.Files.{most_bytes, most_words};
ghost use Rattle.shift.specs.Record.{no_takes};
ghost use Rattle.shift.specs.Page.{page_written};
ghost use Rattle.paged.specs.Recorded.{record_buffered, trace_events};
ghost use Rattle.paged.specs.Text.{page_printed};

use crate::recording::record_replay;
use number::refusal::Refusal;
use printed::files::{MOST_BYTES, MOST_WORDS, play_files};
use shift::ShiftRecord;
use shift::page::{PAGE_BYTES, write_page};

// What playing two files is lent, with room for every two files, all 0. Each has a function of its own, so that nothing else is proved where
// so long a literal stands.
fn no_answers() -> [u8; MOST_BYTES]
    ensures { result ≡ replicate most_bytes 0 }
{
    [0; MOST_BYTES]
}

fn no_values() -> [u32; MOST_BYTES]
    ensures { result ≡ replicate most_bytes 0 }
{
    [0; MOST_BYTES]
}

fn no_memory() -> [u32; MOST_WORDS]
    ensures { result ≡ replicate most_words 0 }
{
    [0; MOST_WORDS]
}

// Writes the page of a run, from what it left where it was played.
fn write_run(out: &mut [u8], trace: &[u8], given: &[u8], values: &[u32]) -> Result<usize, Refusal>
    ensures { HasWritten (page_written (record_buffered no_takes (trace_events trace.now) given.now values.now) out.old) result out.new }
{
    let mut kept = ShiftRecord::none();
    record_replay(trace, given, values, &mut kept);
    write_page(&kept, out)
}

// Writes the text of both files' bytes at the front of a buffer that has room for a page: the line of the fault that they have, or the
// page of the run that they are. It plays on runs of its own and in no `PlayRoom`: a page reads none of the answers, and where they are no
// part of one record, the compiler keeps no room on the stack for them.
pub fn print_page(table: &[u8], trace: &[u8], out: &mut [u8]) -> Result<usize, Refusal>
    ensures { HasWritten (page_printed table.now trace.now out.old) result out.new }
{
    if out.len() < PAGE_BYTES {
        return Err(Refusal::PageTooShort);
    }
    let mut memory = no_memory();
    let mut answers = no_answers();
    let mut given = no_answers();
    let mut values = no_values();
    match play_files(
        table,
        trace,
        &mut memory,
        &mut answers,
        &mut given,
        &mut values,
    ) {
        Ok(_) => write_run(out, trace, &given, &values),
        Err(fault) => Ok(fault.put_line(out)),
    }
}
