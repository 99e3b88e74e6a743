// The whole text of a table file and a trace file. They go as two runs of bytes: `print` is public, and C lends them so (`lsq_text`).
ghost use Rattle.std.specs.Prelude.{◌≤◌, length};
ghost use Rattle.number.specs.Number.{HasWritten, Puts};
ghost use Rattle.printed.specs.Text.{text};
ghost use Rattle.printed.specs.Outcome.{most_text, printed};

use crate::files::PlayRoom;
use crate::lines::put_run;
use number::refusal::Refusal;

// no text is longer
pub const MOST_TEXT: usize = 1224789;

// Puts the text of both files' bytes: the line of the fault that they have, or the lines of the run that they are.
fn put_text(out: &mut [u8], table: &[u8], trace: &[u8]) -> usize
    requires { most_text ≤ length out.old }
    ensures { Puts out.old 0 (text table.now trace.now) result out.new }
{
    let mut room = PlayRoom::new();
    match room.play(table, trace) {
        Ok(run) => put_run(out, &room, run),
        Err(fault) => fault.put_line(out),
    }
}

// Writes the text of both files' bytes at the front of a buffer that has room for every text.
pub fn print(table: &[u8], trace: &[u8], out: &mut [u8]) -> Result<usize, Refusal>
    ensures { HasWritten (printed table.now trace.now out.old) result out.new }
{
    if out.len() < MOST_TEXT {
        return Err(Refusal::TooShort);
    }
    Ok(put_text(out, table, trace))
}
