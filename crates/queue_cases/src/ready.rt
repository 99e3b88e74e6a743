// The ready calls, lent a run of 0 to 80 numbers, each 7777 before the call. All of it is printed: the serials stand at its
// front, and what the call left alone is still 7777.
use crate::show;
use queue::{Kind, Queue};
use script::print_all;
use std::io;
use std::io::Write;

// Prints the answer, how many serials, and that the queue, which is only read, is the same; then the run.
pub(crate) fn ready(
    out: &mut impl Write,
    queue: &Queue,
    kind: Kind,
    count: usize,
) -> io::Result<()> {
    let mut numbers = [7777; 80];
    let run = &mut numbers[..count.min(80)];
    match queue.ready_into(kind, run) {
        Ok(serials) => write!(out, ": 0 {serials} same")?,
        Err(refusal) => {
            show::refused(out, refusal)?;
            out.write_all(b" - same")?;
        }
    }
    out.write_all(b" run")?;
    print_all(out, run)
}
