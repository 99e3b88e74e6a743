// Cases of the crates `number`, `trace` and `table`, as a script on standard input: a command to a line, echoed with what came
// back. The script's own first lines say what each command does.

#![tactic(auto)]

mod command;
mod reads;
mod run;
mod show;
mod writes;

use crate::command::{COMMANDS, Command};
use crate::run::{Run, filled};
use cases::set_part;
use number::writing::number_length;
use script::{Obeys, bytes_of, lines_of, named, next_byte, numbers_as, one_line, word};
use std::io;
use std::io::Write;
use streams::{large_buffer, read_full};

// What the command does, whose numbers are as many as it takes; nothing where they ask for more room than there is.
fn obey(
    out: &mut impl Write,
    run: &mut Run,
    command: Command,
    numbers: &[u64],
) -> Option<io::Result<()>> {
    match command {
        Command::Read(what) => return Some(reads::read(out, run, what, numbers)),
        Command::Check => return Some(show::checked(out, run.table.check())),
        Command::Length => {
            return Some(write!(out, ": {}", number_length(word(numbers, 0))));
        }
        Command::Buffer => run.length = word(numbers, 0) as usize,
        Command::Fill => run.table = filled(),
        Command::Set(part) => set_part(&mut run.table, part, numbers),
        Command::Write(what) => return writes::write(out, run, what, numbers),
    }
    Some(Ok(()))
}

impl Obeys for Run {
    // The numbers or the bytes behind a command, and what it does with them.
    fn obey<W: Write>(&mut self, out: &mut W, line: &[u8]) -> Option<io::Result<()>> {
        let end = next_byte(line, 0, b' ');
        let name = &line[..end];
        if name == b"bytes".as_slice() {
            self.bytes = bytes_of(line, end).ok()?;
            return Some(Ok(()));
        }
        let (shape, command) = named(&COMMANDS, name)?;
        let numbers = numbers_as(shape, line, end)?;
        obey(out, self, command, numbers.list())
    }
}

// The lines are gone through here, as in each program of cases, with a state of its own (`script::one_line`).
fn main(rt: HostRuntime) -> io::Result<()> {
    let mut text = large_buffer();
    let count = read_full(&mut rt.stdin(), &mut text);
    let mut out = rt.stdout();
    let mut run = Run::fresh();
    for line in lines_of(&text[..count]) {
        one_line(&mut out, &mut run, line)?;
    }
    Ok(())
}
