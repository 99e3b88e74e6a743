// Cases of the crates `queue` and `shift`, as a script on standard input: a command to a line, echoed with what came back. The
// script's own first lines say what each command does.

#![tactic(auto)]

mod calls;
mod command;
mod packing;
mod ready;
mod records;
mod run;
mod shift_record;
mod show;

use crate::command::{COMMANDS, Command};
use crate::run::Run;
use cases::set_part;
use script::{Obeys, bytes_of, lines_of, named, next_byte, numbers_as, one_line, word};
use std::io;
use std::io::Write;
use streams::{large_buffer, read_full};

// What the command does, whose numbers are as many as it takes; nothing where a page would be too long.
fn obey(
    out: &mut impl Write,
    run: &mut Run,
    command: Command,
    numbers: &[u64],
) -> Option<io::Result<()>> {
    let first = word(numbers, 0);
    let second = word(numbers, 1);
    match command {
        Command::Call(call) => return Some(calls::call(out, run, call, first, second)),
        Command::Each => return Some(calls::each(out, run)),
        Command::Open => return Some(run.open(out, numbers)),
        Command::Memory => run.set_memory(numbers),
        Command::Counts => run.set_counts(first, second),
        Command::Count => return Some(run.count(out, first == 1)),
        Command::Share => return Some(run.show_share(out)),
        Command::Show => return Some(run.show(out)),
        Command::Sound => return Some(run.show_sound(out)),
        Command::Unpack => return Some(packing::unpack(out, first, second)),
        Command::Pack => return Some(packing::pack(out, numbers)),
        Command::Set(field) => records::set(&mut run.queue, field, numbers),
        Command::SetTable(part) => set_part(&mut run.table, part, numbers),
        Command::PutTable => run.queue.frame.table = run.table,
        Command::TakeRecorded => return Some(shift_record::take(out, run, first)),
        Command::Recorded => return Some(shift_record::record(out, run, first, second)),
        Command::SetRecord => shift_record::set(run, numbers),
        Command::Page => return shift_record::page(out, run, first as usize),
    }
    Some(Ok(()))
}

impl Obeys for Run {
    // The numbers or the bytes behind a command, and what it does with them.
    fn obey<W: Write>(&mut self, out: &mut W, line: &[u8]) -> Option<io::Result<()>> {
        let end = next_byte(line, 0, b' ');
        let name = &line[..end];
        if name == b"table".as_slice() {
            return Some(self.read(out, bytes_of(line, end).ok()?.list()));
        }
        let command = named(&COMMANDS, name)?;
        let numbers = numbers_as(command.shape(), line, end)?;
        obey(out, self, command, numbers.list())
    }
}

// The lines are gone through here, as in each program of cases, with a state of its own (`script::one_line`). An empty line ends a case:
// nothing of it is held any more.
fn main(rt: HostRuntime) -> io::Result<()> {
    let mut text = large_buffer();
    let count = read_full(&mut rt.stdin(), &mut text);
    let mut out = rt.stdout();
    let mut run = Run::fresh();
    for line in lines_of(&text[..count]) {
        if line.is_empty() {
            run = Run::fresh();
        }
        one_line(&mut out, &mut run, line)?;
    }
    Ok(())
}
