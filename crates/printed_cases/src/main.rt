// Cases of the crates `printed` and `replay`, as a script on standard input: a command to a line, echoed with what came back. The
// script's own first lines say what each command does.

#![tactic(auto)]

mod files;
mod replays;
mod texts;

use crate::files::{Files, repeat, replace};
use script::{Obeys, bytes_of, lines_of, named, next_byte, one_line};
use std::io;
use std::io::Write;
use streams::{large_buffer, read_full};

#[derive(Clone, Copy)]
enum Command {
    Table,
    Trace,
    MoreTable,
    MoreTrace,
    Print,
    PrintShort,
    Measure,
    Replay,
}

const COMMANDS: [(&[u8], Command); 8] = [
    (b"table", Command::Table),
    (b"trace", Command::Trace),
    (b"more-table", Command::MoreTable),
    (b"more-trace", Command::MoreTrace),
    (b"print", Command::Print),
    (b"print-short", Command::PrintShort),
    (b"measure", Command::Measure),
    (b"replay", Command::Replay),
];

// What a command does with the bytes behind it.
fn obey(out: &mut impl Write, files: &mut Files, command: Command, bytes: &[u8]) -> io::Result<()> {
    match command {
        Command::Table => replace(&mut files.table, bytes),
        Command::Trace => replace(&mut files.trace, bytes),
        Command::MoreTable => repeat(&mut files.table, bytes),
        Command::MoreTrace => repeat(&mut files.trace, bytes),
        Command::Print => return texts::print(out, files),
        Command::PrintShort => return texts::print_short(out, files),
        Command::Measure => return texts::measure(out, files),
        Command::Replay => return replays::replay(out, files, bytes),
    }
    Ok(())
}

impl Obeys for Files {
    // The bytes behind a command, and what it does with them.
    fn obey<W: Write>(&mut self, out: &mut W, line: &[u8]) -> Option<io::Result<()>> {
        let end = next_byte(line, 0, b' ');
        let command = named(&COMMANDS, &line[..end])?;
        let bytes = bytes_of(line, end).ok()?;
        Some(obey(out, self, command, bytes.list()))
    }
}

// The lines are gone through here, as in each program of cases, with a state of its own (`script::one_line`).
fn main(rt: HostRuntime) -> io::Result<()> {
    let mut text = large_buffer();
    let count = read_full(&mut rt.stdin(), &mut text);
    let mut out = rt.stdout();
    let mut files = Files::default();
    for line in lines_of(&text[..count]) {
        one_line(&mut out, &mut files, line)?;
    }
    Ok(())
}
