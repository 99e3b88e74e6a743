// Prints the run of the files table.bin and trace.bin of the current folder.

#![tactic(auto)]

use printed::text::{MOST_TEXT, print};
use program::{file_buffer, read_file};
use std::io;
use std::io::Write;

// Room for every text. (Its own function: the check would follow an array this long byte by byte.)
fn text_buffer() -> [u8; MOST_TEXT] {
    [0; MOST_TEXT]
}

// Writes all of the text to standard output; where that fails, says so on standard error, since part of the text may be lost. It stands
// in `page` too, private: no contract can say what standard output takes, and no public function is without one. The
// text is bytes, as `print` puts them into its buffer.
fn write_out(rt: &(impl Print + Eprint), text: &[u8]) -> io::Result<()> {
    let written = io::writer(rt).write_all(text);
    if written.is_err() {
        eprintln!(rt; "play: standard output took only part of the text")?;
    }
    written
}

// Stands in both programs: a function that took what prints would have to require that it may be called, and no public function has
// a `requires`.
fn main(rt: HostRuntime) -> io::Result<()> {
    let mut table = file_buffer();
    let mut trace = file_buffer();
    let mut out = text_buffer();
    let table_length = read_file(&rt, b"table.bin", &mut table);
    let trace_length = read_file(&rt, b"trace.bin", &mut trace);
    match print(&table[..table_length], &trace[..trace_length], &mut out) {
        Ok(n) => write_out(&rt, &out[..n]),
        Err(_) => Ok(()),
    }
}
