// Prints the shift page of the run of the files table.bin and trace.bin of the current folder, or the fault that `play` prints.

#![tactic(auto)]

use paged::text::print_page;
use program::{file_buffer, read_file};
use shift::page::PAGE_BYTES;
use std::io;
use std::io::Write;

// Room for a page. A fault's line is shorter. Of its own size, as `large_buffer` of `streams` says.
fn page_buffer() -> [u8; PAGE_BYTES] {
    [0; PAGE_BYTES]
}

// Writes all of the text to standard output; where that fails, says so on standard error, since part of the text may be lost. It stands
// in `play` too, private: no contract can say what standard output takes, and no public function is without one. The
// text is bytes, as `print_page` puts them into its buffer.
fn write_out(rt: &(impl Print + Eprint), text: &[u8]) -> io::Result<()> {
    let written = io::writer(rt).write_all(text);
    if written.is_err() {
        eprintln!(rt; "page: standard output took only part of the text")?;
    }
    written
}

// Stands in both programs: a function that took what prints would have to require that it may be called, and no public function has
// a `requires`.
fn main(rt: HostRuntime) -> io::Result<()> {
    let mut table = file_buffer();
    let mut trace = file_buffer();
    let mut out = page_buffer();
    let table_length = read_file(&rt, b"table.bin", &mut table);
    let trace_length = read_file(&rt, b"trace.bin", &mut trace);
    match print_page(&table[..table_length], &trace[..trace_length], &mut out) {
        Ok(n) => write_out(&rt, &out[..n]),
        Err(_) => Ok(()),
    }
}
