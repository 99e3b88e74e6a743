// Writing: a number, the leading numbers of a trace, an event or the table that is kept, to the front of a buffer of bytes EE.
use crate::command::Written;
use crate::run::Run;
use crate::show;
use number::refusal::Refusal;
use number::writing::write_number;
use script::{Bytes, word};
use std::io;
use std::io::Write;
use table::Table;
use table::write::write_table;
use trace::Header;
use trace::writing::{write_event_of, write_header};

// Of the numbers: what stands before the header's own, then these in their order. No `From`, which would not say so.
fn header_of(numbers: &[u64]) -> Header {
    Header {
        load_depth: word(numbers, 1),
        store_depth: word(numbers, 2),
        first: word(numbers, 3),
        memory_length: word(numbers, 4),
    }
}

fn put(table: &Table, what: Written, numbers: &[u64], out: &mut [u8]) -> Result<usize, Refusal> {
    match what {
        Written::Number => write_number(word(numbers, 1), out),
        Written::Header => write_header(header_of(numbers), out),
        Written::Event => {
            write_event_of(word(numbers, 1), word(numbers, 2), word(numbers, 3), out)
        }
        Written::Table => write_table(table, out),
    }
}

// Writes to a part of a buffer, shows all of it, and keeps it as the bytes to read; nothing where the part is longer than the buffer.
pub(crate) fn write(
    out: &mut impl Write,
    run: &mut Run,
    what: Written,
    numbers: &[u64],
) -> Option<io::Result<()>> {
    let mut bytes = [0xEE; 128];
    let buffer = bytes.get_mut(..run.length)?;
    let room = word(numbers, 0) as usize;
    let answer = put(&run.table, what, numbers, buffer.get_mut(..room)?);
    let shown = show::written(out, answer, buffer);
    run.bytes = Bytes {
        count: run.length,
        values: bytes,
    };
    Some(shown)
}
