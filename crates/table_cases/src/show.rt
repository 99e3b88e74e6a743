// Printing what the calls answer. They are functions, and no `Display`: the types are other crates', and this is
// the script's form of them.
use number::refusal::Refusal;
use std::io;
use std::io::Write;
use table::Table;
use table::parts::unpack_pair;
use trace::{Event, Header};

// The same in `queue_cases`: its one line is no shorter from elsewhere.
pub(crate) fn refused(out: &mut impl Write, refusal: Refusal) -> io::Result<()> {
    write!(out, ": {}", refusal.number())
}

// What checking a table answers.
pub(crate) fn checked(out: &mut impl Write, answer: Result<(), Refusal>) -> io::Result<()> {
    match answer {
        Ok(()) => out.write_all(b": 0"),
        Err(refusal) => refused(out, refusal),
    }
}

// What reading a number answers.
pub(crate) fn number_read(
    out: &mut impl Write,
    read: Result<(u32, usize), Refusal>,
) -> io::Result<()> {
    match read {
        Ok((value, next)) => write!(out, ": 0 value {value} next {next}"),
        Err(refusal) => refused(out, refusal),
    }
}

// The digits of a byte in hexadecimal.
const DIGITS: [u8; 16] = *b"0123456789ABCDEF";

// Bytes in hexadecimal, each with a space before it. No `write!` with `{byte:02X}`: it writes each piece by itself, and standard output
// keeps nothing back.
fn bytes(out: &mut impl Write, values: &[u8]) -> io::Result<()> {
    for byte in values {
        let high = DIGITS[(*byte / 16) as usize];
        let low = DIGITS[(*byte % 16) as usize];
        out.write_all(&[b' ', high, low])?;
    }
    Ok(())
}

// What writing answers, and the buffer that was written to.
pub(crate) fn written(
    out: &mut impl Write,
    answer: Result<usize, Refusal>,
    buffer: &[u8],
) -> io::Result<()> {
    match answer {
        Ok(count) => write!(out, ": 0 wrote {count}")?,
        Err(refusal) => refused(out, refusal)?,
    }
    out.write_all(b" buffer")?;
    bytes(out, buffer)
}

// Pairs of one kind, each as offset/port.
fn accesses(out: &mut impl Write, pairs: &[u16]) -> io::Result<()> {
    for number in pairs {
        let pair = unpack_pair(*number);
        write!(out, " {}/{}", pair.offset, pair.port)?;
    }
    Ok(())
}

// A table: its count, and its groups.
pub(crate) fn groups(out: &mut impl Write, table: &Table) -> io::Result<()> {
    write!(out, " groups {}", table.count)?;
    for i in 0..table.count as usize {
        let group = table.group(i);
        out.write_all(b" [loads")?;
        accesses(out, group.loads.among(&table.loads))?;
        out.write_all(b" stores")?;
        accesses(out, group.stores.among(&table.stores))?;
        out.write_all(b"]")?;
    }
    Ok(())
}

// What reading the leading numbers of a trace answers.
pub(crate) fn header_read(
    out: &mut impl Write,
    read: Result<(Header, usize), Refusal>,
) -> io::Result<()> {
    match read {
        Ok((header, next)) => {
            write!(
                out,
                ": 0 loads {} stores {}",
                header.load_depth, header.store_depth
            )?;
            write!(
                out,
                " serial {} words {} next {next}",
                header.first, header.memory_length
            )
        }
        Err(refusal) => refused(out, refusal),
    }
}

fn event(out: &mut impl Write, event: Event) -> io::Result<()> {
    match event {
        Event::Activate { group } => write!(out, " activate {group}"),
        Event::LoadAddress { port, address } => write!(out, " load address {port} {address}"),
        Event::StoreAddress { port, address } => write!(out, " store address {port} {address}"),
        Event::StoreData { port, word } => write!(out, " store data {port} {word}"),
        Event::Serve { serial } => write!(out, " serve {serial}"),
        Event::Write { serial } => write!(out, " write {serial}"),
        Event::Take { port } => write!(out, " take {port}"),
    }
}

// What reading an event answers.
pub(crate) fn event_read(
    out: &mut impl Write,
    read: Result<Option<(Event, usize)>, Refusal>,
) -> io::Result<()> {
    match read {
        Ok(Some((found, next))) => {
            out.write_all(b": 0")?;
            event(out, found)?;
            write!(out, " next {next}")
        }
        Ok(None) => out.write_all(b": end"),
        Err(refusal) => refused(out, refusal),
    }
}
