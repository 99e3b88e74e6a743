// The text of both files, in a buffer whose bytes are EE before. What is shown is no `Display`: it is bytes, and another crate's answer.
use crate::files::Files;
use number::refusal::Refusal;
use printed::text;
use printed::text::MOST_TEXT;
use std::io;
use std::io::Write;

// Of its own, so that nothing is proved where so long a literal stands.
fn text_buffer() -> [u8; MOST_TEXT] {
    [0xEE; MOST_TEXT]
}

// Says whether some bytes are all EE still. Up to 1.2 MB are looked at for each text, so the bits in which they differ are gathered from all
// of them, sixteen at a time, where `all` would look at one byte after another.
fn show_kept(out: &mut impl Write, rest: &[u8]) -> io::Result<()> {
    if rest
        .iter()
        .fold(0, |differing, byte| differing | (*byte ^ 0xEE))
        == 0
    {
        return out.write_all(b", the rest kept");
    }
    out.write_all(b", the rest changed")
}

// What came back: the refusal, or the text's length and whether the rest of the buffer is kept, and then the text.
fn show_text(
    out: &mut impl Write,
    buffer: &[u8],
    written: Result<usize, Refusal>,
) -> io::Result<()> {
    match written {
        Ok(count) => {
            let (text, rest) = buffer.split_at(count.min(buffer.len()));
            write!(out, ": bytes {count}")?;
            show_kept(out, rest)?;
            out.write_all(b"\n")?;
            out.write_all(text)
        }
        Err(refusal) => {
            write!(out, ": {}", refusal.number())?;
            show_kept(out, buffer)
        }
    }
}

// The text in a buffer of so many bytes, which are no more than there is room for. Inlined, so that each of the two below knows its length:
// one that is too short plays nothing, and has no room for playing on the stack.
#[inline(always)]
fn print_in(out: &mut impl Write, files: &Files, length: usize) -> io::Result<()> {
    let mut room = text_buffer();
    let buffer = &mut room[..length.min(MOST_TEXT)];
    let written = text::print(&files.table, &files.trace, buffer);
    show_text(out, buffer, written)
}

// Both, and `measure`, stay functions of their own: where one is inlined, its buffer of 1.2 MB lies in the frame of `main`, below that of
// another.
#[inline(never)]
pub(crate) fn print(out: &mut impl Write, files: &Files) -> io::Result<()> {
    print_in(out, files, MOST_TEXT)
}

#[inline(never)]
pub(crate) fn print_short(out: &mut impl Write, files: &Files) -> io::Result<()> {
    print_in(out, files, MOST_TEXT - 1)
}

// Each byte in turn, added to 31 times what was there, modulo 2^32.
fn checksum(text: &[u8]) -> u32 {
    let mut sum: u32 = 0;
    for byte in text {
        sum = sum.wrapping_mul(31).wrapping_add(*byte as u32);
    }
    sum
}

// The checksum of a text, and its last 48 bytes.
fn show_end(out: &mut impl Write, text: &[u8]) -> io::Result<()> {
    write!(out, " checksum {}", checksum(text))?;
    if let Some(from) = text.len().checked_sub(48) {
        out.write_all(b" and at the end\n")?;
        out.write_all(&text[from..])?;
    }
    Ok(())
}

// A text that is too long to be stored: its length, its checksum and its end.
#[inline(never)]
pub(crate) fn measure(out: &mut impl Write, files: &Files) -> io::Result<()> {
    let mut buffer = text_buffer();
    if let Ok(count) = text::print(&files.table, &files.trace, &mut buffer) {
        write!(out, ": bytes {count}")?;
        if let Some(text) = buffer.get(..count) {
            return show_end(out, text);
        }
    }
    Ok(())
}
