// The parts of a line of a script: where a part ends, decimal numbers, bytes in hexadecimal. What the programs of cases share. Lines are
// bytes and no `&str`: a program reads bytes, which need be no text, and a name that it knows is compared with them.

#![tactic(auto)]

ghost use Rattle.std.specs.Prelude.{◌≡◌, ◌%◌, ◌^◌, ◌++◌, ◌∷◌, [], true, take, drop, slice_get, OnOk, IfSome};
ghost use Rattle.script.specs.Shapes.{most_of, fits_of, taken, numbers_as};
ghost use Rattle.std.specs.Io.KnownBytes.{Appends};
ghost use Rattle.script.specs.Printed.{all_spaced};
ghost use Rattle.std.specs.Option.{unwrap_or};
ghost use Rattle.std.specs.Iterator.{YieldsFirstRef, item_count};
ghost use Rattle.script.specs.Lines.{NextByte, until, is_text, lines_in};
ghost use Rattle.script.specs.Names.{named_in};
ghost use Rattle.script.specs.Decimal.{with_digit, wrong_numbers, spaced, digited, number_step, numbers_from};
ghost use Rattle.script.specs.Hexadecimal.{hexadecimal, wrong_bytes, second_digit, byte_step, bytes_from};

use std::fmt::Display;
use std::io;
use std::io::Write;

// The numbers of a line, as many as `count`. An array with a count, and no `ArrayVec`, which is not `Copy`.
#[derive(Clone, Copy)]
pub struct Numbers {
    pub count: usize,
    pub values: [u64; 8],
}

impl Numbers {
    // Those that count, which are all where the count says more.
    pub fn list(&self) -> &[u64]
        ensures { result.now ≡ take self.now.count self.now.values }
    {
        &self.values[..self.count.min(8)]
    }
}

// The bytes of a line, likewise.
#[derive(Clone, Copy)]
pub struct Bytes {
    pub count: usize,
    pub values: [u8; 128],
}

impl Bytes {
    pub fn list(&self) -> &[u8]
        ensures { result.now ≡ take self.now.count self.now.values }
    {
        &self.values[..self.count.min(128)]
    }
}

// The numbers that are read so far, and whether there was nothing else. The last of them is `bare` where only its space is read, and no
// digit yet: a mark beside them, and no `Option`, since there are numbers either way.
#[derive(Clone, Copy)]
struct NumbersRead {
    numbers: Numbers,
    bare: bool,
    right: bool,
}

// What comes next among bytes: a space, a digit, or a second digit behind this one.
#[derive(Clone, Copy)]
enum Next {
    Space,
    First,
    Second(u8),
}

// The bytes that are read so far, what comes next, and whether there was nothing else.
#[derive(Clone, Copy)]
struct BytesRead {
    bytes: Bytes,
    next: Next,
    right: bool,
}

// What is left of a text, which its lines come from.
#[derive(Drop)]
pub struct Lines<'a> {
    text: &'a [u8],
}

impl<'a> Iterator for Lines<'a> {
    type Item = &'a [u8];

    ghost next_gives = { YieldsFirstRef (λ s. lines_in s.text.now) };

    ghost remaining = { item_count (λ s. lines_in s.text.now) };

    fn next(&mut self) -> Option<&'a [u8]> {
        if self.text.is_empty() {
            return None;
        }
        let (line, rest) = self.text.split_at(until(self.text, b'\n'));
        self.text = behind(rest, 1);
        Some(line)
    }
}

// The lines of a text, each without its line feed; the last may have none.
pub fn lines_of(text: &[u8]) -> Lines<'_>
    ensures { lines_in result.text.now ≡ lines_in text.now }
{
    Lines { text }
}

// Is it a heading or an empty line?
pub fn is_text(line: &[u8]) -> bool
    ensures { result ≡ is_text line.now }
{
    match line {
        [] => true,
        [first, ..] => *first == b'#',
    }
}

// What stands from a place on: nothing, if the place is beyond the end.
fn behind(text: &[u8], from: usize) -> &[u8]
    ensures { result.now ≡ drop from text.now }
{
    &text[from.min(text.len())..]
}

// How many bytes come before the first such byte, or before the end.
fn until(text: &[u8], byte: u8) -> usize
    ensures { result ≡ until byte text.now }
{
    text.iter().take_while(|b| **b != byte).count()
}

// The place of the next such byte, or the end. No `Option`: a part of a line goes up to the byte or up to the end alike.
pub fn next_byte(text: &[u8], from: usize, byte: u8) -> usize
    ensures { NextByte text.now from byte result }
{
    from + until(behind(text, from), byte)
}

// No `saturating_mul`: 18446744073709551610 and every number above it count as 18446744073709551615, as `with_digit` says.
fn with_digit(value: u64, digit: u8) -> u64
    ensures { result ≡ with_digit value digit }
{
    if value < u64::MAX / 10 {
        return value * 10 + (digit % 10) as u64;
    }
    u64::MAX
}

// The line has something else. What was read before it is kept, and the rest of the line is read on.
fn wrong_numbers(mut read: NumbersRead) -> NumbersRead
    ensures { result ≡ wrong_numbers read }
{
    read.right = false;
    read.bare = false;
    read
}

// A space begins a number, if the one before has a digit and there is room.
fn spaced(mut read: NumbersRead) -> NumbersRead
    ensures { result ≡ spaced read }
{
    if read.bare || 8 <= read.numbers.count {
        return wrong_numbers(read);
    }
    read.numbers.count += 1;
    read.bare = true;
    read
}

// A digit belongs to the last number.
fn digited(mut read: NumbersRead, digit: u8) -> NumbersRead
    ensures { result ≡ digited read digit }
{
    match read.numbers.count {
        count @ 1..=8 => {
            let last = read.numbers.values[count - 1];
            read.numbers.values[count - 1] = with_digit(last, digit);
            read.bare = false;
            read
        }
        _ => wrong_numbers(read),
    }
}

fn number_step(read: NumbersRead, byte: u8) -> NumbersRead
    ensures { result ≡ number_step read byte }
{
    match byte {
        b' ' => spaced(read),
        b'0'..=b'9' => digited(read, byte - b'0'),
        _ => wrong_numbers(read),
    }
}

// The numbers of a line from a place on, each with one space before it; one of 18446744073709551610 or more counts as
// 18446744073709551615. Where there is something else, or they are more than 8, it is an `Err`, with what the same rules read
// of the whole line: digits behind the fault go on with the last number.
pub fn numbers_of(line: &[u8], from: usize) -> Result<Numbers, Numbers>
    ensures { result ≡ numbers_from line.now from }
{
    let mut read = NumbersRead {
        numbers: Numbers {
            count: 0,
            values: [0; 8],
        },
        bare: false,
        right: true,
    };
    for byte in behind(line, from) {
        read = number_step(read, *byte);
    }
    if read.right && !read.bare {
        return Ok(read.numbers);
    }
    Err(read.numbers)
}

// A hexadecimal digit's value. It takes upper case alone, where `to_digit` takes both.
fn hexadecimal(byte: u8) -> Option<u8>
    ensures { result ≡ hexadecimal byte }
{
    match byte {
        b'0'..=b'9' => Some(byte - b'0'),
        b'A'..=b'F' => Some(byte - b'A' + 10),
        _ => None,
    }
}

fn wrong_bytes(mut read: BytesRead) -> BytesRead
    ensures { result ≡ wrong_bytes read }
{
    read.right = false;
    read.next = Next::Space;
    read
}

// A second digit makes a byte, if it is a digit and there is room.
fn second_digit(mut read: BytesRead, high: u8, digit: Option<u8>) -> BytesRead
    ensures { result ≡ second_digit read high digit }
{
    match digit {
        Some(low) if read.bytes.count < 128 => {
            read.bytes.values[read.bytes.count] = high % 16 * 16 + low % 16;
            read.bytes.count += 1;
            read.next = Next::Space;
            read
        }
        _ => wrong_bytes(read),
    }
}

fn byte_step(mut read: BytesRead, byte: u8) -> BytesRead
    ensures { result ≡ byte_step read byte }
{
    read.next = match (read.next, hexadecimal(byte)) {
        (Next::Space, _) if byte == b' ' => Next::First,
        (Next::First, Some(high)) => Next::Second(high),
        (Next::Second(high), low) => return second_digit(read, high, low),
        _ => return wrong_bytes(read),
    };
    read
}

// The bytes of a line from a place on, each two digits with one space before them. Where there is something else, or they are more than
// 128, it is an `Err`, with what the same rules read of the whole line. Not one function with `numbers_of`: what is read so far, the step and the
// end differ, which is all but the `for`.
pub fn bytes_of(line: &[u8], from: usize) -> Result<Bytes, Bytes>
    ensures { result ≡ bytes_from line.now from }
{
    let mut read = BytesRead {
        bytes: Bytes {
            count: 0,
            values: [0; 128],
        },
        next: Next::Space,
        right: true,
    };
    for byte in behind(line, from) {
        read = byte_step(read, *byte);
    }
    match read.next {
        Next::Space if read.right => Ok(read.bytes),
        _ => Err(read.bytes),
    }
}

// What stands beside a word in a table, if the word is one of its names; of two that are alike the first counts.
pub fn named<T: Copy>(table: &[(&[u8], T)], word: &[u8]) -> Option<T>
    ensures { result ≡ named_in (λ e. e.0.now) (λ e. e.1) word.now table.now }
{
    for (name, value) in table {
        if *name == word {
            return Some(*value);
        }
    }
    None
}

// The largest number that a letter stands for. A letter, and no enum: a command's shape is eight letters of a text (`takes`).
fn most(letter: u8) -> u64
    ensures { result ≡ most_of letter }
{
    match letter {
        b'f' => 1,
        b'k' => 6,
        b'g' => 15,
        b'q' => 31,
        b'p' => 63,
        b'r' => 80,
        b'l' => 128,
        b'b' => u8::MAX as u64,
        b'h' => u16::MAX as u64,
        b'a' => u64::MAX,
        _ => u32::MAX as u64,
    }
}

// May a number stand where the letter is, or none?
fn fits(letter: u8, number: Option<u64>) -> bool
    ensures { result ≡ fits_of letter number }
{
    match number {
        Some(value) => letter != b'.' && value <= most(letter),
        None => letter == b'o' || letter == b'.',
    }
}

fn number_at(numbers: &[u64], place: usize) -> Option<u64>
    ensures { result ≡ slice_get numbers.now place }
{
    numbers.get(place).copied()
}

// The number at a place as one of 32 bits or of 8; 0 where there is none. Of a larger number it is the remainder, where `TryFrom` would
// refuse it. One function for both widths would take the type and its size beside the numbers.
pub fn word(numbers: &[u64], place: usize) -> u32
    ensures { result ≡ unwrap_or (slice_get numbers.now place) 0 % 2 ^ 32 }
{
    (number_at(numbers, place).unwrap_or(0) % 4294967296) as u32
}

pub fn byte(numbers: &[u64], place: usize) -> u8
    ensures { result ≡ unwrap_or (slice_get numbers.now place) 0 % 2 ^ 8 }
{
    (number_at(numbers, place).unwrap_or(0) % 256) as u8
}

// Prints values, each with a space before it.
pub fn print_all<W: Write, T: Display>(out: &mut W, values: &[T]) -> io::Result<()>
    ensures { OnOk result (IfSome (all_spaced T.output values.now) (Appends (W.contents out.old) (W.contents out.new))) }
{
    for value in values {
        out.write_all(b" ")?;
        write!(out, "{value}")?;
    }
    Ok(())
}

// What a script works on, which knows what each line does.
pub trait Obeys {
    // What a line does, or nothing where it is no command.
    fn obey<W: Write>(&mut self, out: &mut W, line: &[u8]) -> Option<io::Result<()>>;
}

// A line of a script: it is echoed, and behind it stands what it does, or a question mark where it is no command. A heading does nothing.
// Each program goes through its lines in `main`, with its own state; `queue_cases` begins anew at an empty line.
pub fn one_line<W: Write, K: Obeys>(out: &mut W, kept: &mut K, line: &[u8]) -> io::Result<()>
    ensures { OnOk result (is_text line.now ≡ true → Appends (W.contents out.old) (W.contents out.new) (line.now ++ 10 ∷ [])) }
{
    out.write_all(line)?;
    if !is_text(line) {
        match kept.obey(out, line) {
            Some(obeyed) => obeyed?,
            None => out.write_all(b" ?")?,
        }
    }
    out.write_all(b"\n")
}

// Does a command take these numbers? Eight letters for each command say so. The command is a number, its place among the shapes, as
// `taken` has it: `script` knows no program's enum of commands.
pub fn takes(shapes: &[u8], command: usize, numbers: &[u64]) -> bool
    ensures { result ≡ taken shapes.now command numbers.now }
{
    if shapes.len() / 8 <= command {
        return false;
    }
    for i in 0..8 {
        if !fits(shapes[command * 8 + i], number_at(numbers, i)) {
            return false;
        }
    }
    true
}

// The numbers of a line from a place on, if a command with these eight letters takes them.
pub fn numbers_as(shape: &[u8; 8], line: &[u8], from: usize) -> Option<Numbers>
    ensures { result ≡ numbers_as shape.now line.now from }
{
    let numbers = numbers_of(line, from).ok()?;
    if takes(shape, 0, numbers.list()) {
        return Some(numbers);
    }
    None
}
