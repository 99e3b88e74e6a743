// Writing events and the leading numbers of a trace. The length is known before the first byte is written, so a refusal leaves the
// buffer as it was. So the numbers are gone through twice; one function for both ways would take a closure, for loops of one line.
ghost use Rattle.std.specs.Prelude.{◌≡◌, ◌≤◌, length};
ghost use Rattle.number.specs.Number.{bytes_of, HasWritten, wrote};
ghost use Rattle.trace.specs.Event.{header_bytes, event_bytes, wrote_event_of};
ghost use Rattle.number.specs.Basics.{splice};

use crate::reading::event_of;
use crate::{Event, Header};
use number::refusal::Refusal;
use number::writing::{number_length, put_number};

// How many bytes the numbers take.
fn numbers_length(numbers: &[u32]) -> usize
    requires { length numbers.now ≤ 4 }
    ensures { result ≡ length (bytes_of numbers.now) }
{
    let mut total: usize = 0;
    for number in numbers {
        total += number_length(*number);
    }
    total
}

// Puts the numbers' bytes at the front of a buffer where they fit.
fn put_numbers(numbers: &[u32], out: &mut [u8])
    requires { length (bytes_of numbers.now) ≤ length out.old }
    ensures { out.new ≡ splice out.old 0 (bytes_of numbers.now) }
{
    let mut place: usize = 0;
    for number in numbers {
        place = put_number(out, place, *number);
    }
}

// Writes the numbers at the front of a buffer.
fn write_numbers(numbers: &[u32], out: &mut [u8]) -> Result<usize, Refusal>
    requires { length numbers.now ≤ 4 }
    ensures { HasWritten (wrote (bytes_of numbers.now) out.old) result out.new }
{
    let length = numbers_length(numbers);
    if out.len() < length {
        return Err(Refusal::TooShort);
    }
    put_numbers(numbers, out);
    Ok(length)
}

// Writes an event at the front of a buffer: its kind, then its own numbers.
pub fn write_event(event: Event, out: &mut [u8]) -> Result<usize, Refusal>
    ensures { HasWritten (wrote (event_bytes event) out.old) result out.new }
{
    match event {
        Event::Activate { group } => write_numbers(&[0, group], out),
        Event::LoadAddress { port, address } => write_numbers(&[1, port, address], out),
        Event::StoreAddress { port, address } => write_numbers(&[2, port, address], out),
        Event::StoreData { port, word } => write_numbers(&[3, port, word], out),
        Event::Serve { serial } => write_numbers(&[4, serial], out),
        Event::Write { serial } => write_numbers(&[5, serial], out),
        Event::Take { port } => write_numbers(&[6, port], out),
    }
}

// Writes an event, by its kind and its numbers, at the front of a buffer: 35, then 10. A kind with one number leaves the second
// alone. The kind is a number, and no `Event`, since C hands it so.
pub fn write_event_of(kind: u32, first: u32, second: u32, out: &mut [u8]) -> Result<usize, Refusal>
    ensures { HasWritten (wrote_event_of kind first second out.old) result out.new }
{
    if 6 < kind {
        return Err(Refusal::BadKind);
    }
    let event = event_of(kind, first, second);
    write_event(event, out)
}

// Writes a trace's leading numbers at the front of a buffer.
pub fn write_header(header: Header, out: &mut [u8]) -> Result<usize, Refusal>
    ensures { HasWritten (wrote (header_bytes header) out.old) result out.new }
{
    let numbers = [
        header.load_depth,
        header.store_depth,
        header.first,
        header.memory_length,
    ];
    write_numbers(&numbers, out)
}
