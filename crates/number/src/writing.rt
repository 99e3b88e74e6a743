// Writing numbers, in the fewest bytes.
ghost use Rattle.std.specs.Prelude.{◌≡◌, ◌+◌, ◌≤◌, length};
ghost use Rattle.number.specs.Number.{number_bytes, byte_count, significant_bits, HasWritten, wrote, Puts, PutIfFits};

use crate::refusal::Refusal;

// How many bytes the writer uses for a number: up to seven of its significant bits go in each, and 0, which has none, takes one.
pub fn number_length(value: u32) -> usize
    ensures by_bits { result ≡ byte_count (significant_bits value) }
    ensures by_bytes { result ≡ length (number_bytes value) }
{
    let bits = 32 - u32::leading_zeros(value);
    let count = (bits + 6) / 7;
    if count < 1 {
        return 1;
    }
    count as usize
}

// Puts a number's bytes at a place where they fit, and says where they end. A `while`, and no `for`: what is left of the number ends it,
// and a `for` over the places would first need their number. The length is counted without this walk, from the bits.
fn put_fitting(out: &mut [u8], at: usize, value: u32) -> usize
    requires { at + length (number_bytes value) ≤ length out.old }
    ensures { Puts out.old at (number_bytes value) result out.new }
{
    let mut left = value;
    let mut place = at;
    while 128 <= left {
        out[place] = (128 + left % 128) as u8;
        left = left / 128;
        place += 1;
    }
    out[place] = left as u8;
    place + 1
}

// Puts a number's bytes at a place, and says where they end. Where they do not fit, it puts nothing and says the place itself: no
// `Option`, since `PutIfFits` promises a place to every caller. Not by `put_bytes`, which tests the same: the bytes would first have to
// be made elsewhere.
pub fn put_number(out: &mut [u8], at: usize, value: u32) -> usize
    ensures { PutIfFits out.old at (number_bytes value) result out.new }
{
    let length = out.len();
    if length < at {
        return at;
    }
    if length - at < number_length(value) {
        return at;
    }
    put_fitting(out, at, value)
}

// Writes a number at the front of a buffer, in the fewest bytes. What else is written to lent buffers has the same steps (`write_numbers`,
// `write_table`, `write_page`): one function would take a closure that puts, with what it has to say of the buffer, for these four lines.
pub fn write_number(value: u32, out: &mut [u8]) -> Result<usize, Refusal>
    ensures { HasWritten (wrote (number_bytes value) out.old) result out.new }
{
    let length = number_length(value);
    if out.len() < length {
        return Err(Refusal::TooShort);
    }
    put_fitting(out, 0, value);
    Ok(length)
}
