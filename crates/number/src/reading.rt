// Reading numbers: 32 bits without sign, in groups of seven bits, lowest group first; bit 7 of a byte means that another follows.
ghost use Rattle.std.specs.Prelude.{◌≡◌, ◌<◌, drop};
ghost use Rattle.number.specs.Number.{read_number, read_in, number_reply};
ghost use Rattle.number.specs.Internal.{ended_by};

use crate::refusal::Refusal;

// What a fifth byte counts: 128 to the fourth power. There is room for four bits of it, and for none after it.
const FIFTH: u32 = 268435456;

// The number whose bytes go from `at` to `next`, the last of them `last`: 00 after another byte is padding, and is refused.
fn ended_by(at: usize, next: usize, last: u32, value: u32) -> Result<(u32, usize), Refusal>
    requires { at < next }
    ensures { number_reply result ≡ ended_by at next last value }
{
    if last == 0 {
        if 1 < next - at {
            return Err(Refusal::PaddedNumber);
        }
    }
    Ok((value, next))
}

// Reads the number at a place, byte by byte: each counts 128 times what the one before it does. A place past the end is the end. The
// place goes beside the bytes: where the number ends is told as a place of the same bytes, which a slice from a place on would not know.
pub fn read_number(bytes: &[u8], at: usize) -> Result<(u32, usize), Refusal>
    ensures { number_reply result ≡ read_in bytes.now (read_number (drop at bytes.now)) }
{
    let mut value: u32 = 0;
    let mut place = at;
    for scale in [1, 128, 16384, 2097152] {
        if bytes.len() <= place {
            return Err(Refusal::Ended);
        }
        let low = bytes[place] as u32;
        place += 1;
        if low < 128 {
            return ended_by(at, place, low, value + low * scale);
        }
        value += (low - 128) * scale;
    }
    if bytes.len() <= place {
        return Err(Refusal::Ended);
    }
    let low = bytes[place] as u32;
    if low <= 15 {
        return ended_by(at, place + 1, low, value + low * FIFTH);
    }
    Err(Refusal::TooLarge)
}
