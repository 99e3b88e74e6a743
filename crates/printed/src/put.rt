// Putting bytes at a place of a buffer where they fit. Each function says where they end, as `put_bytes` does (`number::texts`). It is no
// `write!`, here and in `lines`: what is put is known to fit, and each `write!` would answer a `Result` that is never an error. Words are
// bytes and no `&str`: they only go among the bytes of a buffer.
ghost use Rattle.std.specs.Prelude.{◌+◌, ◌≤◌, ◌<◌, length};
ghost use Rattle.number.specs.Texts.{digits_up_to};
ghost use Rattle.number.specs.Number.{Puts};
ghost use Rattle.printed.specs.Internal.{item};

use number::texts::put_bytes;

// Puts a number's digits: one, and up to `more` before it. It calls itself, and is no loop: the first digit is put first and known last,
// so a loop would need their number before.
fn put_digits(out: &mut [u8], at: usize, n: u64, more: u32) -> usize
    requires { at + length (digits_up_to more n) ≤ length out.old }
    ensures { Puts out.old at (digits_up_to more n) result out.new }
{
    if more == 0 {
        out[at] = (48 + n % 10) as u8;
        return at + 1;
    }
    if n < 10 {
        out[at] = (48 + n) as u8;
        return at + 1;
    }
    let place = put_digits(out, at, n / 10, more - 1);
    out[place] = (48 + n % 10) as u8;
    place + 1
}

// Puts words, a number in decimal, and a byte after it.
pub(crate) fn put_item(out: &mut [u8], at: usize, words: &[u8], n: u64, end: u8) -> usize
    requires { at + length words.now + 21 ≤ length out.old }
    ensures { Puts out.old at (item words.now n end) result out.new }
{
    let place = put_bytes(out, at, words);
    let place = put_digits(out, place, n, 19);
    out[place] = end;
    place + 1
}
