// The page: a header, a line for each load port, and a footer. A place goes in and the end comes out, as in `put_bytes` (`number::texts`).
// It is no `write!`: what is put is known to fit, and each `write!` would answer a `Result` that is never an error.
ghost use Rattle.std.specs.Prelude.{◌≡◌, ◌+◌, ◌*◌, ◌≤◌, ◌<◌, ◌^◌, ◌%◌, eqb, length};
ghost use Rattle.number.specs.Basics.{pick, flat_map};
ghost use Rattle.number.specs.Number.{HasWritten, Puts};
ghost use Rattle.number.specs.Texts.{decimal};
ghost use Rattle.shift.specs.Record.{takes_of};
ghost use Rattle.shift.specs.Page.{pad_left, port_line, port_lines, with_line_feed, value_or_zero, value_shown, page_written};

use crate::ShiftRecord;
use number::refusal::Refusal;
use number::texts::put_bytes;

// The length of every page: 34 lines of 40 characters and a line feed.
pub const PAGE_BYTES: usize = 1394;

// A digit of what is left of a number, or a blank where nothing is left.
fn digit_or_blank(left: u64) -> u8
    ensures { result ≡ pick (eqb left 0) 32 (48 + left % 10) }
{
    if left == 0 {
        return 32;
    }
    (48 + left % 10) as u8
}

// Puts a number right-aligned in columns that hold all its digits, and says where they end. It goes from the last column, which has a
// digit even where the number is 0, to the first.
fn put_right(out: &mut [u8], at: usize, width: usize, n: u64) -> usize
    requires { (0 < width) × (n < 10 ^ width) × (at + width ≤ length out.old) }
    ensures { Puts out.old at (pad_left width (decimal n)) result out.new }
{
    let end = at + width;
    out[end - 1] = (48 + n % 10) as u8;
    let mut left = n / 10;
    for place in (at..end - 1).rev() {
        out[place] = digit_or_blank(left);
        left /= 10;
    }
    end
}

// A port that took nothing shows 0, whatever its value is.
fn value_or_zero(takes: u32, value: u32) -> u32
    ensures { result ≡ value_or_zero takes value }
{
    if takes == 0 {
        return 0;
    }
    value
}

// Puts a port's line: the port in columns 1 to 2, its takes in 7 to 16, the value that it shows in 31 to 40.
fn put_port(out: &mut [u8], at: usize, port: u64, takes: u32, value: u32) -> usize
    requires { (port < 32) × (at + 41 ≤ length out.old) }
    ensures { Puts out.old at (with_line_feed (port_line port takes (value_or_zero takes value))) result out.new × (result ≡ at + 41) }
{
    let place = put_right(out, at, 2, port);
    let place = put_bytes(out, place, b"    ");
    let place = put_right(out, place, 10, takes as u64);
    let place = put_bytes(out, place, b"              ");
    let place = put_right(out, place, 10, value_or_zero(takes, value) as u64);
    put_bytes(out, place, b"\n")
}

// Puts the lines of all ports.
fn put_ports(out: &mut [u8], at: usize, kept: &ShiftRecord) -> usize
    requires { at + 41 * 32 ≤ length out.old }
    ensures { Puts out.old at (flat_map with_line_feed (port_lines (takes_of kept.now) (value_shown kept.now))) result out.new
        × (result ≡ at + 41 * 32) }
{
    let mut place = at;
    // By ports: both arrays are C's.
    for port in 0..32 {
        place = put_port(out, place, port as u64, kept.takes[port], kept.values[port]);
    }
    place
}

// Writes the page of a record at the front of a buffer; 41 where the buffer is shorter than a page.
pub fn write_page(kept: &ShiftRecord, out: &mut [u8]) -> Result<usize, Refusal>
    ensures { HasWritten (page_written kept.now out.old) result out.new }
{
    if out.len() < PAGE_BYTES {
        return Err(Refusal::PageTooShort);
    }
    let place = put_bytes(out, 0, b"LOAD PORTS                              \n");
    let place = put_ports(out, place, kept);
    put_bytes(out, place, b"END                                     \n");
    Ok(PAGE_BYTES)
}
