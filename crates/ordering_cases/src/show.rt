// Printing what ordering answers. A function, and no `Display`: the record is another crate's, and this is the script's form of it. Its
// answer is a number, since it is laid out for C.
use ordering::Ordered;
use script::print_all;
use std::io;
use std::io::Write;

// The answer and the count; the order, where there is one. The other places are to be 0.
pub(crate) fn ordered(out: &mut impl Write, given: &Ordered) -> io::Result<()> {
    let count = given.count as usize;
    let (places, rest) = given.accesses.split_at(count.min(given.accesses.len()));
    write!(out, ": {}, count {}", given.answer, given.count)?;
    if given.answer == 0 {
        out.write_all(b", order")?;
        print_all(out, places)?;
    }
    if rest.iter().any(|place| *place != 0) {
        out.write_all(b", the rest changed")?;
    }
    Ok(())
}
