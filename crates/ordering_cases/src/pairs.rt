// The pairs that are handed over, and what a line's bytes make of them.
use ordering::{Precedence, Precedences};

// Sets the pair at a place, and leaves the count. There is nothing beyond the last place.
pub(crate) fn set(kept: &mut Precedences, place: usize, first: u32, second: u32) {
    if let Some(pair) = kept.pairs.get_mut(place) {
        *pair = Precedence { first, second };
    }
}

// One pair more. Beyond the last place only the count goes on, so that 65 pairs can be asked for.
fn push(kept: &mut Precedences, first: u32, second: u32) {
    set(kept, kept.count as usize, first, second);
    kept.count = kept.count.saturating_add(1);
}

// The pairs in some bytes, a digit for each access.
pub(crate) fn of_digits(bytes: &[u8]) -> Precedences {
    let mut pairs = Precedences::default();
    for digits in bytes {
        push(&mut pairs, (*digits / 16) as u32, (*digits % 16) as u32);
    }
    pairs
}

// Appends the pairs in some bytes, two bytes to a pair.
fn append(kept: &mut Precedences, bytes: &[u8]) {
    for pair in bytes.chunks_exact(2) {
        push(kept, pair[0] as u32, pair[1] as u32);
    }
}

// The pairs are these, if no byte is left over. Places beyond them stay as they were.
pub(crate) fn replace(kept: &mut Precedences, bytes: &[u8]) -> Option<()> {
    if bytes.len() % 2 == 1 {
        return None;
    }
    kept.count = 0;
    append(kept, bytes);
    Some(())
}

// Appends the pairs behind the first byte as often as it says, if no byte is left over.
pub(crate) fn repeat(kept: &mut Precedences, bytes: &[u8]) -> Option<()> {
    let (times, pairs) = bytes.split_first()?;
    if pairs.len() % 2 == 1 {
        return None;
    }
    for _ in 0..*times {
        append(kept, pairs);
    }
    Some(())
}

// Appends a chain of pairs from the first of two bytes down or up to the second, by one at a time.
pub(crate) fn chain(kept: &mut Precedences, bytes: &[u8]) -> Option<()> {
    let [first, last] = bytes else {
        return None;
    };
    if first < last {
        up(kept, *first as u32, *last as u32);
    } else {
        down(kept, *first as u32, *last as u32);
    }
    Some(())
}

// Two loops, up and down: the range and the two of a pair both turn.
fn up(kept: &mut Precedences, first: u32, last: u32) {
    for access in first..last {
        push(kept, access, access + 1);
    }
}

fn down(kept: &mut Precedences, first: u32, last: u32) {
    for access in (last..first).rev() {
        push(kept, access + 1, access);
    }
}
