// The shift record: takes that keep it, the rule by itself, a record made by hand, and the page.
use crate::run::Run;
use crate::show;
use script::word;
use shift::page::write_page;
use shift::recording::take_recorded;
use std::io;
use std::io::Write;

// A few bytes more than a page has, so that a case can show what stays behind it.
const MOST_BYTES: usize = 1400;

// A take that keeps the record.
pub(crate) fn take(out: &mut impl Write, run: &mut Run, port: u32) -> io::Result<()> {
    let queue = run.queue;
    let kept = run.kept;
    let taken = take_recorded(&mut run.queue, &mut run.kept, port);
    show::answer(out, taken.map(Some))?;
    show::same(out, "", queue == run.queue)?;
    show::same(out, " record", kept == run.kept)
}

// The rule with no queue: only so can a case hand it a port that no table has.
pub(crate) fn record(out: &mut impl Write, run: &mut Run, port: u32, value: u32) -> io::Result<()> {
    let kept = run.kept;
    run.kept.record(port, value);
    show::same(out, ":", kept == run.kept)
}

// Of the numbers: port, and its two numbers.
pub(crate) fn set(run: &mut Run, numbers: &[u64]) {
    let place = word(numbers, 0) as usize;
    if place < 32 {
        run.kept.takes[place] = word(numbers, 1);
        run.kept.values[place] = word(numbers, 2);
    }
}

// The page in a buffer of so many bytes, or nothing where that is too many: no letter of the shapes stands for 1,400. The whole buffer
// stands below an accepted answer, with what lies behind the page. After a refusal it would be dots alone, and whether it is so is
// said instead.
pub(crate) fn page(out: &mut impl Write, run: &Run, length: usize) -> Option<io::Result<()>> {
    let mut bytes = [b'.'; MOST_BYTES];
    let buffer = bytes.get_mut(..length)?;
    let written = write_page(&run.kept, buffer);
    Some(show::page(out, written, buffer))
}
