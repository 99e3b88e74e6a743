// The lines of the printed run. A place goes in and the end comes out, as in `put_bytes` (`number::texts`).
ghost use Rattle.std.specs.Prelude.{◌+◌, ◌*◌, ◌≤◌, length, take};
ghost use Rattle.printed.specs.Text.{event_line, event_lines, word_line, word_lines, counts_line, run_text};
ghost use Rattle.number.specs.Number.{Puts, PutIfFits};
ghost use Rattle.printed.specs.Files.{fault_text};
ghost use Rattle.printed.specs.Played.{fault_line};
ghost use Rattle.printed.specs.Internal.{item, logged_as, rows, RunFits};

use crate::files::{FilesFault, FilesRun, PlayRoom};
use crate::put::put_item;
use counts::Counts;
use number::texts::put_bytes;

// Puts an event's line: its number, its answer, and the value or `-`. All are numbers, as a replay puts them into the buffers that C
// lends, and whatever stands there is printed.
fn put_event(out: &mut [u8], at: usize, number: u64, answer: u8, given: u8, word: u32) -> usize
    requires { at + 63 ≤ length out.old }
    ensures { Puts out.old at (event_line number (logged_as answer given word)) result out.new }
{
    let place = put_item(out, at, b"", number, 32);
    let place = put_item(out, place, b"", answer as u64, 32);
    if given == 1 {
        return put_item(out, place, b"", word as u64, 10);
    }
    put_bytes(out, place, b"-\n")
}

// Puts the lines of events, from what a replay put down of each: three runs, as it was lent them.
fn put_events(out: &mut [u8], answers: &[u8], given: &[u8], values: &[u32]) -> usize
    requires { (length answers.now ≤ length given.now) × (length answers.now ≤ length values.now)
        × (63 * length answers.now ≤ length out.old) }
    ensures { Puts out.old 0 (event_lines 1 (rows answers.now given.now values.now)) result out.new }
{
    let mut place: usize = 0;
    for (i, &answer) in answers.iter().enumerate() {
        place = put_event(out, place, i as u64 + 1, answer, given[i], values[i]);
    }
    place
}

// Puts a word's line, or nothing for a word that is 0.
fn put_word(out: &mut [u8], at: usize, address: u64, word: u32) -> usize
    requires { at + 47 ≤ length out.old }
    ensures { Puts out.old at (word_line address word) result out.new }
{
    if word == 0 {
        return at;
    }
    let place = put_item(out, at, b"word ", address, 32);
    put_item(out, place, b"", word as u64, 10)
}

// Puts the lines of a memory's words that are not 0, by address.
fn put_words(out: &mut [u8], at: usize, memory: &[u32]) -> usize
    requires { at + 47 * length memory.now ≤ length out.old }
    ensures { Puts out.old at (word_lines 0 memory.now) result out.new }
{
    let mut place = at;
    for (address, &word) in memory.iter().enumerate() {
        place = put_word(out, place, address as u64, word);
    }
    place
}

// Puts the last line.
fn put_counts(out: &mut [u8], at: usize, counts: Counts) -> usize
    requires { at + 85 ≤ length out.old }
    ensures { Puts out.old at (counts_line counts) result out.new }
{
    let place = put_item(out, at, b"loads ", counts.loads as u64, 32);
    let place = put_item(out, place, b"forwarded ", counts.forwarded as u64, 32);
    put_item(out, place, b"share ", counts.share(), 10)
}

// Puts the text of a run, from what it left where it was played: the lines of its events, of its memory and of its counts.
pub(crate) fn put_run(out: &mut [u8], room: &PlayRoom, run: FilesRun) -> usize
    requires { RunFits run room.now out.old }
    ensures { Puts out.old 0 (run_text (take run.events (rows room.now.answers room.now.given room.now.values))
        (take run.memory_length room.now.memory) run.counts) result out.new }
{
    let answers = &room.answers[..run.events];
    let given = &room.given[..run.events];
    let values = &room.values[..run.events];
    let place = put_events(out, answers, given, values);
    let place = put_words(out, place, &room.memory[..run.memory_length]);
    put_counts(out, place, run.counts)
}

// Puts a word and a number as a line at a buffer's front, where it fits, and says where it ends as `put_bytes` does. The number may be any,
// and no `Refusal` (`put_fault`).
fn put_line(out: &mut [u8], word: &[u8], number: u8) -> usize
    requires { length word.now ≤ 11 }
    ensures { PutIfFits out.old 0 (item word.now number 10) result out.new }
{
    // room for the longest line of a fault
    let mut line = [0; 32];
    let end = put_item(&mut line, 0, word, number as u64, 10);
    put_bytes(out, 0, &line[..end])
}

// Puts the line of a fault, of the table or of the trace, at a buffer's front, and says where it ends; where it does not fit,
// nothing is put. No such line is longer than 10 bytes (`fault-few`). It takes a flag and a number, and no `FilesFault`: callers may
// hand it any number (docs/STATEMENTS.md names it).
pub fn put_fault(out: &mut [u8], of_table: bool, number: u8) -> usize
    ensures { PutIfFits out.old 0 (fault_text of_table number) result out.new }
{
    if of_table {
        return put_line(out, b"table ", number);
    }
    put_line(out, b"trace ", number)
}

impl FilesFault {
    // Puts its line at a buffer's front, and says where it ends; where it does not fit, nothing is put. A want of room is no fault of
    // the files, and has no line.
    pub fn put_line(self, out: &mut [u8]) -> usize
        ensures { PutIfFits out.old 0 (fault_line self) result out.new }
    {
        match self {
            FilesFault::Table(refusal) => put_fault(out, true, refusal.number()),
            FilesFault::Trace(refusal) => put_fault(out, false, refusal.number()),
            FilesFault::NoRoom(_) => 0,
        }
    }
}
