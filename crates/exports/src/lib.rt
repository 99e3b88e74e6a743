// Functions for C and Rust to link: tables and traces as bytes, replays as numbers in lent runs. A name is the whole
// program's, as in C, so each begins with `lsq_`. Whatever is handed in, each answers as its contract says: a number, with 0 for none
// or for accepted, where a function for Rattle alone answers a `Result`. Every parameter is as C hands it in (bindings/c/lsq.h), so files,
// memory, counts and buffers are runs of their own; and C has a function for each number that is told of a trace, alike but for the number.

#![tactic(auto)]

ghost use Rattle.std.specs.Prelude.{◌≡◌};
ghost use Rattle.table.specs.TableBytes.{read_table, table_answer};
ghost use Rattle.counts.specs.Counts.{share};
ghost use Rattle.number.specs.Reply.{number, reply};
ghost use Rattle.replay.specs.Outcome.{prepared_as};
ghost use Rattle.printed.specs.Outcome.{printed};
ghost use Rattle.paged.specs.Recorded.{kept_after};
ghost use Rattle.exports.specs.Text.{text_length};
ghost use Rattle.exports.specs.Prepared.{prepared, event_count, memory_length};
ghost use Rattle.exports.specs.Replay.{lent, replay_lent, lent_after};

use counts::Counts;
use number::refusal::{Refusal, number_of};
use paged::recording::record_replay;
use printed::text::print;
use replay::Prepared;
use replay::preparing::prepare;
use replay::replaying::replay;
use shift::ShiftRecord;
use table::read::read_table;

// What a replay that keeps the record hands back: 0 or the refusal's number, and no `Result`, since C gets it.
#[repr(C)]
#[derive(Clone, Copy)]
pub struct LentRecorded {
    pub answer: u32,
    pub kept: ShiftRecord,
}

// Reads the table and makes the trace ready.
fn make_ready(table: &[u8], trace: &[u8]) -> Result<Prepared, Refusal>
    ensures { reply result ≡ prepared_as (prepared table.now trace.now) }
{
    let groups = read_table(table)?;
    prepare(groups, trace)
}

// 0 where the bytes are a table, else their refusal.
#[unsafe(no_mangle)]
pub extern "C" fn lsq_table_fault(table: &[u8]) -> u32
    ensures { result ≡ (table_answer (read_table table.now)).answer }
{
    number_of(&read_table(table)) as u32
}

// 0 where the trace can be played on the table; else the table's refusal, or that of the trace's leading numbers, of
// opening, or of an event.
#[unsafe(no_mangle)]
pub extern "C" fn lsq_trace_fault(table: &[u8], trace: &[u8]) -> u32
    ensures { result ≡ number (prepared table.now trace.now) }
{
    number_of(&make_ready(table, trace)) as u32
}

// How many events the trace has: the length that a replay's buffers need. 0 where the trace cannot be played.
#[unsafe(no_mangle)]
pub extern "C" fn lsq_event_count(table: &[u8], trace: &[u8]) -> u64
    ensures { result ≡ event_count (prepared table.now trace.now) }
{
    match make_ready(table, trace) {
        Ok(ready) => ready.events as u64,
        Err(_) => 0,
    }
}

// The memory length that the trace asks for, in words. 0 where the trace cannot be played.
#[unsafe(no_mangle)]
pub extern "C" fn lsq_memory_length(table: &[u8], trace: &[u8]) -> u32
    ensures { result ≡ memory_length (prepared table.now trace.now) }
{
    match make_ready(table, trace) {
        Ok(ready) => ready.memory_length as u32,
        Err(_) => 0,
    }
}

// Replays the trace on what is lent, as `lsq_replay` says it.
fn replay_bytes(
    table: &[u8],
    trace: &[u8],
    memory: &mut [u32],
    counts: &mut [u32],
    answers: &mut [u8],
    given: &mut [u8],
    values: &mut [u32],
) -> Result<usize, Refusal>
    ensures { record {
      answer = number (reply result);
      left = lent memory.new counts.new answers.new given.new values.new;
    }
        ≡ lent_after (lent memory.old counts.old answers.old given.old values.old)
        (replay_lent table.now trace.now
        (lent memory.old counts.old answers.old given.old values.old)) }
{
    let groups = read_table(table)?;
    if counts.len() < 2 {
        return Err(Refusal::TooShort);
    }
    let mut held = Counts {
        loads: counts[0],
        forwarded: counts[1],
    };
    let done = replay(groups, trace, memory, &mut held, answers, given, values);
    counts[0] = held.loads;
    counts[1] = held.forwarded;
    done
}

// Replays the trace on the memory and the counts as they are lent; `counts` holds loads, then forwarded. Where it answers 0,
// each event's answer, 1 or 0 as it gave a value or none, and the value or 0 stand at the front of the three buffers. Else
// nothing that was lent is changed: a refused replay leaves the very counts that were lent to it.
#[unsafe(no_mangle)]
pub extern "C" fn lsq_replay(
    table: &[u8],
    trace: &[u8],
    memory: &mut [u32],
    counts: &mut [u32],
    answers: &mut [u8],
    given: &mut [u8],
    values: &mut [u32],
) -> u32
    ensures { record {
      answer = result;
      left = lent memory.new counts.new answers.new given.new values.new;
    }
        ≡ lent_after (lent memory.old counts.old answers.old given.old values.old)
        (replay_lent table.now trace.now
        (lent memory.old counts.old answers.old given.old values.old)) }
{
    let done = replay_bytes(table, trace, memory, counts, answers, given, values);
    number_of(&done) as u32
}

// Replays the trace as `lsq_replay` does, and keeps the record of what it took. Where it answers 0 the record is that of the trace's
// takes, from the one that was handed in; else it hands back the very record.
#[unsafe(no_mangle)]
pub extern "C" fn lsq_replay_recorded(
    table: &[u8],
    trace: &[u8],
    memory: &mut [u32],
    counts: &mut [u32],
    answers: &mut [u8],
    given: &mut [u8],
    values: &mut [u32],
    mut kept: ShiftRecord,
) -> LentRecorded
    ensures replays { record {
      answer = result.answer;
      left = lent memory.new counts.new answers.new given.new values.new;
    }
        ≡ lent_after (lent memory.old counts.old answers.old given.old values.old)
        (replay_lent table.now trace.now
        (lent memory.old counts.old answers.old given.old values.old)) }
    ensures records { result.kept ≡ kept_after kept trace.now (replay_lent table.now trace.now
        (lent memory.old counts.old answers.old given.old values.old)) }
{
    let done = replay_bytes(table, trace, memory, counts, answers, given, values);
    if done.is_ok() {
        record_replay(trace, given, values, &mut kept);
    }
    LentRecorded {
        answer: number_of(&done) as u32,
        kept,
    }
}

// Writes the text that `play` prints of two files with these bytes at the front of a buffer, and answers how many bytes that
// is. Where the buffer has no room for every text it answers 0, and nothing is written.
#[unsafe(no_mangle)]
pub extern "C" fn lsq_text(table: &[u8], trace: &[u8], out: &mut [u8]) -> u64
    ensures length { result ≡ text_length (printed table.now trace.now out.old).answer }
    ensures text { out.new ≡ (printed table.now trace.now out.old).buffer }
{
    match print(table, trace, out) {
        Ok(count) => count as u64,
        Err(_) => 0,
    }
}

// Thousandths of the loads that were forwarded, to the nearest, an exact half to the even neighbour; 0 for no loads.
#[unsafe(no_mangle)]
pub extern "C" fn lsq_share(loads: u32, forwarded: u32) -> u64
    ensures { result ≡ share (record { loads = loads; forwarded = forwarded }) }
{
    Counts { loads, forwarded }.share()
}
