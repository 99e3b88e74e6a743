// The record of a replay: what it put into the buffers says which takes gave a value. The buffers stay runs of their own, as `replay` is lent
// them: `replay_recorded` and `record_replay` are public.
ghost use Rattle.std.specs.Prelude.{◌≡◌};
ghost use Rattle.table.specs.Table.{groups_of};
ghost use Rattle.replay.specs.Events.{events_from};
ghost use Rattle.replay.specs.Replay.{replay};
ghost use Rattle.paged.specs.Recorded.{after_event, value_given, record_buffered, events_read, trace_events, recorded_as, RecordsReplay};
ghost use Rattle.paged.specs.Internal.{AllReadable};

use counts::Counts;
use number::refusal::Refusal;
use replay::counting::count_events;
use replay::replaying::replay;
use shift::ShiftRecord;
use table::Table;
use trace::Event;
use trace::reading::{read_event, read_header};

// What an event leaves of the record: a take that gave a value has it recorded; every other event, and a take that was refused,
// leaves it. `given` and `value` are the numbers of the buffers, and no `Option`, which would be made only to be looked at here.
fn record_event(kept: &mut ShiftRecord, event: Event, given: u8, value: u32)
    ensures { kept.new ≡ after_event kept.old event (value_given given value) }
{
    match event {
        Event::Take { port } if given == 1 => kept.record(port, value),
        _ => {}
    }
}

// Goes through the events from a place on, which can all be read, beside what a replay put down of them.
fn record_events(trace: &[u8], from: usize, given: &[u8], values: &[u32], kept: &mut ShiftRecord)
    requires { AllReadable trace.now from }
    ensures { kept.new ≡ record_buffered kept.old (events_read (events_from trace.now from)) given.now values.now }
{
    let mut place = from;
    for (&given, &value) in given.iter().zip(values) {
        let Ok(Some((event, next))) = read_event(trace, place) else {
            return;
        };
        record_event(kept, event, given, value);
        place = next;
    }
}

// The record after a replay of this trace, from what the replay put into these buffers. A trace whose leading numbers or events
// cannot be read leaves it.
pub fn record_replay(trace: &[u8], given: &[u8], values: &[u32], kept: &mut ShiftRecord)
    ensures { kept.new ≡ record_buffered kept.old (trace_events trace.now) given.now values.now }
{
    let Ok((_, at)) = read_header(trace) else {
        return;
    };
    if count_events(trace, at).is_ok() {
        record_events(trace, at, given, values, kept);
    }
}

// Replays a trace from a fresh opening of the table, keeps the record of what it took, and says how many events were played. Where it
// is refused nothing that was lent is changed, nor the record.
pub fn replay_recorded(
    table: Table,
    trace: &[u8],
    memory: &mut [u32],
    counts: &mut Counts,
    kept: &mut ShiftRecord,
    answers: &mut [u8],
    given: &mut [u8],
    values: &mut [u32],
) -> Result<usize, Refusal>
    ensures { RecordsReplay memory.old counts.old
        (record { answers = answers.old; given = given.old; values = values.old }) kept.old trace.now
        (replay (groups_of table) trace.now memory.old counts.old
        (record { answers = answers.old; given = given.old; values = values.old }))
        (recorded_as result counts.new kept.new) memory.new
        (record { answers = answers.new; given = given.new; values = values.new }) }
{
    let events = replay(table, trace, memory, counts, answers, given, values)?;
    record_replay(trace, given, values, kept);
    Ok(events)
}
