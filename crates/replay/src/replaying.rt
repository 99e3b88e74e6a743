// Replaying a whole trace. The memory, the counts and the three buffers are lent one by one, and the trace with a place: `replay` and
// `replay_from` are public, C lends all of them so, and a record of what is lent would ask every caller to make one.
ghost use Rattle.std.specs.Prelude.{◌≡◌, ◌&&◌, leb};
ghost use Rattle.table.specs.Table.{groups_of};
ghost use Rattle.queue.specs.Contents.{contents_of};
ghost use Rattle.replay.specs.Events.{events_from};
ghost use Rattle.replay.specs.Playing.{playing};
ghost use Rattle.replay.specs.Replay.{replay_from, replay};
ghost use Rattle.replay.specs.Outcome.{ReplayedWell, Replays, replayed_as};
ghost use Rattle.replay.specs.Internal.{Playable, events_in, through};

use crate::counting::count_events;
use crate::playing::{play_event, put};
use crate::preparing::open_trace;
use counts::Counts;
use number::refusal::Refusal;
use queue::Queue;
use table::Table;
use trace::reading::read_event;

// Plays the events from a place on, which can all be read, and says how many they are. A `while let`, as in `count_events`: only an
// event says where the next one begins. They share no loop with a closure, which would be longer than the loop.
fn play_all(
    mut queue: Queue,
    counts: &mut Counts,
    trace: &[u8],
    from: usize,
    memory: &mut [u32],
    answers: &mut [u8],
    given: &mut [u8],
    values: &mut [u32],
) -> usize
    requires { Playable trace.now from (record { answers = answers.old; given = given.old; values = values.old }) }
    ensures { ReplayedWell (through (playing (contents_of queue) memory.old counts.old) (events_in (events_from trace.now from)))
        (record { answers = answers.old; given = given.old; values = values.old })
        (record { answer = 0; events = result; counts = counts.new }) memory.new
        (record { answers = answers.new; given = given.new; values = values.new }) }
{
    let mut place = from;
    let mut i: usize = 0;
    while let Ok(Some((event, next))) = read_event(trace, place) {
        let answer = play_event(
            &mut queue.frame,
            &mut queue.load_entries,
            &mut queue.store_entries,
            memory,
            counts,
            event,
        );
        put(answer, i, answers, given, values);
        place = next;
        i += 1;
    }
    i
}

// Buffers of these lengths have room for so many events. `printed` tests for more, a memory too, and against constants.
fn have_room(events: usize, answers: usize, given: usize, values: usize) -> bool
    ensures { result ≡ leb events answers && leb events given && leb events values }
{
    events <= answers && events <= given && events <= values
}

// Replays the events of a trace from a place on, on a queue, on the memory and the counts as they are lent, and puts what each
// event is answered at the front of the buffers: its answer, 1 or 0 as it gave a value or none, and the value or 0. It says how many
// events were played. Nothing that was lent is changed where it answers a fault of an event, 30 or 10.
pub fn replay_from(
    queue: Queue,
    trace: &[u8],
    at: usize,
    memory: &mut [u32],
    counts: &mut Counts,
    answers: &mut [u8],
    given: &mut [u8],
    values: &mut [u32],
) -> Result<usize, Refusal>
    ensures { Replays memory.old counts.old
        (record { answers = answers.old; given = given.old; values = values.old })
        (replay_from (contents_of queue) (events_from trace.now at) memory.old counts.old
        (record { answers = answers.old; given = given.old; values = values.old }))
        (replayed_as result counts.new) memory.new (record { answers = answers.new; given = given.new; values = values.new }) }
{
    let events = count_events(trace, at)?;
    if memory.len() != queue.frame.memory_length as usize {
        return Err(Refusal::WrongMemory);
    }
    if !have_room(events, answers.len(), given.len(), values.len()) {
        return Err(Refusal::TooShort);
    }
    Ok(play_all(queue, counts, trace, at, memory, answers, given, values))
}

// Replays a trace from a fresh opening of the table, as its events are replayed; where it cannot be opened it answers that fault,
// and nothing that was lent is changed.
pub fn replay(
    table: Table,
    trace: &[u8],
    memory: &mut [u32],
    counts: &mut Counts,
    answers: &mut [u8],
    given: &mut [u8],
    values: &mut [u32],
) -> Result<usize, Refusal>
    ensures { Replays memory.old counts.old
        (record { answers = answers.old; given = given.old; values = values.old })
        (replay (groups_of table) trace.now memory.old counts.old
        (record { answers = answers.old; given = given.old; values = values.old }))
        (replayed_as result counts.new) memory.new (record { answers = answers.new; given = given.new; values = values.new }) }
{
    let opened = open_trace(table, trace);
    let queue = opened.queue?;
    replay_from(
        queue, trace, opened.at, memory, counts, answers, given, values,
    )
}
