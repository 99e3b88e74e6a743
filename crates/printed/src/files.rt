// Playing a table file and a trace file: which fault they have, or the run that they are. Both files and what is lent stay runs of their
// own: `play_files` is public, and C lends `lsq_text` two files and a replay its buffers so. `print` plays in a `PlayRoom`.
ghost use Rattle.std.specs.Prelude.{◌≡◌, ◌&&◌, leb, replicate};
ghost use Rattle.table.specs.Table.{groups_of};
ghost use Rattle.queue.specs.Contents.{contents_of};
ghost use Rattle.replay.specs.Events.{events_from};
ghost use Rattle.replay.specs.Replay.{start_of};
ghost use Rattle.printed.specs.Files.{most_bytes, most_words, start_files, trace_files, files};
ghost use Rattle.printed.specs.Played.{played_on, played_in, lent_by, HasPlayed};
ghost use Rattle.printed.specs.Internal.{Room, Playable, of_the_trace};

use counts::Counts;
use number::refusal::Refusal;
use queue::Queue;
use replay::counting::count_events;
use replay::preparing::open_trace;
use replay::replaying::replay_from;
use table::Table;
use table::read::read_table;

// A file is at most this long. It has no more events than bytes.
pub const MOST_BYTES: usize = 16384;

// No memory that a queue is opened for is longer.
pub const MOST_WORDS: usize = 4096;

// A run of the files: how many events were played, the memory length, and the counts that it leaves.
#[derive(Clone, Copy, PartialEq, Eq)]
pub struct FilesRun {
    pub events: usize,
    pub memory_length: usize,
    pub counts: Counts,
}

// Why the files are no run: a fault of the table, a fault of the trace, or what was lent is too short.
#[derive(Clone, Copy, Debug, PartialEq, Eq)]
pub enum FilesFault {
    Table(Refusal),
    Trace(Refusal),
    NoRoom(Refusal),
}

// What playing files is lent, with room for every two files: a memory, and for each event its answer, 1 or 0 as it gave a value or
// none, and the value or 0. These are three runs, as a replay is lent them by C.
#[derive(Drop)]
pub struct PlayRoom {
    pub memory: [u32; MOST_WORDS],
    pub answers: [u8; MOST_BYTES],
    pub given: [u8; MOST_BYTES],
    pub values: [u32; MOST_BYTES],
}

// A memory and buffers of these lengths have room for every file.
fn have_room(memory: usize, answers: usize, given: usize, values: usize) -> bool
    ensures { result ≡ leb most_words memory && (leb most_bytes answers && leb most_bytes given && leb most_bytes values) }
{
    MOST_WORDS <= memory && MOST_BYTES <= answers && MOST_BYTES <= given && MOST_BYTES <= values
}

// Plays the events of a trace from a place on, on a queue and a memory all zero.
fn play_events(
    queue: Queue,
    trace: &[u8],
    at: usize,
    memory: &mut [u32],
    answers: &mut [u8],
    given: &mut [u8],
    values: &mut [u32],
) -> Result<FilesRun, Refusal>
    requires { Playable (contents_of queue) trace.now memory.old (record { answers = answers.old; given = given.old; values = values.old }) }
    ensures { HasPlayed (played_on memory.old
        (record { answers = answers.old; given = given.old; values = values.old })
        (start_files (start_of (contents_of queue) (events_from trace.now at)))) (of_the_trace result) memory.new
        (record { answers = answers.new; given = given.new; values = values.new }) }
{
    let memory_length = queue.frame.memory_length as usize;
    let front = &mut memory[..memory_length];
    let mut counts = Counts::default();
    let events = replay_from(queue, trace, at, front, &mut counts, answers, given, values)?;
    Ok(FilesRun {
        events,
        memory_length,
        counts,
    })
}

// Plays a trace, once its table is read. Every fault is found before anything that was lent is changed; then the memory is cleared:
// "memory all zero", so what an earlier run left does not show in this one.
fn play_trace(
    table: Table,
    trace: &[u8],
    memory: &mut [u32],
    answers: &mut [u8],
    given: &mut [u8],
    values: &mut [u32],
) -> Result<FilesRun, Refusal>
    requires { Room memory.old (record { answers = answers.old; given = given.old; values = values.old }) }
    ensures { HasPlayed (played_on memory.old
        (record { answers = answers.old; given = given.old; values = values.old })
        (trace_files (groups_of table) trace.now)) (of_the_trace result) memory.new
        (record { answers = answers.new; given = given.new; values = values.new }) }
{
    if MOST_BYTES < trace.len() {
        return Err(Refusal::FileTooLong);
    }
    let opened = open_trace(table, trace);
    let queue = opened.queue?;
    count_events(trace, opened.at)?;
    memory.fill(0);
    play_events(queue, trace, opened.at, memory, answers, given, values)
}

// Plays both files' bytes. It is lent a memory of at least `MOST_WORDS` words and three buffers of at least `MOST_BYTES` places;
// where one is shorter it answers 10 before anything else. With that 10, and with every fault of a file, nothing that was lent is
// changed. A run leaves its words at the front of the memory, which was made all zero first, and what each event was answered at the
// front of the buffers.
pub fn play_files(
    table: &[u8],
    trace: &[u8],
    memory: &mut [u32],
    answers: &mut [u8],
    given: &mut [u8],
    values: &mut [u32],
) -> Result<FilesRun, FilesFault>
    ensures { HasPlayed (played_in memory.old
        (record { answers = answers.old; given = given.old; values = values.old })
        (files table.now trace.now)) result memory.new
        (record { answers = answers.new; given = given.new; values = values.new }) }
{
    if !have_room(memory.len(), answers.len(), given.len(), values.len()) {
        return Err(FilesFault::NoRoom(Refusal::TooShort));
    }
    if MOST_BYTES < table.len() {
        return Err(FilesFault::Table(Refusal::FileTooLong));
    }
    let groups = read_table(table).map_err(FilesFault::Table)?;
    play_trace(groups, trace, memory, answers, given, values).map_err(FilesFault::Trace)
}

impl PlayRoom {
    // It is empty: all of it is 0.
    pub fn new() -> PlayRoom
        ensures { result ≡ record {
          memory = replicate most_words 0;
          answers = replicate most_bytes 0;
          given = replicate most_bytes 0;
          values = replicate most_bytes 0;
        } }
    {
        PlayRoom {
            memory: [0; MOST_WORDS],
            answers: [0; MOST_BYTES],
            given: [0; MOST_BYTES],
            values: [0; MOST_BYTES],
        }
    }

    // Plays both files' bytes here. There is room for them, so only a file can be at fault.
    pub fn play(&mut self, table: &[u8], trace: &[u8]) -> Result<FilesRun, FilesFault>
        ensures { HasPlayed (played_on self.old.memory (lent_by self.old) (files table.now trace.now)) result self.new.memory
            (lent_by self.new) }
    {
        play_files(
            table,
            trace,
            &mut self.memory,
            &mut self.answers,
            &mut self.given,
            &mut self.values,
        )
    }
}
