// Live calls for C and Rust: a queue is a frame, which goes in and out by value as a C struct, and two runs of 64 numbers, its
// packed entries, which are lent. It is plain data with no pointer inside. Whatever a host hands in is tested (40), a run of
// another length first of all. The frame is lent on to the queue's own calls: between them no table is copied. The names, the records
// and the parameters are C's (bindings/c/lsq.h): so each argument, each call that moves and each that lists has its function, a frame
// goes with two runs, and the numbers of opening are loose. What is alike is said once, in `live_step` and `queue`.
ghost use Rattle.std.specs.Prelude.{◌≡◌, ◌&&◌};
ghost use Rattle.queue.specs.Entry.{bit};
ghost use Rattle.queue.specs.Contents.{contents_of};
ghost use Rattle.queue.specs.Sound.{sound};
ghost use Rattle.queue.specs.Open.{no_frame};
ghost use Rattle.queue.specs.Activate.{activate};
ghost use Rattle.queue.specs.Arguments.{load_address, store_address, store_data};
ghost use Rattle.queue.specs.Serve.{serve};
ghost use Rattle.queue.specs.Write.{write};
ghost use Rattle.queue.specs.Take.{take_rule};
ghost use Rattle.queue.specs.declared.Kind.TheVariants.{Load as load, Store as store};
ghost use Rattle.queue.specs.Ready.{ready, Readies};
ghost use Rattle.queue.specs.Outcome.{Moves};
ghost use Rattle.queue.specs.Parts.{whole, on_parts, queue_of, answered};
ghost use Rattle.number.specs.Reply.{and_then};
ghost use Rattle.replay.specs.Playing.{after_serve};
ghost use Rattle.live.specs.Calls.{LiveOpens, told_step, told_service, LiveTells, move_gives, take_gives, serve_gives, write_gives, memory_after, live_readied};
ghost use Rattle.live.specs.Internal.{live_step, live_service, live_ready, frame_opened};

use counts::Counts;
use number::refusal::{Refusal, number_of};
use queue::activation::activate_in;
use queue::arguments::{Argument, give_in};
use queue::opening::open_in;
use queue::ready::ready_in;
use queue::serving::serve_in;
use queue::sound::sound_in;
use queue::taking::take_in;
use queue::writing::write_in;
use queue::{Frame, Kind, Side};
use replay::playing::{value_given, value_word};
use table::Table;
use table::read::read_table;

// What opening hands back: its answer and the frame of a queue with no entry, so what the runs hold means nothing yet. `LiveOpened`,
// `LiveStep`, `LiveService` and `LiveReady` have an answer's number with values beside it, and are no `Result`, since C gets them; for
// the same reason the calls answer a number, 0 where they are accepted.
#[repr(C)]
#[derive(Clone, Copy)]
pub struct LiveOpened {
    pub answer: u32,
    pub frame: Frame,
}

// What a call that may move the sides hands back: its answer, 1 or 0 as it gave a value or none, the value or 0, and both sides
// that follow. The frame's table and memory length stay.
#[repr(C)]
#[derive(Clone, Copy)]
pub struct LiveStep {
    pub answer: u32,
    pub given: u32,
    pub value: u32,
    pub loads: Side,
    pub stores: Side,
}

// What a serve hands back: its answer, 1 or 0 as it gave a value or none, the value or 0, and the counts that follow.
#[repr(C)]
#[derive(Clone, Copy)]
pub struct LiveService {
    pub answer: u32,
    pub given: u32,
    pub value: u32,
    pub counts: Counts,
}

// What a ready call hands back: how many serials stand at the front of the lent run.
#[repr(C)]
#[derive(Clone, Copy)]
pub struct LiveReady {
    pub answer: u32,
    pub count: u64,
}

// The numbers of an answer to a call that may move the sides, and both sides as they are left. It and `live_service` are no `From`,
// since they make a record of two things.
fn live_step(answer: Result<Option<u32>, Refusal>, frame: &Frame) -> LiveStep
    ensures { result ≡ live_step answer frame.now }
{
    LiveStep {
        answer: number_of(&answer) as u32,
        given: value_given(answer) as u32,
        value: value_word(answer),
        loads: frame.loads,
        stores: frame.stores,
    }
}

// The numbers of an answer to a serve, and the counts that follow. The first three are told as in `live_step`, but C has two records.
fn live_service(answer: Result<Option<u32>, Refusal>, counts: Counts) -> LiveService
    ensures { result ≡ live_service answer counts }
{
    LiveService {
        answer: number_of(&answer) as u32,
        given: value_given(answer) as u32,
        value: value_word(answer),
        counts,
    }
}

// The numbers of an answer that counts serials. As for `LiveWritten`, but C has two records.
impl From<Result<usize, Refusal>> for LiveReady {
    ghost from_gives = { λ answer told. told ≡ live_ready answer };

    fn from(answer: Result<usize, Refusal>) -> LiveReady {
        match answer {
            Ok(count) => LiveReady {
                answer: 0,
                count: count as u64,
            },
            Err(refusal) => LiveReady {
                answer: refusal.number() as u32,
                count: 0,
            },
        }
    }
}

// The frame of no table, which a refused opening hands to C in place of none.
fn no_frame() -> Frame
    ensures { result ≡ no_frame }
{
    let side = Side {
        depth: 0,
        count: 0,
        next: 0,
    };
    Frame {
        table: Table::none(),
        memory_length: 0,
        loads: side,
        stores: side,
    }
}

// Opens a frame on a table's bytes.
fn open_bytes(
    table: &[u8],
    load_depth: u32,
    store_depth: u32,
    first: u32,
    memory_length: u32,
) -> Result<Frame, Refusal>
    ensures { LiveOpens table.now load_depth store_depth first memory_length (frame_opened result) }
{
    let groups = read_table(table)?;
    open_in(groups, load_depth, store_depth, first, memory_length)
}

// Opens a queue with no entry on a table's bytes: 1 to 9 or 42 of the table, then 11 to 14. A refused one gives the frame of no table.
#[unsafe(no_mangle)]
pub extern "C" fn lsq_open_in(
    table: &[u8],
    load_depth: u32,
    store_depth: u32,
    first: u32,
    memory_length: u32,
) -> LiveOpened
    ensures { LiveOpens table.now load_depth store_depth first memory_length result }
{
    match open_bytes(table, load_depth, store_depth, first, memory_length) {
        Ok(frame) => LiveOpened { answer: 0, frame },
        Err(refusal) => LiveOpened {
            answer: refusal.number() as u32,
            frame: no_frame(),
        },
    }
}

// 1 where no call would refuse these parts with 40, else 0.
#[unsafe(no_mangle)]
pub extern "C" fn lsq_sound_in(frame: Frame, loads: &[u64], stores: &[u64]) -> u32
    ensures { let q = queue_of frame loads.now stores.now in
        result ≡ bit (whole loads.now stores.now && sound (contents_of q)) }
{
    sound_in(&frame, loads, stores) as u32
}

// Queues the group's accesses, with no argument yet: 40, 20, 21.
#[unsafe(no_mangle)]
pub extern "C" fn lsq_activate_in(
    mut frame: Frame,
    loads: &mut [u64],
    stores: &mut [u64],
    group: u32,
) -> LiveStep
    ensures { let q = queue_of frame loads.old stores.old in
        let rule = on_parts loads.old stores.old (activate (contents_of q) group) in
        LiveTells q (and_then rule move_gives) (told_step frame result loads.new stores.new) }
{
    let answer = activate_in(&mut frame, loads, stores, group);
    live_step(answer.map(|()| None), &frame)
}

// Gives an address to the port's oldest load that has none: 40, 22, 23, 24. The frame stays.
#[unsafe(no_mangle)]
pub extern "C" fn lsq_load_address_in(
    frame: Frame,
    loads: &mut [u64],
    stores: &[u64],
    port: u32,
    address: u32,
) -> u32
    ensures { let q = queue_of frame loads.old stores.now in
        let rule = on_parts loads.old stores.now (load_address (contents_of q) port address) in
        Moves q rule (answered result (queue_of frame loads.new stores.now)) }
{
    let answer = give_in(&frame, loads, stores, Argument::LoadAddress, port, address);
    number_of(&answer) as u32
}

// Gives an address to the port's oldest store that has none: 40, 22, 23, 24. The frame stays.
#[unsafe(no_mangle)]
pub extern "C" fn lsq_store_address_in(
    frame: Frame,
    loads: &[u64],
    stores: &mut [u64],
    port: u32,
    address: u32,
) -> u32
    ensures { let q = queue_of frame loads.now stores.old in
        let rule = on_parts loads.now stores.old (store_address (contents_of q) port address) in
        Moves q rule (answered result (queue_of frame loads.now stores.new)) }
{
    let answer = give_in(&frame, stores, loads, Argument::StoreAddress, port, address);
    number_of(&answer) as u32
}

// Gives data to the port's oldest store that has none: 40, 22, 24. The frame stays.
#[unsafe(no_mangle)]
pub extern "C" fn lsq_store_data_in(
    frame: Frame,
    loads: &[u64],
    stores: &mut [u64],
    port: u32,
    word: u32,
) -> u32
    ensures { let q = queue_of frame loads.now stores.old in
        let rule = on_parts loads.now stores.old (store_data (contents_of q) port word) in
        Moves q rule (answered result (queue_of frame loads.now stores.new)) }
{
    let answer = give_in(&frame, stores, loads, Argument::StoreData, port, word);
    number_of(&answer) as u32
}

// Serves the load with this serial: 40, 30, 25, 26, 27, 28, 29. The frame stays.
#[unsafe(no_mangle)]
pub extern "C" fn lsq_serve_in(
    frame: Frame,
    loads: &mut [u64],
    stores: &[u64],
    memory: &[u32],
    mut counts: Counts,
    serial: u32,
) -> LiveService
    ensures tells { let q = queue_of frame loads.old stores.now in
        let rule = on_parts loads.old stores.now (serve (contents_of q) memory.now serial) in
        LiveTells q (and_then rule serve_gives) (told_service result (queue_of frame loads.new stores.now)) }
    ensures counts { let q = queue_of frame loads.old stores.now in
        result.counts ≡ after_serve counts (on_parts loads.old stores.now (serve (contents_of q) memory.now serial)) }
{
    let answer = serve_in(&frame, loads, stores, memory, &mut counts, serial);
    live_service(answer.map(Some), counts)
}

// Writes the store with this serial: 40, 30, 25, 26, 27, 29, 31, 32. Finished entries leave.
#[unsafe(no_mangle)]
pub extern "C" fn lsq_write_in(
    mut frame: Frame,
    loads: &mut [u64],
    stores: &mut [u64],
    memory: &mut [u32],
    serial: u32,
) -> LiveStep
    ensures tells { let q = queue_of frame loads.old stores.old in
        let rule = on_parts loads.old stores.old (write (contents_of q) memory.old serial) in
        LiveTells q (and_then rule write_gives) (told_step frame result loads.new stores.new) }
    ensures memory { let q = queue_of frame loads.old stores.old in
        memory.new ≡ memory_after memory.old (on_parts loads.old stores.old (write (contents_of q) memory.old serial)) }
{
    let answer = write_in(&mut frame, loads, stores, memory, serial);
    live_step(answer.map(|()| None), &frame)
}

// Takes the value of the port's oldest untaken load: 40, 22, 33, 34. Finished entries leave.
#[unsafe(no_mangle)]
pub extern "C" fn lsq_take_in(
    mut frame: Frame,
    loads: &mut [u64],
    stores: &mut [u64],
    port: u32,
) -> LiveStep
    ensures { let q = queue_of frame loads.old stores.old in
        let rule = on_parts loads.old stores.old (take_rule (contents_of q) port) in
        LiveTells q (and_then rule take_gives) (told_step frame result loads.new stores.new) }
{
    let answer = take_in(&mut frame, loads, stores, port);
    live_step(answer.map(Some), &frame)
}

// Puts the serials of the loads that serve would now accept at the front of the lent run: 40, 10. The queue stays.
#[unsafe(no_mangle)]
pub extern "C" fn lsq_ready_loads_in(
    frame: Frame,
    loads: &[u64],
    stores: &[u64],
    out: &mut [u32],
) -> LiveReady
    ensures { let q = queue_of frame loads.now stores.now in
        let rule = on_parts loads.now stores.now (ready load (contents_of q) out.old) in
        Readies q out.old rule (live_readied result q) out.new }
{
    LiveReady::from(ready_in(&frame, loads, stores, Kind::Load, out))
}

// The same for stores and write.
#[unsafe(no_mangle)]
pub extern "C" fn lsq_ready_stores_in(
    frame: Frame,
    loads: &[u64],
    stores: &[u64],
    out: &mut [u32],
) -> LiveReady
    ensures { let q = queue_of frame loads.now stores.now in
        let rule = on_parts loads.now stores.now (ready store (contents_of q) out.old) in
        Readies q out.old rule (live_readied result q) out.new }
{
    LiveReady::from(ready_in(&frame, loads, stores, Kind::Store, out))
}
