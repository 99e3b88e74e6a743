// The calls on the queue: each prints its answer and its value, and whether what was lent came back as it was. The output and the run go
// side by side, here and in the other files, as `Obeys` lends them.
use crate::command::{CALLS, Call};
use crate::run::{Run, copied};
use crate::{ready, show};
use number::refusal::Refusal;
use queue::Queue;
use std::io;
use std::io::Write;

// Of a call that gives no value.
fn no_value(answer: Result<(), Refusal>) -> Result<Option<u32>, Refusal> {
    answer.map(|()| None)
}

// Prints what a call on the queue alone answered, and whether it moved the queue.
fn shown(
    out: &mut impl Write,
    before: &Queue,
    after: &Queue,
    answer: Result<Option<u32>, Refusal>,
) -> io::Result<()> {
    show::answer(out, answer)?;
    show::same(out, "", *before == *after)
}

// Each of these keeps what its call is lent, which differs from call to call, and prints by `shown`.
fn take(out: &mut impl Write, run: &mut Run, port: u32) -> io::Result<()> {
    let before = run.queue;
    let answer = run.queue.take(port).map(Some);
    shown(out, &before, &run.queue, answer)
}

fn serve(out: &mut impl Write, run: &mut Run, serial: u32) -> io::Result<()> {
    let before = run.queue;
    let counts = run.counts;
    let answer = run.queue.serve(&run.memory, &mut run.counts, serial);
    shown(out, &before, &run.queue, answer.map(Some))?;
    show::same(out, " counts", counts == run.counts)
}

fn write(out: &mut impl Write, run: &mut Run, serial: u32) -> io::Result<()> {
    let before = run.queue;
    let memory = copied(&run.memory);
    let answer = run.queue.write(&mut run.memory, serial);
    shown(out, &before, &run.queue, no_value(answer))?;
    show::same(out, " memory", memory == run.memory)
}

// A call that is lent nothing and gives no value: `call` hands on only these four.
fn plain(
    out: &mut impl Write,
    run: &mut Run,
    call: Call,
    first: u32,
    second: u32,
) -> io::Result<()> {
    let before = run.queue;
    let queue = &mut run.queue;
    let answer = match call {
        Call::LoadAddress => queue.load_address(first, second),
        Call::StoreAddress => queue.store_address(first, second),
        Call::StoreData => queue.store_data(first, second),
        _ => queue.activate(first),
    };
    shown(out, &before, &run.queue, no_value(answer))
}

pub(crate) fn call(
    out: &mut impl Write,
    run: &mut Run,
    call: Call,
    first: u32,
    second: u32,
) -> io::Result<()> {
    match call {
        Call::Take => take(out, run, first),
        Call::Serve => serve(out, run, first),
        Call::Write => write(out, run, first),
        Call::Ready(kind) => ready::ready(out, &run.queue, kind, first as usize),
        _ => plain(out, run, call, first, second),
    }
}

// The nine calls, with 0 for every number, each on the record as it stands; the record stays as it is.
pub(crate) fn each(out: &mut impl Write, run: &Run) -> io::Result<()> {
    for each in CALLS {
        call(out, &mut run.copy(), each, 0, 0)?;
    }
    Ok(())
}
