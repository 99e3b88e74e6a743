// Playing one event: a call on the queue's parts, whose answer and value are put into the buffers.
ghost use Rattle.std.specs.Prelude.{◌≡◌, ◌<◌, length, true};
ghost use Rattle.number.specs.Reply.{number, reply};
ghost use Rattle.queue.specs.Outcome.{with_counts, may_give};
ghost use Rattle.queue.specs.Parts.{queue_of, whole, OpenedAlike};
ghost use Rattle.replay.specs.Playing.{value_of, given_in, word_in};
ghost use Rattle.replay.specs.Internal.{Plays, PutAnswer};

use counts::Counts;
use number::refusal::{Refusal, number_of};
use queue::Frame;
use queue::activation::activate_in;
use queue::arguments::{Argument, give_in};
use queue::serving::serve_in;
use queue::taking::take_in;
use queue::writing::write_in;
use trace::Event;

// Plays one event on a queue's parts, with the memory and the counts that the last one left. The parts are lent apart, as each call on them
// takes them.
pub(crate) fn play_event(
    frame: &mut Frame,
    loads: &mut [u64],
    stores: &mut [u64],
    memory: &mut [u32],
    counts: &mut Counts,
    event: Event,
) -> Result<Option<u32>, Refusal>
    requires { whole loads.old stores.old ≡ true }
    ensures plays { Plays (queue_of frame.old loads.old stores.old) counts.old memory.old event
        (with_counts (may_give result (queue_of frame.new loads.new stores.new)) counts.new) memory.new }
    ensures opening { OpenedAlike frame.old frame.new }
{
    match event {
        Event::Activate { group } => activate_in(frame, loads, stores, group).map(|()| None),
        Event::LoadAddress { port, address } => {
            give_in(frame, loads, stores, Argument::LoadAddress, port, address).map(|()| None)
        }
        Event::StoreAddress { port, address } => {
            give_in(frame, stores, loads, Argument::StoreAddress, port, address).map(|()| None)
        }
        Event::StoreData { port, word } => {
            give_in(frame, stores, loads, Argument::StoreData, port, word).map(|()| None)
        }
        Event::Serve { serial } => {
            serve_in(frame, loads, stores, memory, counts, serial).map(Some)
        }
        Event::Write { serial } => { write_in(frame, loads, stores, memory, serial).map(|()| None) }
        Event::Take { port } => take_in(frame, loads, stores, port).map(Some),
    }
}

// 1 where an answer gives a value, else 0. It and `value_word` have names, and are no `From`: each tells a part of an answer, as C is
// told it.
pub fn value_given(answer: Result<Option<u32>, Refusal>) -> u8
    ensures { result ≡ given_in (value_of answer) }
{
    match answer {
        Ok(Some(_)) => 1,
        _ => 0,
    }
}

// The value that an answer gives, or 0 where it gives none.
pub fn value_word(answer: Result<Option<u32>, Refusal>) -> u32
    ensures { result ≡ word_in (value_of answer) }
{
    match answer {
        Ok(Some(word)) => word,
        _ => 0,
    }
}

// Puts an answer and a value at a place of the buffers. They are three runs, since C lends them so.
pub(crate) fn put(
    answer: Result<Option<u32>, Refusal>,
    i: usize,
    answers: &mut [u8],
    given: &mut [u8],
    values: &mut [u32],
)
    requires { (i < length answers.old) × (i < length given.old) × (i < length values.old) }
    ensures { PutAnswer (number (reply answer)) (value_of answer) i (record { answers = answers.old; given = given.old; values = values.old })
        (record { answers = answers.new; given = given.new; values = values.new }) }
{
    answers[i] = number_of(&answer);
    given[i] = value_given(answer);
    values[i] = value_word(answer);
}
