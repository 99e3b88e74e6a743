// Taking values: "take gives the value of the port's oldest untaken load". Letting one port's results overtake each other
// would misplace them.
ghost use Rattle.queue.specs.Contents.{contents_of};
ghost use Rattle.queue.specs.Take.{take_rule};
ghost use Rattle.queue.specs.Outcome.{Takes, gave};
ghost use Rattle.queue.specs.Parts.{queue_of, OpenedAlike, on_parts};

use crate::entries::{Mark, oldest_without, pack, unpack};
use crate::ports::has_port;
use crate::retiring::retire;
use crate::sound::check_parts;
use crate::{Frame, Kind, Queue};
use number::refusal::Refusal;

// Take on a queue's parts: 40, 22, 33, 34.
pub fn take_in(
    frame: &mut Frame,
    load_entries: &mut [u64],
    store_entries: &mut [u64],
    port: u32,
) -> Result<u32, Refusal>
    ensures takes { let q = queue_of frame.old load_entries.old store_entries.old in
        Takes q (on_parts load_entries.old store_entries.old (take_rule (contents_of q) port))
        (gave result (queue_of frame.new load_entries.new store_entries.new)) }
    ensures opening { OpenedAlike frame.old frame.new }
{
    check_parts(frame, load_entries, store_entries)?;
    if !has_port(&frame.table, Kind::Load, port) {
        return Err(Refusal::NoPort);
    }
    let Some(at) = oldest_without(frame.loads.held(load_entries), port, Mark::Finished) else {
        return Err(Refusal::NoneUntaken);
    };
    let mut load = unpack(load_entries[at]);
    if !load.filled {
        return Err(Refusal::NotServed);
    }
    load.finished = true;
    load_entries[at] = pack(load);
    retire(frame, load_entries, store_entries);
    Ok(load.word)
}

impl Queue {
    // Take the value of the port's oldest untaken load.
    pub fn take(&mut self, port: u32) -> Result<u32, Refusal>
        ensures { Takes self.old (take_rule (contents_of self.old) port) (gave result self.new) }
    {
        take_in(
            &mut self.frame,
            &mut self.load_entries,
            &mut self.store_entries,
            port,
        )
    }
}
