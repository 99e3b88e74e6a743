// Keeping the record: "each accepted take updates a record".
ghost use Rattle.std.specs.Prelude.{◌≡◌};
ghost use Rattle.queue.specs.Contents.{contents_of};
ghost use Rattle.queue.specs.Take.{take_rule};
ghost use Rattle.queue.specs.Outcome.{gave};
ghost use Rattle.shift.specs.Record.{no_takes, recorded};
ghost use Rattle.shift.specs.Outcome.{TakesRecorded, with_record};

use crate::ShiftRecord;
use number::refusal::Refusal;
use queue::Queue;

impl ShiftRecord {
    // The record before any take. It has a name, and is no `Default`, which would not say that nothing was taken.
    pub fn none() -> ShiftRecord
        ensures { result ≡ no_takes }
    {
        ShiftRecord {
            takes: [0; 32],
            values: [0; 32],
        }
    }

    // A value was taken at a port: this port's two numbers change. The count stops at 4294967295. A port above 31, which no table has,
    // changes nothing.
    pub fn record(&mut self, port: u32, value: u32)
        ensures { self.new ≡ recorded port value self.old }
    {
        if 32 <= port {
            return;
        }
        let place = port as usize;
        self.takes[place] = self.takes[place].saturating_add(1);
        self.values[place] = value;
    }
}

// Takes the value of a port's oldest untaken load, and keeps the record of it: 40, 22, 33, 34. A refused take leaves the queue and the
// record as they were.
pub fn take_recorded(queue: &mut Queue, kept: &mut ShiftRecord, port: u32) -> Result<u32, Refusal>
    ensures { TakesRecorded queue.old kept.old port (take_rule (contents_of queue.old) port)
        (with_record (gave result queue.new) kept.new) }
{
    let value = queue.take(port)?;
    kept.record(port, value);
    Ok(value)
}
