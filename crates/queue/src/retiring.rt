// How finished entries retire: "after each write or take, finished entries (stores written, loads taken) leave each side from
// its oldest end until an unfinished one is oldest".
ghost use Rattle.std.specs.Prelude.{◌≡◌, ◌+◌, ◌≤◌, length};
ghost use Rattle.queue.specs.Contents.{contents_of};
ghost use Rattle.queue.specs.Retire.{retiring, retire};
ghost use Rattle.queue.specs.Parts.{queue_of, OpenedAlike};
ghost use Rattle.queue.specs.Internal.{entries_in, Shifted, shorter};

use crate::entries::{pack, unpack};
use crate::{Frame, Side};

// How many entries at the oldest end are finished, and so retire. A finished entry behind an unfinished one keeps its place.
fn retiring(entries: &[u64]) -> usize
    ensures { result ≡ retiring (entries_in entries.now) }
{
    entries
        .iter()
        .take_while(|&&number| unpack(number).finished)
        .count()
}

// Moves the `left` entries behind the first `gone` to the front; each forgets `others`, as many of the other kind as retire too.
// "The number falls as those leave and then stays 0." By places, since each entry is read farther on in the run that it is put in. Both
// counts go beside the run: it is read behind the first and written at its front.
fn shift(entries: &mut [u64], gone: u8, left: u8, others: u8)
    requires { gone + left ≤ length entries.old }
    ensures { Shifted gone left others entries.old entries.new }
{
    let from = gone as usize;
    for i in 0..left as usize {
        let mut entry = unpack(entries[i + from]);
        entry.before = entry.before.saturating_sub(others);
        entries[i] = pack(entry);
    }
}

impl Side {
    // `gone` of its entries have retired.
    fn shorten(&mut self, gone: u8)
        requires { gone ≤ self.old.count }
        ensures { self.new ≡ shorter self.old gone }
    {
        self.count -= gone;
    }
}

// Finished entries retire; one that stays forgets those of the other kind that retired.
pub(crate) fn retire(frame: &mut Frame, load_entries: &mut [u64], store_entries: &mut [u64])
    requires loads { frame.old.loads.count ≤ length load_entries.old }
    requires stores { frame.old.stores.count ≤ length store_entries.old }
    ensures retires { contents_of (queue_of frame.new load_entries.new store_entries.new)
        ≡ retire (contents_of (queue_of frame.old load_entries.old store_entries.old)) }
    ensures opening { OpenedAlike frame.old frame.new }
{
    let loads_gone = retiring(frame.loads.held(load_entries)) as u8;
    let stores_gone = retiring(frame.stores.held(store_entries)) as u8;
    frame.loads.shorten(loads_gone);
    frame.stores.shorten(stores_gone);
    shift(load_entries, loads_gone, frame.loads.count, stores_gone);
    shift(store_entries, stores_gone, frame.stores.count, loads_gone);
}
