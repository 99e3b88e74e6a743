// For C and Rust: the shift record, and its page.
ghost use Rattle.std.specs.Prelude.{◌≡◌};
ghost use Rattle.shift.specs.Record.{recorded};
ghost use Rattle.shift.specs.Page.{page_written};
ghost use Rattle.live.specs.Bytes.{live_written};

use crate::bytes::LiveWritten;
use shift::ShiftRecord;
use shift::page::write_page;

// The record once this value was taken at this port, which is what a take that was answered 0 leaves of it; after a refused one the
// record stays. A port above 31 changes nothing.
#[unsafe(no_mangle)]
pub extern "C" fn lsq_recorded(mut kept: ShiftRecord, port: u32, value: u32) -> ShiftRecord
    ensures { result ≡ recorded port value kept }
{
    kept.record(port, value);
    kept
}

// Writes the page of a record at the front of a buffer: 41.
#[unsafe(no_mangle)]
pub extern "C" fn lsq_page(kept: ShiftRecord, out: &mut [u8]) -> LiveWritten
    ensures answer { result ≡ live_written (page_written kept out.old).answer }
    ensures buffer { out.new ≡ (page_written kept out.old).buffer }
{
    LiveWritten::from(write_page(&kept, out))
}
