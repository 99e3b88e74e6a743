// For C and Rust: a table read into its record, and tables, events and numbers written to lent buffers. C has a function for each, and a
// record for each answer: `lsq_write_table`, `lsq_write_event`, `lsq_write_number` and `lsq_page` are alike but for what they write.
ghost use Rattle.std.specs.Prelude.{◌≡◌};
ghost use Rattle.number.specs.Number.{number_bytes, written_reply, wrote};
ghost use Rattle.table.specs.Table.{groups_of};
ghost use Rattle.table.specs.TableBytes.{read_table, table_answer, wrote_table};
ghost use Rattle.trace.specs.Event.{wrote_event_of};
ghost use Rattle.live.specs.Bytes.{live_written, table_found};

use number::refusal::Refusal;
use number::writing::write_number;
use table::Table;
use table::read::read_table;
use table::write::write_table;
use trace::writing::write_event_of;

// What writing hands back: 0 and how many bytes were written, or the refusal and 0. `LiveWritten` and `TableFound` have a number with
// a value beside it, and are no `Result`, since C gets them.
#[repr(C)]
#[derive(Clone, Copy)]
pub struct LiveWritten {
    pub answer: u32,
    pub count: u64,
}

// What reading a table hands back: 0 and the table, or the refusal and the table of no groups, which means nothing.
#[repr(C)]
#[derive(Clone, Copy)]
pub struct TableFound {
    pub answer: u32,
    pub table: Table,
}

// The numbers of a writer's answer.
impl From<Result<usize, Refusal>> for LiveWritten {
    ghost from_gives = { λ written told. told ≡ live_written (written_reply written) };

    fn from(written: Result<usize, Refusal>) -> LiveWritten {
        match written {
            Ok(count) => LiveWritten {
                answer: 0,
                count: count as u64,
            },
            Err(refusal) => LiveWritten {
                answer: refusal.number() as u32,
                count: 0,
            },
        }
    }
}

// Reads a table: 1 to 9 or 42.
#[unsafe(no_mangle)]
pub extern "C" fn lsq_read_table(bytes: &[u8]) -> TableFound
    ensures { result ≡ table_found (table_answer (read_table bytes.now)) }
{
    match read_table(bytes) {
        Ok(table) => TableFound { answer: 0, table },
        Err(refusal) => TableFound {
            answer: refusal.number() as u32,
            table: Table::none(),
        },
    }
}

// Writes a table at the front of a buffer: 4, 5, 8, 6, 7, then 10.
#[unsafe(no_mangle)]
pub extern "C" fn lsq_write_table(table: Table, out: &mut [u8]) -> LiveWritten
    ensures answer { result ≡ live_written (wrote_table (groups_of table) out.old).answer }
    ensures buffer { out.new ≡ (wrote_table (groups_of table) out.old).buffer }
{
    LiveWritten::from(write_table(&table, out))
}

// Writes an event, by its kind and its numbers, at the front of a buffer: 35, then 10. The kind is a number, as C hands it in.
#[unsafe(no_mangle)]
pub extern "C" fn lsq_write_event(kind: u32, first: u32, second: u32, out: &mut [u8]) -> LiveWritten
    ensures answer { result ≡ live_written (wrote_event_of kind first second out.old).answer }
    ensures buffer { out.new ≡ (wrote_event_of kind first second out.old).buffer }
{
    LiveWritten::from(write_event_of(kind, first, second, out))
}

// Writes a number at the front of a buffer, in the fewest bytes: 10.
#[unsafe(no_mangle)]
pub extern "C" fn lsq_write_number(value: u32, out: &mut [u8]) -> LiveWritten
    ensures answer { result ≡ live_written (wrote (number_bytes value) out.old).answer }
    ensures buffer { out.new ≡ (wrote (number_bytes value) out.old).buffer }
{
    LiveWritten::from(write_number(value, out))
}
