// What the script works on.
use script::Bytes;
use table::parts::{pack_group, pack_pair};
use table::{Group, Pair, Span, Table};

// The bytes to read, the length of a buffer that is written to, whose bytes are EE before, and a table.
#[derive(Clone, Copy)]
pub(crate) struct Run {
    pub bytes: Bytes,
    pub length: usize,
    pub table: Table,
}

impl Run {
    // No `Default`, since a table has none (`Table::none`).
    pub(crate) fn fresh() -> Run {
        Run {
            bytes: Bytes {
                count: 0,
                values: [0; 128],
            },
            length: 0,
            table: Table::none(),
        }
    }
}

// One group, and 255 everywhere else: what no table may hold.
pub(crate) fn filled() -> Table {
    let pair = pack_pair(Pair {
        offset: 255,
        port: 255,
    });
    let span = Span {
        first: 255,
        count: 255,
    };
    let group = pack_group(Group {
        loads: span,
        stores: span,
    });
    Table {
        count: 1,
        groups: [group; 16],
        loads: [pair; 32],
        stores: [pair; 32],
    }
}
