// For C and Rust: a group's order from pairs "must come before", and the table of the group in an order.
ghost use Rattle.std.specs.Prelude.{◌≡◌};
ghost use Rattle.ordering.specs.Answer.{answer};
ghost use Rattle.ordering.specs.Records.{precedences_of, ordered};
ghost use Rattle.grouping.specs.Grouping.{groups_in_order};
ghost use Rattle.table.specs.TableBytes.{pack};

use grouping::{Accesses, table_in_order};
use ordering::{Ordered, Precedences, order};
use table::Table;

// The first order, compared by access number from the left, that respects all pairs: 43, then 44.
#[unsafe(no_mangle)]
pub extern "C" fn lsq_order(accesses: u32, pairs: Precedences) -> Ordered
    ensures { result ≡ ordered (answer accesses (precedences_of pairs)) }
{
    order(accesses, &pairs)
}

// The table whose one group has the accesses in this order. Where the record is a refusal, or has a count or an access above what an
// order has, it is the table of no groups, which writing and opening refuse with 4.
#[unsafe(no_mangle)]
pub extern "C" fn lsq_table_in_order(order: Ordered, accesses: Accesses) -> Table
    ensures { result ≡ pack (groups_in_order order accesses) }
{
    table_in_order(&order, &accesses)
}
