// The stores of a row that joins at its seat. Nothing is refused here.
ghost use Rattle.std.specs.Prelude.{◌≡◌};
ghost use Rattle.renumber.specs.NumberWalk.{walked, written};
ghost use Rattle.join.specs.Store.{joined_at};

use crate::attach::attach;
use crate::seat::Seat;
use renumber::renumber;

// All stores, and how many rows were given a start.
pub fn store(
    fields: &mut [u16],
    numbers: &mut [u64],
    ancestors: &mut [u16],
    count: u16,
    seat: Seat,
) -> u16
    ensures { walked (written fields.new numbers.new ancestors.new) result ≡ joined_at (written fields.old numbers.old ancestors.old) count seat }
{
    let leaf = seat.leaf;
    let head = seat.head;
    attach(fields, count, leaf, seat.upper, seat.depth);
    renumber(fields, numbers, ancestors, head)
}
