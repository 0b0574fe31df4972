// The capacity that a table's parts and a tally fit.
ghost use Rattle.std.specs.Prelude.{◌≡◌};
ghost use Rattle.table.specs.Lent.{parts_in};
ghost use Rattle.tally.specs.Fit.{capacity_with};

use crate::layout::ENTRIES;
use table::capacity::capacity;
use table::parts::Parts;

pub fn capacity_with(parts: &Parts<'_>, tally: &[u16]) -> Option<usize>
    ensures { result ≡ capacity_with (parts_in parts.now) tally.now }
{
    if tally.len() != ENTRIES {
        return None;
    }
    capacity(parts)
}
