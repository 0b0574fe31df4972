// The capacity that lent parts fit.
ghost use Rattle.std.specs.Prelude.{◌≡◌};
ghost use Rattle.table.specs.Capacity.{capacity_of};
ghost use Rattle.table.specs.Lent.{parts_in};

use crate::parts::Parts;
use layer::layout::{ENTRIES, FIELDS, NUMBERS};

// The most rows a table may have.
pub const LARGEST: usize = 32768;

// The capacity that the parts fit, or none.
pub fn capacity(parts: &Parts<'_>) -> Option<usize>
    ensures { result ≡ capacity_of (parts_in parts.now) }
{
    let n = parts.levels.len();
    if n < 1 {
        return None;
    }
    if LARGEST < n {
        return None;
    }
    if parts.fields.len() != n * FIELDS {
        return None;
    }
    if parts.numbers.len() != n * NUMBERS {
        return None;
    }
    if parts.ancestors.len() != n * ENTRIES {
        return None;
    }
    Some(n)
}
