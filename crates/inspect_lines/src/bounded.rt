// Rule 1, labels and faces: each is one that a row may have, and that of each root is 0. Both are the field at a place, and go to a limit.
ghost use Rattle.std.specs.Prelude.{◌≡◌, ◌&&◌};
ghost use Rattle.inspect_lines_laws.specs.Bounded.{is_within, is_root_zero, are_bounded};
ghost use Rattle.inspect_lines.specs.Columns.{column, field_table};

use layer::layout::{NONE, PARENT};
use layer::row::field;
use table::layout::ROOT;

// The field goes to the limit.
fn is_within(fields: &[u16], place: u16, limit: u16, x: u16) -> bool
    ensures { result ≡ is_within (column fields.now place) limit x }
{
    field(fields, x, place) <= limit
}

// Where x is the first row of a tree, the field is 0 at the root that it records.
fn is_root_zero(fields: &[u16], place: u16, x: u16) -> bool
    ensures { result ≡ is_root_zero (field_table fields.now 0) (column fields.now place) x }
{
    if field(fields, x, PARENT) != NONE {
        return true;
    }
    let r = field(fields, x, ROOT);
    field(fields, r, place) == 0
}

// The field of row x, and that of the root which x records.
fn is_bounded(fields: &[u16], place: u16, limit: u16, x: u16) -> bool
    ensures { result ≡ (is_within (column fields.now place) limit x && is_root_zero (field_table fields.now 0) (column fields.now place) x) }
{
    is_within(fields, place, limit, x) & is_root_zero(fields, place, x)
}

// The field at this place, in n rows.
pub fn are_bounded(fields: &[u16], place: u16, limit: u16, n: u16) -> bool
    ensures { result ≡ are_bounded (field_table fields.now n) (column fields.now place) limit }
{
    (0..n).all(|x| is_bounded(fields, place, limit, x))
}
