// Nodes: rows whose level is in range. A level is checked where a level is read.
ghost use Rattle.std.specs.Prelude.{◌≡◌, ◌≤◌, ◌<◌, length};
ghost use Rattle.layer.specs.Row.{row_of};
ghost use Rattle.layer.specs.Checked.{Holds};
ghost use Rattle.table.specs.Level.{is_level};
ghost use Rattle.table.specs.Parts.{level_at};
ghost use Rattle.query.specs.Node.{is_node};

use row_check::is_row;
use table::level::is_level;

// The level of a row within the levels.
pub fn level_of(levels: &[i32], v: u16) -> i32
    requires { v < length levels.now }
    ensures { result ≡ level_at levels.now v }
{
    let i = v as usize;
    levels[i]
}

// It is in range.
pub fn has_level(levels: &[i32], v: u16) -> bool
    requires { v < length levels.now }
    ensures { result ≡ is_level (level_at levels.now v) }
{
    is_level(level_of(levels, v))
}

// v is a row in use that holds nothing out of range, and its level is in range.
pub fn is_node(fields: &[u16], numbers: &[u64], levels: &[i32], count: u16, v: u16) -> bool
    requires holds { Holds count fields.now numbers.now }
    requires count_in_bounds { count ≤ length levels.now }
    ensures { result ≡ is_node count (row_of fields.now numbers.now) (level_at levels.now) v }
{
    if !is_row(fields, numbers, count, v) {
        return false;
    }
    has_level(levels, v)
}
