// The joins of a link: the rows that wait, each alone, come one after another under the rows that their root fields name.
ghost use Rattle.std.specs.Prelude.{◌≡◌, ◌+◌, ◌*◌, pos, ◌+ℤ◌};
ghost use Rattle.table.specs.Lent.{parts_in_mut, SameLengths, SameLoans};
ghost use Rattle.table.specs.Parts.{level_at};
ghost use Rattle.layer.specs.Checked.{Holds};
ghost use Rattle.growth_store.specs.Store.{stored};
ghost use Rattle.growth_plan.specs.Level.{level_from};
ghost use Rattle.link_store.specs.JoinRow.{number_for, planned_stored, join_row};
ghost use Rattle.link_store.specs.Sort.{cell_at};
ghost use Rattle.link_store.specs.Walk.{within32, walking, joining, next_depth, join_turn, join_walk};

use cells::cell;
use growth_plan::level::leaf_level;
use growth_plan::row::{Marks, Planned, plan_row};
use growth_store::store::store;
use layer::layout::NONE;
use layer::row::field;
use table::layout::{FACE, LABEL, ROOT};
use table::level::level;
use table::parts::PartsMut;
use table::refusal::Refusal;

// Where the walk stands: a row, its depth below the linked root, and how many rows were renumbered.
#[derive(Drop)]
pub struct Joining {
    pub row: u16,
    pub depth: u16,
    pub rows: u32,
}

// The number of row z at a place: v for the linked root x, else its own.
fn number_for(fields: &[u16], place: u16, x: u16, v: u16, z: u16) -> u16
    ensures { result ≡ number_for fields.now place x v z }
{
    if z == x {
        return v;
    }
    field(fields, z, place)
}

// One level below row v, where that is a level.
fn level_under(levels: &[i32], v: u16) -> Option<i32>
    ensures { result ≡ level_from (level_at levels.now v) (level_at levels.now v +ℤ pos 1) }
{
    leaf_level(level(levels, v))
}

// What was planned: the stores, or nothing.
fn store_planned(parts: &mut PartsMut<'_>, n: u16, planned: Result<Planned, Refusal>) -> u16
    ensures stored { stored (parts_in_mut parts.new) result ≡ planned_stored (parts_in_mut parts.old) n planned }
    ensures loans { SameLoans parts.old parts.new }
    ensures lengths { SameLengths parts.old parts.new }
{
    match planned {
        Ok(Planned::Grow(g)) => store(parts, n, g),
        Ok(Planned::Start(_)) => 0,
        Err(_) => 0,
    }
}

// Row z joins, and how many rows that renumbers. The linked root x takes the door as its label, and the front.
fn join_row(parts: &mut PartsMut<'_>, n: u16, x: u16, door: u16, z: u16) -> u16
    requires { Holds n parts.old.fields.now parts.old.numbers.now }
    ensures stored { stored (parts_in_mut parts.new) result ≡ join_row (parts_in_mut parts.old) n x door z }
    ensures loans { SameLoans parts.old parts.new }
    ensures lengths { SameLengths parts.old parts.new }
{
    let lent = parts.read();
    let v = field(lent.fields, z, ROOT);
    let label = number_for(lent.fields, LABEL, x, door, z);
    let face = number_for(lent.fields, FACE, x, 0, z);
    let Some(level) = level_under(lent.levels, v) else {
        return 0;
    };
    let marks = Marks {
        level,
        labelled: z,
        label,
        face,
        tree: NONE,
    };
    let planned = plan_row(lent.fields, lent.numbers, lent.ancestors, n, z, v, marks);
    store_planned(parts, n, planned)
}

// Rows added up in 32 bits.
fn add_rows(total: u32, rows: u16) -> u32
    ensures { result ≡ within32 (total + rows) }
{
    total.saturating_add(u32::from(rows))
}

// On to the next depth, unless this was the last.
fn next_depth(heads: &[u16], n: u16, j: Joining) -> Joining
    ensures { result ≡ next_depth (cell_at heads.now) n j }
{
    if n <= j.depth {
        return j;
    }
    let depth = j.depth + 1;
    if n <= depth {
        return j;
    }
    Joining {
        row: cell(heads, depth),
        depth: depth,
        rows: j.rows,
    }
}

// One turn of the walk.
fn join_turn(
    parts: &mut PartsMut<'_>,
    heads: &[u16],
    links: &[u16],
    n: u16,
    x: u16,
    door: u16,
    j: Joining,
) -> Joining
    requires { Holds n parts.old.fields.now parts.old.numbers.now }
    ensures walked { walking (parts_in_mut parts.new) result ≡ join_turn (cell_at heads.now) (cell_at links.now) n x door (walking (parts_in_mut parts.old) j) }
    ensures loans { SameLoans parts.old parts.new }
    ensures lengths { SameLengths parts.old parts.new }
{
    if j.row == NONE {
        return next_depth(heads, n, j);
    }
    let next = cell(links, j.row);
    let rows = join_row(parts, n, x, door, j.row);
    Joining {
        row: next,
        depth: j.depth,
        rows: add_rows(j.rows, rows),
    }
}

// All rows of the lists, depth by depth; two turns for each row in use are enough.
pub fn join_walk(
    parts: &mut PartsMut<'_>,
    heads: &[u16],
    links: &[u16],
    n: u16,
    x: u16,
    door: u16,
) -> u32
    requires { Holds n parts.old.fields.now parts.old.numbers.now }
    ensures stored { stored (parts_in_mut parts.new) result ≡ join_walk (2 * n) (cell_at heads.now) (cell_at links.now) n x door (walking (parts_in_mut parts.old) (joining (cell_at heads.now 0) 0 0)) }
    ensures loans { SameLoans parts.old parts.new }
    ensures lengths { SameLengths parts.old parts.new }
{
    let mut j = Joining {
        row: cell(heads, 0),
        depth: 0,
        rows: 0,
    };
    for _ in 0..(n as u32) * 2 {
        j = join_turn(parts, heads, links, n, x, door, j);
    }
    j.rows
}
