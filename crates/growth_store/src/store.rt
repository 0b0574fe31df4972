// The stores of a row that joins as planned. Nothing is refused here.
ghost use Rattle.std.specs.Prelude.{◌≡◌};
ghost use Rattle.table.specs.Lent.{parts_in_mut, SameLengths, SameLoans};
ghost use Rattle.growth_store.specs.Store.{given, marked, stored, plan_stored};

use growth_plan::row::{Marks, Plan};
use layer::layout::NONE;
use layer::write::put_field;
use table::layout::{FACE, LABEL, ROOT};
use table::level::put_level;
use table::parts::PartsMut;

// The leaf has 0 at a place, then row y, mostly the leaf itself, has v there.
fn give(fields: &mut [u16], place: u16, leaf: u16, y: u16, v: u16)
    ensures { fields.new ≡ given fields.old place leaf y v }
{
    put_field(fields, leaf, place, 0);
    put_field(fields, y, place, v);
}

// The label and the face go to the row that takes them; the row that records the leaf as its tree's root, if any, does so; the leaf itself records none.
fn mark(fields: &mut [u16], leaf: u16, m: Marks)
    ensures { fields.new ≡ marked fields.old leaf m }
{
    give(fields, LABEL, leaf, m.labelled, m.label);
    give(fields, FACE, leaf, m.labelled, m.face);
    put_field(fields, leaf, ROOT, NONE);
    put_field(fields, m.tree, ROOT, leaf);
}

// All stores, and how many rows were given a start.
pub fn store(parts: &mut PartsMut<'_>, count: u16, g: Plan) -> u16
    ensures stored { stored (parts_in_mut parts.new) result ≡ plan_stored (parts_in_mut parts.old) count g }
    ensures loans { SameLoans parts.old parts.new }
    ensures lengths { SameLengths parts.old parts.new }
{
    let seat = g.seat;
    let leaf = seat.leaf;
    let rows = join::store::store(parts.fields, parts.numbers, parts.ancestors, count, seat);
    let marks = g.marks;
    mark(parts.fields, leaf.row, marks);
    put_level(parts.levels, leaf.row, marks.level);
    rows
}
