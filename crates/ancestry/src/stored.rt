// The stored answer from the compressed one: where the paths of both sides meet, and the branches from there.
ghost use Rattle.std.specs.Prelude.{◌≡◌, ◌*◌, ◌≤◌, eqb, length};
ghost use Rattle.span.specs.Constants.{limit};
ghost use Rattle.tree_laws.specs.StoredFromCompressed.{path_row, higher, branch_at};
ghost use Rattle.layer.specs.Layout.{parent_place, path_place, depth_place, entry_stride};
ghost use Rattle.layer.specs.Row.{field_at, row_of};
ghost use Rattle.layer.specs.Layer.{layer_of};
ghost use Rattle.layer.specs.Checked.{Holds, IsRow};
ghost use Rattle.ancestry.specs.Reading.{InFields, column_of};
ghost use Rattle.ancestry.specs.CompressedStep.{compressed_side};
ghost use Rattle.ancestry.specs.StoredAnswer.{Asked, forked, met, is_on_row, join, joined, stored_from, stored_answer};
ghost use Rattle.ancestry.specs.AnswerRows.{SideRows};
ghost use Rattle.ancestry.specs.PathFields.{PathFields};

use crate::compressed::{Side, side_from};
use crate::row::{entry_of, field_of, p_at};
use layer::layout::{DEPTH, NONE, PARENT, PATH};
use row_check::is_row;
use span::rank;

// A nearest common ancestor and the branches towards both nodes. There is none where a row that was met is not sound, or a row sought is missing.
#[derive(Clone, Copy)]
pub struct Fork {
    pub nca: u16,
    pub to_x: u16,
    pub to_y: u16,
}

// The row that the path row is read off is sound; known is a sound row.
fn is_on_row(fields: &[u16], numbers: &[u64], count: u16, known: u16, s: Side) -> bool
    requires holds { Holds count fields.now numbers.now }
    requires row { IsRow count (row_of fields.now numbers.now) known }
    requires side_rows { SideRows count (row_of fields.now numbers.now) s }
    ensures { result ≡ is_on_row count (row_of fields.now numbers.now) s }
{
    let w = s.below;
    if w == s.row {
        return true;
    }
    let u = field_of(fields, w, PARENT);
    if u == known {
        return true;
    }
    is_row(fields, numbers, count, u)
}

// Row w is the next one on the path of its parent u.
fn is_next(fields: &[u16], u: u16, w: u16) -> bool
    requires { InFields fields.now u }
    ensures { result ≡ eqb (field_at fields.now u path_place) w }
{
    field_of(fields, u, PATH) == w
}

// The lowest row of the path of s.row that is at or above s.below.
fn path_row(fields: &[u16], s: Side) -> u16
    requires { PathFields fields.now s }
    ensures { result ≡ path_row (column_of fields.now parent_place) (column_of fields.now path_place) s.row s.below }
{
    let w = s.below;
    if w == s.row {
        return w;
    }
    let u = field_of(fields, w, PARENT);
    if u == NONE {
        return u;
    }
    if is_next(fields, u, w) {
        return w;
    }
    u
}

// The higher of two rows.
fn higher(fields: &[u16], a: u16, b: u16) -> u16
    requires in_fields { InFields fields.now a }
    requires in_fields_2 { InFields fields.now b }
    ensures { result ≡ higher (column_of fields.now depth_place) a b }
{
    let depth_a = field_of(fields, a, DEPTH);
    let depth_b = field_of(fields, b, DEPTH);
    if depth_a <= depth_b {
        return a;
    }
    b
}

// The branch from row a to the side whose path row is b and whose compressed branch is w.
fn branch_at(fields: &[u16], a: u16, b: u16, w: u16) -> u16
    requires { InFields fields.now a }
    ensures { result ≡ branch_at (column_of fields.now path_place) a b w }
{
    if a == b {
        return w;
    }
    field_of(fields, a, PATH)
}

// A fork whose branches must be rows.
pub fn forked(nca: u16, to_x: u16, to_y: u16) -> Option<Fork>
    ensures { result ≡ forked nca to_x to_y }
{
    if (to_x == NONE) | (to_y == NONE) {
        return None;
    }
    Some(Fork { nca, to_x, to_y })
}

// The stored answer, where both path rows are read off sound rows.
fn meet(fields: &[u16], c: Side, k: Side) -> Option<Fork>
    requires path_fields { PathFields fields.now c }
    requires path_fields_2 { PathFields fields.now k }
    ensures { result ≡ met (column_of fields.now parent_place) (column_of fields.now path_place) (column_of fields.now depth_place) c k }
{
    let b = path_row(fields, c);
    let d = path_row(fields, k);
    let a = higher(fields, b, d);
    let to_x = branch_at(fields, a, b, c.below);
    let to_y = branch_at(fields, a, d, k.below);
    forked(a, to_x, to_y)
}

// The stored answer from the compressed one, the sides c of x and k of y.
fn join(fields: &[u16], numbers: &[u64], count: u16, c: Side, k: Side) -> Option<Fork>
    requires holds { Holds count fields.now numbers.now }
    requires side_rows { SideRows count (row_of fields.now numbers.now) c }
    requires side_rows_2 { SideRows count (row_of fields.now numbers.now) k }
    ensures { result ≡ join count (row_of fields.now numbers.now) c k }
{
    let known = c.row;
    if !is_on_row(fields, numbers, count, known, c) {
        return None;
    }
    if !is_on_row(fields, numbers, count, known, k) {
        return None;
    }
    meet(fields, c, k)
}

// The stored answer for x and y, unequal nodes whose numbers px and py are d apart, by their sides.
fn sides_joined(
    fields: &[u16],
    numbers: &[u64],
    ancestors: &[u16],
    count: u16,
    d: u64,
    px: u64,
    py: u64,
    x: u16,
    y: u16,
) -> Option<Fork>
    requires holds { Holds count fields.now numbers.now }
    requires entry_stride_in_bounds { count * entry_stride ≤ length ancestors.now }
    requires asked { Asked count (row_of fields.now numbers.now) x y }
    requires d_le_limit { d ≤ limit }
    ensures { result ≡ joined count (row_of fields.now numbers.now) (compressed_side (layer_of fields.now numbers.now ancestors.now count) d py x) (compressed_side (layer_of fields.now numbers.now ancestors.now count) d px y) }
{
    let i = rank(d) as u16;
    let e = entry_of(ancestors, x, i);
    let c = side_from(fields, numbers, count, x, e, d, py, x)?;
    let g = entry_of(ancestors, y, i);
    let k = side_from(fields, numbers, count, c.row, g, d, px, y)?;
    join(fields, numbers, count, c, k)
}

// The stored answer for x and y, whose numbers are px and py.
fn stored_from(
    fields: &[u16],
    numbers: &[u64],
    ancestors: &[u16],
    count: u16,
    px: u64,
    py: u64,
    x: u16,
    y: u16,
) -> Option<Fork>
    requires holds { Holds count fields.now numbers.now }
    requires entry_stride_in_bounds { count * entry_stride ≤ length ancestors.now }
    requires asked { Asked count (row_of fields.now numbers.now) x y }
    requires px_le_limit { (px ≤ limit) × (py ≤ limit) }
    ensures { result ≡ stored_from (layer_of fields.now numbers.now ancestors.now count) px py x y }
{
    if x == y {
        return Some(Fork {
            nca: x,
            to_x: x,
            to_y: x,
        });
    }
    if px == py {
        return None;
    }
    let d = px.abs_diff(py);
    sides_joined(fields, numbers, ancestors, count, d, px, py, x, y)
}

// The stored answer for x and y.
pub fn stored_answer(
    fields: &[u16],
    numbers: &[u64],
    ancestors: &[u16],
    count: u16,
    x: u16,
    y: u16,
) -> Option<Fork>
    requires holds { Holds count fields.now numbers.now }
    requires entry_stride_in_bounds { count * entry_stride ≤ length ancestors.now }
    requires asked { Asked count (row_of fields.now numbers.now) x y }
    ensures { result ≡ stored_answer (layer_of fields.now numbers.now ancestors.now count) x y }
{
    let px = p_at(fields, numbers, x);
    let py = p_at(fields, numbers, y);
    stored_from(fields, numbers, ancestors, count, px, py, x, y)
}
