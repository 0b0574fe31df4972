// What is decided before the first store where a row joins under a row.
ghost use Rattle.std.specs.Prelude.{◌≡◌};
ghost use Rattle.layer.specs.Checked.{Holds};
ghost use Rattle.join.specs.Seat.{upper_for, old_head, head_of, is_first, is_seated, is_whole, seat_at, seat_of};

use crate::attach::Leaf;
use crate::chain::top_of;
use crate::check_walk::check_walk;
use crate::copied::copies_links;
use crate::rows::Rows;
use counts::{one_more, steps_of};
use layer::layout::{DEPTH, LAST, NEXT_FREE, NONE, PARENT, PATH, SIZE, UPPER};
use layer::row::{field, number};
use renumber::Head;
use row_check::is_row;
use span::Span;

// Where a row will join: the leaf, its upper row and depth, and the head.
#[derive(Clone, Copy)]
pub struct Seat {
    pub leaf: Leaf,
    pub upper: u16,
    pub depth: u16,
    pub head: Head,
}

// The upper row of a leaf under p: p where it is an apex, else p's own; none where p has a parent that is no row in use.
fn upper_for(rows: &Rows<'_>, p: u16) -> u16
    ensures { result ≡ upper_for rows.now.fields.now rows.now.numbers.now rows.now.count p }
{
    let q = field(rows.fields, p, PARENT);
    if q == NONE {
        return p;
    }
    if !is_row(rows.fields, rows.numbers, rows.count, q) {
        return NONE;
    }
    if field(rows.fields, q, PATH) == p {
        return field(rows.fields, p, UPPER);
    }
    p
}

// An old head, with one row more below it.
fn old_head(fields: &[u16], top: u16) -> Head
    ensures { result ≡ old_head fields.now top }
{
    Head {
        row: top,
        upper: field(fields, top, UPPER),
        rows: one_more(field(fields, top, SIZE)),
    }
}

// The head: the top of the chain, or the leaf where the chain has none.
fn head_of(fields: &[u16], top: u16, leaf: u16, upper: u16) -> Head
    ensures { result ≡ head_of fields.now top leaf upper }
{
    if top == NONE {
        return Head {
            row: leaf,
            upper,
            rows: 1,
        };
    }
    old_head(fields, top)
}

// A head that is not the leaf and has no parent: the first row of a tree.
fn is_first(fields: &[u16], leaf: u16, head: u16) -> bool
    ensures { result ≡ is_first fields.now leaf head }
{
    if head == leaf {
        return false;
    }
    field(fields, head, PARENT) == NONE
}

// The head is the first row of a tree or has an upper row, and its span lies within the limit.
fn is_seated(fields: &[u16], numbers: &[u64], leaf: u16, head: Head) -> bool
    ensures { result ≡ is_seated fields.now numbers.now leaf head }
{
    let inside = Span::new(number(numbers, head.upper, NEXT_FREE), head.rows).within_limit();
    let first = is_first(fields, leaf, head.row);
    (first | (head.upper != NONE)) & inside
}

// The walk below a head that is not the leaf meets as many rows as its size says.
fn is_whole(rows: &Rows<'_>, leaf: Leaf, head: Head) -> bool
    ensures { result ≡ is_whole rows.now.fields.now rows.now.numbers.now rows.now.count leaf head }
{
    if head.row == leaf.row {
        return true;
    }
    check_walk(rows, leaf, head.row, steps_of(head.rows))
}

// The seat of the leaf z under p whose chain has this top; none where something read is out of range.
fn seat_at(
    rows: &Rows<'_>,
    ancestors: &[u16],
    z: u16,
    p: u16,
    upper: u16,
    top: u16,
    depth: u16,
) -> Option<Seat>
    ensures { result ≡ seat_at rows.now.fields.now rows.now.numbers.now ancestors.now rows.now.count z p upper top depth }
{
    let leaf = Leaf {
        row: z,
        parent: p,
        prev: field(rows.fields, p, LAST),
    };
    let head = head_of(rows.fields, top, z, upper);
    if !is_seated(rows.fields, rows.numbers, z, head) {
        return None;
    }
    if !is_whole(rows, leaf, head) {
        return None;
    }
    if !copies_links(ancestors, rows.count, head.upper) {
        return None;
    }
    Some(Seat {
        leaf,
        upper,
        depth,
        head,
    })
}

// The seat of the row z as a leaf under p, none where something read is out of range: z is the count, or a row in use that is a tree by itself.
pub fn seat_of(
    fields: &[u16],
    numbers: &[u64],
    ancestors: &[u16],
    count: u16,
    z: u16,
    p: u16,
) -> Option<Seat>
    requires { Holds count fields.now numbers.now }
    ensures { result ≡ seat_of fields.now numbers.now ancestors.now count z p }
{
    if !is_row(fields, numbers, count, p) {
        return None;
    }
    let rows = Rows {
        fields,
        numbers,
        count,
    };
    let upper = upper_for(&rows, p);
    let top = top_of(&rows, upper)?;
    let depth = one_more(field(fields, p, DEPTH));
    seat_at(&rows, ancestors, z, p, upper, top, depth)
}
