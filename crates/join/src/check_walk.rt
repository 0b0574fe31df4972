// The walk below a head before the first store, over the links as they will stand.
ghost use Rattle.std.specs.Prelude.{◌≡◌, true, Some};
ghost use Rattle.join.specs.CheckWalk.{is_readable, entered, check_turn, check_walk};

use crate::attach::{Leaf, first_after, next_after, parent_after};
use crate::rows::Rows;
use layer::layout::NONE;
use renumber::place::Place;
use row_check::is_row;

// Row c is the leaf, or holds nothing out of range.
fn is_readable(rows: &Rows<'_>, leaf: Leaf, c: u16) -> bool
    ensures { result ≡ is_readable rows.now.fields.now rows.now.numbers.now rows.now.count leaf c }
{
    if c == leaf.row {
        return true;
    }
    is_row(rows.fields, rows.numbers, rows.count, c)
}

// Down into c, or up out of v where c is none; nowhere where c is not as it should be, a child of v. A step of the check walk is twice as slow where this is
// left a call.
#[inline(always)]
fn enter(rows: &Rows<'_>, leaf: Leaf, v: u16, c: u16) -> Option<Place>
    ensures { result ≡ entered rows.now.fields.now rows.now.numbers.now rows.now.count leaf v c }
{
    if c == NONE {
        return Some(Place {
            row: v,
            down: false,
        });
    }
    let readable = is_readable(rows, leaf, c);
    let child = parent_after(rows.fields, leaf, c) == v;
    if readable & child {
        return Some(Place { row: c, down: true });
    }
    None
}

// One step; none up out of the head.
fn check_turn(rows: &Rows<'_>, leaf: Leaf, head: u16, t: Place) -> Option<Place>
    ensures { result ≡ check_turn rows.now.fields.now rows.now.numbers.now rows.now.count leaf head t }
{
    let v = t.row;
    if t.down {
        let first = first_after(rows.fields, leaf, v);
        return enter(rows, leaf, v, first);
    }
    if v == head {
        return None;
    }
    let parent = parent_after(rows.fields, leaf, v);
    enter(rows, leaf, parent, next_after(rows.fields, leaf, v))
}

// So many steps from the head lead down to all rows below it and back up to it.
pub fn check_walk(rows: &Rows<'_>, leaf: Leaf, head: u16, steps: u32) -> bool
    ensures { result ≡ check_walk steps rows.now.fields.now rows.now.numbers.now rows.now.count leaf head (Some (record { row = head; down = true })) }
{
    let mut t = Place {
        row: head,
        down: true,
    };
    for _ in 0..steps {
        let Some(next) = check_turn(rows, leaf, head, t) else {
            return false;
        };
        t = next;
    }
    !t.down & (t.row == head)
}
