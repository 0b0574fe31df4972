// The head that a growth or a link names, held against the stored trees of the table.
use crate::tree::{CAPACITY, NONE};
use growth::Growth;
use layer::layout::{PARENT, SIZE};
use layer::row::field;
use link::Joined;

// Whether x is this row or lies below it, by stored parents.
fn is_under(fields: &[u16], x: u16, row: u16) -> bool {
    let mut at = x;
    for _ in 0..CAPACITY {
        if at == row {
            return true;
        }
        if at == NONE {
            return false;
        }
        at = field(fields, at, PARENT);
    }
    false
}

// Whether the new node is of the head's rows, and these are as many as were renumbered.
pub fn heads_growth(fields: &[u16], g: &Growth) -> bool {
    field(fields, g.head, SIZE) == g.rows && is_under(fields, g.node, g.head)
}

// Whether the head is the first row of the tree of v.
pub fn heads_link(fields: &[u16], v: u16, l: &Joined) -> bool {
    field(fields, l.head, PARENT) == NONE && is_under(fields, v, l.head)
}
