// A leaf: its links as they will stand, and its row in the layer.
ghost use Rattle.std.specs.Prelude.{◌≡◌};
ghost use Rattle.join.specs.Attach.{first_after, next_after, parent_after, new_links, new_values, first_of, linked, attached};

use crate::chain::raise;
use layer::layout::{DEPTH, FIRST, LAST, NEXT, NONE, PARENT, PATH, SET_SIZE, SIZE, UPPER};
use layer::row::field;
use layer::write::put_field;

// The new row, its parent, and the last child that the parent has so far.
#[derive(Clone, Copy)]
pub struct Leaf {
    pub row: u16,
    pub parent: u16,
    pub prev: u16,
}

// The first child of the leaf's parent, with the leaf.
fn first_of(fields: &[u16], leaf: Leaf) -> u16
    ensures { result ≡ first_of fields.now leaf }
{
    if leaf.prev == NONE {
        return leaf.row;
    }
    field(fields, leaf.parent, FIRST)
}

// The first child of v as it will stand.
pub fn first_after(fields: &[u16], leaf: Leaf, v: u16) -> u16
    ensures { result ≡ first_after fields.now leaf v }
{
    if v == leaf.row {
        return NONE;
    }
    if v == leaf.parent {
        return first_of(fields, leaf);
    }
    field(fields, v, FIRST)
}

// The next sibling of v as it will stand.
pub fn next_after(fields: &[u16], leaf: Leaf, v: u16) -> u16
    ensures { result ≡ next_after fields.now leaf v }
{
    if v == leaf.row {
        return NONE;
    }
    if v == leaf.prev {
        return leaf.row;
    }
    field(fields, v, NEXT)
}

// The parent of v as it will stand.
pub fn parent_after(fields: &[u16], leaf: Leaf, v: u16) -> u16
    ensures { result ≡ parent_after fields.now leaf v }
{
    if v == leaf.row {
        return leaf.parent;
    }
    field(fields, v, PARENT)
}

// The links of the new row.
pub fn put_links(fields: &mut [u16], x: u16, parent: u16, upper: u16)
    ensures { fields.new ≡ new_links fields.old x parent upper }
{
    put_field(fields, x, PARENT, parent);
    put_field(fields, x, FIRST, NONE);
    put_field(fields, x, LAST, NONE);
    put_field(fields, x, NEXT, NONE);
    put_field(fields, x, UPPER, upper);
    put_field(fields, x, PATH, NONE);
}

// The numbers of the new row.
fn put_values(fields: &mut [u16], x: u16, depth: u16)
    ensures { fields.new ≡ new_values fields.old x depth }
{
    put_field(fields, x, SIZE, 1);
    put_field(fields, x, SET_SIZE, 0);
    put_field(fields, x, DEPTH, depth);
}

// The links to the new row from its parent and its last sibling.
fn link(fields: &mut [u16], leaf: Leaf)
    ensures { fields.new ≡ linked fields.old leaf }
{
    let first = first_of(fields, leaf);
    put_field(fields, leaf.parent, FIRST, first);
    put_field(fields, leaf.prev, NEXT, leaf.row);
    put_field(fields, leaf.parent, LAST, leaf.row);
}

// The row, linked, with one more in each size of its chain.
pub fn attach(fields: &mut [u16], count: u16, leaf: Leaf, upper: u16, depth: u16)
    ensures { fields.new ≡ attached count fields.old leaf upper depth }
{
    put_links(fields, leaf.row, leaf.parent, upper);
    put_values(fields, leaf.row, depth);
    link(fields, leaf);
    raise(fields, count, upper);
}
