// Rule 1, the trees: parents, depths and child links.
ghost use Rattle.std.specs.Prelude.{◌≡◌, ◌&&◌, eqb, ltb};
ghost use Rattle.laws.specs.Test.{bit};
ghost use Rattle.tree_laws.specs.Ancestor.{none};
ghost use Rattle.layer.specs.Layout.{last_place};
ghost use Rattle.layer.specs.Row.{field_at};
ghost use Rattle.inspect_laws.specs.Trees.{is_parent, is_depth, is_alone, are_links, are_parents, are_trees};
ghost use Rattle.inspect_tree.specs.Columns.{field_layer, parents};
ghost use Rattle.inspect_tree.specs.Links.{Follows};

use layer::layout::{DEPTH, FIRST, LAST, NEXT, NONE, PARENT};
use layer::row::field;

// The children of a row that were met from its first on, and the last of them.
#[derive(Drop)]
pub struct Chain {
    pub met: u16,
    pub last: u16,
}

// Row x has no stored parent, or one below n.
fn is_parent(fields: &[u16], n: u16, x: u16) -> bool
    ensures { result ≡ is_parent (field_layer fields.now n) x }
{
    let p = field(fields, x, PARENT);
    (p == NONE) | (p < n)
}

// The depth is 0 without a parent, else one more than the parent's.
fn is_depth(fields: &[u16], x: u16) -> bool
    ensures { result ≡ is_depth (field_layer fields.now 0) x }
{
    let p = field(fields, x, PARENT);
    let d = field(fields, x, DEPTH);
    if p == NONE {
        return d == 0;
    }
    d as u32 == field(fields, p, DEPTH) as u32 + 1
}

// Parent and depth of row x, which is one of n.
fn is_stored(fields: &[u16], n: u16, x: u16) -> bool
    ensures { result ≡ (is_parent (field_layer fields.now n) x && is_depth (field_layer fields.now 0) x) }
{
    is_parent(fields, n, x) & is_depth(fields, x)
}

// Parents and depths of the rows below n.
fn are_parents(fields: &[u16], n: u16) -> bool
    ensures { result ≡ are_parents (field_layer fields.now n) }
{
    (0..n).all(|x| is_stored(fields, n, x))
}

// Row c is one of n, a stored child of v.
fn is_child(fields: &[u16], n: u16, v: u16, c: u16) -> bool
    ensures { result ≡ (ltb c n && eqb (parents fields.now c) v) }
{
    (c < n) & (field(fields, c, PARENT) == v)
}

// Follows the next links from the first child of v, n steps at most; none where the chain does not end.
fn follow(fields: &[u16], n: u16, v: u16) -> Option<Chain>
    ensures { Follows (field_layer fields.now n) v result }
{
    let mut c = field(fields, v, FIRST);
    let mut last = NONE;
    for met in 0..n {
        if c == NONE {
            return Some(Chain { met, last });
        }
        if !is_child(fields, n, v, c) {
            return None;
        }
        last = c;
        c = field(fields, c, NEXT);
    }
    if c != NONE {
        return None;
    }
    Some(Chain { met: n, last })
}

// The last child of row x is `last`, and x has no siblings without a parent.
fn is_last(fields: &[u16], x: u16, last: u16) -> bool
    ensures { result ≡ (eqb (field_at fields.now x last_place) last && is_alone (field_layer fields.now 0) x) }
{
    (field(fields, x, LAST) == last)
        & ((field(fields, x, PARENT) != NONE) | (field(fields, x, NEXT) == NONE))
}

// 1 for the first row of a tree, else 0.
fn own_row(fields: &[u16], x: u16) -> u32
    ensures { result ≡ bit (eqb (parents fields.now x) none) }
{
    if field(fields, x, PARENT) == NONE {
        1
    } else {
        0
    }
}

// Child links of the rows below n: all chains end, and each row that is not the first of its tree is met.
fn are_links(fields: &[u16], n: u16) -> bool
    ensures { result ≡ are_links (field_layer fields.now n) }
{
    let mut rows: u32 = 0;
    for x in 0..n {
        let Some(k) = follow(fields, n, x) else {
            return false;
        };
        if !is_last(fields, x, k.last) {
            return false;
        }
        rows = rows + k.met as u32 + own_row(fields, x);
    }
    rows == n as u32
}

// Rule 1, the trees of n rows.
pub fn are_trees(fields: &[u16], n: u16) -> bool
    ensures { result ≡ are_trees (field_layer fields.now n) }
{
    if !are_parents(fields, n) {
        return false;
    }
    are_links(fields, n)
}
