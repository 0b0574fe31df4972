// The rows of a tree detached: each stands alone, and its root field, which says nothing in such a row, holds the row that it will come under.
ghost use Rattle.std.specs.Prelude.{◌≡◌};
ghost use Rattle.renumber.specs.NumberWalk.{written};
ghost use Rattle.link_store.specs.Detach.{kept_parent, kept_parents, turned_line, parted_row, parted_rows, detached_from};

use join::lone::stand_alone;
use layer::layout::{NONE, PARENT, TREE};
use layer::row::{entry, field};
use layer::write::put_field;
use table::layout::ROOT;

// Row w, where it is of the tree, keeps its stored parent.
fn keep_parent(fields: &mut [u16], ancestors: &[u16], tree: u16, w: u16)
    ensures { fields.new ≡ kept_parent ancestors.now tree w fields.old }
{
    if entry(ancestors, w, TREE) != tree {
        return;
    }
    let parent = field(fields, w, PARENT);
    put_field(fields, w, ROOT, parent);
}

// All rows below n.
fn keep_parents(fields: &mut [u16], ancestors: &[u16], n: u16, tree: u16)
    ensures { fields.new ≡ kept_parents ancestors.now tree n 0 fields.old }
{
    for w in 0..n {
        keep_parent(fields, ancestors, tree, w);
    }
}

// The line from x up is turned round: x comes under v, each row above it under the one below; at most n rows above x.
fn turn_line(fields: &mut [u16], n: u16, x: u16, v: u16)
    ensures { fields.new ≡ turned_line n fields.old x v }
{
    let mut z = x;
    let mut under = v;
    for _ in 0..n {
        let above = field(fields, z, PARENT);
        put_field(fields, z, ROOT, under);
        if above == NONE {
            return;
        }
        under = z;
        z = above;
    }
    put_field(fields, z, ROOT, under);
}

// Row w, where it is of the tree, stands alone.
fn part_row(fields: &mut [u16], numbers: &mut [u64], ancestors: &mut [u16], tree: u16, w: u16)
    ensures { written fields.new numbers.new ancestors.new ≡ parted_row tree w (written fields.old numbers.old ancestors.old) }
{
    if entry(ancestors, w, TREE) != tree {
        return;
    }
    stand_alone(fields, numbers, ancestors, w);
}

// All rows below n. A row's own entry tells its tree, and only its own turn overwrites it.
fn part_rows(fields: &mut [u16], numbers: &mut [u64], ancestors: &mut [u16], n: u16, tree: u16)
    ensures { written fields.new numbers.new ancestors.new ≡ parted_rows tree n 0 (written fields.old numbers.old ancestors.old) }
{
    for row in 0..n {
        part_row(fields, numbers, ancestors, tree, row);
    }
}

// The rows of a tree, whose root x is to come under v.
pub fn detach(
    fields: &mut [u16],
    numbers: &mut [u64],
    ancestors: &mut [u16],
    n: u16,
    tree: u16,
    x: u16,
    v: u16,
)
    ensures { written fields.new numbers.new ancestors.new ≡ detached_from (written fields.old numbers.old ancestors.old) n tree x v }
{
    keep_parents(fields, ancestors, n, tree);
    turn_line(fields, n, x, v);
    part_rows(fields, numbers, ancestors, n, tree);
}
