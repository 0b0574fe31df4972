// Rule 1, lines and levels: the root that the first row of each tree records, and the levels, which count from the line to it.
ghost use Rattle.std.specs.Prelude.{◌≡◌, ◌≤◌, pos, ◌-ℤ◌, length};
ghost use Rattle.laws.specs.Test.{all_to};
ghost use Rattle.layer.specs.StoredTree.{first};
ghost use Rattle.table.specs.Level.{eq_z};
ghost use Rattle.inspect_tree.specs.Columns.{field_layer, parents, depths};
ghost use Rattle.inspect_tree.specs.Stored.{Stored};
ghost use Rattle.inspect_lines_laws.specs.Lines.{is_in_tree, is_level_on, are_lines};
ghost use Rattle.inspect_lines.specs.Columns.{field_table, level_table};
ghost use Rattle.inspect_lines.specs.Marks.{Marked, TreeMarked, LinesMarked, is_level_by_mark};

use cells::{cell, fill, put};
use layer::layout::{DEPTH, NONE, PARENT};
use layer::row::field;
use table::layout::ROOT;
use table::level::level;

// The first row of the tree of x: as many steps up as the depth of x allows.
fn first_row(fields: &[u16], x: u16) -> u16
    ensures { result ≡ first (field_layer fields.now 0) x }
{
    let mut z = x;
    for _ in 0..field(fields, x, DEPTH) {
        let p = field(fields, z, PARENT);
        if p == NONE {
            return z;
        }
        z = p;
    }
    z
}

// Row r is one of n, in the tree whose first row is f.
fn is_in_tree(fields: &[u16], n: u16, f: u16, r: u16) -> bool
    ensures { result ≡ is_in_tree (field_layer fields.now n) f r }
{
    (r < n) & (first_row(fields, r) == f)
}

// Marks by 1 the rows from the root up, as many as the root's depth says; all other cells stay.
fn mark_line(fields: &[u16], s: &mut [u16], root: u16)
    ensures { Marked (parents fields.now) (depths fields.now) root s.old s.new }
{
    let mut z = root;
    for _ in 0..field(fields, root, DEPTH) {
        if z == NONE {
            return;
        }
        put(s, z, 1);
        z = field(fields, z, PARENT);
    }
    if z != NONE {
        put(s, z, 1);
    }
}

// The root that row f records, where f is the first row of a tree; marks the line to it.
fn mark_tree(fields: &[u16], s: &mut [u16], n: u16, f: u16) -> bool
    ensures { TreeMarked (field_table fields.now n) f s.old s.new result }
{
    if field(fields, f, PARENT) != NONE {
        return true;
    }
    let r = field(fields, f, ROOT);
    if !is_in_tree(fields, n, f, r) {
        return false;
    }
    mark_line(fields, s, r);
    true
}

// The roots of the trees of n rows; marks by 1 the rows on the line to each, all other cells are 0.
fn mark_lines(fields: &[u16], s: &mut [u16], n: u16) -> bool
    ensures { LinesMarked (field_table fields.now n) s.new result }
{
    fill(s, 0);
    for f in 0..n {
        if !mark_tree(fields, s, n, f) {
            return false;
        }
    }
    true
}

// l is one less than a.
fn is_one_less(l: i32, a: i32) -> bool
    ensures { result ≡ eq_z l (a -ℤ pos 1) }
{
    if l < a { l == a - 1 } else { false }
}

// Level of row x, which lies on the line or not: the parent's less one on it, the parent's and one more off it.
fn is_level(fields: &[u16], levels: &[i32], line: bool, x: u16) -> bool
    ensures { result ≡ is_level_on (level_table fields.now levels.now 0) line x }
{
    let p = field(fields, x, PARENT);
    let l = level(levels, x);
    if p == NONE {
        return l == 0;
    }
    let a = level(levels, p);
    if line {
        is_one_less(l, a)
    } else {
        is_one_less(a, l)
    }
}

// Level of row x, by its mark.
fn is_level_by_mark(fields: &[u16], levels: &[i32], s: &[u16], x: u16) -> bool
    ensures { result ≡ is_level_by_mark (level_table fields.now levels.now 0) s.now x }
{
    let line = cell(s, x) == 1;
    is_level(fields, levels, line, x)
}

// Levels of the rows below n, by their marks.
fn are_levels(fields: &[u16], levels: &[i32], s: &[u16], n: u16) -> bool
    ensures { result ≡ all_to (is_level_by_mark (level_table fields.now levels.now 0) s.now) n }
{
    (0..n).all(|x| is_level_by_mark(fields, levels, s, x))
}

// Rule 1, lines and levels of n rows whose trees are right.
pub fn are_lines(fields: &[u16], levels: &[i32], s: &mut [u16], n: u16) -> bool
    requires stored { Stored fields.now n }
    requires n_in_bounds { n ≤ length s.old }
    ensures { result ≡ are_lines (level_table fields.now levels.now n) }
{
    if !mark_lines(fields, s, n) {
        return false;
    }
    are_levels(fields, levels, s, n)
}
