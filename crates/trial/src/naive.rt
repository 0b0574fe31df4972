// Answers by walking from parent to parent.
use crate::tree::{CAPACITY, NONE};

// What stands for x in a column; none past its end.
pub fn of(column: &[u16], x: u16) -> u16 {
    column.get(usize::from(x)).copied().unwrap_or(NONE)
}

// How many steps lead from x to its root.
pub fn depth(parents: &[u16], x: u16) -> u16 {
    let mut at = of(parents, x);
    for steps in 0..CAPACITY {
        if at == NONE {
            return steps;
        }
        at = of(parents, at);
    }
    CAPACITY
}

// The ancestor of x so many steps up.
pub fn climb(parents: &[u16], x: u16, steps: u16) -> u16 {
    let mut at = x;
    for _ in 0..steps {
        at = of(parents, at);
    }
    at
}

// The root of x's tree.
pub fn root_of(parents: &[u16], x: u16) -> u16 {
    climb(parents, x, depth(parents, x))
}

// How many of so many nodes have the root x.
pub fn members(parents: &[u16], count: u16, x: u16) -> usize {
    (0..count).filter(|k| root_of(parents, *k) == x).count()
}

// Where the lines of x and y, equally deep, meet.
fn meet(parents: &[u16], x: u16, y: u16) -> u16 {
    let mut a = x;
    let mut b = y;
    for _ in 0..CAPACITY {
        if a == b {
            return a;
        }
        a = of(parents, a);
        b = of(parents, b);
    }
    a
}

// The deepest common ancestor.
pub fn nca(parents: &[u16], x: u16, y: u16) -> u16 {
    let dx = depth(parents, x);
    let dy = depth(parents, y);
    let a = climb(parents, x, dx.saturating_sub(dy));
    let b = climb(parents, y, dy.saturating_sub(dx));
    meet(parents, a, b)
}

// How many steps lead from x to its ancestor a.
pub fn steps(parents: &[u16], x: u16, a: u16) -> u16 {
    depth(parents, x).saturating_sub(depth(parents, a))
}

// The ancestor of x just below its ancestor a; a where a is x.
pub fn branch(parents: &[u16], x: u16, a: u16) -> u16 {
    climb(parents, x, steps(parents, x, a).saturating_sub(1))
}

// Whether so much of a column, for x and its ancestors, is what stands there for y and its ancestors.
fn equal_along(parents: &[u16], column: &[u16], x: u16, y: u16, steps: u16) -> bool {
    let mut a = x;
    let mut b = y;
    for _ in 0..steps {
        if of(column, a) != of(column, b) {
            return false;
        }
        a = of(parents, a);
        b = of(parents, b);
    }
    true
}

// Whether the labels and the faces from the root's child down to x are those down to y.
pub fn alike(parents: &[u16], labels: &[u16], faces: &[u16], x: u16, y: u16) -> bool {
    let dx = depth(parents, x);
    dx == depth(parents, y)
        && equal_along(parents, labels, x, y, dx)
        && equal_along(parents, faces, x, y, dx)
}
