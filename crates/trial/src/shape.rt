// The calls that a shape makes: of which kind, and with which nodes, labels and faces.
use crate::random::below;
use std::fmt;

// One tree, uniform, chain, star, recent parents, binary, caterpillar; then several trees, and trees that are linked.
#[derive(Clone, Copy, PartialEq, Eq)]
pub enum Shape {
    Uniform,
    Chain,
    Star,
    Recent,
    Binary,
    Caterpillar,
    Several,
    Linked,
}

impl Shape {
    pub const ALL: [Shape; 8] = [
        Shape::Uniform,
        Shape::Chain,
        Shape::Star,
        Shape::Recent,
        Shape::Binary,
        Shape::Caterpillar,
        Shape::Several,
        Shape::Linked,
    ];
}

impl fmt::Display for Shape {
    fn fmt<W: fmt::Write>(&self, f: &mut fmt::Formatter<W>) -> fmt::Result {
        f.write_str(match self {
            Shape::Uniform => "uniform",
            Shape::Chain => "chain",
            Shape::Star => "star",
            Shape::Recent => "recent",
            Shape::Binary => "binary",
            Shape::Caterpillar => "caterpillar",
            Shape::Several => "several trees",
            Shape::Linked => "linked trees",
        })
    }
}

#[derive(Clone, Copy)]
pub enum Kind {
    Leaf,
    // Over the root of node 0's tree, or the first node.
    Root,
    First,
    // A new root over a named one.
    Over,
}

// The parent of the next leaf; now and then a node that is not there.
pub fn parent(shape: Shape, count: u16, seed: u64, other: u64) -> u16 {
    if below(other, 20) == 0 {
        return count;
    }
    let last = count.saturating_sub(1);
    match shape {
        Shape::Uniform => below(seed, count),
        Shape::Chain => last,
        Shape::Star => 0,
        Shape::Recent => last.saturating_sub(below(seed, 8)),
        Shape::Binary => last / 2,
        Shape::Caterpillar => last / 2 * 2,
        Shape::Several | Shape::Linked => below(other, count),
    }
}

fn one_or_two(seed: u64) -> u16 {
    if below(seed, 2) == 0 { 1 } else { 2 }
}

// The label of the leaf of this turn: 9,999 and 10,000 early, then few, so that lists of labels meet.
pub fn label(turn: u16, seed: u64) -> u16 {
    match turn {
        4 => 9999,
        5 => 10000,
        6 => 0,
        _ => one_or_two(seed),
    }
}

// The face of the leaf of this turn: odd beside a label that is none, and now and then.
pub fn face(turn: u16, seed: u64) -> u16 {
    if turn == 5 {
        return 2;
    }
    match below(seed, 16) {
        0 => 2,
        1 => 65535,
        _ => below(seed, 2),
    }
}

// Whether this turn of one tree makes a new root: the first, and then one in so many.
fn is_root(shape: Shape, turn: u16, seed: u64) -> bool {
    if turn == 1 {
        return true;
    }
    match shape {
        Shape::Uniform => below(seed, 10) == 0,
        Shape::Chain => below(seed, 20) == 0,
        Shape::Star => below(seed, 40) == 0,
        Shape::Binary => below(seed, 5) == 0,
        _ => false,
    }
}

// The call of a turn of several trees.
fn kind_of_several(turn: u16, seed: u64) -> Kind {
    if turn == 1 {
        return Kind::First;
    }
    match below(seed, 8) {
        0 => Kind::First,
        1 => Kind::Over,
        _ => Kind::Leaf,
    }
}

// The call of a turn.
pub fn kind_of(shape: Shape, turn: u16, seed: u64) -> Kind {
    match shape {
        Shape::Several | Shape::Linked => kind_of_several(turn, seed),
        _ => if is_root(shape, turn, seed) {
            Kind::Root
        } else {
            Kind::Leaf
        },
    }
}

// Whether this turn links two trees.
pub fn is_link(shape: Shape, turn: u16, seed: u64) -> bool {
    shape == Shape::Linked && 2 <= turn && below(seed, 5) == 0
}

// The root that a call names: that of a node's tree, now and then the node itself.
pub fn named(root: u16, node: u16, seed: u64) -> u16 {
    if below(seed, 5) == 0 { node } else { root }
}

// The opening of a new root, where it names one: now and then no label.
pub fn opening(seed: u64, other: u64) -> Option<u16> {
    if below(seed, 3) == 0 {
        return None;
    }
    Some(match below(other, 8) {
        0 => 0,
        1 => 10000,
        2 => 9999,
        _ => one_or_two(other),
    })
}
