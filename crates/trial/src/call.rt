// The calls of the trial: which one a turn makes, and what the plain list says to it.
use crate::random::{below, next};
use crate::reason::Reason;
use crate::shape::{Kind, Shape, face, is_link, kind_of, label, named, opening, parent};
use crate::tree::Tree;

#[derive(Clone, Copy)]
pub enum Call {
    First,
    // Over the root of node 0's tree, or the first node; the opening, where it names one.
    Root { opening: Option<u16> },
    // A new root over x.
    Over { x: u16, opening: Option<u16> },
    // A leaf of a label and a face under x.
    Leaf { x: u16, label: u16, face: u16 },
    // The tree of root x under v.
    Link { x: u16, v: u16, label: u16 },
}

fn growth_of(tree: &Tree, shape: Shape, turn: u16, first: u64, second: u64, third: u64) -> Call {
    let x = parent(shape, tree.count, first, second);
    let opening = opening(second, third);
    match kind_of(shape, turn, first) {
        Kind::First => Call::First,
        Kind::Root => Call::Root { opening },
        Kind::Over => Call::Over {
            x: named(tree.root_of(x), x, third),
            opening,
        },
        Kind::Leaf => Call::Leaf {
            x,
            label: label(turn, third),
            face: face(turn, next(third)),
        },
    }
}

fn link_of(tree: &Tree, turn: u16, first: u64, second: u64, third: u64) -> Call {
    let node = below(first, tree.count);
    Call::Link {
        x: named(tree.root_of(node), node, third),
        v: below(second, tree.count),
        label: label(turn, third),
    }
}

// The seed after the four numbers that a turn draws.
pub fn seed_after(seed: u64) -> u64 {
    next(next(next(next(seed))))
}

// The call of a turn.
pub fn call_of(tree: &Tree, shape: Shape, turn: u16, seed: u64) -> Call {
    let first = next(seed);
    let second = next(first);
    let third = next(second);
    if is_link(shape, turn, seed) {
        return link_of(tree, turn, first, second, third);
    }
    growth_of(tree, shape, turn, first, second, third)
}

impl Call {
    // Why the plain list refuses the call.
    pub fn refusal(self, tree: &Tree) -> Option<Reason> {
        match self {
            Call::First => tree.first_refusal(),
            Call::Root { opening } => tree.root_refusal(opening),
            Call::Over { x, opening } => tree.over_refusal(x, opening),
            Call::Leaf { x, label, face } => tree.leaf_refusal(x, label, face),
            Call::Link { x, v, label } => tree.link_refusal(x, v, label),
        }
    }

    // The plain list after a call that it does not refuse.
    pub fn after(self, tree: Tree) -> Tree {
        match self {
            Call::First => tree.with_first(),
            Call::Root { opening } => tree.with_root(opening),
            Call::Over { x, opening } => tree.with_over(x, opening),
            Call::Leaf { x, label, face } => tree.with_leaf(x, label, face),
            Call::Link { x, v, label } => tree.with_link(x, v, label),
        }
    }

    // The letter that a difference is reported by.
    pub fn letter(self) -> char {
        match self {
            Call::First => 'F',
            Call::Root { .. } => 'T',
            Call::Over { .. } => 'O',
            Call::Leaf { .. } => 'L',
            Call::Link { .. } => 'J',
        }
    }

    // The first node that the call names, or 0.
    pub fn first_named(self) -> u16 {
        match self {
            Call::Over { x, .. } | Call::Leaf { x, .. } | Call::Link { x, .. } => x,
            Call::First | Call::Root { .. } => 0,
        }
    }

    // The node that a tree is linked under, or a leaf's label, or an opening, or 0.
    pub fn second_named(self) -> u16 {
        match self {
            Call::First => 0,
            Call::Root { opening } | Call::Over { opening, .. } => opening.unwrap_or(0),
            Call::Leaf { label, .. } => label,
            Call::Link { v, .. } => v,
        }
    }
}
