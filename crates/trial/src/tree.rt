// The plain list of 01 and 02 on arrays, for 128 nodes: parents, labels and faces, and the count; a root has no parent. It shares nothing with the engine.
use crate::naive::{members, of, root_of};
use crate::reason::Reason;

pub const NONE: u16 = 65535;

pub const CAPACITY: u16 = 128;

const FRONT: u16 = 0;

const BACK: u16 = 1;

#[derive(Clone, Copy)]
pub struct Tree {
    pub parents: [u16; 128],
    pub labels: [u16; 128],
    pub faces: [u16; 128],
    pub count: u16,
}

// A column in which v stands for x; past its end it stays.
fn set(mut column: [u16; 128], x: u16, v: u16) -> [u16; 128] {
    let i = usize::from(x);
    if i < 128 {
        column[i] = v;
    }
    column
}

fn is_label(label: u16) -> bool {
    1 <= label && label <= 9999
}

// An opening is looked at where it is named.
fn is_opening(opening: Option<u16>) -> bool {
    opening.map_or(true, is_label)
}

impl Tree {
    pub fn new() -> Self {
        Self {
            parents: [NONE; 128],
            labels: [0; 128],
            faces: [0; 128],
            count: 0,
        }
    }

    fn with_parent(self, x: u16, parent: u16) -> Self {
        Self {
            parents: set(self.parents, x, parent),
            ..self
        }
    }

    // A label, and with it a face.
    fn with_marks(self, x: u16, label: u16, face: u16) -> Self {
        Self {
            labels: set(self.labels, x, label),
            faces: set(self.faces, x, face),
            ..self
        }
    }

    // One node more.
    fn counted(self) -> Self {
        Self {
            count: self.count.saturating_add(1).min(CAPACITY),
            ..self
        }
    }

    // The root of a node's tree.
    pub fn root_of(&self, x: u16) -> u16 {
        root_of(&self.parents, x)
    }

    // How many nodes the tree of a root has.
    pub fn members(&self, root: u16) -> usize {
        members(&self.parents, self.count, root)
    }

    // Why a node that names no other is refused.
    pub fn first_refusal(&self) -> Option<Reason> {
        if self.count == CAPACITY {
            Some(Reason::Full)
        } else {
            None
        }
    }

    // Why a leaf is refused.
    pub fn leaf_refusal(&self, parent: u16, label: u16, face: u16) -> Option<Reason> {
        if self.count <= parent {
            return Some(Reason::UnknownNode);
        }
        if !is_label(label) {
            return Some(Reason::BadLabel);
        }
        if BACK < face {
            return Some(Reason::BadFace);
        }
        self.first_refusal()
    }

    // Why 01's new root is refused.
    pub fn root_refusal(&self, opening: Option<u16>) -> Option<Reason> {
        if !is_opening(opening) {
            return Some(Reason::BadLabel);
        }
        self.first_refusal()
    }

    // Why a new root over x is refused.
    pub fn over_refusal(&self, x: u16, opening: Option<u16>) -> Option<Reason> {
        if self.count <= x {
            return Some(Reason::UnknownNode);
        }
        if !is_opening(opening) {
            return Some(Reason::BadLabel);
        }
        if of(&self.parents, x) != NONE {
            return Some(Reason::NotRoot);
        }
        self.first_refusal()
    }

    // Why a link is refused.
    pub fn link_refusal(&self, x: u16, v: u16, label: u16) -> Option<Reason> {
        if self.count <= x || self.count <= v {
            return Some(Reason::UnknownNode);
        }
        if !is_label(label) {
            return Some(Reason::BadLabel);
        }
        if of(&self.parents, x) != NONE {
            return Some(Reason::NotRoot);
        }
        if self.root_of(v) == x {
            return Some(Reason::SameTree);
        }
        None
    }

    // A first node that is not refused.
    pub fn with_first(self) -> Self {
        self.counted()
    }

    // A leaf that is not refused.
    pub fn with_leaf(self, parent: u16, label: u16, face: u16) -> Self {
        let node = self.count;
        self.with_parent(node, parent)
            .with_marks(node, label, face)
            .counted()
    }

    // A new root over x that is not refused: the parent of x, which takes the opening, where one is named, and faces front.
    pub fn with_over(self, x: u16, opening: Option<u16>) -> Self {
        let over = self.with_parent(x, self.count).counted();
        match opening {
            Some(label) => over.with_marks(x, label, FRONT),
            None => over,
        }
    }

    // 01's new root, not refused: over that of node 0, or the first node.
    pub fn with_root(self, opening: Option<u16>) -> Self {
        if self.count == 0 {
            return self.with_first();
        }
        self.with_over(self.root_of(0), opening)
    }

    // A link that is not refused: x faces front.
    pub fn with_link(self, x: u16, v: u16, label: u16) -> Self {
        self.with_parent(x, v).with_marks(x, label, FRONT)
    }
}
