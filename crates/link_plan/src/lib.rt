// What a link decides before its first store: its refusals in their order.

#![tactic(auto)]

ghost use Rattle.std.specs.Prelude.{◌≡◌, length};
ghost use Rattle.table.specs.Lent.{parts_in};
ghost use Rattle.link_plan.specs.Check.{link_checked};

use growth_plan::leaf::is_label;
use inspect::is_ours;
use layer::layout::NONE;
use table::parts::Parts;
use table::refusal::Refusal;
use table::state::{State, is_standing};
use table::tree::{root_of, tree_of};
use tally::count::is_movable;
use tally::fit::capacity_with;

// The first rows of the tree that is linked and of the one that receives it.
#[derive(Drop)]
pub struct Trees {
    pub linked: u16,
    pub receiving: u16,
}

// The tree of x under v by the label `door`, or why that is refused. Inspection runs on memory of our own: a refusal leaves the scratch as it was.
pub fn check_link(
    parts: &Parts<'_>,
    tally: &[u16],
    scratch: &[u16],
    state: State,
    x: u16,
    v: u16,
    door: u16,
) -> Result<Trees, Refusal>
    ensures { result ≡ link_checked (parts_in parts.now) tally.now (length scratch.now) state x v door }
{
    let Some(cap) = capacity_with(parts, tally) else {
        return Err(Refusal::Misfit);
    };
    if scratch.len() != cap {
        return Err(Refusal::Misfit);
    }
    if state.count <= x {
        return Err(Refusal::UnknownNode);
    }
    if state.count <= v {
        return Err(Refusal::UnknownNode);
    }
    if !is_label(door) {
        return Err(Refusal::BadLabel);
    }
    if !is_standing(cap, state) {
        return Err(Refusal::Corrupt);
    }
    let tree = tree_of(parts.ancestors, state.count, x);
    let root = root_of(parts.fields, state.count, tree);
    if root == NONE {
        return Err(Refusal::Corrupt);
    }
    if root != x {
        return Err(Refusal::NotRoot);
    }
    let receiving = tree_of(parts.ancestors, state.count, v);
    if receiving == NONE {
        return Err(Refusal::Corrupt);
    }
    if receiving == tree {
        return Err(Refusal::SameTree);
    }
    if !is_ours(parts, tally, cap, state) {
        return Err(Refusal::Corrupt);
    }
    if !is_movable(tally, cap, 0, door) {
        return Err(Refusal::Corrupt);
    }
    Ok(Trees {
        linked: tree,
        receiving,
    })
}
