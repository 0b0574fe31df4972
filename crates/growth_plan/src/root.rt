// A new root before the first store: its refusals in their order, and its plan.
ghost use Rattle.std.specs.Prelude.{◌≡◌};
ghost use Rattle.std.specs.Option.{is_some, unwrap_or};
ghost use Rattle.laws.specs.Test.{pick};
ghost use Rattle.table.specs.Lent.{parts_in};
ghost use Rattle.layer.specs.Checked.{Holds};
ghost use Rattle.growth_plan.specs.Plan.{first_plan, is_opening, over_plan, root_over, root_plan};

use crate::leaf::is_label;
use crate::level::root_level;
use crate::row::{Marks, Planned, plan_row};
use layer::layout::NONE;
use table::capacity::capacity;
use table::level::level;
use table::parts::Parts;
use table::refusal::Refusal;
use table::state::{State, is_standing};
use table::tree::{root_of, tree_of};

// The label of an opening (the paper's word for what an old root is seen through), where one is named.
fn is_opening(opening: Option<u16>) -> bool
    ensures { result ≡ is_opening (is_some opening) (unwrap_or opening 0) }
{
    match opening {
        Some(label) => is_label(label),
        None => true,
    }
}

// The row that takes the label: the old root r where an opening is named, else the new row.
fn labelled_by(opening: Option<u16>, r: u16, row: u16) -> u16
    ensures { result ≡ pick (is_some opening) r row }
{
    match opening {
        Some(_) => r,
        None => row,
    }
}

// The plan of a new root over r, the root of the tree whose first row is `tree`: r takes the opening, where one is named, as its label.
fn plan_above(
    parts: &Parts<'_>,
    state: State,
    tree: u16,
    r: u16,
    opening: Option<u16>,
) -> Result<Planned, Refusal>
    requires { Holds state.count parts.now.fields.now parts.now.numbers.now }
    ensures { result ≡ root_over (parts_in parts.now) state tree r (is_some opening) (unwrap_or opening 0) }
{
    let Some(at) = root_level(level(parts.levels, r)) else {
        return Err(Refusal::Corrupt);
    };
    let marks = Marks {
        level: at,
        labelled: labelled_by(opening, r, state.count),
        label: opening.unwrap_or(0),
        face: 0,
        tree,
    };
    plan_row(
        parts.fields,
        parts.numbers,
        parts.ancestors,
        state.count,
        state.count,
        r,
        marks,
    )
}

// Why a first node is refused, or its plan.
pub fn plan_first(parts: &Parts<'_>, state: State) -> Result<Planned, Refusal>
    ensures { result ≡ first_plan (parts_in parts.now) state }
{
    let Some(cap) = capacity(parts) else {
        return Err(Refusal::Misfit);
    };
    if (state.count as usize) == cap {
        return Err(Refusal::Full);
    }
    if !is_standing(cap, state) {
        return Err(Refusal::Corrupt);
    }
    Ok(Planned::Start(state.count))
}

// Why a new root over x is refused, or its plan.
pub fn plan_over(
    parts: &Parts<'_>,
    state: State,
    x: u16,
    opening: Option<u16>,
) -> Result<Planned, Refusal>
    ensures { result ≡ over_plan (parts_in parts.now) state x (is_some opening) (unwrap_or opening 0) }
{
    let Some(cap) = capacity(parts) else {
        return Err(Refusal::Misfit);
    };
    if state.count <= x {
        return Err(Refusal::UnknownNode);
    }
    if !is_opening(opening) {
        return Err(Refusal::BadLabel);
    }
    if !is_standing(cap, state) {
        return Err(Refusal::Corrupt);
    }
    let tree = tree_of(parts.ancestors, state.count, x);
    let root = root_of(parts.fields, state.count, tree);
    if root == NONE {
        return Err(Refusal::Corrupt);
    }
    if root != x {
        return Err(Refusal::NotRoot);
    }
    if (state.count as usize) == cap {
        return Err(Refusal::Full);
    }
    plan_above(parts, state, tree, x, opening)
}

// Why a new root over that of the first tree, that of row 0, is refused, or its plan.
pub fn plan_root(parts: &Parts<'_>, state: State, opening: Option<u16>) -> Result<Planned, Refusal>
    ensures { result ≡ root_plan (parts_in parts.now) state (is_some opening) (unwrap_or opening 0) }
{
    let Some(cap) = capacity(parts) else {
        return Err(Refusal::Misfit);
    };
    if !is_opening(opening) {
        return Err(Refusal::BadLabel);
    }
    if (state.count as usize) == cap {
        return Err(Refusal::Full);
    }
    if !is_standing(cap, state) {
        return Err(Refusal::Corrupt);
    }
    if state.count == 0 {
        return Ok(Planned::Start(0));
    }
    let tree = tree_of(parts.ancestors, state.count, 0);
    let root = root_of(parts.fields, state.count, tree);
    if root == NONE {
        return Err(Refusal::Corrupt);
    }
    plan_above(parts, state, tree, root, opening)
}
