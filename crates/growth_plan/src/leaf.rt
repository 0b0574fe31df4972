// A new leaf before the first store: its refusals in their order, and its plan.
ghost use Rattle.std.specs.Prelude.{◌≡◌};
ghost use Rattle.table.specs.Lent.{parts_in};
ghost use Rattle.growth_plan.specs.Plan.{is_label, is_face, leaf_plan};

use crate::level::leaf_level;
use crate::row::{Marks, Planned, plan_row};
use layer::layout::NONE;
use table::capacity::capacity;
use table::layout::{LARGEST_FACE, LARGEST_LABEL};
use table::level::level;
use table::parts::Parts;
use table::refusal::Refusal;
use table::state::{State, is_standing};
use table::tree::{root_of, tree_of};

// A label that a leaf may have.
pub fn is_label(label: u16) -> bool
    ensures { result ≡ is_label label }
{
    (1 <= label) & (label <= LARGEST_LABEL)
}

// A face, front or back.
fn is_face(face: u16) -> bool
    ensures { result ≡ is_face face }
{
    face <= LARGEST_FACE
}

// Why a leaf is refused, or its plan.
pub fn plan_leaf(
    parts: &Parts<'_>,
    state: State,
    parent: u16,
    label: u16,
    face: u16,
) -> Result<Planned, Refusal>
    ensures { result ≡ leaf_plan (parts_in parts.now) state parent label face }
{
    let Some(cap) = capacity(parts) else {
        return Err(Refusal::Misfit);
    };
    if state.count <= parent {
        return Err(Refusal::UnknownNode);
    }
    if !is_label(label) {
        return Err(Refusal::BadLabel);
    }
    if !is_face(face) {
        return Err(Refusal::BadFace);
    }
    if (state.count as usize) == cap {
        return Err(Refusal::Full);
    }
    if !is_standing(cap, state) {
        return Err(Refusal::Corrupt);
    }
    let tree = tree_of(parts.ancestors, state.count, parent);
    if root_of(parts.fields, state.count, tree) == NONE {
        return Err(Refusal::Corrupt);
    }
    let Some(at) = leaf_level(level(parts.levels, parent)) else {
        return Err(Refusal::Corrupt);
    };
    let marks = Marks {
        level: at,
        labelled: state.count,
        label,
        face,
        tree: NONE,
    };
    plan_row(
        parts.fields,
        parts.numbers,
        parts.ancestors,
        state.count,
        state.count,
        parent,
        marks,
    )
}
