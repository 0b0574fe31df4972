// What is looked at before any question on two nodes: the parts' lengths, the count, and the tree that both stand in, by the last ancestor entries of its
// nodes and the root that the tree's first row records.
ghost use Rattle.std.specs.Prelude.{◌&&◌, ◌≡◌, ltb};
ghost use Rattle.table.specs.Lent.{parts_in};
ghost use Rattle.query.specs.Sought.{sought_in};
ghost use Rattle.query.specs.Asked.{asked};

use layer::layout::NONE;
use table::capacity::capacity;
use table::parts::Parts;
use table::refusal::Refusal;
use table::state::{State, is_standing};
use table::tree::{root_of, tree_of};

// Both nodes are below the count. One test and not two: the fewer branches stand before the answer, the sooner the compiler makes it in place.
fn are_known(count: u16, x: u16, y: u16) -> bool
    ensures { result ≡ (ltb x count && ltb y count) }
{
    (x < count) & (y < count)
}

// The root of the tree that x and y share: refusal 12 where they stand in different trees, and 4 where a number read is no row in use.
fn seek(fields: &[u16], ancestors: &[u16], count: u16, x: u16, y: u16) -> Result<u16, Refusal>
    ensures { result ≡ sought_in fields.now ancestors.now count x y }
{
    let f = tree_of(ancestors, count, x);
    if f == NONE {
        return Err(Refusal::Corrupt);
    }
    let g = tree_of(ancestors, count, y);
    if g == NONE {
        return Err(Refusal::Corrupt);
    }
    if f != g {
        return Err(Refusal::OtherTree);
    }
    let r = root_of(fields, count, f);
    if r == NONE {
        return Err(Refusal::Corrupt);
    }
    Ok(r)
}

// The same where the parts fit a capacity, both nodes are known and the count stands; else refusal 3, 1 or 4, looked for in this order.
pub fn asked(parts: &Parts<'_>, state: State, x: u16, y: u16) -> Result<u16, Refusal>
    ensures { result ≡ asked (parts_in parts.now) state x y }
{
    let Some(capacity) = capacity(parts) else {
        return Err(Refusal::Misfit);
    };
    let count = state.count;
    if !are_known(count, x, y) {
        return Err(Refusal::UnknownNode);
    }
    if !is_standing(capacity, state) {
        return Err(Refusal::Corrupt);
    }
    seek(parts.fields, parts.ancestors, count, x, y)
}
