// A link: a whole tree, by its root, under a row of another one.

#![tactic(auto)]

ghost use Rattle.table.specs.Lent.{parts_in_mut, SameLengths, SameLoans};
ghost use Rattle.link.specs.Link.{LinkCall};

use link_plan::check_link;
use link_store::store_link;
use table::parts::PartsMut;
use table::refusal::Refusal;
use table::state::State;
use tally::count::move_one;

// A link that was served: how many rows its joins renumbered, added up, and its head, the first row of the tree that received the linked one.
#[derive(Drop)]
pub struct Joined {
    pub rows: u32,
    pub head: u16,
}

// The tree of the root x comes under v, a row of another tree; x, whose label was 0, takes the label `door`. The scratch may hold anything afterwards, but for a refusal.
pub fn link(
    parts: &mut PartsMut<'_>,
    tally: &mut [u16],
    scratch: &mut [u16],
    state: State,
    x: u16,
    v: u16,
    door: u16,
) -> Result<Joined, Refusal>
    ensures linked { LinkCall (parts_in_mut parts.old) (parts_in_mut parts.new) tally.old tally.new scratch.old scratch.new state x v door result }
    ensures loans { SameLoans parts.old parts.new }
    ensures lengths { SameLengths parts.old parts.new }
{
    let trees = check_link(&parts.read(), tally, scratch, state, x, v, door)?;
    let rows = store_link(parts, scratch, state.count, trees.linked, x, v, door);
    move_one(tally, 0, door);
    let joined = Joined {
        rows,
        head: trees.receiving,
    };
    Ok(joined)
}
