// The stores of a link: the rows of the linked tree sorted by their depth, detached, and joined one after another. Nothing is refused here.

#![tactic(auto)]

ghost use Rattle.std.specs.Prelude.{◌≡◌, ◌≤◌, length};
ghost use Rattle.table.specs.Lent.{parts_in_mut, SameLengths, SameLoans};
ghost use Rattle.table.specs.Capacity.{node_limit};
ghost use Rattle.layer.specs.Checked.{Holds};
ghost use Rattle.growth_store.specs.Store.{stored};
ghost use Rattle.link_store.specs.JoinedTree.{joined_tree};

use crate::detach::detach;
use crate::joins::join_walk;
use crate::sort::sort_rows;
use inspect::work;
use table::parts::PartsMut;

mod detach;
mod joins;
mod sort;

// The rows of a tree, sorted in `heads` and `links`, detached, and joined in their order.
fn join_tree(
    parts: &mut PartsMut<'_>,
    heads: &mut [u16],
    links: &mut [u16],
    n: u16,
    tree: u16,
    x: u16,
    v: u16,
    door: u16,
) -> u32
    requires holds { Holds n parts.old.fields.now parts.old.numbers.now }
    requires heads_len { length heads.old ≡ length links.old }
    ensures stored { stored (parts_in_mut parts.new) result ≡ joined_tree (parts_in_mut parts.old) (length links.old) n tree x v door }
    ensures loans { SameLoans parts.old parts.new }
    ensures lengths { SameLengths parts.old parts.new }
{
    let lent = parts.read();
    sort_rows(lent.levels, lent.ancestors, heads, links, n, tree, x);
    detach(parts.fields, parts.numbers, parts.ancestors, n, tree, x, v);
    join_walk(parts, heads, links, n, x, door)
}

// The same with heads in memory of our own: one number to a row is lent, and two are needed.
pub fn store_link(
    parts: &mut PartsMut<'_>,
    scratch: &mut [u16],
    n: u16,
    tree: u16,
    x: u16,
    v: u16,
    door: u16,
) -> u32
    requires holds { Holds n parts.old.fields.now parts.old.numbers.now }
    requires scratch_len_bound { length scratch.old ≤ node_limit }
    ensures stored { stored (parts_in_mut parts.new) result ≡ joined_tree (parts_in_mut parts.old) (length scratch.old) n tree x v door }
    ensures loans { SameLoans parts.old parts.new }
    ensures lengths { SameLengths parts.old parts.new }
{
    let cap = scratch.len();
    let mut own = work();
    join_tree(parts, &mut own[..cap], scratch, n, tree, x, v, door)
}
