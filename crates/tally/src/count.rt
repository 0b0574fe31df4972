// The tally after a growth and after a link, and whether its entries may change so.
ghost use Rattle.std.specs.Prelude.{◌≡◌, ◌≤◌, ◌<◌, length, get_or, replicate};
ghost use Rattle.tally.specs.Layout.{tally_length};
ghost use Rattle.tally.specs.Count.{has_room, is_movable, raised, lowered, counted, moved};

use crate::layout::MOST;
use crate::most::most_of;
use cells::{cell, fill, put};

// Whether the entry of a label may grow by one: it then is still within the capacity.
pub fn has_room(tally: &[u16], capacity: usize, label: u16) -> bool
    ensures { result ≡ has_room tally.now capacity label }
{
    (cell(tally, label) as usize) < capacity
}

// Whether a node may change its label from the one to the other.
pub fn is_movable(tally: &[u16], capacity: usize, from: u16, to: u16) -> bool
    ensures { result ≡ is_movable tally.now capacity from to }
{
    if cell(tally, from) == 0 {
        return false;
    }
    has_room(tally, capacity, to)
}

// One more.
pub fn raise(tally: &mut [u16], label: u16)
    requires { get_or tally.old label 0 < 65535 }
    ensures { tally.new ≡ raised tally.old label }
{
    let n = cell(tally, label);
    put(tally, label, n + 1);
}

// One less.
fn lower(tally: &mut [u16], label: u16)
    requires { 1 ≤ get_or tally.old label 0 }
    ensures { tally.new ≡ lowered tally.old label }
{
    let n = cell(tally, label);
    put(tally, label, n - 1);
}

// A node more of this label. The last entry is found anew from all others: the label that grew need not be the one with the most, nor the old one.
pub fn count_one(tally: &mut [u16], label: u16)
    requires { (length tally.old ≡ tally_length) × (get_or tally.old label 0 < 65535) }
    ensures { tally.new ≡ counted tally.old label }
{
    raise(tally, label);
    let most = most_of(tally);
    put(tally, MOST, most);
}

// A node that had the one label has the other.
pub fn move_one(tally: &mut [u16], from: u16, to: u16)
    requires { (length tally.old ≡ tally_length) × ((1 ≤ get_or tally.old from 0) × (get_or tally.old to 0 < 65535)) }
    ensures { tally.new ≡ moved tally.old from to }
{
    lower(tally, from);
    count_one(tally, to);
}

// No node at all.
pub fn clear(tally: &mut [u16])
    ensures { tally.new ≡ replicate (length tally.old) 0 }
{
    fill(tally, 0);
}
