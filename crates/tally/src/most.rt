// The label that most nodes carry, from all entries anew. Two passes with no branch and no early end, so that many entries are compared at a time.
ghost use Rattle.std.specs.Prelude.{◌≡◌, eqb, length};
ghost use Rattle.laws.specs.Test.{pick};
ghost use Rattle.tree_laws.specs.Ancestor.{none};
ghost use Rattle.tally.specs.Layout.{label_count, tally_length};
ghost use Rattle.tally.specs.Most.{larger, smaller, greatest_to, first_to, most_of};

use crate::layout::LABELS;
use layer::layout::NONE;

fn larger_of(a: u16, b: u16) -> u16
    ensures { result ≡ larger a b }
{
    if a < b { b } else { a }
}

fn smaller_of(a: u16, b: u16) -> u16
    ensures { result ≡ smaller a b }
{
    if b < a { b } else { a }
}

// The label where its entry is the number sought, else none.
fn label_of(entry: u16, sought: u16, label: u16) -> u16
    ensures { result ≡ pick (eqb entry sought) label none }
{
    if entry == sought { label } else { NONE }
}

// The greatest entry of a label.
fn greatest(tally: &[u16]) -> u16
    requires { length tally.now ≡ tally_length }
    ensures { result ≡ greatest_to tally.now label_count }
{
    let mut most: u16 = 0;
    for k in 0..LABELS {
        most = larger_of(most, tally[k]);
    }
    most
}

// The first label whose entry is the number sought.
fn first_of(tally: &[u16], sought: u16) -> u16
    requires { length tally.now ≡ tally_length }
    ensures { result ≡ first_to tally.now sought label_count }
{
    let mut first: u16 = NONE;
    for k in 0..LABELS {
        first = smaller_of(first, label_of(tally[k], sought, k as u16));
    }
    first
}

// The label that most nodes carry, the smaller of two.
pub fn most_of(tally: &[u16]) -> u16
    requires { length tally.now ≡ tally_length }
    ensures { result ≡ most_of tally.now }
{
    first_of(tally, greatest(tally))
}
