// The ancestor entries that a head copies from its upper row.
ghost use Rattle.std.specs.Prelude.{◌≡◌};
ghost use Rattle.join.specs.Copied.{are_links, copies_links};

use layer::check::is_link;
use layer::layout::ENTRIES;

// Every entry is none or below the count. All are tested, with no branch, so that many are tested at a time.
fn are_links(entries: &[u16], count: u16) -> bool
    ensures { result ≡ are_links count entries.now }
{
    let mut held = true;
    for i in 0..entries.len() {
        held = held & is_link(entries[i], count);
    }
    held
}

// The entries of row u are links; where there is no such row, none is copied.
pub fn copies_links(ancestors: &[u16], count: u16, u: u16) -> bool
    ensures { result ≡ copies_links ancestors.now count u }
{
    let a = (u as usize) * ENTRIES;
    let e = a + ENTRIES;
    if ancestors.len() < e {
        return true;
    }
    are_links(&ancestors[a..e], count)
}
