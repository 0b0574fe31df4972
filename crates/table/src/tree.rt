// The tree of a row and its root, by two reads: the last ancestor entry of a row is the first row of its tree, and that row records the root.
ghost use Rattle.std.specs.Prelude.{◌≡◌};
ghost use Rattle.table.specs.Tree.{in_use, tree_at, root_of};

use crate::layout::ROOT;
use layer::layout::{NONE, TREE};
use layer::row::{entry, field};

// y where it is a row in use, else none.
fn in_use(count: u16, y: u16) -> u16
    ensures { result ≡ in_use count y }
{
    if y < count { y } else { NONE }
}

// The first row of the tree of x, or none where the entry names no row in use.
pub fn tree_of(ancestors: &[u16], count: u16, x: u16) -> u16
    ensures { result ≡ tree_at ancestors.now count x }
{
    in_use(count, entry(ancestors, x, TREE))
}

// The root that the first row f records, or none where there is no row f or what it records is no row in use.
pub fn root_of(fields: &[u16], count: u16, f: u16) -> u16
    ensures { result ≡ root_of fields.now count f }
{
    if f == NONE {
        return NONE;
    }
    in_use(count, field(fields, f, ROOT))
}
