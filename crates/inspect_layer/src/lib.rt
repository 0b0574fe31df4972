// Inspection of a layer: of rule 1 the trees, and rules 2 to 6.

#![tactic(auto)]

ghost use Rattle.std.specs.Prelude.{◌≡◌, ◌≤◌, length};
ghost use Rattle.layer.specs.Layer.{layer_of};
ghost use Rattle.layer.specs.Numbered.{row_limit};
ghost use Rattle.inspect_laws.specs.Numbered.{is_numbered};

use inspect_spans::entries::are_entries;
use inspect_spans::nested::{are_nested, are_small};
use inspect_tree::compressed::is_compressed;
use inspect_tree::set_sizes::{are_set_sizes, are_small_children};
use inspect_tree::trees::are_trees;

// The trees of n rows are numbered, worked out on a scratch of one cell to a row. Spans that end past the limit come first: the numbers of all others
// fit 64 bits.
pub fn is_numbered(
    fields: &[u16],
    numbers: &[u64],
    ancestors: &[u16],
    s: &mut [u16],
    n: u16,
) -> bool
    requires n_le_row_limit { n ≤ row_limit }
    requires n_in_bounds { n ≤ length s.old }
    ensures { result ≡ is_numbered (layer_of fields.now numbers.now ancestors.now n) }
{
    if !are_small(fields, numbers, n) {
        return false;
    }
    if !are_trees(fields, n) {
        return false;
    }
    if !is_compressed(fields, s, n) {
        return false;
    }
    if !are_set_sizes(fields, n) {
        return false;
    }
    if !are_small_children(fields, n) {
        return false;
    }
    if !are_nested(fields, numbers, s, n) {
        return false;
    }
    are_entries(fields, ancestors, n)
}
