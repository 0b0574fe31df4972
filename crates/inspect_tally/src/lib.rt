// Inspection of a tally: the labels of all rows are counted anew, and every entry is compared.

#![tactic(auto)]

ghost use Rattle.std.specs.Prelude.{◌≡◌, ℕ, length, get_or};
ghost use Rattle.tally.specs.Layout.{label_count, tally_length};
ghost use Rattle.tally.specs.Test.{are_counts, is_tallied};
ghost use Rattle.inspect_tally.specs.Counts.{labels, Counts};

use layer::row::field;
use table::layout::LABEL;
use tally::count::raise;
use tally::layout::LABELS;
use tally::most::most_of;

// Memory of our own: a count to each label, all 0.
fn no_counts() -> [u16; LABELS]
    ensures { (label_count ≡ length result) × ((k : ℕ) → get_or result k 0 ≡ 0) }
{
    [0; LABELS]
}

// The labels of n rows, on counts that are 0. A label past the largest is counted nowhere.
fn count_labels(fields: &[u16], n: u16, counts: &mut [u16])
    requires { Counts (labels fields.now) 0 counts.old }
    ensures { Counts (labels fields.now) n counts.new }
{
    for x in 0..n {
        raise(counts, field(fields, x, LABEL));
    }
}

// Every entry of a label is its count. No branch and no early end, so that many entries are compared at a time.
fn are_counts(tally: &[u16], counts: &[u16]) -> bool
    requires { (length tally.now ≡ tally_length) × (length counts.now ≡ label_count) }
    ensures { result ≡ are_counts tally.now (λ k. get_or counts.now k 0) label_count }
{
    let mut same = true;
    for k in 0..LABELS {
        same = (tally[k] == counts[k]) & same;
    }
    same
}

// Whether a tally is true of n rows with these fields.
pub fn is_tallied(fields: &[u16], n: u16, tally: &[u16]) -> bool
    requires { length tally.now ≡ tally_length }
    ensures { result ≡ is_tallied (labels fields.now) n tally.now }
{
    let mut counts = no_counts();
    count_labels(fields, n, &mut counts);
    if !are_counts(tally, &counts) {
        return false;
    }
    tally[LABELS] == most_of(tally)
}
