// The places of a tally: an entry to each label, then the label that most nodes carry. No other file of the code writes them.
use table::layout::LARGEST_LABEL;

// How many labels there are.
pub const LABELS: usize = (LARGEST_LABEL as usize) + 1;

// The place of the label that most nodes carry.
pub const MOST: u16 = LARGEST_LABEL + 1;

// How many numbers a tally has.
pub const ENTRIES: usize = LABELS + 1;
