// The tally against a count of the plain list's labels, one after another.
use crate::naive::of;
use crate::tree::Tree;

// Behind the entries of the labels stands the label that most nodes carry.
const MOST: u16 = 10000;

// How many of so many nodes carry a label.
fn carriers(labels: &[u16], count: u16, label: u16) -> usize {
    (0..count).filter(|x| of(labels, *x) == label).count()
}

// Whether the entry of a label is the number of nodes that carry it.
fn is_entry(tally: &[u16], labels: &[u16], count: u16, label: u16) -> bool {
    usize::from(of(tally, label)) == carriers(labels, count, label)
}

// Whether the entry of each node's label is the number of nodes that carry it.
fn is_counted(tally: &[u16], labels: &[u16], count: u16) -> bool {
    (0..count).all(|x| is_entry(tally, labels, count, of(labels, x)))
}

// The entries of all labels, added up: where each node is counted, those of labels that no node carries are 0 exactly when this is the count.
fn sum(tally: &[u16]) -> u64 {
    (0..MOST).fold(
        0u64,
        |total, label| total.saturating_add(u64::from(of(tally, label))),
    )
}

// Of two labels the one that more nodes carry, the smaller where as many do.
fn more_carried(labels: &[u16], count: u16, a: u16, b: u16) -> u16 {
    let of_a = carriers(labels, count, a);
    let of_b = carriers(labels, count, b);
    if of_a == of_b {
        return a.min(b);
    }
    if of_a < of_b { b } else { a }
}

// The label that most nodes carry; 0 where there is none.
fn most(labels: &[u16], count: u16) -> u16 {
    (0..count).fold(
        0,
        |found, x| more_carried(labels, count, found, of(labels, x)),
    )
}

// Whether a tally is that of the plain list.
pub fn is_tallied(tally: &[u16], tree: &Tree) -> bool {
    is_counted(tally, &tree.labels, tree.count)
        && sum(tally) == u64::from(tree.count)
        && of(tally, MOST) == most(&tree.labels, tree.count)
}
