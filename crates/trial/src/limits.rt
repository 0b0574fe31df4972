// Cases of 01 beside the trees: parts that do not fit, and the empty log.
use crate::checks::Checks;
use growth::{Growth, add_root};
use log_fields::Field;
use reader::read_at;
use set_up::set_up;
use table::parts::PartsMut;
use table::refusal::Refusal;
use table::state::State;

// Set-up on parts for two rows, with so many of the ancestor entries and of the tally.
fn set_up_on(entries: usize, counts: usize) -> Result<State, Refusal> {
    let mut fields = [7u16; 24];
    let mut numbers = [7u64; 4];
    let mut levels = [7i32; 2];
    let mut ancestors = [7u16; 244];
    let mut tally = [7u16; 10001];
    let mut parts = PartsMut {
        fields: &mut fields,
        numbers: &mut numbers,
        levels: &mut levels,
        ancestors: &mut ancestors[..entries.min(244)],
    };
    set_up(&mut parts, &mut tally[..counts.min(10001)])
}

// Set-up on parts for no row.
fn set_up_none() -> Result<State, Refusal> {
    let mut tally = [7u16; 10001];
    let mut parts = PartsMut {
        fields: &mut [],
        numbers: &mut [],
        levels: &mut [],
        ancestors: &mut [],
    };
    set_up(&mut parts, &mut tally)
}

// A new root through an opening on an empty table of two rows, with a scratch of so many numbers.
fn root_on(scratch: usize) -> Result<Growth, Refusal> {
    let mut fields = [7u16; 24];
    let mut numbers = [7u64; 4];
    let mut levels = [7i32; 2];
    let mut ancestors = [7u16; 244];
    let mut tally = [7u16; 10001];
    let lent = [7u16; 33];
    let mut parts = PartsMut {
        fields: &mut fields,
        numbers: &mut numbers,
        levels: &mut levels,
        ancestors: &mut ancestors,
    };
    let state = set_up(&mut parts, &mut tally)?;
    add_root(
        &mut parts,
        &mut tally,
        &lent[..scratch.min(33)],
        state,
        Some(9999),
    )
}

fn is_misfit<T: Drop>(found: Result<T, Refusal>) -> bool {
    match found {
        Ok(_) => false,
        Err(r) => u16::from(r) == 3,
    }
}

fn ends_at_once() -> bool {
    matches!(read_at(&[], 0), Field::End)
}

// The last case lends one number to a row of the table, as a link and an inspection take it.
pub fn limits(checks: Checks) -> Checks {
    checks
        .noted(set_up_on(244, 10001).is_ok(), 'S', 244, 0)
        .noted(is_misfit(set_up_on(243, 10001)), 'S', 243, 0)
        .noted(is_misfit(set_up_none()), 'S', 0, 0)
        .noted(is_misfit(set_up_on(244, 10000)), 'S', 244, 10000)
        .noted(is_misfit(root_on(31)), 'T', 31, 0)
        .noted(root_on(32).is_ok(), 'T', 32, 0)
        .noted(root_on(33).is_ok(), 'T', 33, 0)
        .noted(is_misfit(root_on(2)), 'T', 2, 0)
        .noted(ends_at_once(), 'E', 0, 0)
}
