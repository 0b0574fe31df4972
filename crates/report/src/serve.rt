// A call on the tables, and what it prints.
ghost use Rattle.std.specs.Prelude.{◌≡◌, List, ℕ};
ghost use Rattle.std.specs.Option.{is_some, unwrap_or};
ghost use Rattle.table.specs.Lent.{SameLengths, SameLoans, parts_in, parts_in_mut};
ghost use Rattle.table.specs.Parts.{level_at};
ghost use Rattle.growth.specs.Outcome.{outcome_of as growth_of};
ghost use Rattle.sequence.specs.Calls.{leaf, root, question, alike};
ghost use Rattle.sequence.specs.Run.{grown_reply, rows_in, state_after};
ghost use Rattle.report.specs.Printed.{printed, printed_of};
ghost use Rattle.report.specs.Report.{fast_of, report, report_of};

use crate::reply::{Shown, answered, compared, grown};
use alike::are_alike;
use growth::{Growth, add_leaf, add_root};
use query::characteristic_ancestors;
use table::parts::{Parts, PartsMut};
use table::refusal::Refusal;
use table::state::State;

// The count after the call, the rows renumbered, and what is printed.
#[derive(Drop)]
pub struct Served {
    pub state: State,
    pub rows: u16,
    pub shown: Shown,
}

// The answer of a growth; `state` stands where it was refused.
fn after_growth(letter: u8, levels: &[i32], state: State, g: Result<Growth, Refusal>) -> Served
    ensures shown { printed_of result.shown ≡ printed letter (level_at levels.now) (grown_reply (growth_of g)) }
    ensures rows { result.rows ≡ rows_in (grown_reply (growth_of g)) }
    ensures state { result.state ≡ state_after state (growth_of g) }
{
    let (after, rows) = match &g {
        Ok(n) => (n.state, n.rows),
        Err(_) => (state, 0),
    };
    Served {
        state: after,
        rows,
        shown: grown(letter, levels, g),
    }
}

pub fn serve_leaf(
    parts: &mut PartsMut<'_>,
    tally: &mut [u16],
    scratch: &[u16],
    state: State,
    parent: u16,
    label: u16,
    face: u16,
) -> Served
    ensures report { report_of (parts_in_mut parts.new) tally.new result ≡ report (fast_of (parts_in_mut parts.old) tally.old state) (leaf parent label face scratch.now) }
    ensures loans { SameLoans parts.old parts.new }
    ensures lengths { SameLengths parts.old parts.new }
{
    let g = add_leaf(parts, tally, scratch, state, parent, label, face);
    after_growth(b'L', parts.read().levels, state, g)
}

pub fn serve_root(
    parts: &mut PartsMut<'_>,
    tally: &mut [u16],
    scratch: &[u16],
    state: State,
    opening: Option<u16>,
) -> Served
    ensures report { report_of (parts_in_mut parts.new) tally.new result ≡ report (fast_of (parts_in_mut parts.old) tally.old state) (root (is_some opening) (unwrap_or opening 0) scratch.now) }
    ensures loans { SameLoans parts.old parts.new }
    ensures lengths { SameLengths parts.old parts.new }
{
    let g = add_root(parts, tally, scratch, state, opening);
    after_growth(b'T', parts.read().levels, state, g)
}

// The tally is not lent; whatever it is, it stays.
pub fn serve_question(parts: &Parts<'_>, state: State, x: u16, y: u16) -> Served
    ensures { (w : List ℕ) → report_of (parts_in parts.now) w result ≡ report (fast_of (parts_in parts.now) w state) (question x y) }
{
    let a = characteristic_ancestors(parts, state, x, y);
    Served {
        state,
        rows: 0,
        shown: answered(a),
    }
}

// The tally is not lent; whatever it is, it stays.
pub fn serve_alike(parts: &Parts<'_>, state: State, x: u16, y: u16) -> Served
    ensures { (w : List ℕ) → report_of (parts_in parts.now) w result ≡ report (fast_of (parts_in parts.now) w state) (alike x y) }
{
    let c = are_alike(parts, state, x, y);
    Served {
        state,
        rows: 0,
        shown: compared(c),
    }
}
