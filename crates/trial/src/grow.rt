// The engine's table and the plain list side by side, call by call, with an inspection and a full count of labels after each.
use crate::call::{Call, call_of, seed_after};
use crate::checks::Checks;
use crate::compare::is_refused_for;
use crate::count::is_tallied;
use crate::head::{heads_growth, heads_link};
use crate::reason::Reason;
use crate::shape::Shape;
use crate::tree::Tree;
use growth::{Growth, add_first, add_leaf, add_root, add_root_over};
use inspect::inspect;
use link::{Joined, link};
use table::parts::PartsMut;
use table::refusal::Refusal;
use table::scratch::LEAST_SCRATCH;
use table::state::State;

// Both sides, and the rows renumbered and the joinings so far.
#[derive(Clone, Copy)]
pub struct Run {
    pub state: State,
    pub tree: Tree,
    pub checks: Checks,
    pub total: u64,
    pub joinings: u64,
    pub seed: u64,
}

// What the engine answered to a call that it served.
#[derive(Drop)]
enum Found {
    Growth(Growth),
    Joined(Joined),
}

// At most 120 rows to a joining.
fn is_paid(total: u64, joinings: u64) -> bool {
    total <= joinings.saturating_mul(120)
}

impl Run {
    // One comparison more, of this call.
    fn noted(self, equal: bool, call: Call) -> Self {
        let checks = self.checks.noted(
            equal,
            call.letter(),
            call.first_named(),
            call.second_named(),
        );
        Self { checks, ..self }
    }

    // The run after a call that was served: so many rows were renumbered, and so many nodes joined.
    fn served(self, state: State, rows: u64, joined: u64, equal: bool, call: Call) -> Self {
        let total = self.total.saturating_add(rows);
        let joinings = self.joinings.saturating_add(joined);
        let noted = self.noted(equal && is_paid(total, joinings), call);
        Self {
            state,
            tree: call.after(self.tree),
            total,
            joinings,
            ..noted
        }
    }

    // The run after a growth that was served; `refusal` is the plain list's.
    fn after_growth(self, fields: &[u16], call: Call, refusal: Option<Reason>, g: Growth) -> Self {
        let tree = call.after(self.tree);
        let state = g.state;
        let equal = refusal.is_none()
            && g.node == self.tree.count
            && state.count == tree.count
            && heads_growth(fields, &g);
        self.served(state, u64::from(g.rows), 1, equal, call)
    }

    // The run after a link that was served.
    fn after_link(self, fields: &[u16], call: Call, refusal: Option<Reason>, l: Joined) -> Self {
        let joined = self.tree.members(call.first_named()) as u64;
        let equal = refusal.is_none() && heads_link(fields, call.second_named(), &l);
        self.served(self.state, u64::from(l.rows), joined, equal, call)
    }

    fn after_call(self, fields: &[u16], call: Call, found: Result<Found, Refusal>) -> Self {
        let refusal = call.refusal(&self.tree);
        match found {
            Err(r) => self.noted(is_refused_for(refusal, r), call),
            Ok(Found::Growth(g)) => self.after_growth(fields, call, refusal, g),
            Ok(Found::Joined(l)) => self.after_link(fields, call, refusal, l),
        }
    }

    // The run with the seed of the next turn.
    fn drawn(self) -> Self {
        Self {
            seed: seed_after(self.seed),
            ..self
        }
    }
}

// The call on the engine's table. A growth is lent the shortest scratch that fits, a link the table's.
fn make(
    parts: &mut PartsMut<'_>,
    tally: &mut [u16],
    scratch: &mut [u16],
    state: State,
    call: Call,
) -> Result<Found, Refusal> {
    let short = [7u16; LEAST_SCRATCH];
    match call {
        Call::First => add_first(parts, tally, &short, state).map(Found::Growth),
        Call::Root { opening } => add_root(parts, tally, &short, state, opening).map(Found::Growth),
        Call::Over { x, opening } => add_root_over(parts, tally, &short, state, x, opening).map(
            Found::Growth,
        ),
        Call::Leaf { x, label, face } => add_leaf(parts, tally, &short, state, x, label, face).map(
            Found::Growth,
        ),
        Call::Link { x, v, label } => link(parts, tally, scratch, state, x, v, label).map(
            Found::Joined,
        ),
    }
}

// Inspection, and a full count of labels.
fn inspected(parts: &PartsMut<'_>, tally: &[u16], scratch: &mut [u16], run: Run, turn: u16) -> Run {
    let passes = inspect(&parts.read(), tally, scratch, run.state).unwrap_or(false);
    let checks = run
        .checks
        .noted(passes, 'I', turn, 0)
        .noted(is_tallied(tally, &run.tree), 'K', turn, 0);
    Run { checks, ..run }
}

// One call on both sides, an inspection, and a full count of labels.
fn grow_once(
    parts: &mut PartsMut<'_>,
    tally: &mut [u16],
    scratch: &mut [u16],
    run: Run,
    shape: Shape,
    turn: u16,
) -> Run {
    let call = call_of(&run.tree, shape, turn, run.seed);
    let found = make(parts, tally, scratch, run.state, call);
    let called = run.drawn().after_call(parts.fields, call, found);
    inspected(parts, tally, scratch, called, turn)
}

// More turns than nodes: the last growths are refused.
const TURNS: u16 = 200;

pub fn grow_all(
    parts: &mut PartsMut<'_>,
    tally: &mut [u16],
    scratch: &mut [u16],
    run: Run,
    shape: Shape,
) -> Run {
    let mut grown = run;
    for turn in 0..TURNS {
        grown = grow_once(parts, tally, scratch, grown, shape, turn);
    }
    grown
}
