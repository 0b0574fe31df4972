// Each answer of the engine against the naive one.
use crate::checks::Checks;
use crate::naive::{alike, branch, nca, of, root_of, steps};
use crate::reason::Reason;
use crate::tree::Tree;
use alike::are_alike;
use query::{Answer, characteristic_ancestors};
use table::parts::Parts;
use table::refusal::Refusal;
use table::state::State;

fn is_answer(tree: &Tree, x: u16, y: u16, found: Answer) -> bool {
    let parents = &tree.parents;
    let a = nca(parents, x, y);
    found.nca == a
        && found.to_x == branch(parents, x, a)
        && found.to_y == branch(parents, y, a)
        && found.distance_x == i32::from(steps(parents, x, a))
        && found.distance_y == i32::from(steps(parents, y, a))
        && found.label == of(&tree.labels, a)
}

fn is_alike(tree: &Tree, x: u16, y: u16, found: bool) -> bool {
    found == alike(&tree.parents, &tree.labels, &tree.faces, x, y)
}

// Why the plain list refuses a question.
fn refusal(tree: &Tree, x: u16, y: u16) -> Option<Reason> {
    if tree.count <= x || tree.count <= y {
        return Some(Reason::UnknownNode);
    }
    if root_of(&tree.parents, x) != root_of(&tree.parents, y) {
        return Some(Reason::OtherTree);
    }
    None
}

// Whether the engine refused for the plain list's reason.
pub fn is_refused_for(reason: Option<Reason>, found: Refusal) -> bool {
    match reason {
        Some(expected) => u16::from(found) == expected.number(),
        None => false,
    }
}

// Whether what was found is the naive answer, by this test, or the plain list's refusal.
fn agrees<T: Drop, F: FnOnce(T) -> bool>(
    refusal: Option<Reason>,
    found: Result<T, Refusal>,
    is_right: F,
) -> bool
    requires { F.IsAlwaysCallable is_right }
{
    match found {
        Ok(answer) => refusal.is_none() && is_right(answer),
        Err(r) => is_refused_for(refusal, r),
    }
}

// Question and alike for one pair.
fn ask_pair(
    parts: &Parts<'_>,
    state: State,
    tree: &Tree,
    checks: Checks,
    x: u16,
    y: u16,
) -> Checks {
    let expected = refusal(tree, x, y);
    let answered = characteristic_ancestors(parts, state, x, y);
    let compared = are_alike(parts, state, x, y);
    checks
        .noted(
            agrees(expected, answered, |a| is_answer(tree, x, y, a)),
            'Q',
            x,
            y,
        )
        .noted(
            agrees(expected, compared, |same| is_alike(tree, x, y, same)),
            'A',
            x,
            y,
        )
}

// One node past the last, so that unknown nodes are asked too.
const ASKED: u16 = 129;

fn ask_row(parts: &Parts<'_>, state: State, tree: &Tree, checks: Checks, x: u16) -> Checks {
    let mut noted = checks;
    for y in 0..ASKED {
        noted = ask_pair(parts, state, tree, noted, x, y);
    }
    noted
}

// Question and alike for every pair.
pub fn ask_all(parts: &Parts<'_>, state: State, tree: &Tree, checks: Checks) -> Checks {
    let mut noted = checks;
    for x in 0..ASKED {
        noted = ask_row(parts, state, tree, noted, x);
    }
    noted
}
