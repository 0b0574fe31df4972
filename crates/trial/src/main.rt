// The engine against a naive parent walk (01, "Guarantees in writing", d): trees of several shapes, and several trees, at capacity 128, every pair asked,
// inspection and a full count of labels after each growth, and 01's other cases that need no large table.

#![tactic(auto)]

use crate::checks::Checks;
use crate::compare::ask_all;
use crate::grow::{Run, grow_all};
use crate::limits::limits;
use crate::shape::Shape;
use crate::tree::Tree;
use layer::layout::{ENTRIES, FIELDS, NUMBERS};
use set_up::set_up;
use std::io;
use table::parts::PartsMut;
use table::refusal::Refusal;
use table::state::State;

mod call;
mod checks;
mod compare;
mod count;
mod grow;
mod head;
mod limits;
mod naive;
mod random;
mod reason;
mod shape;
mod tree;

// The rows of a table that is tried.
const ROWS: usize = 128;

// Both sides empty; a set-up that was refused is a difference.
fn started(made: Result<State, Refusal>, seed: u64) -> Run {
    let checks = Checks::new();
    let (state, checks) = match made {
        Ok(state) => (state, checks),
        Err(_) => (State { count: 0 }, checks.noted(false, 'S', 0, 0)),
    };
    Run {
        state,
        tree: Tree::new(),
        checks,
        total: 0,
        joinings: 0,
        seed,
    }
}

// A table grown in one shape to its last row, and all pairs asked.
fn try_shape(shape: Shape, seed: u64) -> Run {
    let mut fields = [7u16; ROWS * FIELDS];
    let mut numbers = [7u64; ROWS * NUMBERS];
    let mut levels = [7i32; ROWS];
    let mut ancestors = [7u16; ROWS * ENTRIES];
    let mut tally = [7u16; 10001];
    let mut scratch = [7u16; ROWS];
    let mut parts = PartsMut {
        fields: &mut fields,
        numbers: &mut numbers,
        levels: &mut levels,
        ancestors: &mut ancestors,
    };
    let made = set_up(&mut parts, &mut tally);
    let run = grow_all(
        &mut parts,
        &mut tally,
        &mut scratch,
        started(made, seed),
        shape,
    );
    let checks = ask_all(&parts.read(), run.state, &run.tree, run.checks);
    Run { checks, ..run }
}

fn report_shape(rt: &impl Print, shape: Shape, seed: u64) -> io::Result<()> {
    let run = try_shape(shape, seed);
    let state = run.state;
    println!(rt;
        "{shape}: {} nodes, {} rows renumbered, {}",
        state.count, run.total, run.checks
    )
}

fn main(rt: HostRuntime) -> io::Result<()> {
    for (seed, shape) in Shape::ALL.iter().enumerate() {
        report_shape(&rt, *shape, seed as u64)?;
    }
    println!(rt;
        "limits: parts that do not fit, the empty log, {}",
        limits(Checks::new())
    )
}
