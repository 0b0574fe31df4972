// One field of a log: its line, and what stands after it.

#![tactic(auto)]

ghost use Rattle.std.specs.Prelude.{◌≡◌, List, ℕ, ◌+◌, ◌≤◌, not, eqb};
ghost use Rattle.log_fields.specs.Fault.{number_of};
ghost use Rattle.table.specs.Lent.{SameLengths, SameLoans, parts_in_mut};
ghost use Rattle.table.specs.Parts.{Parts};
ghost use Rattle.report.specs.Report.{report_of};
ghost use Rattle.turn.specs.Bounds.{Grows, Small};
ghost use Rattle.turn.specs.Session.{refused_field, reported, session_of, silent, step_of, turn_of};

use lines::{Text, line};
use log_fields::{Fault, Field};
use reader::read_at;
use report::reply::refused;
use report::serve::{Served, serve_alike, serve_leaf, serve_question, serve_root};
use table::parts::PartsMut;
use table::state::State;

// How far the log is read, the ordinal of the next field, the rows renumbered so far, the count, and whether the reading goes on.
#[derive(Clone, Copy)]
pub struct Reading {
    pub place: usize,
    pub ordinal: u32,
    pub total: u32,
    pub state: State,
    pub on: bool,
}

// What a field prints, and what stands after it.
#[derive(Drop)]
pub struct Turn {
    pub text: Text,
    pub reading: Reading,
}

// A field that prints no line, or the log's end.
fn silent_turn(reading: Reading, place: usize, ordinal: u32, on: bool) -> Turn
    ensures step { (t : Parts) (w : List ℕ) → turn_of t w result ≡ silent (session_of t w reading) place ordinal on }
    ensures grows { ordinal ≤ reading.ordinal + 1 → Grows reading result }
{
    let state = reading.state;
    Turn {
        text: Text {
            bytes: [0; 96],
            len: 0,
        },
        reading: Reading {
            place,
            ordinal,
            total: reading.total,
            state,
            on,
        },
    }
}

// Whether the reading goes on after a field that is refused: not after one that is cut short.
fn goes_on(fault: Fault) -> bool
    ensures { result ≡ not (eqb (number_of fault) 8) }
{
    match fault {
        Fault::Truncated => false,
        Fault::BadTag | Fault::BadLength | Fault::DirtyFiller => true,
    }
}

// A refusal of the reader.
fn refused_turn(reading: Reading, fault: Fault, next: usize) -> Turn
    requires { Small reading }
    ensures step { (t : Parts) (w : List ℕ) → turn_of t w result ≡ refused_field (session_of t w reading) (number_of fault) next }
    ensures grows { Grows reading result }
{
    let state = reading.state;
    let shown = refused(u16::from(fault));
    let values = shown.values;
    Turn {
        text: line(reading.ordinal, shown.letter, values, shown.count),
        reading: Reading {
            place: next,
            ordinal: reading.ordinal + 1,
            total: reading.total,
            state,
            on: goes_on(fault),
        },
    }
}

// A call that was answered.
fn served_turn(reading: Reading, served: Served, next: usize) -> Turn
    requires { Small reading }
    ensures step { (t : Parts) (w : List ℕ) → turn_of t w result ≡ reported reading.ordinal reading.total next (report_of t w served) }
    ensures grows { Grows reading result }
{
    let state = served.state;
    let shown = served.shown;
    let values = shown.values;
    Turn {
        text: line(reading.ordinal, shown.letter, values, shown.count),
        reading: Reading {
            place: next,
            ordinal: reading.ordinal + 1,
            total: reading.total + served.rows as u32,
            state,
            on: true,
        },
    }
}

// The next field of the log, served on the tables.
pub fn take_turn(
    log: &[u8],
    parts: &mut PartsMut<'_>,
    tally: &mut [u16],
    scratch: &[u16],
    reading: Reading,
) -> Turn
    requires { Small reading }
    ensures loans { SameLoans parts.old parts.new }
    ensures lengths { SameLengths parts.old parts.new }
    ensures step { turn_of (parts_in_mut parts.new) tally.new result ≡ step_of log.now scratch.now (session_of (parts_in_mut parts.old) tally.old reading) }
    ensures grows { Grows reading result }
{
    let state = reading.state;
    let found = read_at(log, reading.place);
    match found {
        Field::End => silent_turn(reading, reading.place, reading.ordinal, false),
        Field::Refused(fault, next) => refused_turn(reading, fault, next),
        Field::Filler(next) => silent_turn(reading, next, reading.ordinal + 1, true),
        Field::Leaf {
            parent,
            label,
            face,
            next,
        } => {
            let served = serve_leaf(parts, tally, scratch, state, parent, label, face);
            served_turn(reading, served, next)
        }
        Field::Root { opening, next } => {
            let served = serve_root(parts, tally, scratch, state, opening);
            served_turn(reading, served, next)
        }
        Field::Question { x, y, next } => {
            let served = serve_question(&parts.read(), state, x, y);
            served_turn(reading, served, next)
        }
        Field::Alike { x, y, next } => {
            let served = serve_alike(&parts.read(), state, x, y);
            served_turn(reading, served, next)
        }
    }
}
