// The log reader (document 01, "The log"): the field at a place of a log, and its body as a part of the log itself.

#![tactic(auto)]

mod bytes;
mod fault;

ghost use Rattle.std.specs.Prelude.{◌≡◌};
ghost use Rattle.log_fields.specs.Outcome.{outcome_of};
ghost use Rattle.log_fields.specs.Field.{whole_field, next_at, field_at};
ghost use Rattle.log_fields.specs.Body.{IsBody};

use bytes::number_at;
pub use fault::Fault;
use zeros::all_zero;

// What stands at a place of a log. All but the end hold, last, the place to go on from.
#[derive(Drop)]
pub enum Field {
    End,
    Refused(Fault, usize),
    // The five kinds of field; the root is the paper's top, the label its panel. A leaf of tag 1 has face 0, the front.
    Leaf {
        parent: u16,
        label: u16,
        face: u16,
        next: usize,
    },
    // The opening, where it names one.
    Root {
        opening: Option<u16>,
        next: usize,
    },
    Question {
        x: u16,
        y: u16,
        next: usize,
    },
    Alike {
        x: u16,
        y: u16,
        next: usize,
    },
    Filler(usize),
}

// The tags.
const LEAF: u8 = 1;

const ROOT: u8 = 2;

const QUESTION: u8 = 3;

const ALIKE: u8 = 4;

const FACED_LEAF: u8 = 5;

const FILLER: u8 = 9;

// What a whole field is, by its tag and its body's length; `next` is the place past it. A leaf that names no face is a front, and any byte is told as a face:
// the call for the leaf refuses an odd one.
#[tactic(auto, using(std::proofs::lemmas::Bool::Decides::nat_tests), unfolding(crate::specs::Field::whole_field))]
fn whole_field(tag: u8, body: &[u8], next: usize) -> Field
    ensures { outcome_of result ≡ whole_field tag body.now next }
{
    match (tag, body.len()) {
        (LEAF, 4) => Field::Leaf {
            parent: number_at(body, 0),
            label: number_at(body, 2),
            face: 0,
            next,
        },
        (FACED_LEAF, 5) => Field::Leaf {
            parent: number_at(body, 0),
            label: number_at(body, 2),
            face: u16::from(body[4]),
            next,
        },
        (ROOT, 0) => Field::Root {
            opening: None,
            next,
        },
        (ROOT, 2) => Field::Root {
            opening: Some(number_at(body, 0)),
            next,
        },
        (QUESTION, 4) => Field::Question {
            x: number_at(body, 0),
            y: number_at(body, 2),
            next,
        },
        (ALIKE, 4) => Field::Alike {
            x: number_at(body, 0),
            y: number_at(body, 2),
            next,
        },
        (LEAF | FACED_LEAF | ROOT | QUESTION | ALIKE, _) => Field::Refused(Fault::BadLength, next),
        (FILLER, _) if all_zero(body) => Field::Filler(next),
        (FILLER, _) => Field::Refused(Fault::DirtyFiller, next),
        _ => Field::Refused(Fault::BadTag, next),
    }
}

// The place past the field at a place, or the same place where the log ends there or the field is cut short.
#[tactic(auto, using(crate::specs::FieldLaws::next_cut, crate::specs::FieldLaws::next_whole))]
pub fn next_at(log: &[u8], at: usize) -> usize
    ensures { result ≡ next_at log.now at }
{
    let left = log.len().saturating_sub(at);
    if left < 3 {
        return at;
    }
    let length = number_at(log, at + 1) as usize;
    if left - 3 < length {
        return at;
    }
    at + 3 + length
}

// The body of the field at a place, a part of the log; empty where the log ends there or the field is cut short.
pub fn body_at(log: &[u8], at: usize) -> &[u8]
    ensures { IsBody log.entry at result }
{
    let next = next_at(log, at);
    if next == at {
        return &log[..0];
    }
    &log[at + 3..next]
}

// The field at a place, looking for refusals 8, 6, 7 and 9 in this order.
#[tactic(auto, using(crate::specs::FieldLaws::field_end, crate::specs::FieldLaws::field_stays, crate::specs::FieldLaws::field_moves))]
pub fn field_at(log: &[u8], at: usize) -> Field
    ensures { outcome_of result ≡ field_at log.now at }
{
    if log.len() <= at {
        return Field::End;
    }
    let next = next_at(log, at);
    if next == at {
        return Field::Refused(Fault::Truncated, at);
    }
    whole_field(log[at], body_at(log, at), next)
}
