// What a field prints after its ordinal, by what its call gave.
ghost use Rattle.std.specs.Prelude.{◌≡◌, [], ◌≤◌, length};
ghost use Rattle.table.specs.Parts.{level_at};
ghost use Rattle.growth.specs.Outcome.{outcome_of as growth_of};
ghost use Rattle.query.specs.Outcome.{outcome_of as answer_of};
ghost use Rattle.alike.specs.Outcome.{outcome_of as same_of};
ghost use Rattle.sequence.specs.Run.{grown_reply, question_reply, alike_reply};
ghost use Rattle.report.specs.Printed.{alike_letter, printed, printed_of, question_letter, printed_refusal};

use growth::Growth;
use query::Answer;
use table::level::level;
use table::refusal::Refusal;

// A letter and the first of six values.
#[derive(Drop)]
pub struct Shown {
    pub letter: u8,
    pub values: [i32; 6],
    pub count: usize,
}

// A letter and these values, six at most.
fn first_of(letter: u8, first: &[i32]) -> Shown
    requires { length first.now ≤ 6 }
    ensures { printed_of result ≡ record { letter = letter; values = first.now } }
{
    let count = first.len();
    let mut values = [0; 6];
    values[..count].copy_from_slice(first);
    Shown {
        letter,
        values,
        count,
    }
}

// R and the refusal's number.
pub fn refused(n: u16) -> Shown
    ensures { printed_of result ≡ printed_refusal n }
{
    first_of(b'R', &[i32::from(n)])
}

// The new node, its level in the levels afterwards, the rows renumbered, and their head.
pub fn grown(letter: u8, levels: &[i32], g: Result<Growth, Refusal>) -> Shown
    ensures { printed_of result ≡ printed letter (level_at levels.now) (grown_reply (growth_of g)) }
{
    match g {
        Err(r) => refused(u16::from(r)),
        Ok(n) => first_of(
            letter,
            &[
                i32::from(n.node),
                level(levels, n.node),
                i32::from(n.rows),
                i32::from(n.head),
            ],
        ),
    }
}

// The nearest common ancestor, both branches, both distances and the ancestor's label.
pub fn answered(a: Result<Answer, Refusal>) -> Shown
    ensures { printed_of result ≡ printed question_letter (level_at []) (question_reply (answer_of a)) }
{
    match a {
        Err(r) => refused(u16::from(r)),
        Ok(v) => first_of(
            b'Q',
            &[
                i32::from(v.nca),
                i32::from(v.to_x),
                i32::from(v.to_y),
                v.distance_x,
                v.distance_y,
                i32::from(v.label),
            ],
        ),
    }
}

// 1 or 0.
pub fn compared(c: Result<bool, Refusal>) -> Shown
    ensures { printed_of result ≡ printed alike_letter (level_at []) (alike_reply (same_of c)) }
{
    match c {
        Err(r) => refused(u16::from(r)),
        Ok(same) => first_of(b'A', &[i32::from(same)]),
    }
}
