// An answer as 0 and values in an out slice, or 01's refusal number and the out slice as it was.

#![tactic(auto)]

ghost use Rattle.std.specs.Prelude.{◌≡◌, length};
ghost use Rattle.set_up.specs.Outcome.{outcome_of as empty_of};
ghost use Rattle.growth.specs.Outcome.{outcome_of as growth_of};
ghost use Rattle.link.specs.Outcome.{outcome_of as link_of};
ghost use Rattle.query.specs.Outcome.{outcome_of as answer_of};
ghost use Rattle.alike.specs.Outcome.{outcome_of as comparison_of};
ghost use Rattle.inspect.specs.Outcome.{outcome_of as inspection_of};
ghost use Rattle.replies.specs.Reply.{reply, made_reply, grown_reply, link_reply, question_reply, alike_reply, inspection_reply};

use growth::Growth;
use link::Joined;
use query::Answer;
use table::refusal::Refusal;
use table::state::State;

// Stores values where as many have room. It answers 0: no refusal.
pub fn served<N: Copy, const K: usize>(out: &mut [N], values: [N; K]) -> u16
    requires { length out.old ≡ K }
    ensures { reply result out.new ≡ reply 0 values }
{
    out.copy_from_slice(&values);
    0
}

pub fn reply_made(made: Result<State, Refusal>, out: &mut [u16]) -> u16
    requires { length out.old ≡ 1 }
    ensures { reply result out.new ≡ made_reply out.old (empty_of made) }
{
    match made {
        Ok(s) => served(out, [s.count]),
        Err(not_made) => u16::from(not_made),
    }
}

pub fn reply_grown(grown: Result<Growth, Refusal>, out: &mut [u16]) -> u16
    requires { length out.old ≡ 4 }
    ensures { reply result out.new ≡ grown_reply out.old (growth_of grown) }
{
    match grown {
        Ok(g) => {
            let s = g.state;
            served(out, [s.count, g.node, g.rows, g.head])
        }
        Err(not_grown) => u16::from(not_grown),
    }
}

pub fn reply_linked(linked: Result<Joined, Refusal>, out: &mut [u32]) -> u16
    requires { length out.old ≡ 2 }
    ensures { reply result out.new ≡ link_reply out.old (link_of linked) }
{
    match linked {
        Ok(l) => served(out, [l.rows, u32::from(l.head)]),
        Err(not_linked) => u16::from(not_linked),
    }
}

pub fn reply_answered(answered: Result<Answer, Refusal>, out: &mut [i32]) -> u16
    requires { length out.old ≡ 6 }
    ensures { reply result out.new ≡ question_reply out.old (answer_of answered) }
{
    match answered {
        Ok(a) => {
            let values = [
                i32::from(a.nca),
                i32::from(a.to_x),
                i32::from(a.to_y),
                a.distance_x,
                a.distance_y,
                i32::from(a.label),
            ];
            served(out, values)
        }
        Err(no_answer) => u16::from(no_answer),
    }
}

pub fn reply_compared(compared: Result<bool, Refusal>, out: &mut [u16]) -> u16
    requires { length out.old ≡ 1 }
    ensures { reply result out.new ≡ alike_reply out.old (comparison_of compared) }
{
    match compared {
        Ok(same) => served(out, [u16::from(same)]),
        Err(no_value) => u16::from(no_value),
    }
}

pub fn reply_inspected(inspected: Result<bool, Refusal>, out: &mut [u16]) -> u16
    requires { length out.old ≡ 1 }
    ensures { reply result out.new ≡ inspection_reply out.old (inspection_of inspected) }
{
    match inspected {
        Ok(passes) => served(out, [u16::from(passes)]),
        Err(not_inspected) => u16::from(not_inspected),
    }
}
