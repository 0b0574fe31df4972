// The replies of byte trees: values as bytes, low byte first.

#![tactic(auto)]

ghost use Rattle.std.specs.Prelude.{◌≡◌, Ok, length};
ghost use Rattle.growth.specs.Outcome.{outcome_of as growth_of};
ghost use Rattle.query.specs.Outcome.{outcome_of};
ghost use Rattle.replies.specs.Reply.{reply};
ghost use Rattle.byte_replies.specs.ByteReply.{grown_bytes, question_bytes};

use byte_numbers::sign::to_bits;
use byte_numbers::word::{put16, put32};
use growth::Growth;
use query::Answer;
use table::refusal::Refusal;

pub fn reply_grown(grown: Result<Growth, Refusal>, out: &mut [u8]) -> u16
    requires { length out.old ≡ 6 }
    ensures { reply result out.new ≡ grown_bytes out.old (growth_of grown) }
{
    match grown {
        Ok(g) => {
            put16(out, 0, g.node);
            put16(out, 2, g.rows);
            put16(out, 4, g.head);
            0
        }
        Err(r) => u16::from(r),
    }
}

fn put_answer(a: Answer, out: &mut [u8])
    requires { length out.old ≡ 16 }
    ensures { reply 0 out.new ≡ question_bytes out.old (outcome_of (Ok a)) }
{
    put16(out, 0, a.nca);
    put16(out, 2, a.to_x);
    put16(out, 4, a.to_y);
    put32(out, 6, to_bits(a.distance_x));
    put32(out, 10, to_bits(a.distance_y));
    put16(out, 14, a.label);
}

pub fn reply_answered(answered: Result<Answer, Refusal>, out: &mut [u8]) -> u16
    requires { length out.old ≡ 16 }
    ensures { reply result out.new ≡ question_bytes out.old (outcome_of answered) }
{
    match answered {
        Ok(a) => {
            put_answer(a, out);
            0
        }
        Err(r) => u16::from(r),
    }
}
