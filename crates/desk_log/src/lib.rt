// The log reader for a C host, as include/vundreli.h declares it: what stands at a place of a log, and the place after it.

#![tactic(auto)]

ghost use Rattle.std.specs.Prelude.{◌≡◌, [], ◌∷◌, length};
ghost use Rattle.log_fields.specs.Outcome.{outcome_of};
ghost use Rattle.log_fields.specs.Field.{next_at};
ghost use Rattle.replies.specs.Reply.{reply};
ghost use Rattle.desk_log.specs.LogCalls.{field_reply, field_call};

use log_fields::{Field, next_at};
use reader::read_at;
use replies::served;
use table::refusal::Refusal;

// How many values a field has for its out slice.
const FIELD_OUT: usize = 4;

// Stores a field's kind and its three values. It answers 0: no refusal.
fn put_field(out: &mut [u16], kind: u16, first: u16, second: u16, third: u16) -> u16
    requires { length out.old ≡ 4 }
    ensures { reply result out.new ≡ reply 0 (kind ∷ first ∷ second ∷ third ∷ []) }
{
    served(out, [kind, first, second, third])
}

// What a field tells, zeros where it has fewer values, and at the log's end; or the refusal's number and the out slice as it was.
fn reply_field(field: Field, out: &mut [u16]) -> u16
    requires { length out.old ≡ 4 }
    ensures { reply result out.new ≡ field_reply out.old (outcome_of field) }
{
    match field {
        Field::Refused(fault, _) => u16::from(fault),
        Field::End => put_field(out, 0, 0, 0, 0),
        Field::Leaf {
            parent,
            label,
            face,
            ..
        } => put_field(out, 1, parent, label, face),
        Field::Root {
            opening: Some(opening),
            ..
        } => put_field(out, 2, 1, opening, 0),
        Field::Root { opening: None, .. } => put_field(out, 2, 0, 0, 0),
        Field::Question { x, y, .. } => put_field(out, 3, x, y, 0),
        Field::Alike { x, y, .. } => put_field(out, 4, x, y, 0),
        Field::Filler(_) => put_field(out, 9, 0, 0, 0),
    }
}

// The field at a place of a log. Out: its kind, 0 at the log's end, and its three values.
#[unsafe(no_mangle)]
pub extern "C" fn nca_log_field(log: &[u8], at: usize, out: &mut [u16]) -> u16
    ensures { reply result out.new ≡ field_call log.now at out.old }
{
    if out.len() != FIELD_OUT {
        return u16::from(Refusal::Misfit);
    }
    reply_field(read_at(log, at), out)
}

// The place past the field at a place; the same place where the log ends there or the field is cut short.
#[unsafe(no_mangle)]
pub extern "C" fn nca_log_next(log: &[u8], at: usize) -> usize
    ensures { result ≡ next_at log.now at }
{
    next_at(log, at)
}
