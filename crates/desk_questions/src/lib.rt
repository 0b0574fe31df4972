// The table form for a C host, as include/vundreli.h declares it: the calls that only read a table. The lent parts are handed over as they are, the count by
// value. A slice is a pointer and a count.

#![tactic(auto)]

ghost use Rattle.std.specs.Prelude.{◌≡◌};
ghost use Rattle.table.specs.Parts.{parts_of};
ghost use Rattle.replies.specs.Reply.{state_of, reply};
ghost use Rattle.desk_questions.specs.QuestionCalls.{question_call, alike_call, InspectionCall};

use replies::{reply_answered, reply_compared, reply_inspected};
use table::parts::Parts;
use table::refusal::Refusal;
use table::state::State;

// How many values each call has for its out slice.
const ANSWERED_OUT: usize = 6;

const COMPARED_OUT: usize = 1;

const INSPECTED_OUT: usize = 1;

// The characteristic ancestors of x and y. Out: nearest common ancestor, branches towards x and y, distances of x and y, label.
#[unsafe(no_mangle)]
pub extern "C" fn nca_table_query(
    fields: &[u16],
    numbers: &[u64],
    levels: &[i32],
    ancestors: &[u16],
    count: u16,
    x: u16,
    y: u16,
    out: &mut [i32],
) -> u16
    ensures { reply result out.new ≡ question_call (parts_of fields.now numbers.now levels.now ancestors.now) out.old (state_of count) x y }
{
    if out.len() != ANSWERED_OUT {
        return u16::from(Refusal::Misfit);
    }
    let state = State { count };
    let parts = Parts {
        fields,
        numbers,
        levels,
        ancestors,
    };
    let answered = query::characteristic_ancestors(&parts, state, x, y);
    reply_answered(answered, out)
}

// Whether x and y have equal lists of labels and of faces. Out: 1 or 0.
#[unsafe(no_mangle)]
pub extern "C" fn nca_table_alike(
    fields: &[u16],
    numbers: &[u64],
    levels: &[i32],
    ancestors: &[u16],
    count: u16,
    x: u16,
    y: u16,
    out: &mut [u16],
) -> u16
    ensures { reply result out.new ≡ alike_call (parts_of fields.now numbers.now levels.now ancestors.now) out.old (state_of count) x y }
{
    if out.len() != COMPARED_OUT {
        return u16::from(Refusal::Misfit);
    }
    let state = State { count };
    let parts = Parts {
        fields,
        numbers,
        levels,
        ancestors,
    };
    let compared = alike::are_alike(&parts, state, x, y);
    reply_compared(compared, out)
}

// Whether the table passes inspection, its tally too. Out: 1 or 0.
#[unsafe(no_mangle)]
pub extern "C" fn nca_table_inspect(
    fields: &[u16],
    numbers: &[u64],
    levels: &[i32],
    ancestors: &[u16],
    tally: &[u16],
    scratch: &mut [u16],
    count: u16,
    out: &mut [u16],
) -> u16
    ensures { InspectionCall (parts_of fields.now numbers.now levels.now ancestors.now) tally.now out.old scratch.old (state_of count) scratch.new (reply result out.new) }
{
    if out.len() != INSPECTED_OUT {
        return u16::from(Refusal::Misfit);
    }
    let state = State { count };
    let parts = Parts {
        fields,
        numbers,
        levels,
        ancestors,
    };
    let inspected = inspect::inspect(&parts, tally, scratch, state);
    reply_inspected(inspected, out)
}
