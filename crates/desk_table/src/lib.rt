// The table form for a C host, as include/vundreli.h declares it: set-up and link. The lent parts and the tally are handed over as they are, the count by value.
// A slice is a pointer and a count.

#![tactic(auto)]

ghost use Rattle.std.specs.Prelude.{◌≡◌};
ghost use Rattle.table.specs.Parts.{parts_of};
ghost use Rattle.replies.specs.Reply.{state_of, reply, outcome};
ghost use Rattle.desk_table.specs.TableCalls.{set_up_call, LinkCall};

use replies::{reply_linked, reply_made};
use table::parts::PartsMut;
use table::refusal::Refusal;
use table::state::State;

// How many values each call has for its out slice.
const MADE_OUT: usize = 1;

const LINKED_OUT: usize = 2;

// An empty table. Out: count.
#[unsafe(no_mangle)]
pub extern "C" fn nca_table_set_up(
    fields: &mut [u16],
    numbers: &mut [u64],
    levels: &mut [i32],
    ancestors: &mut [u16],
    tally: &mut [u16],
    out: &mut [u16],
) -> u16
    ensures { outcome (parts_of fields.new numbers.new levels.new ancestors.new) tally.new (reply result out.new) ≡ set_up_call (parts_of fields.old numbers.old levels.old ancestors.old) tally.old out.old }
{
    if out.len() != MADE_OUT {
        return u16::from(Refusal::Misfit);
    }
    let mut parts = PartsMut {
        fields,
        numbers,
        levels,
        ancestors,
    };
    let made = set_up::set_up(&mut parts, tally);
    reply_made(made, out)
}

// The tree of root x under v, a node of another tree; x takes the label. Out: rows renumbered, head.
#[unsafe(no_mangle)]
pub extern "C" fn nca_table_link(
    fields: &mut [u16],
    numbers: &mut [u64],
    levels: &mut [i32],
    ancestors: &mut [u16],
    tally: &mut [u16],
    scratch: &mut [u16],
    count: u16,
    x: u16,
    v: u16,
    label: u16,
    out: &mut [u32],
) -> u16
    ensures { LinkCall (parts_of fields.old numbers.old levels.old ancestors.old) tally.old out.old scratch.old (state_of count) x v label scratch.new (outcome (parts_of fields.new numbers.new levels.new ancestors.new) tally.new (reply result out.new)) }
{
    if out.len() != LINKED_OUT {
        return u16::from(Refusal::Misfit);
    }
    let state = State { count };
    let mut parts = PartsMut {
        fields,
        numbers,
        levels,
        ancestors,
    };
    let linked = link::link(&mut parts, tally, scratch, state, x, v, label);
    reply_linked(linked, out)
}
