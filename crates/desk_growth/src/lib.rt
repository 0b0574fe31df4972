// The table form for a C host, as include/vundreli.h declares it: the growths. The lent parts and the tally are handed over as they are, the count by value.
// A slice is a pointer and a count.

#![tactic(auto)]

ghost use Rattle.std.specs.Prelude.{◌≡◌, length};
ghost use Rattle.table.specs.Parts.{parts_of};
ghost use Rattle.replies.specs.Reply.{state_of, is_named, reply, outcome};
ghost use Rattle.desk_growth.specs.GrowthCalls.{first_call, leaf_call, root_call};

use replies::reply_grown;
use table::parts::PartsMut;
use table::refusal::Refusal;
use table::state::State;

// How many values a growth has for its out slice.
const GROWN_OUT: usize = 4;

// A first node, which begins a tree. Out: count, node, rows renumbered, head.
#[unsafe(no_mangle)]
pub extern "C" fn nca_table_add_first(
    fields: &mut [u16],
    numbers: &mut [u64],
    levels: &mut [i32],
    ancestors: &mut [u16],
    tally: &mut [u16],
    scratch: &[u16],
    count: u16,
    out: &mut [u16],
) -> u16
    ensures { outcome (parts_of fields.new numbers.new levels.new ancestors.new) tally.new (reply result out.new) ≡ first_call (parts_of fields.old numbers.old levels.old ancestors.old) tally.old out.old (length scratch.now) (state_of count) }
{
    if out.len() != GROWN_OUT {
        return u16::from(Refusal::Misfit);
    }
    let state = State { count };
    let mut parts = PartsMut {
        fields,
        numbers,
        levels,
        ancestors,
    };
    let grown = growth::add_first(&mut parts, tally, scratch, state);
    reply_grown(grown, out)
}

// A new leaf of a label and a face. Out: count, node, rows renumbered, head.
#[unsafe(no_mangle)]
pub extern "C" fn nca_table_add_leaf(
    fields: &mut [u16],
    numbers: &mut [u64],
    levels: &mut [i32],
    ancestors: &mut [u16],
    tally: &mut [u16],
    scratch: &[u16],
    count: u16,
    parent: u16,
    label: u16,
    face: u16,
    out: &mut [u16],
) -> u16
    ensures { outcome (parts_of fields.new numbers.new levels.new ancestors.new) tally.new (reply result out.new) ≡ leaf_call (parts_of fields.old numbers.old levels.old ancestors.old) tally.old out.old (length scratch.now) (state_of count) parent label face }
{
    if out.len() != GROWN_OUT {
        return u16::from(Refusal::Misfit);
    }
    let state = State { count };
    let mut parts = PartsMut {
        fields,
        numbers,
        levels,
        ancestors,
    };
    let grown = growth::add_leaf(&mut parts, tally, scratch, state, parent, label, face);
    reply_grown(grown, out)
}

// A new root over x, the root of a tree, which takes the opening, where `named` is not 0, as its label. Out: count, node, rows renumbered, head.
#[unsafe(no_mangle)]
pub extern "C" fn nca_table_add_root(
    fields: &mut [u16],
    numbers: &mut [u64],
    levels: &mut [i32],
    ancestors: &mut [u16],
    tally: &mut [u16],
    scratch: &[u16],
    count: u16,
    x: u16,
    named: u16,
    opening: u16,
    out: &mut [u16],
) -> u16
    ensures { outcome (parts_of fields.new numbers.new levels.new ancestors.new) tally.new (reply result out.new) ≡ root_call (parts_of fields.old numbers.old levels.old ancestors.old) tally.old out.old (length scratch.now) (state_of count) x (is_named named) opening }
{
    if out.len() != GROWN_OUT {
        return u16::from(Refusal::Misfit);
    }
    let state = State { count };
    let mut parts = PartsMut {
        fields,
        numbers,
        levels,
        ancestors,
    };
    let over = (named != 0).then_some(opening);
    let grown = growth::add_root_over(&mut parts, tally, scratch, state, x, over);
    reply_grown(grown, out)
}
