// An empty table in lent parts of one capacity.

#![tactic(auto)]

ghost use Rattle.std.specs.Prelude.{◌≡◌, List, ℕ, ◌+◌, ◌*◌, ◌≤◌, length};
ghost use Rattle.laws.specs.Tabulate.{Begun, tabulate};
ghost use Rattle.layer.specs.Layout.{field_stride};
ghost use Rattle.table.specs.Lent.{SameLengths, SameLoans, parts_in_mut};
ghost use Rattle.set_up.specs.Outcome.{outcome_of};
ghost use Rattle.set_up.specs.Blank.{blank_field, set_up, parts_after, tally_after};

use layer::layout::{FIELDS, NONE, SIZE};
use table::layout::ROOT;
use table::parts::PartsMut;
use table::refusal::Refusal;
use table::state::State;
use tally::count::clear;
use tally::fit::capacity_with;

// What place i of the fields holds in an empty table: links and root none, other numbers 0.
fn blank_field(i: usize) -> u16
    ensures { result ≡ blank_field i }
{
    let k = i % FIELDS;
    if k < SIZE as usize || k == ROOT as usize {
        NONE
    } else {
        0
    }
}

// Row `row`: where the fields before it are those of an empty table, so then are the fields up to its end.
fn clear_row(fields: &mut [u16], row: usize)
    requires { row * field_stride + field_stride ≤ length fields.old }
    ensures { (g : List ℕ) → Begun blank_field 0 g fields.old (row * field_stride) → Begun blank_field 0 g fields.new (row * field_stride + field_stride) }
{
    for k in 0..FIELDS {
        fields[row * FIELDS + k] = blank_field(k);
    }
}

// Row by row, so that the compiler knows what each place is to hold.
fn clear_fields(fields: &mut [u16], rows: usize)
    requires { length fields.old ≡ rows * field_stride }
    ensures { fields.new ≡ tabulate blank_field (length fields.old) }
{
    for row in 0..rows {
        clear_row(fields, row);
    }
}

// Count 0, roots and links none, other numbers 0; refused only where the parts and the tally do not fit one capacity.
pub fn set_up(parts: &mut PartsMut<'_>, tally: &mut [u16]) -> Result<State, Refusal>
    ensures outcome { outcome_of result ≡ set_up (parts_in_mut parts.old) tally.old }
    ensures after { parts_in_mut parts.new ≡ parts_after (parts_in_mut parts.old) tally.old }
    ensures counts { tally.new ≡ tally_after (parts_in_mut parts.old) tally.old }
    ensures loans { SameLoans parts.old parts.new }
    ensures lengths { SameLengths parts.old parts.new }
{
    let Some(rows) = capacity_with(&parts.read(), tally) else {
        return Err(Refusal::Misfit);
    };
    clear_fields(parts.fields, rows);
    parts.numbers.fill(0);
    parts.levels.fill(0);
    parts.ancestors.fill(NONE);
    clear(tally);
    Ok(State { count: 0 })
}
