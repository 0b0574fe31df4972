// A row that is to join a tree of a table: its seat in the layer, and what the table keeps of it.
ghost use Rattle.std.specs.Prelude.{◌≡◌};
ghost use Rattle.layer.specs.Checked.{Holds};
ghost use Rattle.growth_plan.specs.PlannedRow.{planned_row};

use join::seat::{Seat, seat_of};
use table::refusal::Refusal;

// What the table keeps of a row beside its seat: its level; a label and a face, and the row that takes them, which is the row itself but where a new root
// names an opening; and the row that will record it as its tree's root, or none.
#[derive(Clone, Copy)]
pub struct Marks {
    pub level: i32,
    pub labelled: u16,
    pub label: u16,
    pub face: u16,
    pub tree: u16,
}

#[derive(Clone, Copy)]
pub struct Plan {
    pub seat: Seat,
    pub marks: Marks,
}

// A row that joins, or a first node.
#[derive(Drop)]
pub enum Planned {
    Grow(Plan),
    Start(u16),
}

// The plan of the row z as a leaf under p, with these marks: z is the count, or a row in use that is a tree by itself.
pub fn plan_row(
    fields: &[u16],
    numbers: &[u64],
    ancestors: &[u16],
    count: u16,
    z: u16,
    p: u16,
    marks: Marks,
) -> Result<Planned, Refusal>
    requires { Holds count fields.now numbers.now }
    ensures { result ≡ planned_row fields.now numbers.now ancestors.now count z p marks }
{
    let Some(seat) = seat_of(fields, numbers, ancestors, count, z, p) else {
        return Err(Refusal::Corrupt);
    };
    Ok(Planned::Grow(Plan { seat, marks }))
}
