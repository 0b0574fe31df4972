// The compressed step (01: "the ancestor entry i of each and at most three rows above it"): three times up, or not.
ghost use Rattle.std.specs.Prelude.{◌≡◌};
ghost use Rattle.layer.specs.Layout.{upper_place};
ghost use Rattle.layer.specs.Row.{field_at, row_of};
ghost use Rattle.layer.specs.Checked.{Holds, IsRow};
ghost use Rattle.ancestry.specs.CompressedStep.{arrive, past_entry, past_reach, past_span, side_from};

use crate::row::{covers, field_of, reaches};
use layer::layout::{NONE, UPPER};
use row_check::is_row;

// A row on the way up from a node and the row below it on that way, the same row at the node itself. There is none where a row that was met is not sound.
#[derive(Clone, Copy)]
pub struct Side {
    pub row: u16,
    pub below: u16,
}

// The side at row v, met from row b. A row that is known to be sound is not looked at again.
fn arrive(fields: &[u16], numbers: &[u64], count: u16, known: u16, v: u16, b: u16) -> Option<Side>
    requires holds { Holds count fields.now numbers.now }
    requires row { IsRow count (row_of fields.now numbers.now) known }
    ensures { result ≡ arrive count (row_of fields.now numbers.now) v b }
{
    let side = Side { row: v, below: b };
    if v == known {
        return Some(side);
    }
    if is_row(fields, numbers, count, v) {
        return Some(side);
    }
    None
}

// The side one row above the sound row v.
fn above(fields: &[u16], numbers: &[u64], count: u16, known: u16, v: u16) -> Option<Side>
    requires holds { Holds count fields.now numbers.now }
    requires row { IsRow count (row_of fields.now numbers.now) known }
    requires row_2 { IsRow count (row_of fields.now numbers.now) v }
    ensures { result ≡ arrive count (row_of fields.now numbers.now) (field_at fields.now v upper_place) v }
{
    let w = field_of(fields, v, UPPER);
    arrive(fields, numbers, count, known, w, v)
}

// The first row past the entry e of z, or z where that is none.
fn past_entry(
    fields: &[u16],
    numbers: &[u64],
    count: u16,
    known: u16,
    e: u16,
    z: u16,
) -> Option<Side>
    requires holds { Holds count fields.now numbers.now }
    requires row { IsRow count (row_of fields.now numbers.now) known }
    requires row_2 { IsRow count (row_of fields.now numbers.now) z }
    ensures { result ≡ past_entry count (row_of fields.now numbers.now) e z }
{
    if e == NONE {
        return Some(Side { row: z, below: z });
    }
    arrive(fields, numbers, count, z, e, e)?;
    above(fields, numbers, count, known, e)
}

// A side whose row reaches over the distance d, or the row above it.
fn past_reach(
    fields: &[u16],
    numbers: &[u64],
    count: u16,
    known: u16,
    d: u64,
    s: Side,
) -> Option<Side>
    requires holds { Holds count fields.now numbers.now }
    requires row { IsRow count (row_of fields.now numbers.now) known }
    requires row_2 { IsRow count (row_of fields.now numbers.now) s.row }
    ensures { result ≡ past_reach count (row_of fields.now numbers.now) d s }
{
    let v = s.row;
    if reaches(fields, v, d) {
        return Some(s);
    }
    above(fields, numbers, count, known, v)
}

// A side whose row covers the number o, or the row above it.
fn past_span(
    fields: &[u16],
    numbers: &[u64],
    count: u16,
    known: u16,
    o: u64,
    s: Side,
) -> Option<Side>
    requires holds { Holds count fields.now numbers.now }
    requires row { IsRow count (row_of fields.now numbers.now) known }
    requires row_2 { IsRow count (row_of fields.now numbers.now) s.row }
    ensures { result ≡ past_span count (row_of fields.now numbers.now) o s }
{
    let v = s.row;
    if covers(fields, numbers, v, o) {
        return Some(s);
    }
    above(fields, numbers, count, known, v)
}

// The compressed step from z: e is its entry at the rank of the distance d, o the other node's number, known a sound row.
pub fn side_from(
    fields: &[u16],
    numbers: &[u64],
    count: u16,
    known: u16,
    e: u16,
    d: u64,
    o: u64,
    z: u16,
) -> Option<Side>
    requires holds { Holds count fields.now numbers.now }
    requires row { IsRow count (row_of fields.now numbers.now) known }
    requires row_2 { IsRow count (row_of fields.now numbers.now) z }
    ensures { result ≡ side_from count (row_of fields.now numbers.now) e d o z }
{
    let first = past_entry(fields, numbers, count, known, e, z)?;
    let second = past_reach(fields, numbers, count, known, d, first)?;
    past_span(fields, numbers, count, known, o, second)
}
