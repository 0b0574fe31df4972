// The chain of a new leaf: its upper rows, from the lowest up.
ghost use Rattle.std.specs.Prelude.{◌≡◌};
ghost use Rattle.laws.specs.Test.{pick};
ghost use Rattle.join.specs.Chain.{top_from, outgrown_at, raised_at, raised};

use crate::rows::Rows;
use counts::one_more;
use layer::layout::{NONE, SET_SIZE, SIZE, UPPER};
use layer::row::field;
use layer::write::put_field;
use row_check::is_row;
use span::Span;

// Row u, with one row more below it, has outgrown its set size.
fn is_outgrown(fields: &[u16], u: u16) -> bool
    ensures { result ≡ outgrown_at fields.now u }
{
    Span::outgrown(one_more(field(fields, u, SIZE)), field(fields, u, SET_SIZE))
}

// u where it has outgrown its set size, else the row found below it.
fn higher(fields: &[u16], u: u16, top: u16) -> u16
    ensures { result ≡ pick (outgrown_at fields.now u) u top }
{
    if is_outgrown(fields, u) {
        return u;
    }
    top
}

// The highest row of the chain from `first` up that one more row makes outgrow its set size, the row NONE where none does; no answer where something read
// is out of range.
pub fn top_of(rows: &Rows<'_>, first: u16) -> Option<u16>
    ensures { result ≡ top_from rows.now.count rows.now.fields.now rows.now.numbers.now rows.now.count first 65535 }
{
    let mut u = first;
    let mut top = NONE;
    for _ in 0..rows.count {
        if u == NONE {
            return Some(top);
        }
        if !is_row(rows.fields, rows.numbers, rows.count, u) {
            return None;
        }
        top = higher(rows.fields, u, top);
        u = field(rows.fields, u, UPPER);
    }
    if u == NONE {
        return Some(top);
    }
    None
}

// One more in the size of row u.
fn raise_at(fields: &mut [u16], u: u16)
    ensures { fields.new ≡ raised_at fields.old u }
{
    let s = one_more(field(fields, u, SIZE));
    put_field(fields, u, SIZE, s);
}

// One more in the size of each row of the chain from u up.
pub fn raise(fields: &mut [u16], count: u16, first: u16)
    ensures { fields.new ≡ raised count fields.old first }
{
    let mut u = first;
    for _ in 0..count {
        if u == NONE {
            return;
        }
        raise_at(fields, u);
        u = field(fields, u, UPPER);
    }
}
