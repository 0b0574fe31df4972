// A row read whole, and the check of refusal 4 on it: that it is in use, and on all that it holds.

#![tactic(auto)]

ghost use Rattle.std.specs.Prelude.{◌≡◌};
ghost use Rattle.layer.specs.Row.{Within, row_of};
ghost use Rattle.layer.specs.Sound.{is_sound};
ghost use Rattle.layer.specs.Checked.{Holds, is_row};

use layer::check::is_link;
use layer::layout::{
    DEPTH, FIELDS, FIRST, LAST, NEXT, NEXT_FREE, NUMBERS, PARENT, PATH, SET_SIZE, SIZE, START,
    UPPER,
};
use layer::row::Row;
use span::Span;

// Row v, which lies within the parts.
pub fn row_at(fields: &[u16], numbers: &[u64], v: u16) -> Row
    requires { Within v fields.now numbers.now }
    ensures { result ≡ row_of fields.now numbers.now v }
{
    let x = v as usize;
    let b = x * FIELDS;
    let n = x * NUMBERS;
    Row {
        parent: fields[b + PARENT as usize],
        first: fields[b + FIRST as usize],
        last: fields[b + LAST as usize],
        next: fields[b + NEXT as usize],
        upper: fields[b + UPPER as usize],
        path: fields[b + PATH as usize],
        size: fields[b + SIZE as usize],
        set_size: fields[b + SET_SIZE as usize],
        depth: fields[b + DEPTH as usize],
        start: numbers[n + START as usize],
        next_free: numbers[n + NEXT_FREE as usize],
    }
}

// The row holds nothing out of range in a layer of so many rows. All of it is tested, with no branch.
pub fn is_sound(row: Row, count: u16) -> bool
    ensures { result ≡ is_sound count row }
{
    let parent = is_link(row.parent, count);
    let first = is_link(row.first, count);
    let last = is_link(row.last, count);
    let next = is_link(row.next, count);
    let upper = is_link(row.upper, count);
    let path = is_link(row.path, count);
    let end = Span::new(row.start, row.set_size).within_limit();
    let sizes = (row.size <= count) & (row.set_size <= count);
    let numbers = end & (row.next_free <= Span::LIMIT);
    let links = parent & first & last & next & upper & path;
    links & sizes & numbers
}

// v is a row in use that holds nothing out of range.
pub fn is_row(fields: &[u16], numbers: &[u64], count: u16, v: u16) -> bool
    requires { Holds count fields.now numbers.now }
    ensures { result ≡ is_row count (row_of fields.now numbers.now) v }
{
    if count <= v {
        return false;
    }
    is_sound(row_at(fields, numbers, v), count)
}
