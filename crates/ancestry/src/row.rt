// Reads of rows that were checked: they lie within the parts, so nothing is tested again.
ghost use Rattle.std.specs.Prelude.{◌≡◌, ◌+◌, ◌*◌, ◌≤◌, ◌<◌, ltb, length};
ghost use Rattle.span.specs.Constants.{limit};
ghost use Rattle.span.specs.Numbers.{p_of, reach_of};
ghost use Rattle.layer.specs.Layout.{set_size_place, field_stride, start_place, number_stride, entry_stride};
ghost use Rattle.layer.specs.Row.{field_at, number_at, entry_at, span_in, row_of, Within};
ghost use Rattle.ancestry.specs.Reading.{InFields, Spanned, covers};

use layer::layout::{ENTRIES, FIELDS, NEXT_FREE, NUMBERS, SET_SIZE, START};
use span::{Span, part};

// Field k of a row within the fields.
pub fn field_of(fields: &[u16], v: u16, k: u16) -> u16
    requires { v * field_stride + k < length fields.now }
    ensures { result ≡ field_at fields.now v k }
{
    let i = (v as usize) * FIELDS + (k as usize);
    fields[i]
}

// Number k of a row within the numbers.
fn number_of(numbers: &[u64], v: u16, k: u16) -> u64
    requires { v * number_stride + k < length numbers.now }
    ensures { result ≡ number_at numbers.now v k }
{
    let i = (v as usize) * NUMBERS + (k as usize);
    numbers[i]
}

// Ancestor entry i of a row within the entries.
pub fn entry_of(ancestors: &[u16], v: u16, i: u16) -> u16
    requires { v * entry_stride + i < length ancestors.now }
    ensures { result ≡ entry_at ancestors.now v i }
{
    let k = (v as usize) * ENTRIES + (i as usize);
    ancestors[k]
}

// The span of a row within the parts.
fn span_of(fields: &[u16], numbers: &[u64], v: u16) -> Span
    requires { Within v fields.now numbers.now }
    ensures { result ≡ span_in fields.now numbers.now v }
{
    let start = number_of(numbers, v, START);
    let set_size = field_of(fields, v, SET_SIZE);
    let next_free = number_of(numbers, v, NEXT_FREE);
    Span {
        start: start,
        set_size: set_size,
        next_free: next_free,
    }
}

// The number p of a row whose span lies within the limit.
pub fn p_at(fields: &[u16], numbers: &[u64], v: u16) -> u64
    requires { Spanned fields.now numbers.now v }
    ensures { result ≡ p_of (number_at numbers.now v start_place) (field_at fields.now v set_size_place) }
{
    let span = span_of(fields, numbers, v);
    span.p()
}

// The reach of a row, a number within the limit, is over the distance d.
pub fn reaches(fields: &[u16], v: u16, d: u64) -> bool
    requires in_fields { InFields fields.now v }
    requires set_size_place_bound { reach_of (field_at fields.now v set_size_place) ≤ limit }
    ensures { result ≡ ltb d (reach_of (field_at fields.now v set_size_place)) }
{
    d < (Span::WIDTH - 2) * part(field_of(fields, v, SET_SIZE))
}

// The number n lies from p to q of a row, q excluded.
pub fn covers(fields: &[u16], numbers: &[u64], v: u16, n: u64) -> bool
    requires { Spanned fields.now numbers.now v }
    ensures { result ≡ covers (row_of fields.now numbers.now v) n }
{
    if n < p_at(fields, numbers, v) {
        return false;
    }
    n < span_of(fields, numbers, v).q()
}
