// A row by value, and total reads of the lent parts: past the end of a part every number is 0.
ghost use Rattle.std.specs.Prelude.{◌≡◌};
ghost use Rattle.layer.specs.Row.{entry_at, field_at, number_at, span_in};

use crate::layout::{ENTRIES, FIELDS, NEXT_FREE, NUMBERS, SET_SIZE, START};
use span::Span;

// What one row holds, its ancestor entries aside.
#[derive(Drop)]
pub struct Row {
    pub parent: u16,
    pub first: u16,
    pub last: u16,
    pub next: u16,
    pub upper: u16,
    pub path: u16,
    pub size: u16,
    pub set_size: u16,
    pub depth: u16,
    pub start: u64,
    pub next_free: u64,
}

// Field k of row v.
pub fn field(fields: &[u16], v: u16, k: u16) -> u16
    ensures { result ≡ field_at fields.now v k }
{
    let i = (v as usize) * FIELDS + (k as usize);
    if i < fields.len() { fields[i] } else { 0 }
}

// Number k of row v.
pub fn number(numbers: &[u64], v: u16, k: u16) -> u64
    ensures { result ≡ number_at numbers.now v k }
{
    let i = (v as usize) * NUMBERS + (k as usize);
    if i < numbers.len() { numbers[i] } else { 0 }
}

// Ancestor entry i of row v.
pub fn entry(ancestors: &[u16], v: u16, i: u16) -> u16
    ensures { result ≡ entry_at ancestors.now v i }
{
    let k = (v as usize) * ENTRIES + (i as usize);
    if k < ancestors.len() { ancestors[k] } else { 0 }
}

// The span of row v.
pub fn span_at(fields: &[u16], numbers: &[u64], v: u16) -> Span
    ensures { result ≡ span_in fields.now numbers.now v }
{
    Span {
        start: number(numbers, v, START),
        set_size: field(fields, v, SET_SIZE),
        next_free: number(numbers, v, NEXT_FREE),
    }
}
