// Total stores to the lent parts: past the end of a part nothing is stored.
ghost use Rattle.std.specs.Prelude.{◌≡◌};
ghost use Rattle.layer.specs.Write.{with_field, with_number};

use crate::layout::{FIELDS, NUMBERS};

// Field k of row v.
pub fn put_field(fields: &mut [u16], v: u16, k: u16, x: u16)
    ensures { fields.new ≡ with_field fields.old v k x }
{
    let i = (v as usize) * FIELDS + (k as usize);
    if i < fields.len() {
        fields[i] = x;
    }
}

// Number k of row v.
pub fn put_number(numbers: &mut [u64], v: u16, k: u16, x: u64)
    ensures { numbers.new ≡ with_number numbers.old v k x }
{
    let i = (v as usize) * NUMBERS + (k as usize);
    if i < numbers.len() {
        numbers[i] = x;
    }
}
