// Counts of rows in 16 bits.

#![tactic(auto)]

ghost use Rattle.std.specs.Prelude.{◌≡◌, ◌-◌, ◌*◌};
ghost use Rattle.counts.specs.Count.{one_more, steps_of};

// One more, up to the greatest number of 16 bits.
pub fn one_more(a: u16) -> u16
    ensures { result ≡ one_more a }
{
    a.saturating_add(1)
}

// How far a lies above b.
pub fn above(a: u16, b: u16) -> u16
    ensures { result ≡ a - b }
{
    a.saturating_sub(b)
}

// The steps of a walk of so many rows, from the first row going down to the same row going up.
pub fn steps_of(rows: u16) -> u32
    ensures { result ≡ steps_of rows }
{
    (u32::from(rows) * 2).saturating_sub(1)
}
