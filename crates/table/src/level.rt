// The levels of a table: total reads and stores, the check of refusal 4 on one level, and how far two are apart.
ghost use Rattle.std.specs.Prelude.{◌≡◌, ◌≤◌, nat_abs, ◌-ℤ◌};
ghost use Rattle.table.specs.Level.{is_level, level_limit};
ghost use Rattle.table.specs.Parts.{level_at, with_level};

use crate::layout::{HIGHEST_LEVEL, LOWEST_LEVEL};

// The level of row v; past the end it is 0.
pub fn level(levels: &[i32], v: u16) -> i32
    ensures { result ≡ level_at levels.now v }
{
    let i = v as usize;
    if i < levels.len() { levels[i] } else { 0 }
}

// The level of row v becomes x; past the end nothing is stored.
pub fn put_level(levels: &mut [i32], v: u16, x: i32)
    ensures { levels.new ≡ with_level levels.old v x }
{
    let i = v as usize;
    if i < levels.len() {
        levels[i] = x;
    }
}

// A level within its limits.
pub fn is_level(l: i32) -> bool
    ensures { result ≡ is_level l }
{
    if l < LOWEST_LEVEL {
        return false;
    }
    l <= HIGHEST_LEVEL
}

// The level x over the level a.
pub fn distance(x: i32, a: i32) -> i32
    requires x_bound { nat_abs x ≤ level_limit }
    requires a_bound { nat_abs a ≤ level_limit }
    ensures { result ≡ x -ℤ a }
{
    x - a
}
