// The level of a new row, where it and the level that it is made from lie within the limits.
ghost use Rattle.std.specs.Prelude.{◌≡◌, pos, ◌+ℤ◌, ◌-ℤ◌};
ghost use Rattle.growth_plan.specs.Level.{level_from};

use table::layout::{HIGHEST_LEVEL, LOWEST_LEVEL};

// The highest level that has one below it, and the lowest that has one above.
const HIGHEST_PARENT: i32 = HIGHEST_LEVEL - 1;

const LOWEST_ROOT: i32 = LOWEST_LEVEL + 1;

// One more than the parent's: the level of a leaf.
pub fn leaf_level(parent: i32) -> Option<i32>
    ensures { result ≡ level_from parent (parent +ℤ pos 1) }
{
    if parent < LOWEST_LEVEL {
        return None;
    }
    if HIGHEST_PARENT < parent {
        return None;
    }
    Some(parent + 1)
}

// One less than the old root's: the level of a new root.
pub fn root_level(root: i32) -> Option<i32>
    ensures { result ≡ level_from root (root -ℤ pos 1) }
{
    if root < LOWEST_ROOT {
        return None;
    }
    if HIGHEST_LEVEL < root {
        return None;
    }
    Some(root - 1)
}
