// The places of what a table keeps in `fields` beside its layer, the largest label and face and the limits of levels. No other file of the code writes them.
pub const LABEL: u16 = 9;

// The root that a tree's first row records; in other rows it says nothing.
pub const ROOT: u16 = 10;

// The face, 0 front or 1 back.
pub const FACE: u16 = 11;

// Labels go from 0 to this one.
pub const LARGEST_LABEL: u16 = 9999;

// Faces go from 0 to this one.
pub const LARGEST_FACE: u16 = 1;

// Levels go from the one to the other.
pub const LOWEST_LEVEL: i32 = -HIGHEST_LEVEL;

pub const HIGHEST_LEVEL: i32 = 32767;
