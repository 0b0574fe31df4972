// The places of a row's numbers in the lent parts, as docs/FORMAT.md lists them. No other file of the code writes them.
// Names no row.
pub const NONE: u16 = 65535;

// 16-bit fields of a row in `fields`; the first eight are those that the row check reads.
pub const PARENT: u16 = 0;

pub const FIRST: u16 = 1;

pub const LAST: u16 = 2;

pub const NEXT: u16 = 3;

pub const UPPER: u16 = 4;

pub const PATH: u16 = 5;

pub const SIZE: u16 = 6;

pub const SET_SIZE: u16 = 7;

pub const DEPTH: u16 = 8;

// A row of twelve is addressed by one scaled index; the layer uses nine of them.
pub const FIELDS: usize = 12;

// 64-bit numbers of a row in `numbers`.
pub const START: u16 = 0;

pub const NEXT_FREE: u16 = 1;

pub const NUMBERS: usize = 2;

// Ancestor entries of a row in `ancestors`.
pub const ENTRIES: usize = 122;

// The last of them, which is the first row of the row's tree.
pub const TREE: u16 = (ENTRIES - 1) as u16;
