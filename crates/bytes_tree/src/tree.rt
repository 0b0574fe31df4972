// A whole tree: its count, parts and tally from bytes, and back.
ghost use Rattle.std.specs.Prelude.{◌≡◌, length};
ghost use Rattle.table.specs.Lent.{SameLengths, SameLoans, parts_in as lent, parts_in_mut};
ghost use Rattle.table.specs.Capacity.{Fits};
ghost use Rattle.tally.specs.Layout.{tally_length};
ghost use Rattle.bytes_tree.specs.Tree.{tree_rows, tree_bytes, state_in, parts_in, tally_in, encoded, InBytes};

use crate::columns::{read, write};
use byte_numbers::word::{put16, word16};
use layer::layout;
use table::parts::{Parts, PartsMut};
use table::state::State;

// The rows of a tree, and the numbers of each of its parts and of its tally.
pub const ROWS: usize = 128;

pub const FIELD_COUNT: usize = ROWS * layout::FIELDS;

pub const NUMBER_COUNT: usize = ROWS * layout::NUMBERS;

pub const ENTRY_COUNT: usize = ROWS * layout::ENTRIES;

pub const TALLY_COUNT: usize = tally::layout::ENTRIES;

// The places of its columns, one after another, and the bytes of all of it.
const COUNT: usize = 0;

const FIELDS: usize = COUNT + 2;

const NUMBERS: usize = FIELDS + FIELD_COUNT * 2;

const LEVELS: usize = NUMBERS + NUMBER_COUNT * 8;

const ANCESTORS: usize = LEVELS + ROWS * 4;

const TALLY: usize = ANCESTORS + ENTRY_COUNT * 2;

pub const BYTES: usize = TALLY + TALLY_COUNT * 2;

pub fn read_state(b: &[u8]) -> State
    requires { length b.now ≡ tree_bytes }
    ensures { result ≡ state_in b.now }
{
    State {
        count: word16(b, COUNT),
    }
}

pub fn read_parts(b: &[u8], parts: &mut PartsMut<'_>)
    requires b_len { length b.now ≡ tree_bytes }
    requires fits { Fits tree_rows (parts_in_mut parts.old) }
    ensures held { parts_in_mut parts.new ≡ parts_in b.now }
    ensures loans { SameLoans parts.old parts.new }
    ensures lengths { SameLengths parts.old parts.new }
{
    read(b, FIELDS, parts.fields);
    read(b, NUMBERS, parts.numbers);
    read(b, LEVELS, parts.levels);
    read(b, ANCESTORS, parts.ancestors);
}

pub fn read_tally(b: &[u8], tally: &mut [u16])
    requires b_len { length b.now ≡ tree_bytes }
    requires tally_len { length tally.old ≡ tally_length }
    ensures { tally.new ≡ tally_in b.now }
{
    read(b, TALLY, tally);
}

pub fn write_tree(b: &mut [u8], state: State, parts: &Parts<'_>, tally: &[u16])
    requires b_len { length b.old ≡ tree_bytes }
    requires fits { Fits tree_rows (lent parts.now) }
    requires tally_len { length tally.now ≡ tally_length }
    ensures bytes { b.new ≡ encoded state (lent parts.now) tally.now }
    ensures range { InBytes state (lent parts.now) tally.now }
{
    put16(b, COUNT, state.count);
    write(b, FIELDS, parts.fields);
    write(b, NUMBERS, parts.numbers);
    write(b, LEVELS, parts.levels);
    write(b, ANCESTORS, parts.ancestors);
    write(b, TALLY, tally);
}
