// A row that stands alone: a tree by itself, numbered as one. Its label, level and root are left as they are.
ghost use Rattle.std.specs.Prelude.{◌≡◌};
ghost use Rattle.join.specs.Lone.{lone_fields, lone_numbers, lone_entries};

use crate::attach::put_links;
use layer::layout::{DEPTH, NEXT_FREE, NONE, SET_SIZE, SIZE, START};
use layer::write::{put_field, put_number};
use renumber::entries::put_entries;

fn put_lone_fields(fields: &mut [u16], x: u16)
    ensures { fields.new ≡ lone_fields fields.old x }
{
    put_links(fields, x, NONE, NONE);
    put_field(fields, x, SIZE, 1);
    put_field(fields, x, SET_SIZE, 1);
    put_field(fields, x, DEPTH, 0);
}

fn put_lone_numbers(numbers: &mut [u64], x: u16)
    ensures { numbers.new ≡ lone_numbers numbers.old x }
{
    put_number(numbers, x, START, 0);
    put_number(numbers, x, NEXT_FREE, 1);
}

pub fn stand_alone(fields: &mut [u16], numbers: &mut [u64], ancestors: &mut [u16], x: u16)
    ensures fields { fields.new ≡ lone_fields fields.old x }
    ensures numbers { numbers.new ≡ lone_numbers numbers.old x }
    ensures ancestors { ancestors.new ≡ lone_entries ancestors.old x }
{
    put_lone_fields(fields, x);
    put_lone_numbers(numbers, x);
    put_entries(ancestors, x, NONE, 1);
}
