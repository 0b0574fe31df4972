// The stores of a first node.
ghost use Rattle.std.specs.Prelude.{◌≡◌, pos};
ghost use Rattle.table.specs.Lent.{SameLengths, SameLoans};
ghost use Rattle.table.specs.Parts.{with_level};
ghost use Rattle.join.specs.Lone.{lone_numbers, lone_entries};
ghost use Rattle.growth_store.specs.Start.{started_fields};

use join::lone::stand_alone;
use layer::write::put_field;
use table::layout::{FACE, LABEL, ROOT};
use table::level::put_level;
use table::parts::PartsMut;

// Row n stands alone, of label 0, front and level 0, its own root.
pub fn start(parts: &mut PartsMut<'_>, n: u16)
    ensures fields { parts.new.fields.now ≡ started_fields parts.old.fields.now n }
    ensures numbers { parts.new.numbers.now ≡ lone_numbers parts.old.numbers.now n }
    ensures levels { parts.new.levels.now ≡ with_level parts.old.levels.now n (pos 0) }
    ensures ancestors { parts.new.ancestors.now ≡ lone_entries parts.old.ancestors.now n }
    ensures loans { SameLoans parts.old parts.new }
    ensures lengths { SameLengths parts.old parts.new }
{
    stand_alone(parts.fields, parts.numbers, parts.ancestors, n);
    put_field(parts.fields, n, LABEL, 0);
    put_field(parts.fields, n, FACE, 0);
    put_field(parts.fields, n, ROOT, n);
    put_level(parts.levels, n, 0);
}
