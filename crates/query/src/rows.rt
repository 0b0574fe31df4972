// The rows of a table that a question reads: as many as are in use, within all of the lent parts.
ghost use Rattle.table.specs.Lent.{parts_in};
ghost use Rattle.query.specs.Node.{Held};

use table::parts::Parts;

// The parts and the count of rows that lie within them: a reference and a number, and so two words.
#[derive(Clone, Copy)]
pub struct Rows<'a> {
    pub parts: &'a Parts<'a>,
    pub count: u16,
    ghost held: { Held count (parts_in parts.now) },
}
