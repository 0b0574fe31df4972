// The rows of a layer that a join reads: as many as are in use, within the lent fields and numbers.
ghost use Rattle.layer.specs.Checked.{Holds};

// The fields and numbers, and the count of rows that lie within both.
#[derive(Clone, Copy)]
pub struct Rows<'a> {
    pub fields: &'a [u16],
    pub numbers: &'a [u64],
    pub count: u16,
    ghost holds: { Holds count fields.now numbers.now },
}
