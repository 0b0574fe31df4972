// The lent parts of a table, the tally and the scratch aside: by reference, to read or to write.
ghost use Rattle.std.specs.Prelude.{◌≡◌};
ghost use Rattle.table.specs.Lent.{parts_in, parts_in_mut};

// The parts, to read.
#[derive(Clone, Copy)]
pub struct Parts<'a> {
    pub fields: &'a [u16],
    pub numbers: &'a [u64],
    pub levels: &'a [i32],
    pub ancestors: &'a [u16],
}

// The parts, to write.
#[derive(Drop)]
pub struct PartsMut<'a> {
    pub fields: &'a mut [u16],
    pub numbers: &'a mut [u64],
    pub levels: &'a mut [i32],
    pub ancestors: &'a mut [u16],
}

impl PartsMut<'_> {
    // The same parts, to read.
    pub fn read(&self) -> Parts<'_>
        ensures { parts_in result ≡ parts_in_mut self.now }
    {
        Parts {
            fields: self.fields,
            numbers: self.numbers,
            levels: self.levels,
            ancestors: self.ancestors,
        }
    }
}
