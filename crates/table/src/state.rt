// The count, by value: all that a call is told of a table beside its lent parts.
ghost use Rattle.std.specs.Prelude.{◌≡◌};
ghost use Rattle.table.specs.State.{is_standing};

#[derive(Clone, Copy)]
pub struct State {
    pub count: u16,
}

// The count is one that a table of this capacity may have.
pub fn is_standing(capacity: usize, s: State) -> bool
    ensures { result ≡ is_standing capacity s }
{
    s.count as usize <= capacity
}
