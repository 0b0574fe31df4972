// Why the plain list refuses a call. Names and numbers are its own: the engine's refusals are held against these numbers.
#[derive(Clone, Copy)]
pub enum Reason {
    UnknownNode,
    Full,
    BadLabel,
    NotRoot,
    SameTree,
    OtherTree,
    BadFace,
}

impl Reason {
    // 01's number.
    pub fn number(self) -> u16 {
        match self {
            Reason::UnknownNode => 1,
            Reason::Full => 2,
            Reason::BadLabel => 5,
            Reason::NotRoot => 10,
            Reason::SameTree => 11,
            Reason::OtherTree => 12,
            Reason::BadFace => 13,
        }
    }
}
