// Why a field is refused. 01's words: odd tag, odd length, cut short, dirty filler.
ghost use Rattle.std.specs.Prelude.{◌≡◌};
ghost use Rattle.log_fields.specs.Fault.{number_of};

#[derive(Clone, Copy, Debug, PartialEq, Eq)]
pub enum Fault {
    BadTag,
    BadLength,
    Truncated,
    DirtyFiller,
}

// 01's number.
impl From<Fault> for u16 {
    ghost from_gives = { λ f n. n ≡ number_of f };

    fn from(f: Fault) -> u16 {
        match f {
            Fault::BadTag => 6,
            Fault::BadLength => 7,
            Fault::Truncated => 8,
            Fault::DirtyFiller => 9,
        }
    }
}
