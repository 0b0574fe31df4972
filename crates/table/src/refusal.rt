// Why a tree call was not served. 01's words: unknown image, full, misfit, not ours, no panel; 02's: not a source, same tree, no shared source, odd face.
ghost use Rattle.std.specs.Prelude.{◌≡◌};
ghost use Rattle.table.specs.Refusal.{number_of};

#[derive(Clone, Copy, Debug, PartialEq, Eq)]
pub enum Refusal {
    UnknownNode,
    Full,
    Misfit,
    Corrupt,
    BadLabel,
    NotRoot,
    SameTree,
    OtherTree,
    BadFace,
}

// 01's number.
impl From<Refusal> for u16 {
    ghost from_gives = { λ r n. n ≡ number_of r };

    fn from(r: Refusal) -> u16 {
        match r {
            Refusal::UnknownNode => 1,
            Refusal::Full => 2,
            Refusal::Misfit => 3,
            Refusal::Corrupt => 4,
            Refusal::BadLabel => 5,
            Refusal::NotRoot => 10,
            Refusal::SameTree => 11,
            Refusal::OtherTree => 12,
            Refusal::BadFace => 13,
        }
    }
}
