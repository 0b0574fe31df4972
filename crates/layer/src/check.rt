// The check of refusal 4 on one link.
ghost use Rattle.std.specs.Prelude.{◌≡◌};
ghost use Rattle.layer.specs.Sound.{is_link};

// A link that is none or below the count: none is the greatest number, so that the next one is 0.
pub fn is_link(x: u16, count: u16) -> bool
    ensures { result ≡ is_link count x }
{
    x.wrapping_add(1) <= count
}
