// The scratch that a growth is lent: its length is all that a growth looks at.
ghost use Rattle.std.specs.Prelude.{◌≡◌};
ghost use Rattle.table.specs.Scratch.{fits_growth};

// A growth takes so many numbers at any capacity, or more.
pub const LEAST_SCRATCH: usize = 32;

// Whether a scratch of this length fits.
pub fn fits_growth(scratch: usize) -> bool
    ensures { result ≡ fits_growth scratch }
{
    LEAST_SCRATCH <= scratch
}
