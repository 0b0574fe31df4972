// A level as a number of 32 bits, in two's complement.
ghost use Rattle.std.specs.Prelude.{◌≡◌};
ghost use Rattle.byte_numbers.specs.Sign.{signed, unsigned};

pub fn to_level(x: u32) -> i32
    ensures { result ≡ signed x }
{
    x.cast_signed()
}

pub fn to_bits(z: i32) -> u32
    ensures { result ≡ unsigned z }
{
    z.cast_unsigned()
}
