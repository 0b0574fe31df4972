// Columns of a byte tree: from bytes at a place into a part of a table, and back.
ghost use Rattle.std.specs.Prelude.{◌≡◌, All, List, ℕ, ◌+◌, ◌*◌, ◌^◌, ◌≤◌, ◌<◌, length};
ghost use Rattle.std.specs.Int.{w32};
ghost use Rattle.std.proofs.Common.{SFits};
ghost use Rattle.std.proofs.lemmas.List.Edits.{sets};
ghost use Rattle.laws.specs.Tabulate.{tabulate};
ghost use Rattle.byte_numbers.specs.Bytes.{bytes, value_at};
ghost use Rattle.byte_numbers.specs.BytesLaws.{length_bytes};
ghost use Rattle.byte_numbers.specs.Sign.{signed, unsigned};
ghost use Rattle.bytes_tree.specs.Column.{joined};

use byte_numbers::sign::{to_bits, to_level};
use byte_numbers::word::{put16, put32, put64, word16, word32, word64};

// A number that a column keeps: how many bytes it takes, what bytes at a place say, its own bytes, and which numbers fit them.
pub trait Kept: Copy {
    const WIDTH: usize;

    ghost WIDTH: { ℕ };

    ghost read_at: { List ℕ → ℕ → Self };

    ghost bytes_of: { Self → List ℕ };

    ghost fits: { Self → Type 0 };

    fn read(b: &[u8], place: usize) -> Self
        requires { place + WIDTH ≤ length b.now }
        ensures { result ≡ read_at b.now place };

    fn write(self, b: &mut [u8], place: usize)
        requires { place + WIDTH ≤ length b.old }
        ensures bytes { b.new ≡ sets b.old place (bytes_of self) }
        ensures range { fits self };

    ghost width: { (x : Self) → length (bytes_of x) ≡ WIDTH };
}

impl Kept for u16 {
    const WIDTH: usize = 2;

    ghost WIDTH = { 2 };

    ghost read_at = { value_at 2 };

    ghost bytes_of = { bytes 2 };

    ghost fits = { λ x. x < 2 ^ 16 };

    ghost width = { length_bytes 2 };

    fn read(b: &[u8], place: usize) -> u16 {
        word16(b, place)
    }

    fn write(self, b: &mut [u8], place: usize) {
        put16(b, place, self)
    }
}

impl Kept for u64 {
    const WIDTH: usize = 8;

    ghost WIDTH = { 8 };

    ghost read_at = { value_at 8 };

    ghost bytes_of = { bytes 8 };

    ghost fits = { λ x. x < 2 ^ 64 };

    ghost width = { length_bytes 8 };

    fn read(b: &[u8], place: usize) -> u64 {
        word64(b, place)
    }

    fn write(self, b: &mut [u8], place: usize) {
        put64(b, place, self)
    }
}

impl Kept for i32 {
    const WIDTH: usize = 4;

    ghost WIDTH = { 4 };

    ghost read_at = { λ b place. signed (value_at 4 b place) };

    ghost bytes_of = { λ z. bytes 4 (unsigned z) };

    ghost fits = { SFits w32 };

    ghost width = { λ z. length_bytes 4 (unsigned z) };

    fn read(b: &[u8], place: usize) -> i32 {
        to_level(word32(b, place))
    }

    fn write(self, b: &mut [u8], place: usize) {
        put32(b, place, to_bits(self))
    }
}

pub fn read<T: Kept>(b: &[u8], place: usize, part: &mut [T])
    requires { place + length part.old * T.WIDTH ≤ length b.now }
    ensures { part.new ≡ tabulate (λ i. T.read_at b.now (place + i * T.WIDTH)) (length part.old) }
{
    for i in 0..part.len() {
        part[i] = T::read(b, place + i * T::WIDTH);
    }
}

pub fn write<T: Kept>(b: &mut [u8], place: usize, part: &[T])
    requires { place + length part.now * T.WIDTH ≤ length b.old }
    ensures bytes { b.new ≡ sets b.old place (joined T.bytes_of part.now) }
    ensures range { All T.fits part.now }
{
    for i in 0..part.len() {
        part[i].write(b, place + i * T::WIDTH);
    }
}
