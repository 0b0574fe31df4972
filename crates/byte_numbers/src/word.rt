// Numbers of 16, 32 and 64 bits at a place of a run of bytes, low byte first.
ghost use Rattle.std.specs.Prelude.{◌≡◌, ◌+◌, ◌≤◌, length};
ghost use Rattle.std.proofs.lemmas.List.Edits.{sets};
ghost use Rattle.byte_numbers.specs.Bytes.{bytes, value_at};

pub fn word16(b: &[u8], i: usize) -> u16
    requires { i + 2 ≤ length b.now }
    ensures { result ≡ value_at 2 b.now i }
{
    u16::from_le_bytes([b[i], b[i + 1]])
}

pub fn word32(b: &[u8], i: usize) -> u32
    requires { i + 4 ≤ length b.now }
    ensures { result ≡ value_at 4 b.now i }
{
    u32::from_le_bytes([b[i], b[i + 1], b[i + 2], b[i + 3]])
}

pub fn word64(b: &[u8], i: usize) -> u64
    requires { i + 8 ≤ length b.now }
    ensures { result ≡ value_at 8 b.now i }
{
    u64::from_le_bytes([
        b[i],
        b[i + 1],
        b[i + 2],
        b[i + 3],
        b[i + 4],
        b[i + 5],
        b[i + 6],
        b[i + 7],
    ])
}

pub fn put16(b: &mut [u8], i: usize, x: u16)
    requires { i + 2 ≤ length b.old }
    ensures { b.new ≡ sets b.old i (bytes 2 x) }
{
    b[i..i + 2].copy_from_slice(&x.to_le_bytes());
}

pub fn put32(b: &mut [u8], i: usize, x: u32)
    requires { i + 4 ≤ length b.old }
    ensures { b.new ≡ sets b.old i (bytes 4 x) }
{
    b[i..i + 4].copy_from_slice(&x.to_le_bytes());
}

pub fn put64(b: &mut [u8], i: usize, x: u64)
    requires { i + 8 ≤ length b.old }
    ensures { b.new ≡ sets b.old i (bytes 8 x) }
{
    b[i..i + 8].copy_from_slice(&x.to_le_bytes());
}
