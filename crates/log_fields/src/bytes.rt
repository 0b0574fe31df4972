// Numbers in a run of bytes.
ghost use Rattle.std.specs.Prelude.{◌≡◌, ◌+◌, ◌*◌, ◌<◌, length};
ghost use Rattle.log_fields.specs.Bytes.{number_at};

// The 16-bit number at a place, high byte first.
pub fn number_at(bytes: &[u8], i: usize) -> u16
    requires { i + 1 < length bytes.now }
    ensures { result ≡ number_at bytes.now i }
{
    u16::from_be_bytes([bytes[i], bytes[i + 1]])
}
