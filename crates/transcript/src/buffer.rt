// Lines one after another in a buffer.
ghost use Rattle.std.specs.Prelude.{◌≡◌, ◌++◌, ◌+◌, ◌≤◌, length, take};
ghost use Rattle.turn.specs.Bounds.{Holds};
ghost use Rattle.turn.specs.Session.{written};

use lines::Text;

// The text after the first `filled` bytes, and how many they are then.
pub fn put_text(out: &mut [u8], filled: usize, text: Text) -> usize
    requires holds { Holds text }
    requires filled_in_bounds { filled + 96 ≤ length out.old }
    ensures text { take result out.new ≡ take filled out.old ++ written text }
    ensures filled { result ≡ filled + text.len }
{
    let end = filled + text.len;
    out[filled..end].copy_from_slice(&text.bytes[..text.len]);
    end
}
