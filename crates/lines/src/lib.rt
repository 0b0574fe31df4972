// The lines that the log program prints (document 01, "Program and figures to check").

#![tactic(auto)]

mod bytes;
mod decimal;

ghost use Rattle.std.specs.Prelude.{◌≡◌, ◌≤◌, take};
ghost use Rattle.lines.specs.Line.{line_of, header_line, end_line, values_of};
ghost use Rattle.lines.specs.Text.{text_of, append};

// The bytes of a line, and how many they are.
#[derive(Drop)]
pub struct Text {
    pub bytes: [u8; 96],
    pub len: usize,
}

impl Text {
    // The first values, each with a space before it.
    fn put_values(&mut self, values: [i32; 6], count: usize)
        ensures { self.new ≡ append self.old (values_of (take count values)) }
    {
        for i in 0..count.min(6) {
            self.put_byte(b' ');
            self.put_signed(values[i]);
        }
    }
}

// The line of a field: its ordinal, a letter, and the first of the values.
pub fn line(ordinal: u32, letter: u8, values: [i32; 6], count: usize) -> Text
    ensures text { result ≡ text_of (line_of ordinal letter (take count values)) }
    ensures fits { result.len ≤ 96 }
{
    let mut t = Text::empty();
    t.put_number(ordinal);
    t.put_byte(b' ');
    t.put_byte(letter);
    t.put_values(values, count);
    t.put_byte(b'\n');
    t
}

// The first line, with the capacity.
pub fn header(capacity: u32) -> Text
    ensures text { result ≡ text_of (header_line capacity) }
    ensures fits { result.len ≤ 96 }
{
    let mut t = Text::empty();
    t.put_bytes(b"echo ");
    t.put_number(capacity);
    t.put_byte(b'\n');
    t
}

// The last line, with the count and the total renumbered.
pub fn end_line(count: u32, total: u32) -> Text
    ensures text { result ≡ text_of (end_line count total) }
    ensures fits { result.len ≤ 96 }
{
    let mut t = Text::empty();
    t.put_bytes(b"end ");
    t.put_number(count);
    t.put_byte(b' ');
    t.put_number(total);
    t.put_byte(b'\n');
    t
}
