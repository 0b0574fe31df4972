// Cells: a lent list of 16-bit numbers, read and stored at any place. A scratch is one, with a cell to a row; a tally is one, with a cell to a label.

#![tactic(auto)]

ghost use Rattle.std.specs.Prelude.{◌≡◌, get_or, length, replicate, set};

// Cell x; past the end it reads as 0.
pub fn cell(s: &[u16], x: u16) -> u16
    ensures { result ≡ get_or s.now x 0 }
{
    let i = x as usize;
    if i < s.len() { s[i] } else { 0 }
}

// Stores v in cell x; past the end it stores nothing.
pub fn put(s: &mut [u16], x: u16, v: u16)
    ensures { s.new ≡ set s.old x v }
{
    let i = x as usize;
    if i < s.len() {
        s[i] = v;
    }
}

// Stores v in every cell.
pub fn fill(s: &mut [u16], v: u16)
    ensures { s.new ≡ replicate (length s.old) v }
{
    s.fill(v)
}
