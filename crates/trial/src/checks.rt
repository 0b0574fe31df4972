// Comparisons made, and the first that failed.
use std::fmt;

// A call that differed: its letter, and the numbers that it was given.
#[derive(Clone, Copy)]
pub struct Difference {
    pub letter: char,
    pub x: u16,
    pub y: u16,
}

#[derive(Clone, Copy)]
pub struct Checks {
    pub compared: u64,
    pub first: Option<Difference>,
}

impl Checks {
    pub fn new() -> Self {
        Self {
            compared: 0,
            first: None,
        }
    }

    // One comparison more.
    pub fn noted(self, equal: bool, letter: char, x: u16, y: u16) -> Self {
        let differs = if equal {
            None
        } else {
            Some(Difference { letter, x, y })
        };
        Self {
            compared: self.compared.saturating_add(1),
            first: self.first.or(differs),
        }
    }
}

impl fmt::Display for Difference {
    fn fmt<W: fmt::Write>(&self, f: &mut fmt::Formatter<W>) -> fmt::Result {
        write!(f, "first difference {} {} {}", self.letter, self.x, self.y)
    }
}

impl fmt::Display for Checks {
    fn fmt<W: fmt::Write>(&self, f: &mut fmt::Formatter<W>) -> fmt::Result {
        write!(f, "{} comparisons, ", self.compared)?;
        match &self.first {
            None => f.write_str("all equal"),
            Some(difference) => write!(f, "{difference}"),
        }
    }
}
