// The reader (document 01, "The reader keeps the log and how far it has read"): a struct that holds the log and a place in it.
// Its functions are thin: each takes the struct apart and calls one of `log_fields` on the slice and the number.

#![tactic(auto)]

ghost use Rattle.std.specs.Prelude.{◌≡◌};
ghost use Rattle.log_fields.specs.Outcome.{outcome_of};
ghost use Rattle.log_fields.specs.Field.{field_at};
ghost use Rattle.log_fields.specs.Body.{IsBody};
ghost use Rattle.reader.specs.Reading.{opened, passed};

use log_fields::{Field, body_at, field_at, next_at};

#[derive(Clone, Copy)]
pub struct Reader<'a> {
    pub log: &'a [u8],
    // how far it has read
    pub at: usize,
}

impl<'a> Reader<'a> {
    // A reader at the start of a log.
    pub fn open(log: &'a [u8]) -> Reader<'a>
        ensures { result ≡ opened log.entry }
    {
        Reader { log, at: 0 }
    }

    // The field that it reads next.
    pub fn field(&self) -> Field
        ensures { outcome_of result ≡ field_at self.now.log.now self.now.at }
    {
        field_at(self.log, self.at)
    }

    // The reader past that field; it stays where the log ends or is cut short.
    pub fn next(&self) -> Reader<'a>
        ensures { result ≡ passed self.now }
    {
        Reader {
            log: self.log,
            at: next_at(self.log, self.at),
        }
    }

    // The body of that field, as the part of the log itself.
    pub fn body(&self) -> &'a [u8]
        ensures { IsBody self.now.log self.now.at result }
    {
        body_at(self.log, self.at)
    }

    // How far it has read.
    pub fn place(&self) -> usize
        ensures { result ≡ self.now.at }
    {
        self.at
    }
}

// The field at a place, read by a reader: for callers that keep the log and the place themselves.
pub fn read_at(log: &[u8], at: usize) -> Field
    ensures { outcome_of result ≡ field_at log.now at }
{
    Reader { log, at }.field()
}
