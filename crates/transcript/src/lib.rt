// All that the log program prints for a log: header, a line to each field that prints one, and the last line.

#![tactic(auto)]

mod buffer;

ghost use Rattle.std.specs.Prelude.{◌≡◌, ◌++◌, ◌+◌, ◌*◌, ◌≤◌, length, take};
ghost use Rattle.io.specs.Counts.{IsPrefixLen};
ghost use Rattle.table.specs.Lent.{parts_in_mut};
ghost use Rattle.turn.specs.Session.{session_of};
ghost use Rattle.transcript.specs.Bounds.{Opens, Sized};
ghost use Rattle.transcript.specs.Transcript.{read_log, transcript};

use buffer::put_text;
use layer::layout::{ENTRIES, FIELDS, NUMBERS};
use lines::{end_line, header};
use set_up::set_up;
use table::parts::PartsMut;
use table::scratch::LEAST_SCRATCH;
use tally::layout::ENTRIES as COUNTS;
use turn::{Reading, take_turn};

// The rows of the program's table.
const ROWS: usize = 128;

// Where the reading ended, and how many bytes of the buffer are filled.
#[derive(Drop)]
pub struct Page {
    pub reading: Reading,
    pub filled: usize,
}

// The lines of all fields, after the first `filled` bytes.
fn read_fields(
    log: &[u8],
    out: &mut [u8],
    parts: &mut PartsMut<'_>,
    tally: &mut [u16],
    scratch: &[u16],
    first: Reading,
    header: usize,
) -> Page
    requires { Opens first header (length log.now) (length out.old) }
    ensures text { take result.filled out.new ≡ take header out.old ++ (read_log log.now scratch.now (session_of (parts_in_mut parts.old) tally.old first)).text }
    ensures last { session_of (parts_in_mut parts.new) tally.new result.reading ≡ (read_log log.now scratch.now (session_of (parts_in_mut parts.old) tally.old first)).last }
    ensures room { result.filled ≤ 32 * length log.now + 192 }
{
    let mut reading = first;
    let mut filled = header;
    while reading.on {
        let t = take_turn(log, parts, tally, scratch, reading);
        let text = t.text;
        filled = put_text(out, filled, text);
        reading = t.reading;
    }
    Page { reading, filled }
}

// Header, the lines of the fields and the last line, and how many bytes they are.
pub fn transcribe(log: &[u8], out: &mut [u8]) -> usize
    requires { Sized (length log.now) (length out.old) }
    ensures text { take result out.new ≡ transcript log.now }
    ensures counts { IsPrefixLen result out.new }
{
    let mut fields = [0u16; ROWS * FIELDS];
    let mut numbers = [0u64; ROWS * NUMBERS];
    let mut levels = [0i32; ROWS];
    let mut ancestors = [0u16; ROWS * ENTRIES];
    let mut tally = [0u16; COUNTS];
    let scratch = [0u16; LEAST_SCRATCH];
    let mut parts = PartsMut {
        fields: &mut fields,
        numbers: &mut numbers,
        levels: &mut levels,
        ancestors: &mut ancestors,
    };
    let Ok(state) = set_up(&mut parts, &mut tally) else {
        return 0;
    };
    let first = Reading {
        place: 0,
        ordinal: 1,
        total: 0,
        state,
        on: true,
    };
    let filled = put_text(out, 0, header(ROWS as u32));
    let page = read_fields(log, out, &mut parts, &mut tally, &scratch, first, filled);
    let last = page.reading;
    let end = last.state;
    put_text(out, page.filled, end_line(end.count as u32, last.total))
}
