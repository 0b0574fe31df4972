// The log program (01, "Program and figures to check"): a log from the first 16,384 bytes of standard input, its lines on standard output.

#![tactic(auto)]

ghost use Rattle.std.specs.Prelude.{◌≡◌, length};
ghost use Rattle.io.specs.Counts.{IsPrefixLen};

use std::io;
use std::io::{Read, Write};
use transcript::transcribe;

// The log's buffer; the contract gives only the length, which lending it needs.
fn log_buffer() -> [u8; 16384]
    ensures { 16384 ≡ length result }
{
    [0; 16384]
}

// The buffer of all that is printed: a line of 96 bytes for three bytes of the log, and three lines more.
fn page_buffer() -> [u8; 524576]
    ensures { 524576 ≡ length result }
{
    [0; 524576]
}

// Reads until the buffer is full, the input ends or a read fails, and says how many bytes came.
fn read_full(input: &mut impl Read, log: &mut [u8]) -> usize
    ensures { IsPrefixLen result log.new }
{
    let mut filled = 0;
    while filled < log.len() {
        match input.read(&mut log[filled..]) {
            Ok(0) => return filled,
            Ok(n) => filled += n,
            Err(_) => return filled,
        }
    }
    filled
}

fn main(rt: HostRuntime) -> io::Result<()> {
    let mut log = log_buffer();
    let read = read_full(&mut rt.stdin(), &mut log);
    let mut out = page_buffer();
    let filled = transcribe(&log[..read], &mut out);
    rt.stdout().write_all(&out[..filled])
}
