// Whether a run of bytes is all zeros. Most of a quiet day's log is filler: eight bytes are taken as one word, four words to a turn of the loop, the last
// few singly.

#![tactic(auto)]

ghost use Rattle.std.specs.List.{list_all};
ghost use Rattle.std.specs.Prelude.{◌≡◌, ◌==◌, ◌+◌, ◌≤◌, length, drop};
ghost use Rattle.zeros.specs.Zeros.{all_zero, zeros_at};
ghost use Rattle.zeros.specs.Passed.{Passed};

use byte_numbers::word::word64;

// How many bytes a word has, and a block of four words.
const WORD: usize = 8;

const BLOCK: usize = 32;

// Whether the word at a place is zero.
fn zero_word(bytes: &[u8], i: usize) -> bool
    requires { i + 8 ≤ length bytes.now }
    ensures { result ≡ zeros_at 8 bytes.now i }
{
    word64(bytes, i) == 0
}

// Whether the four words at a place are zero.
fn zero_block(bytes: &[u8], i: usize) -> bool
    requires { i + 32 ≤ length bytes.now }
    ensures { result ≡ zeros_at 32 bytes.now i }
{
    if !zero_word(bytes, i) {
        return false;
    }
    if !zero_word(bytes, i + 8) {
        return false;
    }
    if !zero_word(bytes, i + 16) {
        return false;
    }
    zero_word(bytes, i + 24)
}

// Where blocks of zeros end.
fn zero_blocks(bytes: &[u8]) -> usize
    ensures { Passed 32 bytes.now 0 result }
{
    let blocks = bytes.len() / BLOCK;
    for k in 0..blocks {
        if !zero_block(bytes, k * BLOCK) {
            return k * BLOCK;
        }
    }
    blocks * BLOCK
}

// Where words of zeros from a place on end.
fn zero_words(bytes: &[u8], start: usize) -> usize
    requires { start ≤ length bytes.now }
    ensures { Passed 8 bytes.now start result }
{
    let words = (bytes.len() - start) / WORD;
    for k in 0..words {
        if !zero_word(bytes, start + k * WORD) {
            return start + k * WORD;
        }
    }
    start + words * WORD
}

// Whether every byte is zero, taken singly.
fn zero_singly(bytes: &[u8]) -> bool
    ensures { result ≡ list_all (λ b. b == 0) bytes.now }
{
    bytes.iter().all(|b| *b == 0)
}

// Whether every byte is zero. Past the words of zeros there are the last few bytes, or a word that tells within eight.
pub fn all_zero(bytes: &[u8]) -> bool
    ensures { result ≡ all_zero bytes.now }
{
    let rest = zero_words(bytes, zero_blocks(bytes));
    zero_singly(&bytes[rest..])
}
