// Pseudo-random numbers from a fixed seed.
pub fn next(seed: u64) -> u64 {
    (seed % 2147483648 * 1103515245 + 12345) % 2147483648
}

// A number below n; 0 where n is 0.
pub fn below(seed: u64, n: u16) -> u16 {
    let word = (seed / 4096 % 65536) as u16;
    word.checked_rem(n).unwrap_or(0)
}
