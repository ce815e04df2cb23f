//! Random indices and keys.

/// The next index below `n`, a power of two: some bits of the state of a generator of random numbers.
#[inline]
pub fn next_index(state: &mut u64, n: u64) -> usize {
    *state = state
        .wrapping_mul(6364136223846793005)
        .wrapping_add(1442695040888963407);
    ((*state >> 32) & n.wrapping_sub(1)) as usize
}

/// A key of a map for each number, no two alike, and in no order.
#[inline]
pub fn key_of(number: u64) -> u64 {
    let mixed = number.wrapping_mul(0x9e3779b97f4a7c15);
    (mixed ^ (mixed >> 32)).wrapping_mul(0xd6e8feb86659fd93)
}
