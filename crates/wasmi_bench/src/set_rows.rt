//! The rows of sets, for any set.

use crate::random::{key_of, next_index};
use std::alloc::Global;
use wasmi_arena::ArenaError;

/// A set of numbers.
pub trait SetRows: Sized {
    fn empty(alloc: Global) -> Self;

    /// Puts an element in, and returns whether it is new.
    fn put(&mut self, element: u64) -> Result<bool, ArenaError>;

    fn has(&self, element: u64) -> bool;

    /// Adds all elements to a number.
    fn walk(&self, before: u64) -> u64;

    /// The same of the elements of both sets.
    fn walk_union(&self, other: &Self, before: u64) -> u64;
}

// Puts in `n` elements in no order, from the one of the number `from` on. Counts the new ones.
#[inline(never)]
fn fill<S: SetRows>(set: &mut S, from: u64, n: u64, before: u64) -> Result<u64, ArenaError> {
    let mut sum = before;
    for i in 0..n {
        if set.put(key_of(from.wrapping_add(i)))? {
            sum = sum.wrapping_add(1);
        }
    }
    Ok(sum)
}

pub fn insert<S: SetRows + Drop>(alloc: Global, n: u64, rounds: u64) -> Result<u64, ArenaError> {
    let mut sum = 1;
    for _ in 0..rounds {
        let mut set = S::empty(alloc);
        sum = fill(&mut set, 0, n, sum)?;
    }
    Ok(sum)
}

// Asks for as many elements as there are, about half of which are there. `n`, their number, is a power of two.
#[inline(never)]
fn ask_all<S: SetRows>(set: &S, n: u64, before: u64) -> u64 {
    let mut state: u64 = 1;
    let mut sum = before;
    for _ in 0..n {
        let number = next_index(&mut state, n.wrapping_mul(2));
        if set.has(key_of(number as u64)) {
            sum = sum.wrapping_add(1);
        }
    }
    sum
}

pub fn contains<S: SetRows + Drop>(alloc: Global, n: u64, rounds: u64) -> Result<u64, ArenaError> {
    let mut set = S::empty(alloc);
    let mut sum = fill(&mut set, 0, n, 1)?;
    for _ in 0..rounds {
        sum = ask_all(&set, n, sum);
    }
    Ok(sum)
}

pub fn iter<S: SetRows + Drop>(alloc: Global, n: u64, rounds: u64) -> Result<u64, ArenaError> {
    let mut set = S::empty(alloc);
    let mut sum = fill(&mut set, 0, n, 1)?;
    for _ in 0..rounds {
        sum = set.walk(sum);
    }
    Ok(sum)
}

// Two sets of `n` elements each, half of which both have.
pub fn union<S: SetRows + Drop>(alloc: Global, n: u64, rounds: u64) -> Result<u64, ArenaError> {
    let (mut left, mut right) = (S::empty(alloc), S::empty(alloc));
    let mut sum = fill(&mut left, 0, n, 1)?;
    sum = fill(&mut right, n / 2, n, sum)?;
    for _ in 0..rounds {
        sum = left.walk_union(&right, sum);
    }
    Ok(sum)
}
