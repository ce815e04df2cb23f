//! The rows of maps, for any map.

use crate::random::{key_of, next_index};
use std::alloc::Global;
use wasmi_arena::ArenaError;

/// A map from numbers to numbers. What a round does to it stands in a function that isn't inlined, as in the
/// other rows.
pub trait MapRows: Sized {
    fn empty(alloc: Global) -> Self;

    /// Puts a value under a key, and returns whether the key is new.
    fn put(&mut self, key: u64, value: u64) -> Result<bool, ArenaError>;

    /// The value under a key.
    fn read(&self, key: u64) -> Option<u64>;

    /// Adds 1 to the value under a key, which is 0 at first, and returns what it was.
    fn count(&mut self, key: u64) -> Result<u64, ArenaError>;

    /// Adds all keys and values to a number.
    fn walk(&self, before: u64) -> u64;
}

// Puts in `n` values under keys in no order, the first of which is `first`. Counts the new keys.
#[inline(never)]
fn fill<M: MapRows>(map: &mut M, n: u64, first: u64) -> Result<u64, ArenaError> {
    let mut sum = first;
    for i in 0..n {
        if map.put(key_of(i), first.wrapping_add(i))? {
            sum = sum.wrapping_add(1);
        }
    }
    Ok(sum)
}

pub fn insert<M: MapRows + Drop>(alloc: Global, n: u64, rounds: u64) -> Result<u64, ArenaError> {
    let mut sum = 1;
    for _ in 0..rounds {
        let mut map = M::empty(alloc);
        sum = fill(&mut map, n, sum)?;
    }
    Ok(sum)
}

// Puts in `n` values under ascending keys. Counts the new keys.
#[inline(never)]
fn append_all<M: MapRows>(map: &mut M, n: u64, first: u64) -> Result<u64, ArenaError> {
    let mut sum = first;
    for key in 0..n {
        if map.put(key, first.wrapping_add(key))? {
            sum = sum.wrapping_add(1);
        }
    }
    Ok(sum)
}

pub fn append<M: MapRows + Drop>(alloc: Global, n: u64, rounds: u64) -> Result<u64, ArenaError> {
    let mut sum = 1;
    for _ in 0..rounds {
        let mut map = M::empty(alloc);
        sum = append_all(&mut map, n, sum)?;
    }
    Ok(sum)
}

// Adds as many values as there are, by random keys. `n`, their number, is a power of two.
#[inline(never)]
fn get_all<M: MapRows>(map: &M, n: u64, before: u64) -> u64 {
    let mut state: u64 = 1;
    let mut sum = before;
    for _ in 0..n {
        let key = key_of(next_index(&mut state, n) as u64);
        if let Some(value) = map.read(key) {
            sum = sum.wrapping_add(value);
        }
    }
    sum
}

pub fn get<M: MapRows + Drop>(alloc: Global, n: u64, rounds: u64) -> Result<u64, ArenaError> {
    let mut map = M::empty(alloc);
    let mut sum = fill(&mut map, n, 1)?;
    for _ in 0..rounds {
        sum = get_all(&map, n, sum);
    }
    Ok(sum)
}

pub fn iter<M: MapRows + Drop>(alloc: Global, n: u64, rounds: u64) -> Result<u64, ArenaError> {
    let mut map = M::empty(alloc);
    let mut sum = fill(&mut map, n, 1)?;
    for _ in 0..rounds {
        sum = map.walk(sum);
    }
    Ok(sum)
}

// Counts `n` random keys, some of which come several times.
#[inline(never)]
fn count_all<M: MapRows>(map: &mut M, n: u64, before: u64) -> Result<u64, ArenaError> {
    let mut state: u64 = 1;
    let mut sum = before;
    for _ in 0..n {
        let key = key_of(next_index(&mut state, n) as u64);
        sum = sum.wrapping_add(map.count(key)?);
    }
    Ok(sum)
}

pub fn entry<M: MapRows + Drop>(alloc: Global, n: u64, rounds: u64) -> Result<u64, ArenaError> {
    let mut sum = 1;
    for _ in 0..rounds {
        let mut map = M::empty(alloc);
        sum = count_all(&mut map, n, sum)?;
        sum = sum.wrapping_add(1);
    }
    Ok(sum)
}
