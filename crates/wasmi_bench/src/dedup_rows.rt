//! The rows of `DedupArena`.

use crate::random::{key_of, next_index};
use std::alloc::Global;
use wasmi_arena::ArenaError;
use wasmi_collections::arena::DedupArena;

// Puts in `n` values, no two alike, and adds their keys.
#[inline(never)]
fn fill(arena: &mut DedupArena<usize, u64>, n: u64, before: u64) -> Result<u64, ArenaError> {
    let mut sum = before;
    for i in 0..n {
        let key = arena.alloc(key_of(i))?;
        sum = sum.wrapping_add(key as u64);
    }
    Ok(sum)
}

pub fn alloc_new(alloc: Global, n: u64, rounds: u64) -> Result<u64, ArenaError> {
    let mut sum = 1;
    for _ in 0..rounds {
        let mut arena = DedupArena::new(alloc);
        sum = fill(&mut arena, n, sum)?;
    }
    Ok(sum)
}

// Puts in as many values as there are, each of which is there, and adds their keys. `n` is a power of two.
#[inline(never)]
fn repeat(arena: &mut DedupArena<usize, u64>, n: u64, before: u64) -> Result<u64, ArenaError> {
    let mut state: u64 = 1;
    let mut sum = before;
    for _ in 0..n {
        let key = arena.alloc(key_of(next_index(&mut state, n) as u64))?;
        sum = sum.wrapping_add(key as u64);
    }
    Ok(sum)
}

pub fn alloc_again(alloc: Global, n: u64, rounds: u64) -> Result<u64, ArenaError> {
    let mut arena = DedupArena::new(alloc);
    let mut sum = fill(&mut arena, n, 1)?;
    for _ in 0..rounds {
        sum = repeat(&mut arena, n, sum)?;
    }
    Ok(sum)
}

// Replaces each value by a new one, and adds the old ones.
#[inline(never)]
fn move_all(
    arena: &mut DedupArena<usize, u64>,
    n: u64,
    first: u64,
    before: u64,
) -> Result<u64, ArenaError> {
    let mut sum = before;
    for i in 0..n {
        let old = arena.replace(i as usize, key_of(first.wrapping_add(i)))?;
        sum = sum.wrapping_add(old);
    }
    Ok(sum)
}

pub fn replace(alloc: Global, n: u64, rounds: u64) -> Result<u64, ArenaError> {
    let mut arena = DedupArena::new(alloc);
    let mut sum = fill(&mut arena, n, 1)?;
    let mut first = n;
    for _ in 0..rounds {
        sum = move_all(&mut arena, n, first, sum)?;
        first = first.wrapping_add(n);
    }
    Ok(sum)
}

// The same, where each item was written to since its value was handed in.
#[inline(never)]
fn move_written(
    arena: &mut DedupArena<usize, u64>,
    n: u64,
    first: u64,
    before: u64,
) -> Result<u64, ArenaError> {
    let mut sum = before;
    for i in 0..n {
        let item = arena.get_mut(i as usize)?;
        *item = !*item;
        let old = arena.replace(i as usize, key_of(first.wrapping_add(i)))?;
        sum = sum.wrapping_add(old);
    }
    Ok(sum)
}

pub fn replace_written(alloc: Global, n: u64, rounds: u64) -> Result<u64, ArenaError> {
    let mut arena = DedupArena::new(alloc);
    let mut sum = fill(&mut arena, n, 1)?;
    let mut first = n;
    for _ in 0..rounds {
        sum = move_written(&mut arena, n, first, sum)?;
        first = first.wrapping_add(n);
    }
    Ok(sum)
}
