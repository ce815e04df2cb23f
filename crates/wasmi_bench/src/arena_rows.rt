//! The rows of `Arena`.

use crate::random::next_index;
use std::alloc::Global;
use std::mem::size_of;
use wasmi_arena::{ArenaError, ArenaKey};
use wasmi_dense::Arena;

// Puts in `n` items, the first of which is `first`, and adds their keys.
#[inline(never)]
fn fill<Key: ArenaKey>(arena: &mut Arena<Key, u64>, n: u64, first: u64) -> Result<u64, ArenaError> {
    let mut sum = first;
    for i in 0..n {
        let key = arena.alloc(first.wrapping_add(i))?;
        sum = sum.wrapping_add(key.into_usize() as u64);
    }
    Ok(sum)
}

pub fn alloc<Key: ArenaKey>(alloc: Global, n: u64, rounds: u64) -> Result<u64, ArenaError> {
    let mut sum = 0;
    for _ in 0..rounds {
        let mut arena = Arena::<Key, u64>::new(alloc);
        sum = fill(&mut arena, n, sum)?;
    }
    Ok(sum)
}

// Puts in `n` default items, and adds the key after the last one, and the last item.
#[inline(never)]
fn fill_default<Key: ArenaKey>(
    arena: &mut Arena<Key, u64>,
    n: u64,
    before: u64,
) -> Result<u64, ArenaError> {
    let keys = arena.alloc_many(n as usize)?;
    let end = keys.end.into_usize();
    let last = match Key::from_usize(end.wrapping_sub(1)) {
        Some(key) => arena.get(key).copied().unwrap_or(1),
        None => 1,
    };
    Ok(before.wrapping_add(end as u64).wrapping_add(last))
}

pub fn alloc_many<Key: ArenaKey>(alloc: Global, n: u64, rounds: u64) -> Result<u64, ArenaError> {
    let mut sum = 1;
    for _ in 0..rounds {
        let mut arena = Arena::<Key, u64>::new(alloc);
        sum = fill_default(&mut arena, n, sum)?;
    }
    Ok(sum)
}

// Adds as many items as there are, by random keys. `n`, their number, is a power of two.
#[inline(never)]
fn get_all(arena: &Arena<usize, u64>, n: u64, before: u64) -> u64 {
    let mut state: u64 = 1;
    let mut sum = before;
    for _ in 0..n {
        if let Ok(item) = arena.get(next_index(&mut state, n)) {
            sum = sum.wrapping_add(*item);
        }
    }
    sum
}

pub fn get(alloc: Global, n: u64, rounds: u64) -> Result<u64, ArenaError> {
    let mut arena = Arena::new(alloc);
    let mut sum = fill(&mut arena, n, 1)?;
    for _ in 0..rounds {
        sum = get_all(&arena, n, sum);
    }
    Ok(sum)
}

#[inline(never)]
fn walk<Key: ArenaKey>(arena: &Arena<Key, u64>, before: u64) -> u64 {
    let mut sum = before;
    for (key, item) in arena.iter() {
        let number = key.into_usize() as u64;
        sum = sum.wrapping_add(*item ^ number);
    }
    sum
}

pub fn iter<Key: ArenaKey>(alloc: Global, n: u64, rounds: u64) -> Result<u64, ArenaError> {
    let mut arena = Arena::<Key, u64>::new(alloc);
    let mut sum = fill(&mut arena, n, 1)?;
    for _ in 0..rounds {
        sum = walk(&arena, sum);
    }
    Ok(sum)
}

// Adds its key and 1 to each item.
#[inline(never)]
fn add_keys<Key: ArenaKey>(arena: &mut Arena<Key, u64>) {
    for (key, item) in arena.iter_mut() {
        let number = key.into_usize() as u64;
        *item = item.wrapping_add(number).wrapping_add(1);
    }
}

pub fn iter_mut<Key: ArenaKey>(alloc: Global, n: u64, rounds: u64) -> Result<u64, ArenaError> {
    let mut arena = Arena::<Key, u64>::new(alloc);
    let sum = fill(&mut arena, n, 1)?;
    for _ in 0..rounds {
        add_keys(&mut arena);
    }
    Ok(walk(&arena, sum))
}

/// How many items there is memory for once `n` are in.
pub fn slots(alloc: Global, n: u64) -> Result<u64, ArenaError> {
    let mut arena = Arena::<usize, u64>::new(alloc);
    fill(&mut arena, n, 0)?;
    let room = arena.room() as u64;
    Ok(room.wrapping_add(arena.len() as u64))
}

pub fn size() -> u64 {
    size_of::<Arena<usize, u64>>() as u64
}
