//! The rows of `StableArena`.

use std::alloc::Global;
use wasmi_arena::{ArenaError, ArenaKey, StableArena};

// Puts in `n` items, the first of which is `first`, and adds their keys.
#[inline(never)]
fn fill<Key: ArenaKey>(
    arena: &mut StableArena<Key, u64>,
    n: u64,
    first: u64,
) -> Result<u64, ArenaError> {
    let mut sum = first;
    for i in 0..n {
        let key = arena.alloc(first.wrapping_add(i))?;
        sum = sum.wrapping_add(key.into_usize() as u64);
    }
    Ok(sum)
}

pub fn alloc<Key: ArenaKey>(alloc: Global, n: u64, rounds: u64) -> Result<u64, ArenaError> {
    let mut sum = 0;
    for _ in 0..rounds {
        let mut arena = StableArena::<Key, u64>::new(alloc);
        sum = fill(&mut arena, n, sum)?;
    }
    Ok(sum)
}

// Puts in `n` default items, and adds the key after the last one, and the last item.
#[inline(never)]
fn fill_default<Key: ArenaKey>(
    arena: &mut StableArena<Key, u64>,
    n: u64,
    before: u64,
) -> Result<u64, ArenaError> {
    let keys = arena.alloc_many(n as usize)?;
    let end = keys.end.into_usize();
    let last = match Key::from_usize(end.wrapping_sub(1)) {
        Some(key) => arena.get(key).copied().unwrap_or(1),
        None => 1,
    };
    Ok(before.wrapping_add(end as u64).wrapping_add(last))
}

pub fn alloc_many<Key: ArenaKey>(alloc: Global, n: u64, rounds: u64) -> Result<u64, ArenaError> {
    let mut sum = 1;
    for _ in 0..rounds {
        let mut arena = StableArena::<Key, u64>::new(alloc);
        sum = fill_default(&mut arena, n, sum)?;
    }
    Ok(sum)
}

#[inline(never)]
fn walk<Key: ArenaKey>(arena: &StableArena<Key, u64>, before: u64) -> u64 {
    let mut sum = before;
    for (key, item) in arena.iter() {
        let number = key.into_usize() as u64;
        sum = sum.wrapping_add(*item ^ number);
    }
    sum
}

pub fn iter<Key: ArenaKey>(alloc: Global, n: u64, rounds: u64) -> Result<u64, ArenaError> {
    let mut arena = StableArena::<Key, u64>::new(alloc);
    let mut sum = fill(&mut arena, n, 1)?;
    for _ in 0..rounds {
        sum = walk(&arena, sum);
    }
    Ok(sum)
}
