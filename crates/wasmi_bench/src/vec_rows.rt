//! The rows of `StableVec`.
//!
//! What a round does to a vector stands in a function that isn't inlined, as a caller has it that is lent the
//! vector. A round begins with the checksum of the one before, so none can be left out.

use crate::random::next_index;
use std::alloc::Global;
use std::mem::size_of;
use wasmi_arena::{ArenaError, StableVec};

// Pushes `n` items, the first of which is `first`.
#[inline(never)]
fn fill(vec: &mut StableVec<u64>, n: u64, first: u64) -> Result<(), ArenaError> {
    for i in 0..n {
        vec.push(first.wrapping_add(i))?;
    }
    Ok(())
}

// The last item and the length.
fn ends(vec: &StableVec<u64>) -> u64 {
    let len = vec.len();
    let last = vec.get(len.wrapping_sub(1)).copied().unwrap_or(0);
    last.wrapping_add(len as u64)
}

pub fn push(alloc: Global, n: u64, rounds: u64) -> Result<u64, ArenaError> {
    let mut sum: u64 = 0;
    for _ in 0..rounds {
        let mut vec = StableVec::new(alloc);
        fill(&mut vec, n, sum)?;
        sum = sum.wrapping_add(ends(&vec));
    }
    Ok(sum)
}

// Adds as many items as there are, by random indices. `n`, their number, is a power of two.
#[inline(never)]
fn get_all(vec: &StableVec<u64>, n: u64, before: u64) -> u64 {
    let mut state: u64 = 1;
    let mut sum = before;
    for _ in 0..n {
        if let Some(item) = vec.get(next_index(&mut state, n)) {
            sum = sum.wrapping_add(*item);
        }
    }
    sum
}

pub fn get(alloc: Global, n: u64, rounds: u64) -> Result<u64, ArenaError> {
    let mut vec = StableVec::new(alloc);
    fill(&mut vec, n, 1)?;
    let mut sum = 1;
    for _ in 0..rounds {
        sum = get_all(&vec, n, sum);
    }
    Ok(sum)
}

#[inline(never)]
fn walk(vec: &StableVec<u64>, before: u64) -> u64 {
    let mut sum = before;
    for item in vec.iter() {
        sum = sum.wrapping_add(*item);
    }
    sum
}

pub fn iter(alloc: Global, n: u64, rounds: u64) -> Result<u64, ArenaError> {
    let mut vec = StableVec::new(alloc);
    fill(&mut vec, n, 1)?;
    let mut sum = 1;
    for _ in 0..rounds {
        sum = walk(&vec, sum);
    }
    Ok(sum)
}

#[inline(never)]
fn walk_back(vec: &StableVec<u64>, before: u64) -> u64 {
    let mut sum = before;
    for item in vec.iter().rev() {
        sum = sum.wrapping_add(*item);
    }
    sum
}

pub fn iter_rev(alloc: Global, n: u64, rounds: u64) -> Result<u64, ArenaError> {
    let mut vec = StableVec::new(alloc);
    fill(&mut vec, n, 1)?;
    let mut sum = 1;
    for _ in 0..rounds {
        sum = walk_back(&vec, sum);
    }
    Ok(sum)
}

#[inline(never)]
fn walk_slices(vec: &StableVec<u64>, before: u64) -> u64 {
    let mut sum = before;
    for part in vec.slices() {
        for item in part {
            sum = sum.wrapping_add(*item);
        }
    }
    sum
}

pub fn slices(alloc: Global, n: u64, rounds: u64) -> Result<u64, ArenaError> {
    let mut vec = StableVec::new(alloc);
    fill(&mut vec, n, 1)?;
    let mut sum = 1;
    for _ in 0..rounds {
        sum = walk_slices(&vec, sum);
    }
    Ok(sum)
}

#[inline(never)]
fn add_one(vec: &mut StableVec<u64>) {
    for item in vec.iter_mut() {
        *item = item.wrapping_add(1);
    }
}

pub fn iter_mut(alloc: Global, n: u64, rounds: u64) -> Result<u64, ArenaError> {
    let mut vec = StableVec::new(alloc);
    fill(&mut vec, n, 1)?;
    for _ in 0..rounds {
        add_one(&mut vec);
    }
    Ok(walk(&vec, 1))
}

// Exchanges as many pairs of items as there are items, each the next index and one that jumps about.
#[inline(never)]
fn swap_all(vec: &mut StableVec<u64>, n: u64) {
    let mut state: u64 = 1;
    for i in 0..n {
        let _ = vec.swap(i as usize, next_index(&mut state, n));
    }
}

pub fn swap(alloc: Global, n: u64, rounds: u64) -> Result<u64, ArenaError> {
    let mut vec = StableVec::new(alloc);
    fill(&mut vec, n, 1)?;
    for _ in 0..rounds {
        swap_all(&mut vec, n);
    }
    Ok(ends(&vec))
}

// Clones a vector, and drops the clone.
#[inline(never)]
fn clone_once(vec: &StableVec<u64>, before: u64) -> Result<u64, ArenaError> {
    let copy = vec.clone()?;
    Ok(before.wrapping_add(ends(&copy)))
}

pub fn clone(alloc: Global, n: u64, rounds: u64) -> Result<u64, ArenaError> {
    let mut vec = StableVec::new(alloc);
    fill(&mut vec, n, 1)?;
    let mut sum = 1;
    for _ in 0..rounds {
        sum = clone_once(&vec, sum)?;
    }
    Ok(sum)
}

#[inline(never)]
fn is_equal(left: &StableVec<u64>, right: &StableVec<u64>, before: u64) -> u64 {
    before.wrapping_add(if left == right { 2 } else { 1 })
}

pub fn eq(alloc: Global, n: u64, rounds: u64) -> Result<u64, ArenaError> {
    let (mut left, mut right) = (StableVec::new(alloc), StableVec::new(alloc));
    fill(&mut left, n, 1)?;
    fill(&mut right, n, 1)?;
    let mut sum = 1;
    for _ in 0..rounds {
        sum = is_equal(&left, &right, sum);
    }
    Ok(sum)
}

pub fn slots(alloc: Global, n: u64) -> Result<u64, ArenaError> {
    let mut vec = StableVec::new(alloc);
    fill(&mut vec, n, 0)?;
    Ok(vec.slots() as u64)
}

pub fn size() -> u64 {
    size_of::<StableVec<u64>>() as u64
}
