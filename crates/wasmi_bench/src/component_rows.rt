//! The rows of `ComponentVec`.

use crate::random::next_index;
use std::alloc::Global;
use wasmi_arena::ArenaError;
use wasmi_dense::ComponentVec;

// Sets `n` components, the first of which is `first`, under the keys from 0 on, and adds those that were there.
#[inline(never)]
fn fill(components: &mut ComponentVec<usize, u64>, n: u64, first: u64) -> Result<u64, ArenaError> {
    let mut sum = first;
    for i in 0..n {
        let old = components.set(i as usize, first.wrapping_add(i))?;
        sum = sum.wrapping_add(old.unwrap_or(1));
    }
    Ok(sum)
}

pub fn set_new(alloc: Global, n: u64, rounds: u64) -> Result<u64, ArenaError> {
    let mut sum = 0;
    for _ in 0..rounds {
        let mut components = ComponentVec::new(alloc);
        sum = fill(&mut components, n, sum)?;
    }
    Ok(sum)
}

// Sets as many components as there are, by random keys, and adds those that were there. `n`, their number, is a
// power of two.
#[inline(never)]
fn set_all(
    components: &mut ComponentVec<usize, u64>,
    n: u64,
    before: u64,
) -> Result<u64, ArenaError> {
    let mut state: u64 = 1;
    let mut sum = before;
    for i in 0..n {
        let old = components.set(next_index(&mut state, n), i)?;
        sum = sum.wrapping_add(old.unwrap_or(1));
    }
    Ok(sum)
}

pub fn set(alloc: Global, n: u64, rounds: u64) -> Result<u64, ArenaError> {
    let mut components = ComponentVec::new(alloc);
    let mut sum = fill(&mut components, n, 1)?;
    for _ in 0..rounds {
        sum = set_all(&mut components, n, sum)?;
    }
    Ok(sum)
}

// Adds as many components as there are, likewise.
#[inline(never)]
fn get_all(components: &ComponentVec<usize, u64>, n: u64, before: u64) -> u64 {
    let mut state: u64 = 1;
    let mut sum = before;
    for _ in 0..n {
        if let Some(component) = components.get(next_index(&mut state, n)) {
            sum = sum.wrapping_add(*component);
        }
    }
    sum
}

pub fn get(alloc: Global, n: u64, rounds: u64) -> Result<u64, ArenaError> {
    let mut components = ComponentVec::new(alloc);
    let mut sum = fill(&mut components, n, 1)?;
    for _ in 0..rounds {
        sum = get_all(&components, n, sum);
    }
    Ok(sum)
}
