//! The rows of `HeadVec`.

use std::alloc::Global;
use wasmi_arena::ArenaError;
use wasmi_collections::HeadVec;

// Pushes `n` items, the first of which is `first`.
#[inline(never)]
fn fill(list: &mut HeadVec<u64>, n: u64, first: u64) -> Result<(), ArenaError> {
    for i in 0..n {
        list.push(first.wrapping_add(i))?;
    }
    Ok(())
}

// The last item and the length.
fn ends(list: &HeadVec<u64>) -> u64 {
    let last = list.last().copied().unwrap_or(0);
    last.wrapping_add(list.len() as u64)
}

pub fn push(alloc: Global, n: u64, rounds: u64) -> Result<u64, ArenaError> {
    let mut sum: u64 = 0;
    for _ in 0..rounds {
        let mut list = HeadVec::new(alloc);
        fill(&mut list, n, sum)?;
        sum = sum.wrapping_add(ends(&list));
    }
    Ok(sum)
}

// Takes out `n` items, and adds them.
#[inline(never)]
fn drain(list: &mut HeadVec<u64>, n: u64, before: u64) -> u64 {
    let mut sum = before;
    for _ in 0..n {
        sum = sum.wrapping_add(list.pop().unwrap_or(1));
    }
    sum
}

pub fn push_pop(alloc: Global, n: u64, rounds: u64) -> Result<u64, ArenaError> {
    let mut list = HeadVec::new(alloc);
    fill(&mut list, n, 1)?;
    let mut sum = drain(&mut list, n, 1);
    for _ in 0..rounds {
        fill(&mut list, n, sum)?;
        sum = drain(&mut list, n, sum);
    }
    Ok(sum)
}
