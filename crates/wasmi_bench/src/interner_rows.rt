//! The rows of `StringInterner`.

use crate::names::{Kind, names};
use crate::random::next_index;
use std::alloc::Global;
use wasmi_arena::ArenaError;
use wasmi_collections::StringInterner;
use wasmi_collections::string_interner::Sym;

// Interns all of them, and adds their symbols.
#[inline(never)]
fn fill(interner: &mut StringInterner, names: &[String], before: u64) -> Result<u64, ArenaError> {
    let mut sum = before;
    for name in names {
        let symbol = interner.get_or_intern(name.as_str())?;
        sum = sum.wrapping_add(symbol.into_u32() as u64);
    }
    Ok(sum)
}

pub fn intern_new(
    alloc: Global,
    kind: Kind,
    ascending: bool,
    n: u64,
    rounds: u64,
) -> Result<u64, ArenaError> {
    let names = names(alloc, kind, n, ascending)?;
    let mut sum = 1;
    for _ in 0..rounds {
        let mut interner = StringInterner::new(alloc);
        sum = fill(&mut interner, names.as_slice(), sum)?;
    }
    Ok(sum)
}

pub fn intern_again(alloc: Global, kind: Kind, n: u64, rounds: u64) -> Result<u64, ArenaError> {
    let names = names(alloc, kind, n, false)?;
    let mut interner = StringInterner::new(alloc);
    let mut sum = fill(&mut interner, names.as_slice(), 1)?;
    for _ in 0..rounds {
        sum = fill(&mut interner, names.as_slice(), sum)?;
    }
    Ok(sum)
}

// Resolves as many symbols as there are, and adds the lengths of their texts. `n` is a power of two.
#[inline(never)]
fn read(interner: &StringInterner, n: u64, before: u64) -> u64 {
    let mut state: u64 = 1;
    let mut sum = before;
    for _ in 0..n {
        let number = u32::try_from(next_index(&mut state, n)).unwrap_or(0);
        let text = interner.resolve(Sym::from_u32(number)).unwrap_or("");
        sum = sum.wrapping_add(text.len() as u64);
    }
    sum
}

pub fn resolve(alloc: Global, n: u64, rounds: u64) -> Result<u64, ArenaError> {
    let names = names(alloc, Kind::MadeUp, n, false)?;
    let mut interner = StringInterner::new(alloc);
    let mut sum = fill(&mut interner, names.as_slice(), 1)?;
    for _ in 0..rounds {
        sum = read(&interner, n, sum);
    }
    Ok(sum)
}

// Interns as many names as a number, some of them often: of two random places, one times the other.
#[inline(never)]
fn ask(
    interner: &mut StringInterner,
    names: &[String],
    n: u64,
    before: u64,
) -> Result<u64, ArenaError> {
    let mut state: u64 = 1;
    let mut sum = before;
    let len = names.len() as u64;
    for _ in 0..n {
        let one = next_index(&mut state, len) as u64;
        let other = next_index(&mut state, len) as u64;
        if let Some(name) = names.get(
            (one.wrapping_mul(other) >> len.trailing_zeros().min(63)) as usize,
        ) {
            let symbol = interner.get_or_intern(name.as_str())?;
            sum = sum.wrapping_add(symbol.into_u32() as u64);
        }
    }
    Ok(sum)
}

// A sixteenth as many names.
pub fn intern_stream(alloc: Global, n: u64, rounds: u64) -> Result<u64, ArenaError> {
    let names = names(alloc, Kind::Identifier, n / 16, false)?;
    let mut sum = 1;
    for _ in 0..rounds {
        let mut interner = StringInterner::new(alloc);
        sum = ask(&mut interner, names.as_slice(), n, sum)?;
    }
    Ok(sum)
}
