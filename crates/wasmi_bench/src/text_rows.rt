//! The rows of maps whose keys are names, which are looked up by a text.

use crate::names::{Kind, names};
use crate::random::next_index;
use std::alloc::Global;
use wasmi_arena::ArenaError;
use wasmi_hashed::Map as HashedMap;
use wasmi_ordered::Map as OrderedMap;

/// A map from names to numbers.
pub trait TextRows: Sized {
    fn empty(alloc: Global) -> Self;

    /// Puts a value under a name.
    fn put(&mut self, name: String, value: u64) -> Result<(), ArenaError>;

    /// The value under a name.
    fn read(&self, name: &str) -> Option<u64>;
}

impl TextRows for OrderedMap<String, u64> {
    fn empty(alloc: Global) -> Self {
        OrderedMap::new(alloc)
    }

    fn put(&mut self, name: String, value: u64) -> Result<(), ArenaError> {
        self.insert(name, value)?;
        Ok(())
    }

    #[inline]
    fn read(&self, name: &str) -> Option<u64> {
        self.get_str(name).copied()
    }
}

impl TextRows for HashedMap<String, u64> {
    fn empty(alloc: Global) -> Self {
        HashedMap::new(alloc)
    }

    fn put(&mut self, name: String, value: u64) -> Result<(), ArenaError> {
        self.insert(name, value)?;
        Ok(())
    }

    #[inline]
    fn read(&self, name: &str) -> Option<u64> {
        self.get_str(name).copied()
    }
}

// Adds as many values as there are, by random names. `n`, their number, is a power of two.
#[inline(never)]
fn get_all<M: TextRows>(map: &M, names: &[String], n: u64, before: u64) -> u64 {
    let mut state: u64 = 1;
    let mut sum = before;
    for _ in 0..n {
        if let Some(name) = names.get(next_index(&mut state, n)) {
            sum = sum.wrapping_add(map.read(name.as_str()).unwrap_or(0));
        }
    }
    sum
}

pub fn get<M: TextRows + Drop>(alloc: Global, n: u64, rounds: u64) -> Result<u64, ArenaError> {
    let keys = names(alloc, Kind::MadeUp, n, false)?;
    let mut map = M::empty(alloc);
    let mut value: u64 = 0;
    for name in names(alloc, Kind::MadeUp, n, false)? {
        map.put(name, value)?;
        value = value.wrapping_add(1);
    }
    let mut sum = 1;
    for _ in 0..rounds {
        sum = get_all(&map, keys.as_slice(), n, sum);
    }
    Ok(sum)
}
