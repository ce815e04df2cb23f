//! The same rows of the standard library's `BTreeMap` and `BTreeSet`, on which the ordered ones stand.

use crate::map_rows::{self, MapRows};
use crate::set_rows::{self, SetRows};
use std::alloc::Global;
use std::collections::{BTreeMap, BTreeSet};
use wasmi_arena::ArenaError;

impl MapRows for BTreeMap<u64, u64> {
    fn empty(alloc: Global) -> Self {
        BTreeMap::new(alloc)
    }

    #[inline]
    fn put(&mut self, key: u64, value: u64) -> Result<bool, ArenaError> {
        Ok(self.insert(key, value)?.is_none())
    }

    #[inline]
    fn read(&self, key: u64) -> Option<u64> {
        self.get(&key).copied()
    }

    #[inline]
    fn count(&mut self, key: u64) -> Result<u64, ArenaError> {
        let value = self.entry(key)?.or_insert(0);
        let old = *value;
        *value = old.wrapping_add(1);
        Ok(old)
    }

    #[inline(never)]
    fn walk(&self, before: u64) -> u64 {
        let mut sum = before;
        for (key, value) in self.iter() {
            sum = sum.wrapping_add(*key ^ *value);
        }
        sum
    }
}

impl SetRows for BTreeSet<u64> {
    fn empty(alloc: Global) -> Self {
        BTreeSet::new(alloc)
    }

    #[inline]
    fn put(&mut self, element: u64) -> Result<bool, ArenaError> {
        Ok(self.insert(element)?)
    }

    #[inline]
    fn has(&self, element: u64) -> bool {
        self.contains(&element)
    }

    #[inline(never)]
    fn walk(&self, before: u64) -> u64 {
        let mut sum = before;
        for element in self.iter() {
            sum = sum.wrapping_add(*element);
        }
        sum
    }

    #[inline(never)]
    fn walk_union(&self, other: &Self, before: u64) -> u64 {
        let mut sum = before;
        for element in self.union(other) {
            sum = sum.wrapping_add(*element);
        }
        sum
    }
}

/// Puts `n` values under new keys into an empty `BTreeMap`, in no order, and drops it.
#[unsafe(no_mangle)]
pub extern "C" fn wasmi_bench_btree_map_insert(alloc: Global, n: u64, rounds: u64) -> u64 {
    map_rows::insert::<BTreeMap<u64, u64>>(alloc, n, rounds).unwrap_or(0)
}

/// The same under ascending keys.
#[unsafe(no_mangle)]
pub extern "C" fn wasmi_bench_btree_map_append(alloc: Global, n: u64, rounds: u64) -> u64 {
    map_rows::append::<BTreeMap<u64, u64>>(alloc, n, rounds).unwrap_or(0)
}

/// Reads `n` values of such a map by their keys, which jump about.
#[unsafe(no_mangle)]
pub extern "C" fn wasmi_bench_btree_map_get(alloc: Global, n: u64, rounds: u64) -> u64 {
    map_rows::get::<BTreeMap<u64, u64>>(alloc, n, rounds).unwrap_or(0)
}

/// Walks over the keys and values of such a map.
#[unsafe(no_mangle)]
pub extern "C" fn wasmi_bench_btree_map_iter(alloc: Global, n: u64, rounds: u64) -> u64 {
    map_rows::iter::<BTreeMap<u64, u64>>(alloc, n, rounds).unwrap_or(0)
}

/// Counts `n` keys in an empty map by their entries, and drops it.
#[unsafe(no_mangle)]
pub extern "C" fn wasmi_bench_btree_map_entry(alloc: Global, n: u64, rounds: u64) -> u64 {
    map_rows::entry::<BTreeMap<u64, u64>>(alloc, n, rounds).unwrap_or(0)
}

/// Puts `n` new elements into an empty `BTreeSet`, in no order, and drops it.
#[unsafe(no_mangle)]
pub extern "C" fn wasmi_bench_btree_set_insert(alloc: Global, n: u64, rounds: u64) -> u64 {
    set_rows::insert::<BTreeSet<u64>>(alloc, n, rounds).unwrap_or(0)
}

/// Asks such a set for `n` elements, half of which are there.
#[unsafe(no_mangle)]
pub extern "C" fn wasmi_bench_btree_set_contains(alloc: Global, n: u64, rounds: u64) -> u64 {
    set_rows::contains::<BTreeSet<u64>>(alloc, n, rounds).unwrap_or(0)
}

/// Walks over the elements of such a set.
#[unsafe(no_mangle)]
pub extern "C" fn wasmi_bench_btree_set_iter(alloc: Global, n: u64, rounds: u64) -> u64 {
    set_rows::iter::<BTreeSet<u64>>(alloc, n, rounds).unwrap_or(0)
}

/// Walks over the union of two such sets of `n` elements.
#[unsafe(no_mangle)]
pub extern "C" fn wasmi_bench_btree_set_union(alloc: Global, n: u64, rounds: u64) -> u64 {
    set_rows::union::<BTreeSet<u64>>(alloc, n, rounds).unwrap_or(0)
}
