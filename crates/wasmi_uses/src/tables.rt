//! Tables by key: two that keep the first value of a key, and two that count.
ghost use Rattle.std.specs.Prelude.{◌≡◌, ◌^◌, ◌-◌, [], true, false, not, length, is_some, IfOk, OnErr, IfSome, IfNone, Some, min, sum_by};
ghost use Rattle.std.specs.Map.{keys_of, set_value};
ghost use Rattle.std.specs.Ordering.{eq_by_cmp};
ghost use Rattle.wasmi_map_specs.specs.Maps.{value_at, ChangesAt};

use std::alloc::Allocator;
use std::hash::{BuildHasher, Hash};
use wasmi_arena::ArenaError;
use wasmi_hashed::map as hashed;
use wasmi_ordered::Map;

/// Puts a value under a key if there is none, and returns whether there was none.
pub fn add_once<K: Hash + Ord + Drop, V: Drop, A: Allocator + Clone>(
    table: &mut Map<K, V, A>,
    key: K,
    value: V,
) -> Result<bool, ArenaError>
    ensures was_free { IfOk result (λ was_free. was_free
        ≡ not (is_some (value_at (eq_by_cmp K.cmp) table.old key))) }
    ensures added { IfOk result (λ was_free. was_free ≡ true
        → ChangesAt (eq_by_cmp K.cmp) table.old key (Some value) table.new) }
    ensures kept { IfOk result (λ was_free. was_free ≡ false → table.new ≡ table.old) }
    ensures err { OnErr result (table.new ≡ table.old) }
{
    if table.contains_key(&key) {
        return Ok(false);
    }
    table.insert(key, value)?;
    Ok(true)
}

/// As [`add_once`], in a hashed table.
pub fn add_once_hashed<K: Eq + Hash + Drop, V: Drop, S: BuildHasher, A: Allocator + Clone>(
    table: &mut hashed::Map<K, V, S, A>,
    key: K,
    value: V,
) -> Result<bool, ArenaError>
    ensures was_free { IfOk result (λ was_free. was_free
        ≡ not (is_some (value_at K.eq table.old.entries key))) }
    ensures added { IfOk result (λ was_free. was_free ≡ true
        → ChangesAt K.eq table.old.entries key (Some value) table.new.entries) }
    ensures kept { IfOk result (λ was_free. was_free ≡ false → table.new ≡ table.old) }
    ensures err { OnErr result (table.new ≡ table.old) }
{
    if table.contains_key(&key) {
        return Ok(false);
    }
    table.insert(key, value)?;
    Ok(true)
}

/// Sets the count of a key to 0, if it has one, and returns what it was. No other count changes.
pub fn reset<K: Hash + Ord, A: Allocator>(counts: &mut Map<K, u64, A>, key: &K) -> Option<u64>
    ensures old { result ≡ value_at (eq_by_cmp K.cmp) counts.old key.now }
    ensures reset { IfSome result (λ _. counts.new ≡ set_value (eq_by_cmp K.cmp key.now) counts.old 0) }
    ensures none { IfNone result (counts.new ≡ counts.old) }
{
    match counts.get_mut(key) {
        Some(count) => {
            let old = *count;
            *count = 0;
            Some(old)
        }
        None => None,
    }
}

/// Sets each count to 0, and returns how many there are. Each key stays.
pub fn reset_all<K: Hash + Ord, A: Allocator>(counts: &mut Map<K, u64, A>) -> usize
    ensures len { result ≡ length counts.old }
    ensures keys { keys_of counts.new ≡ keys_of counts.old }
{
    for count in counts.values_mut() {
        *count = 0;
    }
    counts.len()
}

/// Takes all counts out of a table, and returns their sum, or `u64::MAX` if that is more. Nothing is left in
/// the table.
pub fn settle<K: Eq + Hash + Drop, S: BuildHasher, A: Allocator>(
    counts: &mut hashed::Map<K, u64, S, A>,
) -> u64
    ensures sum { result ≡ min (sum_by (λ entry. entry.1) counts.old.entries) (2 ^ 64 - 1) }
    ensures empty { counts.new ≡ record { entries = []; hasher = counts.old.hasher } }
{
    let mut sum: u64 = 0;
    for (_, count) in counts.drain() {
        sum = sum.saturating_add(count);
    }
    sum
}
