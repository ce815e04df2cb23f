//! The calls of a deduplicating arena that tests make most, without their clauses, which the proof of a test would
//! carry along.
use std::alloc::{Allocator, Global};
use std::hash::Hash;
use std::process::Abort;
use wasmi_arena::ArenaKey;
use wasmi_collections::arena::{ArenaError, DedupArena};
use wasmi_vectors::assert_equal;
use wasmi_vectors::logged::Logged;

// The key of a value, which is handed in if it is new.
pub(crate) fn hand_in<Key: ArenaKey, T: Eq + Hash + Clone, A: Allocator + Clone>(
    arena: &mut DedupArena<Key, T, A>,
    value: T,
) -> Result<Key, ArenaError> {
    arena.alloc(value)
}

// Hands texts in, whose keys are the numbers from 0 on.
pub(crate) fn hand_in_turn<'t>(
    rt: &impl Abort,
    arena: &mut DedupArena<usize, &'t str>,
    values: &[&'t str],
) {
    let mut key = 0usize;
    for value in values {
        assert_equal!(*rt; hand_in(arena, *value), Ok(key), at value);
        key = key.wrapping_add(1);
    }
}

// The item under a key.
pub(crate) fn get<Key: ArenaKey, T: Eq + Hash, A: Allocator>(
    arena: &DedupArena<Key, T, A>,
    key: Key,
) -> Result<&T, ArenaError> {
    arena.get(key)
}

// The key of a value, if it was handed in.
pub(crate) fn key_of<Key: ArenaKey, T: Eq + Hash, A: Allocator>(
    arena: &DedupArena<Key, T, A>,
    value: &T,
) -> Option<Key> {
    arena.key_of(value)
}

// Puts a value in the place of the one that was handed in under a key.
pub(crate) fn replace<Key: ArenaKey, T: Eq + Hash + Clone, A: Allocator + Clone>(
    arena: &mut DedupArena<Key, T, A>,
    key: Key,
    value: T,
) -> Result<T, ArenaError> {
    arena.replace(key, value)
}

// An arena of these values.
pub(crate) fn made_of<Key: ArenaKey, T: Eq + Hash + Clone + Copy>(
    alloc: Global,
    values: &[T],
) -> Result<DedupArena<Key, T>, ArenaError> {
    DedupArena::from_iter(alloc, values.iter().copied())
}

// A text, which is one request.
pub(crate) fn text<'l>(rt: &impl Abort, heap: Logged<'l>, text: &str) -> String<Logged<'l>> {
    String::from_str(heap, text).expect(rt, "")
}
