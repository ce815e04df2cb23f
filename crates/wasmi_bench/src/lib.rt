//! The work that the bench times, as a static library: each export does one row on a container of `n` items.
//!
//! An export does its row `rounds` times and returns a checksum, which the driver in `bench/` computes too. It
//! returns 0 where memory ran out, and the driver then stops. A row that reads fills its container once, before
//! the first round, so with no rounds it costs the filling alone.
#![tactic(auto)]

mod arena_rows;
mod component_rows;
mod dedup_rows;
mod hashed_rows;
mod head_rows;
mod interner_rows;
mod map_rows;
mod names;
mod ordered_rows;
mod random;
mod set_rows;
mod stable_arena_rows;
mod std_hashed_rows;
mod std_ordered_rows;
mod text_rows;
mod vec_rows;

use names::Kind;
use std::alloc::Global;

/// Pushes `n` items into an empty vector and drops it.
#[unsafe(no_mangle)]
pub extern "C" fn wasmi_bench_vec_push(alloc: Global, n: u64, rounds: u64) -> u64 {
    vec_rows::push(alloc, n, rounds).unwrap_or(0)
}

/// Reads `n` items of a vector by their indices, which jump about.
#[unsafe(no_mangle)]
pub extern "C" fn wasmi_bench_vec_get(alloc: Global, n: u64, rounds: u64) -> u64 {
    vec_rows::get(alloc, n, rounds).unwrap_or(0)
}

/// Walks over the items of a vector.
#[unsafe(no_mangle)]
pub extern "C" fn wasmi_bench_vec_iter(alloc: Global, n: u64, rounds: u64) -> u64 {
    vec_rows::iter(alloc, n, rounds).unwrap_or(0)
}

/// Walks over the items of a vector from the last to the first.
#[unsafe(no_mangle)]
pub extern "C" fn wasmi_bench_vec_iter_rev(alloc: Global, n: u64, rounds: u64) -> u64 {
    vec_rows::iter_rev(alloc, n, rounds).unwrap_or(0)
}

/// Walks over the items of a vector, slice by slice.
#[unsafe(no_mangle)]
pub extern "C" fn wasmi_bench_vec_slices(alloc: Global, n: u64, rounds: u64) -> u64 {
    vec_rows::slices(alloc, n, rounds).unwrap_or(0)
}

/// Adds 1 to each item of a vector.
#[unsafe(no_mangle)]
pub extern "C" fn wasmi_bench_vec_iter_mut(alloc: Global, n: u64, rounds: u64) -> u64 {
    vec_rows::iter_mut(alloc, n, rounds).unwrap_or(0)
}

/// Exchanges `n` pairs of items of a vector.
#[unsafe(no_mangle)]
pub extern "C" fn wasmi_bench_vec_swap(alloc: Global, n: u64, rounds: u64) -> u64 {
    vec_rows::swap(alloc, n, rounds).unwrap_or(0)
}

/// Clones a vector of `n` items, and drops the clone.
#[unsafe(no_mangle)]
pub extern "C" fn wasmi_bench_vec_clone(alloc: Global, n: u64, rounds: u64) -> u64 {
    vec_rows::clone(alloc, n, rounds).unwrap_or(0)
}

/// Compares two equal vectors of `n` items.
#[unsafe(no_mangle)]
pub extern "C" fn wasmi_bench_vec_eq(alloc: Global, n: u64, rounds: u64) -> u64 {
    vec_rows::eq(alloc, n, rounds).unwrap_or(0)
}

/// How many slots a vector of `n` items has.
#[unsafe(no_mangle)]
pub extern "C" fn wasmi_bench_vec_slots(alloc: Global, n: u64) -> u64 {
    vec_rows::slots(alloc, n).unwrap_or(0)
}

/// How many bytes the vector itself takes, without its buckets.
#[unsafe(no_mangle)]
pub extern "C" fn wasmi_bench_vec_size() -> u64 {
    vec_rows::size()
}

/// Puts `n` items into an empty arena and drops it.
#[unsafe(no_mangle)]
pub extern "C" fn wasmi_bench_arena_alloc(alloc: Global, n: u64, rounds: u64) -> u64 {
    stable_arena_rows::alloc::<usize>(alloc, n, rounds).unwrap_or(0)
}

/// Puts `n` items into an empty arena by one call, each the default, and drops it.
#[unsafe(no_mangle)]
pub extern "C" fn wasmi_bench_arena_alloc_many(alloc: Global, n: u64, rounds: u64) -> u64 {
    stable_arena_rows::alloc_many::<usize>(alloc, n, rounds).unwrap_or(0)
}

/// Walks over the keys and items of an arena with keys of 64 bits.
#[unsafe(no_mangle)]
pub extern "C" fn wasmi_bench_arena_iter_usize(alloc: Global, n: u64, rounds: u64) -> u64 {
    stable_arena_rows::iter::<usize>(alloc, n, rounds).unwrap_or(0)
}

/// Walks over the keys and items of an arena with keys of 32 bits.
#[unsafe(no_mangle)]
pub extern "C" fn wasmi_bench_arena_iter_u32(alloc: Global, n: u64, rounds: u64) -> u64 {
    stable_arena_rows::iter::<u32>(alloc, n, rounds).unwrap_or(0)
}

/// Puts `n` items into an empty arena in one vector and drops it.
#[unsafe(no_mangle)]
pub extern "C" fn wasmi_bench_dense_alloc(alloc: Global, n: u64, rounds: u64) -> u64 {
    arena_rows::alloc::<usize>(alloc, n, rounds).unwrap_or(0)
}

/// Puts `n` items into an empty arena in one vector by one call, each the default, and drops it.
#[unsafe(no_mangle)]
pub extern "C" fn wasmi_bench_dense_alloc_many(alloc: Global, n: u64, rounds: u64) -> u64 {
    arena_rows::alloc_many::<usize>(alloc, n, rounds).unwrap_or(0)
}

/// The number of slots that an arena in one vector has after `n` items were put in one by one.
#[unsafe(no_mangle)]
pub extern "C" fn wasmi_bench_dense_slots(alloc: Global, n: u64) -> u64 {
    arena_rows::slots(alloc, n).unwrap_or(0)
}

/// The bytes of an arena in one vector itself.
#[unsafe(no_mangle)]
pub extern "C" fn wasmi_bench_dense_size() -> u64 {
    arena_rows::size()
}

/// Reads `n` items of an arena in one vector by their keys, which jump about.
#[unsafe(no_mangle)]
pub extern "C" fn wasmi_bench_dense_get(alloc: Global, n: u64, rounds: u64) -> u64 {
    arena_rows::get(alloc, n, rounds).unwrap_or(0)
}

/// Walks over the keys and items of an arena in one vector with keys of 64 bits.
#[unsafe(no_mangle)]
pub extern "C" fn wasmi_bench_dense_iter_usize(alloc: Global, n: u64, rounds: u64) -> u64 {
    arena_rows::iter::<usize>(alloc, n, rounds).unwrap_or(0)
}

/// Walks over the keys and items of an arena in one vector with keys of 32 bits.
#[unsafe(no_mangle)]
pub extern "C" fn wasmi_bench_dense_iter_u32(alloc: Global, n: u64, rounds: u64) -> u64 {
    arena_rows::iter::<u32>(alloc, n, rounds).unwrap_or(0)
}

/// Adds its key and 1 to each item of an arena in one vector.
#[unsafe(no_mangle)]
pub extern "C" fn wasmi_bench_dense_iter_mut(alloc: Global, n: u64, rounds: u64) -> u64 {
    arena_rows::iter_mut::<usize>(alloc, n, rounds).unwrap_or(0)
}

/// Puts `n` values into an empty deduplicating arena, no two alike, and drops it.
#[unsafe(no_mangle)]
pub extern "C" fn wasmi_bench_dedup_alloc_new(alloc: Global, n: u64, rounds: u64) -> u64 {
    dedup_rows::alloc_new(alloc, n, rounds).unwrap_or(0)
}

/// Puts `n` values into such an arena again.
#[unsafe(no_mangle)]
pub extern "C" fn wasmi_bench_dedup_alloc_again(alloc: Global, n: u64, rounds: u64) -> u64 {
    dedup_rows::alloc_again(alloc, n, rounds).unwrap_or(0)
}

/// Replaces the `n` values of such an arena by new ones.
#[unsafe(no_mangle)]
pub extern "C" fn wasmi_bench_dedup_replace(alloc: Global, n: u64, rounds: u64) -> u64 {
    dedup_rows::replace(alloc, n, rounds).unwrap_or(0)
}

/// The same, where each item was written to before.
#[unsafe(no_mangle)]
pub extern "C" fn wasmi_bench_dedup_replace_written(alloc: Global, n: u64, rounds: u64) -> u64 {
    dedup_rows::replace_written(alloc, n, rounds).unwrap_or(0)
}

/// Looks up `n` names that jump about in an ordered map, each by its text.
#[unsafe(no_mangle)]
pub extern "C" fn wasmi_bench_ordered_map_get_str(alloc: Global, n: u64, rounds: u64) -> u64 {
    text_rows::get::<wasmi_ordered::Map<String, u64>>(alloc, n, rounds).unwrap_or(0)
}

/// The same in a hashed map.
#[unsafe(no_mangle)]
pub extern "C" fn wasmi_bench_hashed_map_get_str(alloc: Global, n: u64, rounds: u64) -> u64 {
    text_rows::get::<wasmi_hashed::Map<String, u64>>(alloc, n, rounds).unwrap_or(0)
}

/// Interns `n` made-up names in an empty interner, no two alike, and drops it.
#[unsafe(no_mangle)]
pub extern "C" fn wasmi_bench_intern_new(alloc: Global, n: u64, rounds: u64) -> u64 {
    interner_rows::intern_new(alloc, Kind::MadeUp, false, n, rounds).unwrap_or(0)
}

/// Interns `n` made-up names that are there.
#[unsafe(no_mangle)]
pub extern "C" fn wasmi_bench_intern_again(alloc: Global, n: u64, rounds: u64) -> u64 {
    interner_rows::intern_again(alloc, Kind::MadeUp, n, rounds).unwrap_or(0)
}

/// Interns `n` paths in an empty interner, no two alike, and drops it.
#[unsafe(no_mangle)]
pub extern "C" fn wasmi_bench_intern_new_paths(alloc: Global, n: u64, rounds: u64) -> u64 {
    interner_rows::intern_new(alloc, Kind::Path, false, n, rounds).unwrap_or(0)
}

/// Interns `n` paths that are there.
#[unsafe(no_mangle)]
pub extern "C" fn wasmi_bench_intern_again_paths(alloc: Global, n: u64, rounds: u64) -> u64 {
    interner_rows::intern_again(alloc, Kind::Path, n, rounds).unwrap_or(0)
}

/// Interns `n` mangled names in an empty interner, no two alike, and drops it.
#[unsafe(no_mangle)]
pub extern "C" fn wasmi_bench_intern_new_mangled(alloc: Global, n: u64, rounds: u64) -> u64 {
    interner_rows::intern_new(alloc, Kind::Mangled, false, n, rounds).unwrap_or(0)
}

/// Interns `n` mangled names that are there.
#[unsafe(no_mangle)]
pub extern "C" fn wasmi_bench_intern_again_mangled(alloc: Global, n: u64, rounds: u64) -> u64 {
    interner_rows::intern_again(alloc, Kind::Mangled, n, rounds).unwrap_or(0)
}

/// Interns `n` identifiers in an empty interner, no two alike, and drops it.
#[unsafe(no_mangle)]
pub extern "C" fn wasmi_bench_intern_new_identifiers(alloc: Global, n: u64, rounds: u64) -> u64 {
    interner_rows::intern_new(alloc, Kind::Identifier, false, n, rounds).unwrap_or(0)
}

/// Interns `n` identifiers that are there.
#[unsafe(no_mangle)]
pub extern "C" fn wasmi_bench_intern_again_identifiers(alloc: Global, n: u64, rounds: u64) -> u64 {
    interner_rows::intern_again(alloc, Kind::Identifier, n, rounds).unwrap_or(0)
}

/// Interns `n` colliding names in an empty interner, no two alike, and drops it.
#[unsafe(no_mangle)]
pub extern "C" fn wasmi_bench_intern_new_colliding(alloc: Global, n: u64, rounds: u64) -> u64 {
    interner_rows::intern_new(alloc, Kind::Colliding, false, n, rounds).unwrap_or(0)
}

/// Interns `n` colliding names that are there.
#[unsafe(no_mangle)]
pub extern "C" fn wasmi_bench_intern_again_colliding(alloc: Global, n: u64, rounds: u64) -> u64 {
    interner_rows::intern_again(alloc, Kind::Colliding, n, rounds).unwrap_or(0)
}

/// Interns `n` paths in ascending order in an empty interner, and drops it.
#[unsafe(no_mangle)]
pub extern "C" fn wasmi_bench_intern_new_ascending(alloc: Global, n: u64, rounds: u64) -> u64 {
    interner_rows::intern_new(alloc, Kind::Path, true, n, rounds).unwrap_or(0)
}

/// Interns `n` identifiers in an empty interner, of which few come often, and drops it.
#[unsafe(no_mangle)]
pub extern "C" fn wasmi_bench_intern_stream(alloc: Global, n: u64, rounds: u64) -> u64 {
    interner_rows::intern_stream(alloc, n, rounds).unwrap_or(0)
}

/// Resolves `n` symbols that jump about.
#[unsafe(no_mangle)]
pub extern "C" fn wasmi_bench_resolve(alloc: Global, n: u64, rounds: u64) -> u64 {
    interner_rows::resolve(alloc, n, rounds).unwrap_or(0)
}

/// Sets `n` components under the keys from 0 on, and drops them.
#[unsafe(no_mangle)]
pub extern "C" fn wasmi_bench_component_set_new(alloc: Global, n: u64, rounds: u64) -> u64 {
    component_rows::set_new(alloc, n, rounds).unwrap_or(0)
}

/// Sets `n` components anew under keys that jump about.
#[unsafe(no_mangle)]
pub extern "C" fn wasmi_bench_component_set(alloc: Global, n: u64, rounds: u64) -> u64 {
    component_rows::set(alloc, n, rounds).unwrap_or(0)
}

/// Reads `n` components by their keys, which jump about.
#[unsafe(no_mangle)]
pub extern "C" fn wasmi_bench_component_get(alloc: Global, n: u64, rounds: u64) -> u64 {
    component_rows::get(alloc, n, rounds).unwrap_or(0)
}

/// Pushes `n` items onto an empty list and drops it.
#[unsafe(no_mangle)]
pub extern "C" fn wasmi_bench_head_push(alloc: Global, n: u64, rounds: u64) -> u64 {
    head_rows::push(alloc, n, rounds).unwrap_or(0)
}

/// Pushes `n` items onto a list, and pops them.
#[unsafe(no_mangle)]
pub extern "C" fn wasmi_bench_head_push_pop(alloc: Global, n: u64, rounds: u64) -> u64 {
    head_rows::push_pop(alloc, n, rounds).unwrap_or(0)
}
