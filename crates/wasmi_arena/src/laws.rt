//! Laws: what the definitions of `specs/` tell, and what derived calls do, as contracts of functions.
ghost use Rattle.std.specs.Prelude.{◌≡◌, ℕ, ◌+◌, ◌-◌, ◌*◌, ◌^◌, ◌<◌, ◌≤◌, [], ◌∷◌, List, length, map, slice_get, fold, IsSomeAnd, IsTrue, ◌↔◌, Ok, ◌≢◌, ◌⊎◌, take, Some};
ghost use Rattle.std.specs.Borrow.{Bor};
ghost use Rattle.std.specs.Hash as fed;
ghost use Rattle.std.specs.Iterator.{Yields, YieldsFirst, YieldsFirstBy};
ghost use Rattle.std.specs.List.{AllZip, flat_map, range_with_len};
ghost use Rattle.std.specs.Cmp.Lexicographic.{slice_cmp};
ghost use Rattle.wasmi_arena.specs.Geometry.{size, start, max_len, IsPlace, IsFewest, fewest, slots, room, bucket_of, slot_of};
ghost use Rattle.wasmi_arena.specs.StableVec.{bucket_at, filled_parts};
ghost use Rattle.wasmi_arena.specs.Entries.{entries};
ghost use Rattle.wasmi_arena.specs.BothEnds.{DrainsFromEnds};
ghost use Rattle.wasmi_arena.specs.IterMut.{left};
ghost use Rattle.wasmi_arena.specs.Arena.{arena_limit, stable_limit, allocs_in, keys_in, ArenaRun, NoneLacksMemory, EqualKeysRead};
ghost use Rattle.wasmi_arena.specs.declared.run.ArenaCommand.{ArenaCommand};

use crate::{
    AnyArena, ArenaError, ArenaKey, ArenaKeys, ArenaReply, BUCKETS, StableArena,
    StableArenaIntoIter, StableArenaIter, StableArenaIterMut, StableVec, StableVecIntoIter,
    StableVecIter, StableVecIterMut, TypedKey,
};
use std::alloc::{AllocError, Allocator};
use std::cmp::Ordering;
use std::hash::{Hash, Hasher};
use std::num::NonZero;

/// The 27 buckets, each with its number of slots and its first index.
pub fn bucket_table()
    ensures slots { map size (0 ∷ 1 ∷ 2 ∷ 3 ∷ 4 ∷ 5 ∷ 6 ∷ 7 ∷ 8 ∷ 9 ∷ 10 ∷ 11 ∷ 12 ∷ 13 ∷ 14 ∷ 15
        ∷ 16 ∷ 17 ∷ 18 ∷ 19 ∷ 20 ∷ 21 ∷ 22 ∷ 23 ∷ 24 ∷ 25 ∷ 26 ∷ [])
        ≡ 32 ∷ 64 ∷ 128 ∷ 256 ∷ 512 ∷ 1024 ∷ 2048 ∷ 4096 ∷ 8192 ∷ 16384 ∷ 32768 ∷ 65536 ∷ 131072
        ∷ 262144 ∷ 524288 ∷ 1048576 ∷ 2097152 ∷ 4194304 ∷ 8388608 ∷ 16777216 ∷ 33554432
        ∷ 67108864 ∷ 134217728 ∷ 268435456 ∷ 536870912 ∷ 1073741824 ∷ 2147483648 ∷ [] }
    ensures starts { map start (0 ∷ 1 ∷ 2 ∷ 3 ∷ 4 ∷ 5 ∷ 6 ∷ 7 ∷ 8 ∷ 9 ∷ 10 ∷ 11 ∷ 12 ∷ 13 ∷ 14 ∷ 15
        ∷ 16 ∷ 17 ∷ 18 ∷ 19 ∷ 20 ∷ 21 ∷ 22 ∷ 23 ∷ 24 ∷ 25 ∷ 26 ∷ 27 ∷ [])
        ≡ 0 ∷ 32 ∷ 96 ∷ 224 ∷ 480 ∷ 992 ∷ 2016 ∷ 4064 ∷ 8160 ∷ 16352 ∷ 32736 ∷ 65504 ∷ 131040
        ∷ 262112 ∷ 524256 ∷ 1048544 ∷ 2097120 ∷ 4194272 ∷ 8388576 ∷ 16777184 ∷ 33554400
        ∷ 67108832 ∷ 134217696 ∷ 268435424 ∷ 536870880 ∷ 1073741792 ∷ 2147483616
        ∷ 4294967264 ∷ [] }
    ensures max_len { max_len ≡ 4294967264 }
{}

/// Some indices and their places, up to the last.
pub fn places()
    ensures first { IsPlace 0 0 0 }
    ensures last_of_first { IsPlace 31 0 31 }
    ensures second { IsPlace 32 1 0 }
    ensures last_of_second { IsPlace 95 1 63 }
    ensures third { IsPlace 96 2 0 }
    ensures last_of_third { IsPlace 223 2 127 }
    ensures last { IsPlace 4294967263 26 2147483647 }
{}

/// An index has one place at the most.
pub fn place_is_unique()
    ensures { (index b s c t : ℕ) → IsPlace index b s → IsPlace index c t → (b ≡ c) × (s ≡ t) }
{}

/// Each index below `max_len` has a place: its bucket, and its slot there.
pub fn place_exists()
    ensures { (index : ℕ) → index < max_len → IsPlace index (bucket_of index) (slot_of index) }
{}

/// Each slot of each bucket is the place of an index below `max_len`, and of that one alone.
pub fn slot_has_one_index()
    ensures index { (b s : ℕ) → b < BUCKETS → s < size b
        → IsPlace (start b + s) b s × (start b + s < max_len) }
    ensures alone { (b s i j : ℕ) → IsPlace i b s → IsPlace j b s → i ≡ j }
{}

/// `fewest` is the least number of buckets with room.
pub fn fewest_is_least()
    ensures least { (n : ℕ) → n ≤ max_len → IsFewest n (fewest n) }
    ensures alone { (n b : ℕ) → n ≤ max_len → IsFewest n b → fewest n ≡ b }
{}

/// Some lengths, and how many buckets these need.
pub fn fewest_of_some_lengths()
    ensures { map fewest (0 ∷ 1 ∷ 32 ∷ 33 ∷ 96 ∷ 97 ∷ 4294967264 ∷ [])
        ≡ 0 ∷ 1 ∷ 1 ∷ 2 ∷ 2 ∷ 3 ∷ 27 ∷ [] }
{}

/// A vector of n items has at most 2n + 30 slots, and none where n is 0.
pub fn slots_are_few()
    ensures none { slots 0 ≡ 0 }
    ensures few { (n : ℕ) → 0 < n → n ≤ max_len → slots n ≤ 2 * n + 30 }
{}

/// A push lowers the room by one at the most.
pub fn room_after_push()
    ensures { (n : ℕ) → n < max_len → room n ≤ room (n + 1) + 1 }
{}

/// An item lies in the slot of its index.
pub fn item_is_in_its_slot<T>()
    ensures { (items : List T) (index b s : ℕ) → length items ≤ max_len → index < length items
        → IsPlace index b s
        → IsSomeAnd (bucket_at items b) (λ bucket. slice_get bucket.items s ≡ slice_get items index) }
{}

/// One after another, the items of the buckets are all items.
pub fn slices_are_the_items<T>()
    ensures { (items : List T) → length items ≤ max_len
        → flat_map (λ part. part) (filled_parts items) ≡ items }
{}

/// The entry at a position is the item there under the key of that number, which reads it.
pub fn entries_read<Key: ArenaKey, T>()
    ensures { (items : List T) (n : ℕ) (entry : Key × T) → length items ≤ Key.keys.count
        → slice_get (entries Key.keys items) n ≡ Some entry
        → (n < length items) × (Key.keys.number entry.0 ≡ n) × (slice_get items n ≡ Some entry.1) }
{}

/// A `for` over an arena, or over its `iter`, gives the entries in turn, under keys that read: it began with the
/// entries of the arena, gave some of them, and gives this one next.
pub fn walked_entries_read<Key: ArenaKey, T>()
    ensures place { (items : List T) (start : List (Key × T)) (seen : List (Key × Bor T)) (key : Key) (item : T)
        (now left : List (Key × T)) → length items ≤ stable_limit Key.keys
        → start ≡ entries Key.keys items
        → Yields (YieldsFirstBy (λ entry. (entry.0, entry.1.now)) (λ entries. entries)) start seen now
        → now ≡ (key, item) ∷ left → Key.keys.number key ≡ length seen }
    ensures within { (items : List T) (start : List (Key × T)) (seen : List (Key × Bor T)) (key : Key) (item : T)
        (now left : List (Key × T)) → length items ≤ stable_limit Key.keys
        → start ≡ entries Key.keys items
        → Yields (YieldsFirstBy (λ entry. (entry.0, entry.1.now)) (λ entries. entries)) start seen now
        → now ≡ (key, item) ∷ left → Key.keys.number key < length items }
    ensures reads { (items : List T) (start : List (Key × T)) (seen : List (Key × Bor T)) (key : Key) (item : T)
        (now left : List (Key × T)) → length items ≤ stable_limit Key.keys
        → start ≡ entries Key.keys items
        → Yields (YieldsFirstBy (λ entry. (entry.0, entry.1.now)) (λ entries. entries)) start seen now
        → now ≡ (key, item) ∷ left → slice_get items (Key.keys.number key) ≡ Some item }
{}

/// A `for` over an arena, or over its `iter`, that has come to its end gave each entry once, in order.
pub fn walked_entries_are_all<Key: ArenaKey, T>()
    ensures { (items : List T) (start : List (Key × T)) (seen : List (Key × Bor T)) (now : List (Key × T))
        → start ≡ entries Key.keys items
        → Yields (YieldsFirstBy (λ entry. (entry.0, entry.1.now)) (λ entries. entries)) start seen now
        → now ≡ [] → map (λ entry. (entry.0, entry.1.now)) seen ≡ entries Key.keys items }
{}

/// A `for` over the keys of n items gives keys that read: it began with these keys, gave some of them,
/// and gives this one next.
pub fn walked_keys_read<Key: ArenaKey>()
    ensures { (n : ℕ) (start seen : List Key) (key : Key) (now left : List Key) → n ≤ stable_limit Key.keys
        → start ≡ map Key.keys.key (range_with_len 0 n)
        → Yields (YieldsFirst (λ keys. keys)) start seen now
        → now ≡ key ∷ left → Key.keys.number key < n }
{}

/// Each iterator over the items of a vector gives each once: however calls of `next` and `next_back` are mixed,
/// by the first `None` the items from the front, and then those from the back in reverse, are the ones
/// that were left, and from then on both ends give `None`.
pub fn items_from_both_ends<'a, T: Drop + 'a, A: Allocator + 'a>()
    ensures read { DrainsFromEnds ⟦<StableVecIter<'a, T, A> as Iterator>⟧.next_gives
        ⟦<StableVecIter<'a, T, A> as DoubleEndedIterator>⟧.next_back_gives
        (λ item. item.now) (λ items. items) }
    ensures written { DrainsFromEnds ⟦<StableVecIterMut<'a, T, A> as Iterator>⟧.next_gives
        ⟦<StableVecIterMut<'a, T, A> as DoubleEndedIterator>⟧.next_back_gives
        (λ item. item.now) left }
    ensures taken { DrainsFromEnds ⟦<StableVecIntoIter<T, A> as Iterator>⟧.next_gives
        ⟦<StableVecIntoIter<T, A> as DoubleEndedIterator>⟧.next_back_gives
        (λ item. item) (λ items. items) }
{}

/// Each iterator over an arena gives each entry once, in the same way, and one over keys each key.
pub fn entries_from_both_ends<'a, Key: ArenaKey, T: Drop + 'a, A: Allocator + 'a>()
    ensures read { DrainsFromEnds ⟦<StableArenaIter<'a, Key, T, A> as Iterator>⟧.next_gives
        ⟦<StableArenaIter<'a, Key, T, A> as DoubleEndedIterator>⟧.next_back_gives
        (λ entry. (entry.0, entry.1.now)) (λ entries. entries) }
    ensures written { DrainsFromEnds ⟦<StableArenaIterMut<'a, Key, T, A> as Iterator>⟧.next_gives
        ⟦<StableArenaIterMut<'a, Key, T, A> as DoubleEndedIterator>⟧.next_back_gives
        (λ entry. (entry.0, entry.1.now)) left }
    ensures taken { DrainsFromEnds ⟦<StableArenaIntoIter<Key, T, A> as Iterator>⟧.next_gives
        ⟦<StableArenaIntoIter<Key, T, A> as DoubleEndedIterator>⟧.next_back_gives
        (λ entry. entry) (λ entries. entries) }
    ensures keys { DrainsFromEnds ⟦<ArenaKeys<Key> as Iterator>⟧.next_gives
        ⟦<ArenaKeys<Key> as DoubleEndedIterator>⟧.next_back_gives (λ key. key) (λ keys. keys) }
{}

/// An arena with room r refuses none of the first r `Alloc` commands of a run for memory.
pub fn first_allocs_have_room<Key: ArenaKey, T, S: AnyArena<Key, T>>()
    ensures { (old : S) (commands : List (ArenaCommand Key T)) (replies : List (ArenaReply Key T)) (new : S)
        → ArenaRun Key.keys (arena_limit Key.keys S.BOUNDED) S.state old commands replies new
        → (i : ℕ) → allocs_in (take i commands) < (S.state old).room
        → slice_get replies i ≢ Some (ArenaReply.Refused ArenaError.OutOfSystemMemory) }
{}

/// Two arenas with the same items answer the same commands alike, and have the same items afterwards.
///
/// It holds for arenas of any two types, where both are bounded or neither is, or all items together
/// stay within [`MAX_LEN`](crate::MAX_LEN). It leaves out runs in which memory ran out, and those with
/// a `Swap` of one key twice that reads nothing, since each type of arenas has its own reply to that.
pub fn one_answer<Key: ArenaKey, T, S: AnyArena<Key, T>, U: AnyArena<Key, T>>()
    ensures { (s : S) (u : U) (commands : List (ArenaCommand Key T)) (replies others : List (ArenaReply Key T))
        (s_after : S) (u_after : U)
        → ArenaRun Key.keys (arena_limit Key.keys S.BOUNDED) S.state s commands replies s_after
        → ArenaRun Key.keys (arena_limit Key.keys U.BOUNDED) U.state u commands others u_after
        → (S.state s).items ≡ (U.state u).items
        → (S.BOUNDED ≡ U.BOUNDED) ⊎ (length (S.state s).items + allocs_in commands ≤ max_len)
        → NoneLacksMemory replies → NoneLacksMemory others
        → EqualKeysRead Key.keys (length (S.state s).items) commands replies
        → (replies ≡ others) × ((S.state s_after).items ≡ (U.state u_after).items) }
{}

/// Keys run on without gaps: each reply `Key` of a run is the key of the length that the arena began
/// with, plus how many such replies came before.
pub fn keys_of_run<Key: ArenaKey, T, S: AnyArena<Key, T>>()
    ensures { (old : S) (commands : List (ArenaCommand Key T)) (replies : List (ArenaReply Key T)) (new : S)
        → ArenaRun Key.keys (arena_limit Key.keys S.BOUNDED) S.state old commands replies new
        → (i : ℕ) (key : Key) → slice_get replies i ≡ Some (ArenaReply.Key key)
        → key ≡ Key.keys.key (length (S.state old).items + keys_in (take i replies)) }
{}

/// A run lowers the room by at most the number of its `Alloc` commands.
pub fn room_after_run<Key: ArenaKey, T, S: AnyArena<Key, T>>()
    ensures { (old : S) (commands : List (ArenaCommand Key T)) (replies : List (ArenaReply Key T)) (new : S)
        → ArenaRun Key.keys (arena_limit Key.keys S.BOUNDED) S.state old commands replies new
        → (S.state old).room ≤ (S.state new).room + allocs_in commands }
{}

/// How many keys the four types have, and the key of 0. Of `NonZero` types, it holds 1.
pub fn keys_of_types()
    ensures usize_count { ⟦<usize as ArenaKey>⟧.keys.count ≡ 2 ^ 64 }
    ensures usize_first { ⟦<usize as ArenaKey>⟧.keys.key 0 ≡ 0 }
    ensures u32_count { ⟦<u32 as ArenaKey>⟧.keys.count ≡ 2 ^ 32 }
    ensures u32_first { ⟦<u32 as ArenaKey>⟧.keys.key 0 ≡ 0 }
    ensures non_zero_usize_count { ⟦<NonZero<usize> as ArenaKey>⟧.keys.count ≡ 2 ^ 64 - 1 }
    ensures non_zero_usize_first { (⟦<NonZero<usize> as ArenaKey>⟧.keys.key 0).value ≡ 1 }
    ensures non_zero_u32_count { ⟦<NonZero<u32> as ArenaKey>⟧.keys.count ≡ 2 ^ 32 - 1 }
    ensures non_zero_u32_first { (⟦<NonZero<u32> as ArenaKey>⟧.keys.key 0).value ≡ 1 }
{}

/// A hasher is fed the number of a key, and nothing else.
pub fn hashed_keys<Of, H: Hasher>(key: TypedKey<Of>, state: &mut H)
    ensures { state.new ≡ fold H.write state.old (fed.u32 key) }
{
    key.hash(state);
}

/// Where the clone of an item equals it, clones of the items of a list are that list. So `clone` and
/// `clone_in` return the same items.
pub fn clones_are_equal<T: Clone>()
    ensures { ((x y : T) → T.is_clone x y → y ≡ x)
        → (items clones : List T) → AllZip T.is_clone items clones → clones ≡ items }
{}

/// Two errors are equal where they are the same.
pub fn equal_errors(a: &ArenaError, b: &ArenaError) -> bool
    ensures { IsTrue result ↔ (a.now ≡ b.now) }
{
    a == b
}

/// The clone of an error is that error, and can't fail.
pub fn clone_of_error(error: &ArenaError) -> Result<ArenaError, AllocError>
    ensures { result ≡ Ok error.now }
{
    error.clone()
}

/// Two replies are equal where they are the same, if two keys are and two items are.
pub fn equal_replies<Key: PartialEq, T: PartialEq>(
    a: &ArenaReply<Key, T>,
    b: &ArenaReply<Key, T>,
) -> bool
    ensures { ((x y : Key) → (IsTrue (Key.eq x y) ↔ (x ≡ y)))
        → ((x y : T) → (IsTrue (T.eq x y) ↔ (x ≡ y))) → (IsTrue result ↔ (a.now ≡ b.now)) }
{
    a == b
}

/// Two vectors are equal where their lists are, if two items are.
pub fn equal_vectors<T: PartialEq>(a: &StableVec<T>, b: &StableVec<T>) -> bool
    ensures { ((x y : T) → (IsTrue (T.eq x y) ↔ (x ≡ y))) → (IsTrue result ↔ (a.now ≡ b.now)) }
{
    a == b
}

/// The order of vectors is that of the lists: the first two items that differ decide, and a list
/// that another one begins with is less.
pub fn order_of_vectors<T: Ord>(a: &StableVec<T>, b: &StableVec<T>) -> Ordering
    ensures { result ≡ slice_cmp T.cmp a.now b.now }
{
    a.cmp(b)
}

/// Two arenas are equal where their lists are, if two items are.
pub fn equal_arenas<Key: ArenaKey, T: PartialEq>(
    a: &StableArena<Key, T>,
    b: &StableArena<Key, T>,
) -> bool
    ensures { ((x y : T) → (IsTrue (T.eq x y) ↔ (x ≡ y))) → (IsTrue result ↔ (a.now ≡ b.now)) }
{
    a == b
}
