//! Laws of the keys of a deduplicating arena.
ghost use Rattle.std.specs.Prelude.{◌≡◌, ◌≢◌, ◌<◌, ◌≤◌, ◌+◌, ◌-◌, ◌==◌, ℕ, List, All, drop, false, filter_map, length, map, position, None, Some, slice_get, slice_index_or};
ghost use Rattle.std.specs.List.{IsDistinct, range_with_len};
ghost use Rattle.wasmi_collections.specs.Dedup.{DedupState};
ghost use Rattle.wasmi_collections.specs.DedupSteps.{DedupStep};
ghost use Rattle.wasmi_collections.specs.NewKeys.{new_numbers, number_replied};
ghost use Rattle.wasmi_collections.specs.Runs.{IsRun};
ghost use Rattle.wasmi_collections.specs.declared.run.dedup.DedupCommand.{DedupCommand};
ghost use Rattle.wasmi_collections.specs.declared.run.dedup.DedupReply.{DedupReply};

use std::hash::Hash;
use wasmi_arena::ArenaKey;

/// Among distinct values, as those handed in to a deduplicating arena are, to search keys is to search values: what a
/// key reads is equal to a value exactly where it is that value's key, and never where the value has none. So among
/// what some keys read a value stands first where its key stands first among these.
pub fn searched_by_keys<Key: ArenaKey, T: Eq>()
    ensures test { (values : List T) (default value : T) (place k : ℕ) → IsDistinct T.eq values
        → position (T.eq value) values ≡ Some place → k < length values
        → T.eq value (slice_index_or values k default) ≡ (place == k) }
    ensures no_key { (values : List T) (default value : T) (k : ℕ) → IsDistinct T.eq values
        → position (T.eq value) values ≡ None → k < length values
        → T.eq value (slice_index_or values k default) ≡ false }
    ensures position { (values : List T) (default value : T) (place : ℕ) (keys : List Key) → IsDistinct T.eq values
        → position (T.eq value) values ≡ Some place → All (λ key. Key.keys.number key < length values) keys
        → position (T.eq value) (map (λ key. slice_index_or values (Key.keys.number key) default) keys)
        ≡ position (λ key. place == Key.keys.number key) keys }
{}

/// The keys that a run of a deduplicating arena gives to new values are those of the numbers from its old length on, in
/// order: the j-th has the old length plus j. So it is from the last `Clear` on, after which the first number is 0.
///
/// That there are no more values than keys is what [`len`](crate::DedupArena::len) says of every arena.
pub fn keys_of_new_values<Key: ArenaKey, T: Eq + Hash + Clone>()
    ensures in_order { (old new : DedupState T) (commands : List (DedupCommand Key T))
        (replies : List (DedupReply Key T)) → length old.handed ≤ Key.keys.count
        → IsRun (DedupStep Key.keys T.eq T.is_clone) (λ state. state) old commands replies new
        → ((place : ℕ) → slice_get commands place ≢ Some DedupCommand.Clear)
        → new_numbers (length old.handed) (filter_map (number_replied Key.keys) replies)
        ≡ range_with_len (length old.handed) (length new.handed - length old.handed) }
    ensures since_clear { (old new : DedupState T) (commands : List (DedupCommand Key T))
        (replies : List (DedupReply Key T)) → length old.handed ≤ Key.keys.count
        → IsRun (DedupStep Key.keys T.eq T.is_clone) (λ state. state) old commands replies new
        → (last : ℕ) → slice_get commands last ≡ Some DedupCommand.Clear
        → ((place : ℕ) → last < place → slice_get commands place ≢ Some DedupCommand.Clear)
        → new_numbers 0 (filter_map (number_replied Key.keys) (drop (last + 1) replies))
        ≡ range_with_len 0 (length new.handed) }
{}
