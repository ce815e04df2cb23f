//! Laws: what the definitions of `specs/` tell, and what `==` does, as contracts of functions.
ghost use Rattle.std.specs.Prelude.{◌≡◌, ◌↔◌, ℕ, ◌<◌, ◌≤◌, [], ◌∷◌, ◌++◌, List, length, position, IsTrue, Some, Bool, false, cond, not, ◌&&◌, ◌||◌};
ghost use Rattle.std.specs.Ordering.{ordering_then, eq_by_cmp};
ghost use Rattle.std.specs.Cmp.Lexicographic.{slice_cmp};
ghost use Rattle.std.specs.List.{AllByRecursion, IsDistinct};
ghost use Rattle.std.specs.Set.{is_member, IsUnion, IsIntersection, IsDifference, IsSymmetricDifference};
ghost use Rattle.wasmi_collections.specs.Dedup.{DedupState, AllocatesValue, ReplacesValue};
ghost use Rattle.wasmi_collections.specs.DedupSteps.{DedupStep, HasKey, NoneClears};
ghost use Rattle.wasmi_collections.specs.HeadVec.{head_cmp};
ghost use Rattle.wasmi_collections.specs.MapSteps.{MapStep, SameEntries, AcceptsMapCommand};
ghost use Rattle.wasmi_collections.specs.Runs.{IsRun};
ghost use Rattle.wasmi_collections.specs.SetSteps.{SetStep, SameElements, IsCombined, AcceptsSetCommand};
ghost use Rattle.wasmi_collections.specs.declared.run.dedup.DedupCommand.{DedupCommand};
ghost use Rattle.wasmi_collections.specs.declared.run.dedup.DedupReply.{DedupReply};
ghost use Rattle.wasmi_collections.specs.declared.run.map.MapCommand.{MapCommand};
ghost use Rattle.wasmi_collections.specs.declared.run.map.MapReply.{MapReply};
ghost use Rattle.wasmi_collections.specs.declared.run.set.SetCommand.{SetCommand};
ghost use Rattle.wasmi_collections.specs.declared.run.set.SetReply.{SetReply};

mod appended;
mod dedup;
mod interner;
mod replies;
mod strings;

use crate::HeadVec;
use crate::run::{AnyMap, AnySet};
pub use appended::appended_values;
pub use dedup::{keys_of_new_values, searched_by_keys};
pub use interner::{equal_symbols_of_equal_texts, symbols_of_new_texts};
pub use replies::{
    equal_dedup_replies, equal_intern_replies, equal_map_replies, equal_set_replies,
};
use std::alloc::Allocator;
use std::cmp::Ordering;
use std::hash::Hash;
pub use strings::{strings_by_bytes, texts_handed_in};
use wasmi_arena::ArenaKey;
pub use wasmi_interner::laws::{
    appended_texts, binary_digits, equal_in_length_order, equal_symbols, hashed_symbols,
    interned_texts, length_order, ordered_by_length, ordered_symbols, searched_by_symbols,
    symbols_of_distinct_texts,
};

/// The order of head vectors, case by case.
pub fn head_vec_order<T: Ord>()
    ensures empty { head_cmp T.cmp [] [] ≡ Ordering.Equal }
    ensures least { (ys : List T) (y : T) → head_cmp T.cmp [] (ys ++ y ∷ []) ≡ Ordering.Less }
    ensures last_first { (xs ys : List T) (x y : T)
        → head_cmp T.cmp (xs ++ x ∷ []) (ys ++ y ∷ [])
        ≡ ordering_then (T.cmp x y) (slice_cmp T.cmp xs ys) }
{}

/// Two head vectors are compared in that order, over any allocator.
pub fn ordered_head_vecs<T: Ord, A: Allocator>(a: &HeadVec<T, A>, b: &HeadVec<T, A>) -> Ordering
    ensures empty { a.now.items ≡ [] → b.now.items ≡ [] → result ≡ Ordering.Equal }
    ensures least { (ys : List T) (y : T) → a.now.items ≡ [] → b.now.items ≡ ys ++ y ∷ []
        → result ≡ Ordering.Less }
    ensures greater { (xs : List T) (x : T) → a.now.items ≡ xs ++ x ∷ [] → b.now.items ≡ []
        → result ≡ Ordering.Greater }
    ensures last_first { (xs ys : List T) (x y : T) → a.now.items ≡ xs ++ x ∷ []
        → b.now.items ≡ ys ++ y ∷ [] → result ≡ ordering_then (T.cmp x y) (slice_cmp T.cmp xs ys) }
{
    a.cmp(b)
}

/// Two head vectors are equal where their lists are, if two items are, over any allocator.
pub fn equal_head_vecs<T: PartialEq, A: Allocator>(a: &HeadVec<T, A>, b: &HeadVec<T, A>) -> bool
    ensures { ((x y : T) → (IsTrue (T.eq x y) ↔ (x ≡ y))) → (IsTrue result ↔ (a.now.items ≡ b.now.items)) }
{
    a == b
}

/// Two maps with the same entries, of one type or two, reply alike to the same commands and end with the
/// same entries, if both say of the same keys that they are equal, and neither refuses a command.
pub fn maps_answer_alike<K, V, M: AnyMap<K, V>, N: AnyMap<K, V>>()
    ensures { ((x y : K) → M.eq x y ≡ N.eq x y) → (a c : M) (b d : N) (commands : List (MapCommand K V))
        (one other : List (MapReply V)) → SameEntries M.eq (M.entries a) (N.entries b)
        → IsRun (MapStep M.eq) M.entries a commands one c
        → IsRun (MapStep N.eq) N.entries b commands other d
        → AllByRecursion AcceptsMapCommand one → AllByRecursion AcceptsMapCommand other
        → (one ≡ other) × SameEntries M.eq (M.entries c) (N.entries d) }
{}

/// Two sets with the same elements, of one type or two, reply alike to the same commands and end with the
/// same elements, if both say of the same elements that they are equal, and neither refuses a command.
pub fn sets_answer_alike<T, S: AnySet<T>, U: AnySet<T>>()
    ensures { ((x y : T) → S.eq x y ≡ U.eq x y) → (a c : S) (b d : U) (commands : List (SetCommand T))
        (one other : List SetReply) → SameElements S.eq (S.elements a) (U.elements b)
        → IsRun (SetStep S.eq) S.elements a commands one c
        → IsRun (SetStep U.eq) U.elements b commands other d
        → AllByRecursion AcceptsSetCommand one → AllByRecursion AcceptsSetCommand other
        → (one ≡ other) × SameElements S.eq (S.elements c) (U.elements d) }
{}

/// The four set operators tell of each element from whether the two sets have it. So what they make of equal
/// sets is equal, of one type or two, if both types say of the same elements that they are equal.
pub fn operators_answer_alike<T, S: AnySet<T>, U: AnySet<T>>()
    ensures union { (xs ys zs : List T) → IsUnion S.eq xs ys zs
        → IsCombined S.eq (λ first second. first || second) xs ys zs }
    ensures intersection { (xs ys zs : List T) → IsIntersection S.eq xs ys zs
        → IsCombined S.eq (λ first second. first && second) xs ys zs }
    ensures difference { (xs ys zs : List T) → IsDifference S.eq xs ys zs
        → IsCombined S.eq (λ first second. first && not second) xs ys zs }
    ensures symmetric_difference { (xs ys zs : List T) → IsSymmetricDifference S.eq xs ys zs
        → IsCombined S.eq (λ first second. cond first (not second) second) xs ys zs }
    ensures alike { ((x y : T) → S.eq x y ≡ U.eq x y) → (op : Bool → Bool → Bool)
        → (xs ys zs us vs ws : List T) → ((q : T) → is_member S.eq xs q ≡ is_member U.eq us q)
        → ((q : T) → is_member S.eq ys q ≡ is_member U.eq vs q) → IsCombined S.eq op xs ys zs
        → IsCombined U.eq op us vs ws → (q : T) → is_member S.eq zs q ≡ is_member U.eq ws q }
{}

/// An order and an equality of one type say the same of equal keys, so that the three laws above hold of an
/// ordered and a hashed map, and of an ordered and a hashed set.
pub fn equal_keys_of_both<K: Ord>()
    ensures { (x y : K) → eq_by_cmp K.cmp x y ≡ K.eq x y }
{}

/// In a run of a deduplicating arena, two values have one key exactly where they are equal, whatever was
/// written under keys meanwhile, if between them all items weren't dropped, and no value took the place of
/// another.
pub fn equal_values_share_a_key<Key: ArenaKey, T: Eq + Hash + Clone>()
    ensures { (old new : DedupState T) (commands : List (DedupCommand Key T))
        (replies : List (DedupReply Key T)) → length old.handed ≤ Key.keys.count
        → IsRun (DedupStep Key.keys T.eq T.is_clone) (λ state. state) old commands replies new
        → (i j : ℕ) (v w : T) (a b : Key) → i < j → NoneClears commands replies i j
        → HasKey commands replies i v a → HasKey commands replies j w b
        → (a ≡ b) ↔ IsTrue (T.eq v w) }
{}

/// After a value took the place of another under a key of a deduplicating arena, it has the key of that
/// number, and the value that was handed in there is new, if it isn't equal to it. The two premises are
/// what [`len`](crate::DedupArena::len) says of every arena.
pub fn replaced_values<Key: ArenaKey, T: Eq + Hash + Clone>()
    ensures value { (old new newer : DedupState T) (key again : Key) (value there : T)
        → length old.handed ≡ length old.items
        → ReplacesValue Key.keys T.eq T.is_clone old key value there new
        → AllocatesValue Key.keys T.eq T.is_clone new value again newer
        → (again ≡ Key.keys.key (Key.keys.number key)) × (newer ≡ new) }
    ensures replaced { (old new newer : DedupState T) (key other : Key) (value there was : T)
        → IsDistinct T.eq old.handed
        → ReplacesValue Key.keys T.eq T.is_clone old key value there new
        → position (T.eq was) old.handed ≡ Some (Key.keys.number key) → T.eq value was ≡ false
        → AllocatesValue Key.keys T.eq T.is_clone new was other newer
        → other ≡ Key.keys.key (length new.handed) }
{}
