//! Laws of a `DedupArena` of strings, in their texts.
ghost use Rattle.std.specs.Prelude.{◌≡◌, ◌∷◌, ◌++◌, [], List, length, map, position, None, String, slice_set};
ghost use Rattle.std.specs.List.{IsDistinct};
ghost use Rattle.std.specs.String.{string_bytes, string_eq};
ghost use Rattle.wasmi_collections.specs.Dedup.{DedupState, AllocatesValue, ReplacesValue};
ghost use Rattle.wasmi_interner.specs.Interner.{symbol_of, AreDistinctTexts};

use std::alloc::Allocator;
use wasmi_arena::ArenaKey;

/// A `String` is found among others where its bytes are found among theirs: so the key that a
/// `DedupArena<_, String>` has for it is that of the text.
pub fn strings_by_bytes<B: Allocator>()
    ensures { (texts : List (String B)) (text : String B) → position (string_eq text) texts
        ≡ symbol_of (map string_bytes texts) (string_bytes text) }
{}

/// What becomes of the texts of a `DedupArena<_, String>`, if a new one is handed in, or takes the place of
/// another: they change in both lists as the values do. Distinct values have distinct texts.
pub fn texts_handed_in<Key: ArenaKey, B: Allocator>()
    ensures allocated { (old new : DedupState (String B)) (value : String B) (key : Key)
        → symbol_of (map string_bytes old.handed) (string_bytes value) ≡ None
        → AllocatesValue Key.keys string_eq (λ one clone. string_bytes clone ≡ string_bytes one)
        old value key new
        → (key ≡ Key.keys.key (length old.handed))
        × (map string_bytes new.handed ≡ map string_bytes old.handed ++ string_bytes value ∷ [])
        × (map string_bytes new.items ≡ map string_bytes old.items ++ string_bytes value ∷ []) }
    ensures replaced { (old new : DedupState (String B)) (key : Key) (value there : String B)
        → symbol_of (map string_bytes old.handed) (string_bytes value) ≡ None
        → ReplacesValue Key.keys string_eq (λ one clone. string_bytes clone ≡ string_bytes one)
        old key value there new
        → (map string_bytes new.handed
        ≡ slice_set (map string_bytes old.handed) (Key.keys.number key) (string_bytes value))
        × (map string_bytes new.items
        ≡ slice_set (map string_bytes old.items) (Key.keys.number key) (string_bytes value)) }
    ensures distinct { (texts : List (String B)) → IsDistinct string_eq texts
        → AreDistinctTexts (map string_bytes texts) }
{}
