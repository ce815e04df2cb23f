//! Laws of the equality of replies.
ghost use Rattle.std.specs.Prelude.{◌≡◌, ◌↔◌, IsTrue};

use crate::run::{DedupReply, InternReply, MapReply, SetReply};

/// Two replies of a deduplicating arena are equal where they are the same, if two keys are and two items are.
pub fn equal_dedup_replies<Key: PartialEq, T: PartialEq>(
    a: &DedupReply<Key, T>,
    b: &DedupReply<Key, T>,
) -> bool
    ensures { ((x y : Key) → (IsTrue (Key.eq x y) ↔ (x ≡ y)))
        → ((x y : T) → (IsTrue (T.eq x y) ↔ (x ≡ y))) → (IsTrue result ↔ (a.now ≡ b.now)) }
{
    a == b
}

/// Two replies of an interner are equal where they are the same.
pub fn equal_intern_replies(a: &InternReply, b: &InternReply) -> bool
    ensures { IsTrue result ↔ (a.now ≡ b.now) }
{
    a == b
}

/// Two replies of a map are equal where they are the same, if two values are.
pub fn equal_map_replies<V: PartialEq>(a: &MapReply<V>, b: &MapReply<V>) -> bool
    ensures { ((x y : V) → (IsTrue (V.eq x y) ↔ (x ≡ y))) → (IsTrue result ↔ (a.now ≡ b.now)) }
{
    a == b
}

/// Two replies of a set are equal where they are the same.
pub fn equal_set_replies(a: &SetReply, b: &SetReply) -> bool
    ensures { IsTrue result ↔ (a.now ≡ b.now) }
{
    a == b
}
