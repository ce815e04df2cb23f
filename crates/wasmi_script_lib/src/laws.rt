//! What the keys of entities are to each other.
ghost use Rattle.std.specs.Prelude.{◌≡◌, ◌↔◌, IsTrue};
ghost use Rattle.std.specs.Ordering.{nat_cmp};

use crate::store::EntityKey;
use std::cmp::Ordering;

/// Two keys are equal where their numbers are.
pub fn equal_entity_keys(a: EntityKey, b: EntityKey) -> bool
    ensures { IsTrue result ↔ (a ≡ b) }
{
    a == b
}

/// Two keys are compared as their numbers are.
pub fn ordered_entity_keys(a: EntityKey, b: EntityKey) -> Ordering
    ensures { result ≡ nat_cmp a b }
{
    a.cmp(&b)
}
