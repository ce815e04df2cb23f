//! Laws: what the definitions of contracts tell, as contracts of functions.
ghost use Rattle.std.specs.Prelude.{◌≡◌};
ghost use Rattle.std.specs.Ordering.{eq_by_cmp};
ghost use Rattle.wasmi_map_specs.specs.Same.{same_map, same_set};

use crate::{Map, Set};
use std::alloc::Allocator;
use std::hash::Hash;

/// Two maps are equal, entry by entry, exactly where each key has equal values in both, or is in neither.
pub fn equal_maps<K: Hash + Ord, V: PartialEq, A: Allocator>(
    a: &Map<K, V, A>,
    b: &Map<K, V, A>,
) -> bool
    ensures { result ≡ same_map (eq_by_cmp K.cmp) V.eq a.now b.now }
{
    // proof: the keys of each map ascend.
    let _ = (a.len(), b.len());
    a == b
}

/// Two sets are equal, element by element, exactly where each element is in both, or in neither.
pub fn equal_sets<T: Hash + Ord, A: Allocator>(a: &Set<T, A>, b: &Set<T, A>) -> bool
    ensures { result ≡ same_set (eq_by_cmp T.cmp) a.now b.now }
{
    // proof: the elements of each set ascend.
    let _ = (a.len(), b.len());
    a == b
}
