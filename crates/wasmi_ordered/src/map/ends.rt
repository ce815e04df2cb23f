//! The first and the last entry of a map.
ghost use Rattle.std.specs.Prelude.{◌≡◌, ◌↔◌, ◌<◌, ◌+◌, ◌-◌, ◌++◌, [], ◌∷◌, false, length, slice_get, IfSome, IfNone, IsSome, Some, None, is_some, if◌then◌else◌};
ghost use Rattle.std.specs.BTreeMap.Range.{IsLeBy, IsLtBy};
ghost use Rattle.std.specs.List.{All};
ghost use Rattle.std.specs.Map.{keys_of};
ghost use Rattle.std.specs.Ordering.{eq_by_cmp, is_lt};
ghost use Rattle.wasmi_map_specs.specs.Maps.{ChangesAt};

use super::Map;
use std::alloc::Allocator;
use std::hash::Hash;

impl<K: Hash + Ord, V, A: Allocator> Map<K, V, A> {
    /// The least key with its value, if the map isn't empty.
    /// Logarithmic, no allocation.
    pub fn first_key_value(&self) -> Option<(&K, &V)>
        ensures there { IsSome result ↔ (0 < length self.now) }
        ensures first { IfSome result (λ pair. slice_get self.now 0 ≡ Some (pair.0.now, pair.1.now)) }
        ensures least { IfSome result (λ pair. All (IsLeBy K.cmp pair.0.now) (keys_of self.now)) }
    {
        self.inner.first_key_value()
    }

    /// The greatest key with its value, if the map isn't empty.
    /// Logarithmic, no allocation.
    pub fn last_key_value(&self) -> Option<(&K, &V)>
        ensures there { IsSome result ↔ (0 < length self.now) }
        ensures last { IfSome result (λ pair. slice_get self.now (length self.now - 1)
            ≡ Some (pair.0.now, pair.1.now)) }
        ensures greatest { IfSome result (λ pair. All (λ q. is_lt (K.cmp pair.0.now q) ≡ false) (keys_of self.now)) }
    {
        self.inner.last_key_value()
    }

    /// Takes the least key out, and returns it with its value, if the map isn't empty. Never fails.
    /// Logarithmic, no allocation.
    pub fn pop_first(&mut self) -> Option<(K, V)>
        ensures there { IsSome result ↔ (0 < length self.old) }
        ensures entries { IfSome result (λ pair. self.old ≡ pair ∷ self.new) }
        ensures least { IfSome result (λ pair. All (IsLtBy K.cmp pair.0) (keys_of self.new)) }
        ensures changes { IfSome result (λ pair. ChangesAt (eq_by_cmp K.cmp) self.old pair.0 None self.new) }
        ensures none { IfNone result (self.new ≡ self.old) }
        ensures len { length self.new + (if is_some result then 1 else 0) ≡ length self.old }
    {
        self.inner.pop_first()
    }

    /// Takes the greatest key out, and returns it with its value, if the map isn't empty. Never fails.
    /// Logarithmic, no allocation.
    pub fn pop_last(&mut self) -> Option<(K, V)>
        ensures there { IsSome result ↔ (0 < length self.old) }
        ensures entries { IfSome result (λ pair. self.old ≡ self.new ++ pair ∷ []) }
        ensures greatest { IfSome result (λ pair. All (λ q. IsLtBy K.cmp q pair.0) (keys_of self.new)) }
        ensures changes { IfSome result (λ pair. ChangesAt (eq_by_cmp K.cmp) self.old pair.0 None self.new) }
        ensures none { IfNone result (self.new ≡ self.old) }
        ensures len { length self.new + (if is_some result then 1 else 0) ≡ length self.old }
    {
        self.inner.pop_last()
    }
}
