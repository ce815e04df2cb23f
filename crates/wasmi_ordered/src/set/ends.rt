//! The first and the last element of a set.
ghost use Rattle.std.specs.Prelude.{◌≡◌, ◌↔◌, ◌<◌, ◌+◌, ◌-◌, ◌++◌, [], ◌∷◌, false, length, slice_get, IfSome, IfNone, IsSome, Some, is_some, if◌then◌else◌};
ghost use Rattle.std.specs.BTreeMap.Range.{IsLeBy, IsLtBy};
ghost use Rattle.std.specs.List.{All};
ghost use Rattle.std.specs.Ordering.{eq_by_cmp, is_lt};
ghost use Rattle.wasmi_map_specs.specs.Sets.{ChangesAt};

use super::Set;
use std::alloc::Allocator;
use std::hash::Hash;

impl<T: Hash + Ord, A: Allocator> Set<T, A> {
    /// The least element, if the set isn't empty.
    /// Logarithmic, no allocation.
    pub fn first(&self) -> Option<&T>
        ensures there { IsSome result ↔ (0 < length self.now) }
        ensures first { IfSome result (λ element. slice_get self.now 0 ≡ Some element.now) }
        ensures least { IfSome result (λ element. All (IsLeBy T.cmp element.now) self.now) }
    {
        self.inner.first()
    }

    /// The greatest element, if the set isn't empty.
    /// Logarithmic, no allocation.
    pub fn last(&self) -> Option<&T>
        ensures there { IsSome result ↔ (0 < length self.now) }
        ensures last { IfSome result (λ element. slice_get self.now (length self.now - 1)
            ≡ Some element.now) }
        ensures greatest { IfSome result (λ element. All (λ q. is_lt (T.cmp element.now q) ≡ false) self.now) }
    {
        self.inner.last()
    }

    /// Takes the least element out, and returns it, if the set isn't empty. Never fails.
    /// Logarithmic, no allocation.
    pub fn pop_first(&mut self) -> Option<T>
        ensures there { IsSome result ↔ (0 < length self.old) }
        ensures elements { IfSome result (λ element. self.old ≡ element ∷ self.new) }
        ensures least { IfSome result (λ element. All (IsLtBy T.cmp element) self.new) }
        ensures changes { IfSome result (λ element. ChangesAt (eq_by_cmp T.cmp) self.old element false self.new) }
        ensures none { IfNone result (self.new ≡ self.old) }
        ensures len { length self.new + (if is_some result then 1 else 0) ≡ length self.old }
    {
        self.inner.pop_first()
    }

    /// Takes the greatest element out, and returns it, if the set isn't empty. Never fails.
    /// Logarithmic, no allocation.
    pub fn pop_last(&mut self) -> Option<T>
        ensures there { IsSome result ↔ (0 < length self.old) }
        ensures elements { IfSome result (λ element. self.old ≡ self.new ++ element ∷ []) }
        ensures greatest { IfSome result (λ element. All (λ q. IsLtBy T.cmp q element) self.new) }
        ensures changes { IfSome result (λ element. ChangesAt (eq_by_cmp T.cmp) self.old element false self.new) }
        ensures none { IfNone result (self.new ≡ self.old) }
        ensures len { length self.new + (if is_some result then 1 else 0) ≡ length self.old }
    {
        self.inner.pop_last()
    }
}
