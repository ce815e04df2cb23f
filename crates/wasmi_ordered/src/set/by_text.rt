//! Look-ups by a text, where the elements are `String`s: no element has to be made for them.
ghost use Rattle.std.specs.Prelude.{◌≡◌, ◌+◌, String, false, length, find, IfNone, is_some, option_copied, if◌then◌else◌};
ghost use Rattle.std.specs.Bool.{OnFalse};
ghost use Rattle.std.specs.Cmp.Lexicographic.{slice_cmp};
ghost use Rattle.std.specs.Ordering.{eq_by_cmp, nat_cmp};
ghost use Rattle.std.specs.Set.{is_member, remove_key};
ghost use Rattle.std.specs.String.{string_bytes, string_cmp};
ghost use Rattle.wasmi_map_specs.specs.Seen.{is_seen_as, has_seen_as, ElementsChange};
ghost use Rattle.wasmi_map_specs.specs.Sets.{ChangesAt};

use super::Set;
use std::alloc::Allocator;

impl<B: Allocator, A: Allocator> Set<String<B>, A> {
    /// Whether an element with this text is there.
    /// Logarithmic, no allocation.
    #[inline]
    pub fn contains_str(&self, value: &str) -> bool
        ensures text { result ≡ has_seen_as (eq_by_cmp (slice_cmp nat_cmp)) string_bytes self.now value.now }
        ensures there { (k : String B) → string_bytes k ≡ value.now
            → result ≡ is_member (eq_by_cmp string_cmp) self.now k }
    {
        self.inner.contains(value)
    }

    /// The element with this text that is kept, if there is one.
    /// Logarithmic, no allocation.
    #[inline]
    pub fn get_str(&self, value: &str) -> Option<&String<B>>
        ensures element { option_copied result
            ≡ find (is_seen_as (eq_by_cmp (slice_cmp nat_cmp)) string_bytes value.now) self.now }
        ensures text { is_some result
            ≡ has_seen_as (eq_by_cmp (slice_cmp nat_cmp)) string_bytes self.now value.now }
        ensures there { (k : String B) → string_bytes k ≡ value.now
            → is_some result ≡ is_member (eq_by_cmp string_cmp) self.now k }
    {
        self.inner.get(value)
    }

    /// Takes the element with this text out, drops it, and returns whether it was there. Never fails.
    /// Logarithmic, no allocation.
    #[inline]
    pub fn remove_str(&mut self, value: &str) -> bool
        ensures text { result ≡ has_seen_as (eq_by_cmp (slice_cmp nat_cmp)) string_bytes self.old value.now }
        ensures there { (k : String B) → string_bytes k ≡ value.now
            → result ≡ is_member (eq_by_cmp string_cmp) self.old k }
        ensures changes { ElementsChange (eq_by_cmp (slice_cmp nat_cmp)) string_bytes self.old value.now false self.new }
        ensures changes_key { (k : String B) → string_bytes k ≡ value.now
            → ChangesAt (eq_by_cmp string_cmp) self.old k false self.new }
        ensures elements { self.new
            ≡ remove_key (is_seen_as (eq_by_cmp (slice_cmp nat_cmp)) string_bytes value.now) self.old }
        ensures unchanged { OnFalse result (self.new ≡ self.old) }
        ensures len { length self.new + (if result then 1 else 0) ≡ length self.old }
    {
        self.inner.remove(value)
    }

    /// Takes the element with this text out, and returns it, if it is there. Never fails.
    /// Logarithmic, no allocation.
    #[inline]
    pub fn take_str(&mut self, value: &str) -> Option<String<B>>
        ensures element { result
            ≡ find (is_seen_as (eq_by_cmp (slice_cmp nat_cmp)) string_bytes value.now) self.old }
        ensures text { is_some result
            ≡ has_seen_as (eq_by_cmp (slice_cmp nat_cmp)) string_bytes self.old value.now }
        ensures there { (k : String B) → string_bytes k ≡ value.now
            → is_some result ≡ is_member (eq_by_cmp string_cmp) self.old k }
        ensures changes { ElementsChange (eq_by_cmp (slice_cmp nat_cmp)) string_bytes self.old value.now false self.new }
        ensures changes_key { (k : String B) → string_bytes k ≡ value.now
            → ChangesAt (eq_by_cmp string_cmp) self.old k false self.new }
        ensures elements { self.new
            ≡ remove_key (is_seen_as (eq_by_cmp (slice_cmp nat_cmp)) string_bytes value.now) self.old }
        ensures unchanged { IfNone result (self.new ≡ self.old) }
        ensures len { length self.new + (if is_some result then 1 else 0) ≡ length self.old }
    {
        self.inner.take(value)
    }
}
