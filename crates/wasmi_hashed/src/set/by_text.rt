//! Look-ups by a text, where the elements are `String`s: no element has to be made for them.
ghost use Rattle.std.specs.Prelude.{◌≡◌, ◌+◌, String, false, length, find, IfNone, is_some, option_copied, if◌then◌else◌};
ghost use Rattle.std.specs.Bool.{OnFalse};
ghost use Rattle.std.specs.List.Sorted.{IsPermutation};
ghost use Rattle.std.specs.Set.{is_member, remove_key};
ghost use Rattle.std.specs.Str.{bytes_eq};
ghost use Rattle.std.specs.String.{string_bytes, string_eq};
ghost use Rattle.wasmi_map_specs.specs.Seen.{is_seen_as, has_seen_as, ElementsChange};
ghost use Rattle.wasmi_map_specs.specs.Sets.{ChangesAt};

use super::Set;
use std::alloc::Allocator;
use std::hash::BuildHasher;

impl<B: Allocator, S: BuildHasher, A: Allocator> Set<String<B>, S, A> {
    /// Whether an element with this text is there.
    /// Expected constant time, no allocation.
    #[inline]
    pub fn contains_str(&self, value: &str) -> bool
        ensures text { result ≡ has_seen_as bytes_eq string_bytes self.now.elements value.now }
        ensures there { (k : String B) → string_bytes k ≡ value.now
            → result ≡ is_member string_eq self.now.elements k }
    {
        self.inner.contains(value)
    }

    /// The element with this text that is kept, if there is one.
    /// Expected constant time, no allocation.
    #[inline]
    pub fn get_str(&self, value: &str) -> Option<&String<B>>
        ensures element { option_copied result
            ≡ find (is_seen_as bytes_eq string_bytes value.now) self.now.elements }
        ensures text { is_some result
            ≡ has_seen_as bytes_eq string_bytes self.now.elements value.now }
        ensures there { (k : String B) → string_bytes k ≡ value.now
            → is_some result ≡ is_member string_eq self.now.elements k }
    {
        self.inner.get(value)
    }

    /// Takes the element with this text out, drops it, and returns whether it was there. Never fails.
    /// Expected constant time, no allocation.
    #[inline]
    pub fn remove_str(&mut self, value: &str) -> bool
        ensures text { result ≡ has_seen_as bytes_eq string_bytes self.old.elements value.now }
        ensures there { (k : String B) → string_bytes k ≡ value.now
            → result ≡ is_member string_eq self.old.elements k }
        ensures changes { ElementsChange bytes_eq string_bytes self.old.elements value.now false self.new.elements }
        ensures changes_key { (k : String B) → string_bytes k ≡ value.now
            → ChangesAt string_eq self.old.elements k false self.new.elements }
        ensures elements { IsPermutation (remove_key (is_seen_as bytes_eq string_bytes value.now) self.old.elements) self.new.elements }
        ensures unchanged { OnFalse result (self.new ≡ self.old) }
        ensures len { length self.new.elements + (if result then 1 else 0) ≡ length self.old.elements }
        ensures hasher { self.new.hasher ≡ self.old.hasher }
    {
        self.inner.remove(value)
    }

    /// Takes the element with this text out, and returns it, if it is there. Never fails.
    /// Expected constant time, no allocation.
    #[inline]
    pub fn take_str(&mut self, value: &str) -> Option<String<B>>
        ensures element { result
            ≡ find (is_seen_as bytes_eq string_bytes value.now) self.old.elements }
        ensures text { is_some result
            ≡ has_seen_as bytes_eq string_bytes self.old.elements value.now }
        ensures there { (k : String B) → string_bytes k ≡ value.now
            → is_some result ≡ is_member string_eq self.old.elements k }
        ensures changes { ElementsChange bytes_eq string_bytes self.old.elements value.now false self.new.elements }
        ensures changes_key { (k : String B) → string_bytes k ≡ value.now
            → ChangesAt string_eq self.old.elements k false self.new.elements }
        ensures elements { IsPermutation (remove_key (is_seen_as bytes_eq string_bytes value.now) self.old.elements) self.new.elements }
        ensures unchanged { IfNone result (self.new ≡ self.old) }
        ensures len { length self.new.elements + (if is_some result then 1 else 0) ≡ length self.old.elements }
        ensures hasher { self.new.hasher ≡ self.old.hasher }
    {
        self.inner.take(value)
    }
}
