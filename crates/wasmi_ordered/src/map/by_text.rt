//! Look-ups by a text, where the keys are `String`s: no key has to be made for them.
ghost use Rattle.std.specs.Prelude.{◌≡◌, ◌+◌, String, length, None, IfNone, is_some, option_map, option_copied, if◌then◌else◌};
ghost use Rattle.std.specs.Cmp.Lexicographic.{slice_cmp};
ghost use Rattle.std.specs.Map.{lookup_key, remove_entry};
ghost use Rattle.std.specs.Option.{option_copied_mut};
ghost use Rattle.std.specs.Ordering.{eq_by_cmp, nat_cmp};
ghost use Rattle.std.specs.String.{string_bytes, string_cmp};
ghost use Rattle.wasmi_map_specs.specs.Maps.{value_at, ChangesAt};
ghost use Rattle.wasmi_map_specs.specs.Seen.{is_seen_as, value_seen_as, EntriesChange};

use super::Map;
use std::alloc::Allocator;
use std::ops::Index;

impl<B: Allocator, V, A: Allocator> Map<String<B>, V, A> {
    ghost use Rattle.std.specs.Borrow.{sem};
    ghost use Rattle.wasmi_ordered.specs.MapLend.{lends_text};

    /// Whether a key with this text is there.
    /// Logarithmic, no allocation.
    #[inline]
    pub fn contains_key_str(&self, key: &str) -> bool
        ensures text { result
            ≡ is_some (value_seen_as (eq_by_cmp (slice_cmp nat_cmp)) string_bytes self.now key.now) }
        ensures there { (k : String B) → string_bytes k ≡ key.now
            → result ≡ is_some (value_at (eq_by_cmp string_cmp) self.now k) }
    {
        self.inner.contains_key(key)
    }

    /// The value under the key with this text, if there is one.
    /// Logarithmic, no allocation.
    #[inline]
    pub fn get_str(&self, key: &str) -> Option<&V>
        ensures text { option_copied result
            ≡ value_seen_as (eq_by_cmp (slice_cmp nat_cmp)) string_bytes self.now key.now }
        ensures value { (k : String B) → string_bytes k ≡ key.now
            → option_copied result ≡ value_at (eq_by_cmp string_cmp) self.now k }
    {
        self.inner.get(key)
    }

    /// The key with this text that is kept and its value, if it is there.
    /// Logarithmic, no allocation.
    #[inline]
    pub fn get_key_value_str(&self, key: &str) -> Option<(&String<B>, &V)>
        ensures key { option_map (λ pair. pair.0.now) result
            ≡ lookup_key (is_seen_as (eq_by_cmp (slice_cmp nat_cmp)) string_bytes key.now) self.now }
        ensures text { option_map (λ pair. pair.1.now) result
            ≡ value_seen_as (eq_by_cmp (slice_cmp nat_cmp)) string_bytes self.now key.now }
        ensures value { (k : String B) → string_bytes k ≡ key.now
            → option_map (λ pair. pair.1.now) result ≡ value_at (eq_by_cmp string_cmp) self.now k }
    {
        self.inner.get_key_value(key)
    }

    /// The value under the key with this text to write to, if there is one.
    /// Logarithmic, no allocation.
    #[inline]
    pub fn get_mut_str(&mut self, key: &str) -> Option<&mut V>
        ensures* writes_back { sem 𝓛 (lends_text B.row V.row A.row B.Allocator A.Allocator self.entry key.now result) }
        ensures text { option_copied_mut result
            ≡ value_seen_as (eq_by_cmp (slice_cmp nat_cmp)) string_bytes self.old key.now }
        ensures value { (k : String B) → string_bytes k ≡ key.now
            → option_copied_mut result ≡ value_at (eq_by_cmp string_cmp) self.old k }
    {
        self.inner.get_mut(key)
    }

    /// Takes the key with this text out, and returns its value, if it is there. Never fails.
    /// Logarithmic, no allocation.
    #[inline]
    pub fn remove_str(&mut self, key: &str) -> Option<V>
        ensures text { result
            ≡ value_seen_as (eq_by_cmp (slice_cmp nat_cmp)) string_bytes self.old key.now }
        ensures value { (k : String B) → string_bytes k ≡ key.now
            → result ≡ value_at (eq_by_cmp string_cmp) self.old k }
        ensures changes { EntriesChange (eq_by_cmp (slice_cmp nat_cmp)) string_bytes self.old key.now None self.new }
        ensures changes_key { (k : String B) → string_bytes k ≡ key.now
            → ChangesAt (eq_by_cmp string_cmp) self.old k None self.new }
        ensures entries { self.new
            ≡ remove_entry (is_seen_as (eq_by_cmp (slice_cmp nat_cmp)) string_bytes key.now) self.old }
        ensures unchanged { IfNone result (self.new ≡ self.old) }
        ensures len { length self.new + (if is_some result then 1 else 0) ≡ length self.old }
    {
        self.inner.remove(key)
    }

    /// Takes the key with this text out, and returns it with its value, if it is there. Never fails.
    /// Logarithmic, no allocation.
    #[inline]
    pub fn remove_entry_str(&mut self, key: &str) -> Option<(String<B>, V)>
        ensures key { option_map (λ pair. pair.0) result
            ≡ lookup_key (is_seen_as (eq_by_cmp (slice_cmp nat_cmp)) string_bytes key.now) self.old }
        ensures text { option_map (λ pair. pair.1) result
            ≡ value_seen_as (eq_by_cmp (slice_cmp nat_cmp)) string_bytes self.old key.now }
        ensures value { (k : String B) → string_bytes k ≡ key.now
            → option_map (λ pair. pair.1) result ≡ value_at (eq_by_cmp string_cmp) self.old k }
        ensures changes { EntriesChange (eq_by_cmp (slice_cmp nat_cmp)) string_bytes self.old key.now None self.new }
        ensures changes_key { (k : String B) → string_bytes k ≡ key.now
            → ChangesAt (eq_by_cmp string_cmp) self.old k None self.new }
        ensures entries { self.new
            ≡ remove_entry (is_seen_as (eq_by_cmp (slice_cmp nat_cmp)) string_bytes key.now) self.old }
        ensures unchanged { IfNone result (self.new ≡ self.old) }
        ensures len { length self.new + (if is_some result then 1 else 0) ≡ length self.old }
    {
        self.inner.remove_entry(key)
    }
}

/// `map["text"]` is the value under the key with this text, which is there.
/// Logarithmic, no allocation.
impl<B: Allocator, V, A: Allocator> Index<&str> for Map<String<B>, V, A> {
    ghost use Rattle.std.specs.Prelude.{IsSome, Some};

    type Output = V;

    // The key is there.
    ghost can_index = { λ map key. IsSome (value_seen_as (eq_by_cmp (slice_cmp nat_cmp)) string_bytes map key.now) };

    ghost index_gives = { λ map key value. value_seen_as (eq_by_cmp (slice_cmp nat_cmp)) string_bytes map key.now ≡ Some value };

    fn index(&self, key: &str) -> &V {
        &self.inner[key]
    }
}
