//! Look-ups by a text, where the keys are `String`s: no key has to be made for them.
ghost use Rattle.std.specs.Prelude.{◌≡◌, ◌+◌, String, length, None, IfNone, is_some, option_map, option_copied, if◌then◌else◌};
ghost use Rattle.std.specs.List.Sorted.{IsPermutation};
ghost use Rattle.std.specs.Map.{lookup_key, remove_entry};
ghost use Rattle.std.specs.Option.{option_copied_mut};
ghost use Rattle.std.specs.Str.{bytes_eq};
ghost use Rattle.std.specs.String.{string_bytes, string_eq};
ghost use Rattle.wasmi_map_specs.specs.Maps.{value_at, ChangesAt};
ghost use Rattle.wasmi_map_specs.specs.Seen.{is_seen_as, value_seen_as, EntriesChange};

use super::Map;
use std::alloc::Allocator;
use std::hash::BuildHasher;
use std::ops::Index;

impl<B: Allocator, V, S: BuildHasher, A: Allocator> Map<String<B>, V, S, A> {
    ghost use Rattle.std.specs.Borrow.{sem};
    ghost use Rattle.wasmi_hashed.specs.MapLend.{lends_text};

    /// Whether a key with this text is there.
    /// Expected constant time, no allocation.
    #[inline]
    pub fn contains_key_str(&self, key: &str) -> bool
        ensures text { result
            ≡ is_some (value_seen_as bytes_eq string_bytes self.now.entries key.now) }
        ensures there { (k : String B) → string_bytes k ≡ key.now
            → result ≡ is_some (value_at string_eq self.now.entries k) }
    {
        self.inner.contains_key(key)
    }

    /// The value under the key with this text, if there is one.
    /// Expected constant time, no allocation.
    #[inline]
    pub fn get_str(&self, key: &str) -> Option<&V>
        ensures text { option_copied result
            ≡ value_seen_as bytes_eq string_bytes self.now.entries key.now }
        ensures value { (k : String B) → string_bytes k ≡ key.now
            → option_copied result ≡ value_at string_eq self.now.entries k }
    {
        self.inner.get(key)
    }

    /// The key with this text that is kept and its value, if it is there.
    /// Expected constant time, no allocation.
    #[inline]
    pub fn get_key_value_str(&self, key: &str) -> Option<(&String<B>, &V)>
        ensures key { option_map (λ pair. pair.0.now) result
            ≡ lookup_key (is_seen_as bytes_eq string_bytes key.now) self.now.entries }
        ensures text { option_map (λ pair. pair.1.now) result
            ≡ value_seen_as bytes_eq string_bytes self.now.entries key.now }
        ensures value { (k : String B) → string_bytes k ≡ key.now
            → option_map (λ pair. pair.1.now) result ≡ value_at string_eq self.now.entries k }
    {
        self.inner.get_key_value(key)
    }

    /// The value under the key with this text to write to, if there is one.
    /// Expected constant time, no allocation.
    #[inline]
    pub fn get_mut_str(&mut self, key: &str) -> Option<&mut V>
        ensures* writes_back { sem 𝓛 (lends_text B.row V.row S.row A.row S.Hasher.row B.Allocator S.BuildHasher S.Hasher.Hasher A.Allocator self.entry key.now result) }
        ensures text { option_copied_mut result
            ≡ value_seen_as bytes_eq string_bytes self.old.entries key.now }
        ensures value { (k : String B) → string_bytes k ≡ key.now
            → option_copied_mut result ≡ value_at string_eq self.old.entries k }
    {
        self.inner.get_mut(key)
    }

    /// Takes the key with this text out, and returns its value, if it is there. Never fails.
    /// Expected constant time, no allocation.
    #[inline]
    pub fn remove_str(&mut self, key: &str) -> Option<V>
        ensures text { result
            ≡ value_seen_as bytes_eq string_bytes self.old.entries key.now }
        ensures value { (k : String B) → string_bytes k ≡ key.now
            → result ≡ value_at string_eq self.old.entries k }
        ensures changes { EntriesChange bytes_eq string_bytes self.old.entries key.now None self.new.entries }
        ensures changes_key { (k : String B) → string_bytes k ≡ key.now
            → ChangesAt string_eq self.old.entries k None self.new.entries }
        ensures entries { IsPermutation (remove_entry (is_seen_as bytes_eq string_bytes key.now) self.old.entries) self.new.entries }
        ensures unchanged { IfNone result (self.new ≡ self.old) }
        ensures len { length self.new.entries + (if is_some result then 1 else 0) ≡ length self.old.entries }
        ensures hasher { self.new.hasher ≡ self.old.hasher }
    {
        self.inner.remove(key)
    }

    /// Takes the key with this text out, and returns it with its value, if it is there. Never fails.
    /// Expected constant time, no allocation.
    #[inline]
    pub fn remove_entry_str(&mut self, key: &str) -> Option<(String<B>, V)>
        ensures key { option_map (λ pair. pair.0) result
            ≡ lookup_key (is_seen_as bytes_eq string_bytes key.now) self.old.entries }
        ensures text { option_map (λ pair. pair.1) result
            ≡ value_seen_as bytes_eq string_bytes self.old.entries key.now }
        ensures value { (k : String B) → string_bytes k ≡ key.now
            → option_map (λ pair. pair.1) result ≡ value_at string_eq self.old.entries k }
        ensures changes { EntriesChange bytes_eq string_bytes self.old.entries key.now None self.new.entries }
        ensures changes_key { (k : String B) → string_bytes k ≡ key.now
            → ChangesAt string_eq self.old.entries k None self.new.entries }
        ensures entries { IsPermutation (remove_entry (is_seen_as bytes_eq string_bytes key.now) self.old.entries) self.new.entries }
        ensures unchanged { IfNone result (self.new ≡ self.old) }
        ensures len { length self.new.entries + (if is_some result then 1 else 0) ≡ length self.old.entries }
        ensures hasher { self.new.hasher ≡ self.old.hasher }
    {
        self.inner.remove_entry(key)
    }
}

/// `map["text"]` is the value under the key with this text, which is there.
/// Expected constant time, no allocation.
impl<B: Allocator, V, S: BuildHasher, A: Allocator> Index<&str> for Map<String<B>, V, S, A> {
    ghost use Rattle.std.specs.Prelude.{IsSome, Some};

    type Output = V;

    // The key is there.
    ghost can_index = { λ map key. IsSome (value_seen_as bytes_eq string_bytes map.entries key.now) };

    ghost index_gives = { λ map key value. value_seen_as bytes_eq string_bytes map.entries key.now ≡ Some value };

    fn index(&self, key: &str) -> &V {
        &self.inner[key]
    }
}
