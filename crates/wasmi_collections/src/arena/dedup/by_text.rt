//! Calls by a text, where the values are `String`s: no value has to be made for a text that is there.
ghost use Rattle.std.specs.Prelude.{ℕ, List, String, ◌≡◌, ◌<◌, ◌≤◌, ◌↔◌, length, map, None, Some, Ok, IfSome, IfOk, IfErr, OnErr, IsErrOf, ◌⊎◌, option_map, slice_get};
ghost use Rattle.std.specs.String.{string_bytes, string_eq};
ghost use Rattle.wasmi_collections.specs.Dedup.{AllocatesValue};
ghost use Rattle.wasmi_interner.specs.Interner.{symbol_of};

use super::DedupArena;
use std::alloc::Allocator;
use wasmi_arena::{ArenaError, ArenaKey};

impl<Key: ArenaKey, B: Allocator, A: Allocator> DedupArena<Key, String<B>, A> {
    /// The key of a text, if a value with it was handed in. Nothing is handed in. Expected constant time, and
    /// linear in the text, no allocation.
    pub fn key_of_str(&self, text: &str) -> Option<Key>
        ensures value { result
            ≡ option_map Key.keys.key (symbol_of (map string_bytes self.now.handed) text.now) }
        ensures known { IfSome result (λ key.
            symbol_of (map string_bytes self.now.handed) text.now ≡ Some (Key.keys.number key)) }
        ensures within { IfSome result (λ key. Key.keys.number key < length self.now.items) }
        ensures reads { IfSome result (λ key.
            slice_get (map string_bytes self.now.handed) (Key.keys.number key) ≡ Some text.now) }
        ensures alone { (place : ℕ) → slice_get (map string_bytes self.now.handed) place ≡ Some text.now
            → result ≡ Some (Key.keys.key place) }
    {
        match self.index.get_str(text) {
            Some(key) => Some(*key),
            None => None,
        }
    }

    /// As [`alloc`](DedupArena::alloc), of a text. Nothing is copied or allocated for one that is there. Of a
    /// new one a `String` over `alloc` is handed in.
    pub fn alloc_str(&mut self, alloc: B, text: &str) -> Result<Key, ArenaError>
    where
        B: Clone,
        A: Clone,
        ensures there { (p : ℕ) → symbol_of (map string_bytes self.old.handed) text.now ≡ Some p
            → (result ≡ Ok (Key.keys.key p)) × (self.new ≡ self.old) }
        ensures new { symbol_of (map string_bytes self.old.handed) text.now ≡ None → IfOk result (λ key.
            (value : String B) × (string_bytes value ≡ text.now) × AllocatesValue Key.keys string_eq
            (λ one clone. string_bytes clone ≡ string_bytes one) self.old value key self.new) }
        ensures no_key { IsErrOf result ArenaError.NotEnoughKeys
            ↔ ((symbol_of (map string_bytes self.old.handed) text.now ≡ None)
            × (Key.keys.count ≤ length self.old.handed)) }
        ensures errors { IfErr result (λ error. (error ≡ ArenaError.NotEnoughKeys)
            ⊎ (error ≡ ArenaError.OutOfSystemMemory)) }
        ensures err { OnErr result (self.new ≡ self.old) }
        ensures known { IfOk result (λ key.
            symbol_of (map string_bytes self.new.handed) text.now ≡ Some (Key.keys.number key)) }
        ensures within { IfOk result (λ key. Key.keys.number key < length self.new.items) }
        ensures kept { (other : List ℕ) (p : ℕ)
            → symbol_of (map string_bytes self.old.handed) other ≡ Some p
            → symbol_of (map string_bytes self.new.handed) other ≡ Some p }
        ensures reads { IfOk result (λ key.
            slice_get (map string_bytes self.new.handed) (Key.keys.number key) ≡ Some text.now) }
        ensures earlier { (place : ℕ) (item : String B) → slice_get self.old.items place ≡ Some item
            → slice_get self.new.items place ≡ Some item }
        ensures earlier_values { (place : ℕ) (other : String B) → slice_get self.old.handed place ≡ Some other
            → slice_get self.new.handed place ≡ Some other }
        ensures earlier_texts { (place : ℕ) (other : List ℕ)
            → slice_get (map string_bytes self.old.handed) place ≡ Some other
            → slice_get (map string_bytes self.new.handed) place ≡ Some other }
    {
        if let Some(key) = self.key_of_str(text) {
            return Ok(key);
        }
        let key = self.next_key()?;
        let value = String::from_str(alloc, text)?;
        self.hand_in(key, value)
    }
}
