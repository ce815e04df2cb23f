//! The kinds of entities.
ghost use Rattle.std.specs.Prelude.{◌≡◌, ◌≢◌, ◌<◌, ◌↔◌, ◌⊎◌, [], length, map, IfOk, IfErr, OnOk, OnErr, IsErrOf, IsOk, IsOkUnless, IsSome, Some, slice_get, slice_index_or};
ghost use Rattle.wasmi_collections.specs.Interner.{symbol_of, AreDistinctTexts};
ghost use Rattle.wasmi_script_lib.specs.Distinct.{with_new};
ghost use Rattle.wasmi_script_lib.specs.Store.{renamed};

use std::alloc::Allocator;
use std::marker::Model;
use wasmi_arena::ArenaError;
use wasmi_collections::arena::DedupArena;
use wasmi_collections::laws::{strings_by_bytes, symbols_of_distinct_texts, texts_handed_in};

// Distinct texts, each under its position. A contract sees their list.
#[derive(Drop)]
pub(crate) struct Kinds<A: Allocator> {
    texts: DedupArena<usize, String<A>, A>,
    alloc: A,
}

impl<A: Allocator> Model for Kinds<A> {
    ghost use Rattle.std.specs.Prelude.{◌≡◌, ℕ, List, map, string_bytes};

    ghost Value = { List (List ℕ) };

    ghost view = { λ kinds. map string_bytes kinds.texts.handed };

    // No text is written to but by `DedupArena::replace`, so each item is a clone of the value handed in.
    ghost invariant = { λ kinds. map string_bytes kinds.texts.items ≡ map string_bytes kinds.texts.handed };
}

impl<A: Allocator> Kinds<A> {
    // No kinds, which ask `alloc` for memory when one comes. Constant time, no allocation.
    pub(crate) fn new(alloc: A) -> Self
    where
        A: Copy,
        ensures { result ≡ [] }
    {
        Kinds {
            texts: DedupArena::new(alloc),
            alloc,
        }
    }

    // The number of kinds. Constant time.
    pub(crate) fn len(&self) -> usize
        ensures value { result ≡ length self.now }
        ensures distinct { AreDistinctTexts self.now }
    {
        // proof: distinct values are distinct texts.
        texts_handed_in::<usize, A>();
        self.texts.len()
    }

    // The name of a kind, whose number is below that of the kinds. Constant time.
    pub(crate) fn text(&self, number: usize) -> &str
        requires { number < length self.now }
        ensures { slice_get self.now number ≡ Some result.now }
    {
        self.texts[number].as_str()
    }

    // The number of a kind, which goes to the end of the kinds if it is new, and then is copied.
    pub(crate) fn number_for(&mut self, kind: &str) -> Result<usize, ArenaError>
    where
        A: Copy,
        ensures ok { OnOk result (self.new ≡ with_new self.old kind.now) }
        ensures reads { IfOk result (λ number. slice_get self.new number ≡ Some kind.now) }
        ensures errors { IsOkUnless result ArenaError.OutOfSystemMemory }
        ensures err { OnErr result (self.new ≡ self.old) }
    {
        // proof: a text that is there is read, and a new one goes to the end. There are fewer texts than keys.
        texts_handed_in::<usize, A>();
        symbols_of_distinct_texts();
        let _ = self.texts.len();
        self.texts.alloc_str(self.alloc, kind)
    }

    // Gives a kind another name, unless another kind has it.
    pub(crate) fn rename(&mut self, number: usize, kind: &str) -> Result<(), ArenaError>
    where
        A: Copy,
        requires { number < length self.old }
        ensures ok { OnOk result (self.new
            ≡ map (renamed (slice_index_or self.old number []) kind.now) self.old) }
        ensures duplicate { IsErrOf result ArenaError.DuplicateItem
            ↔ ((slice_index_or self.old number [] ≢ kind.now) × IsSome (symbol_of self.old kind.now)) }
        ensures errors { IfErr result (λ error. (error ≡ ArenaError.DuplicateItem)
            ⊎ (error ≡ ArenaError.OutOfSystemMemory)) }
        ensures same { slice_index_or self.old number [] ≡ kind.now → IsOk result }
        ensures err { OnErr result (self.new ≡ self.old) }
    {
        // proof: the texts are distinct, and one takes the place of another.
        texts_handed_in::<usize, A>();
        symbols_of_distinct_texts();
        strings_by_bytes::<A>();
        let _ = self.texts.len();
        match self.texts.key_of_str(kind) {
            Some(there) if there == number => Ok(()),
            Some(_) => Err(ArenaError::DuplicateItem),
            None => {
                self.texts
                    .replace(number, String::from_str(self.alloc, kind)?)?;
                Ok(())
            }
        }
    }
}
