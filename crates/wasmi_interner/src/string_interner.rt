//! A list of distinct texts, each under a symbol.
ghost use Rattle.std.specs.Prelude.{ℕ, List, ◌≡◌, ◌+◌, ◌==◌, ◌<◌, ◌≤◌, ◌^◌, ◌↔◌, ◌⊎◌, [], ◌∷◌, ◌++◌, length, IfOk, IfErr, IfSome, OnOk, OnErr, IsErrOf, IsOkUnless, None, Some, Ok, option_copied, is_some, slice_get, decimal};
ghost use Rattle.std.specs.Cmp.Lexicographic.{pointwise, lists_per, lists_equiv, nat_list_eq_equiv};
ghost use Rattle.std.specs.Fmt.{styled_decimal};
ghost use Rattle.std.specs.Iterator.{IsFiniteIterable};
ghost use Rattle.std.specs.Str.{bytes_eq};
ghost use Rattle.std.proofs.Common.{lit≤};
ghost use Rattle.wasmi_arena.specs.Keys.{own_keys};
ghost use Rattle.wasmi_arena.specs.KeyLaws.{own_keys_law};
ghost use Rattle.wasmi_interner.specs.BinaryDigits.{digits};
ghost use Rattle.wasmi_interner.specs.Interner.{symbol_of, with_symbols, AreDistinctTexts, Interning, InternsAll, InternsUntilRefused};
ghost use Rattle.wasmi_interner.specs.LenOrderLaws.{texts_per};

use crate::entry::Entry;
use crate::index::Index;
use crate::sought::Sought;
use crate::texts::Texts;
use crate::{InternHint, Iter, Steps, Sym};
use std::alloc::{Allocator, Global};
use std::fmt::{self, Debug, Formatter, Write};
use std::marker::Model;
use wasmi_arena::ArenaError;

/// A list of distinct texts, each under its position as its symbol.
///
/// A text is found by its hash. Where several texts have one hash, they are in length order, and are found by a
/// binary search: names that were made to collide cost no more, a new one of n also some √n steps. The texts are
/// kept until `clear`, so a symbol is good for as long, and is cheaper to copy, compare and store than its text.
/// They lie one behind another in one block of memory, which grows as a vector does. There are at most 2^32 texts.
#[derive(Drop)]
pub struct StringInterner<A: Allocator = Global> {
    texts: Texts<A>,
    index: Index<A>,
}

impl<A: Allocator> Model for StringInterner<A> {
    ghost use Rattle.std.specs.Prelude.{◌≤◌, ◌^◌, ℕ, List, length};
    ghost use Rattle.wasmi_interner.specs.inner.Index.{IsIndexOf};

    ghost Value = { List (List ℕ) };

    ghost view = { λ interner. interner.texts };

    ghost invariant = { λ interner. IsIndexOf interner.texts interner.index.slots interner.index.rest.entries
        × (length interner.texts ≤ 2 ^ 32) };
}

impl<A: Allocator> StringInterner<A> {
    /// An interner without texts, which asks `alloc` for memory when a text comes. Constant time, no
    /// allocation.
    pub fn new(alloc: A) -> Self
    where
        A: Copy,
        ensures { result ≡ [] }
    {
        StringInterner {
            texts: Texts::new(alloc),
            index: Index::new(alloc),
        }
    }

    /// The number of texts. Constant time.
    #[inline]
    pub fn len(&self) -> usize
        ensures value { result ≡ length self.now }
        ensures most { length self.now ≤ 2 ^ 32 }
        ensures distinct { AreDistinctTexts self.now }
    {
        self.texts.len()
    }

    /// Whether there is no text. Constant time.
    #[inline]
    pub fn is_empty(&self) -> bool
        ensures { result ≡ (length self.now == 0) }
    {
        self.len() == 0
    }

    /// Drops all texts. Symbols begin at 0 again, so those that were handed out resolve to other texts
    /// later. The memory of the texts and of the slots is kept. Linear, no allocation.
    pub fn clear(&mut self)
        ensures { self.new ≡ [] }
    {
        self.texts.clear();
        self.index.clear();
    }

    /// Whether a text is there. At the cost of [`get`](StringInterner::get).
    pub fn contains(&self, text: &str) -> bool
        ensures { result ≡ is_some (symbol_of self.now text.now) }
    {
        self.get(text).is_some()
    }

    /// The symbol of a text, if it is there. Expected constant time, and linear in the text. In the worst case a binary
    /// search, which compares at most as many texts as their number has binary digits. No allocation.
    pub fn get(&self, text: &str) -> Option<Sym>
        ensures symbol { result ≡ symbol_of self.now text.now }
        ensures reads { IfSome result (λ symbol. slice_get self.now symbol ≡ Some text.now) }
        ensures alone { (symbol : ℕ) → slice_get self.now symbol ≡ Some text.now → result ≡ Some symbol }
    {
        // proof: the texts are distinct.
        let _ = self.len();
        self.get_counted(text, &mut Steps::new())
    }

    /// As [`get`](StringInterner::get), at the same cost, and counts its comparisons.
    ///
    /// The counter isn't above 2^63.
    pub fn get_counted(&self, text: &str, steps: &mut Steps) -> Option<Sym>
        requires { steps.old ≤ 2 ^ 63 }
        ensures symbol { result ≡ symbol_of self.now text.now }
        ensures few_steps { steps.new ≤ steps.old + digits (length self.now) }
        ensures some_steps { 0 < length self.now → steps.old < steps.new }
    {
        self.index.find(&Sought::new(&self.texts, text), steps).ok()
    }

    /// The symbol of a text. A text that isn't there is copied, and its symbol is the number of texts
    /// before.
    ///
    /// For a text that is there nothing is copied or allocated, and it isn't refused. For a new one it
    /// fails with `NotEnoughKeys` if there are 2^32 texts, and then with `OutOfSystemMemory` if there is
    /// no memory for it, or the clone of the allocator fails. After an error the interner is as before.
    /// Without memory for a larger hash table it needn't fail, but takes the worst case's time.
    /// Expected constant time, amortized, and linear in the text. In the worst case a binary search, and for a new text
    /// also some √n steps at n texts.
    #[inline]
    pub fn get_or_intern(&mut self, text: &str) -> Result<Sym, ArenaError>
    where
        A: Clone,
        ensures there { (symbol : ℕ) → symbol_of self.old text.now ≡ Some symbol
            → (result ≡ Ok symbol) × (self.new ≡ self.old) }
        ensures new { symbol_of self.old text.now ≡ None → IfOk result (λ symbol.
            (symbol ≡ length self.old) × (self.new ≡ self.old ++ text.now ∷ [])) }
        ensures no_symbol { IsErrOf result ArenaError.NotEnoughKeys
            ↔ ((symbol_of self.old text.now ≡ None) × (2 ^ 32 ≤ length self.old)) }
        ensures errors { IfErr result (λ error. (error ≡ ArenaError.NotEnoughKeys)
            ⊎ (error ≡ ArenaError.OutOfSystemMemory)) }
        ensures err { OnErr result (self.new ≡ self.old) }
        ensures known { IfOk result (λ symbol. symbol_of self.new text.now ≡ Some symbol) }
        ensures reads { IfOk result (λ symbol. slice_get self.new symbol ≡ Some text.now) }
        ensures kept { (other : List ℕ) (symbol : ℕ) → symbol_of self.old other ≡ Some symbol
            → symbol_of self.new other ≡ Some symbol }
        ensures earlier { (other : List ℕ) (symbol : ℕ) → slice_get self.old symbol ≡ Some other
            → slice_get self.new symbol ≡ Some other }
    {
        self.get_or_intern_with_hint(text, InternHint::None)
    }

    /// As [`get_or_intern`](StringInterner::get_or_intern), at the same cost, whatever the hint says.
    pub fn get_or_intern_with_hint(
        &mut self,
        text: &str,
        _hint: InternHint,
    ) -> Result<Sym, ArenaError>
    where
        A: Clone,
        ensures { Interning self.old text.now result self.new }
    {
        let sought = Sought::new(&self.texts, text);
        let place = match self.index.find_to_insert(&sought) {
            Ok(symbol) => return Ok(symbol),
            Err(place) => place,
        };
        let Ok(number) = u32::try_from(self.texts.len()) else {
            return Err(ArenaError::NotEnoughKeys);
        };
        let symbol = Sym::from_u32(number);
        let hash = sought.hash;
        let place = self.index.reserve(place, symbol, &sought)?;
        self.texts.push(text)?;
        self.index.insert(place, Entry { hash, symbol });
        Ok(symbol)
    }

    /// Interns the texts, one by one, each at the cost of [`get_or_intern`](StringInterner::get_or_intern).
    ///
    /// Fails as the first [`get_or_intern`](StringInterner::get_or_intern) that fails. The texts before that
    /// one stay.
    pub fn extend<'t, U: IntoIterator<Item = &'t str>>(&mut self, iter: U) -> Result<(), ArenaError>
    where
        A: Clone,
        requires { IsFiniteIterable U.into_iter_gives U.IntoIter.can_next U.IntoIter.remaining iter }
        ensures ok { OnOk result (InternsAll U.into_iter_gives U.IntoIter.next_gives iter self.old self.new) }
        ensures err { IfErr result (InternsUntilRefused U.into_iter_gives U.IntoIter.next_gives
            iter self.old self.new) }
    {
        for text in iter {
            // proof: by its one clause, which the contract here repeats.
            self.get_or_intern_with_hint(text, InternHint::None)?;
        }
        Ok(())
    }

    /// The text of a symbol, or `None` if its number isn't below that of the texts. Constant time.
    #[inline]
    pub fn resolve(&self, symbol: Sym) -> Option<&str>
        ensures { option_copied result ≡ slice_get self.now symbol }
    {
        let number = symbol.into_usize();
        if number < self.len() {
            Some(self.texts.get(number))
        } else {
            None
        }
    }

    /// The text of a symbol, whose number is below that of the texts. Constant time.
    #[inline]
    pub fn text(&self, symbol: Sym) -> &str
        requires { symbol < length self.now }
        ensures { slice_get self.now symbol ≡ Some result.now }
    {
        self.texts.get(symbol.into_usize())
    }

    /// Each symbol with its text, in the order of the symbols. Constant time for each step.
    pub fn iter(&self) -> Iter<'_, A>
        ensures entries { result ≡ with_symbols self.now }
        ensures len { length result ≡ length self.now }
        ensures bound { length self.now ≤ 2 ^ 32 }
    {
        Iter {
            texts: &self.texts,
            next: 0,
            end: self.len(),
        }
    }
}

impl<'a, A: Allocator> IntoIterator for &'a StringInterner<A> {
    type Item = (Sym, &'a str);

    type IntoIter = Iter<'a, A>;

    ghost into_iter_gives = { λ interner it. it ≡ with_symbols interner.now };

    fn into_iter(self) -> Iter<'a, A> {
        self.iter()
    }
}

impl<A: Allocator + Clone> StringInterner<A> {
    /// The same texts under the same symbols, over clones of the allocator. Linear.
    ///
    /// Fails with `OutOfSystemMemory` if there is no memory for them, or the clone of an allocator fails.
    pub fn clone(&self) -> Result<Self, ArenaError>
        ensures texts { IfOk result (λ other. other ≡ self.now) }
        ensures errors { IsOkUnless result ArenaError.OutOfSystemMemory }
    {
        Ok(StringInterner {
            texts: self.texts.clone()?,
            index: self.index.clone()?,
        })
    }
}

/// Equal where the lists of texts are.
impl<A: Allocator> PartialEq for StringInterner<A> {
    ghost eq = { pointwise bytes_eq };

    ghost laws = { lists_per texts_per };

    fn eq(&self, other: &Self) -> bool {
        self.texts == other.texts
    }
}

impl<A: Allocator> Eq for StringInterner<A> {
    ghost laws = { lists_equiv nat_list_eq_equiv };
}

/// A list of the texts, in the order of their symbols.
impl<A: Allocator> Debug for StringInterner<A> {
    fn fmt<W: Write>(&self, f: &mut Formatter<W>) -> fmt::Result {
        let mut list = f.debug_list();
        for (_, text) in self {
            list.entry(&text);
        }
        list.finish()
    }
}
