//! A text that is sought.
ghost use Rattle.std.specs.Prelude.{◌≡◌, ◌+◌, ◌<◌, ◌≤◌, ◌^◌, ◌↔◌, length, IfSome, IsTrue, Some, slice_get};
ghost use Rattle.wasmi_interner.specs.BinaryDigits.{digits};
ghost use Rattle.wasmi_interner.specs.inner.Hash.{hash_of};
ghost use Rattle.wasmi_interner.specs.inner.Index.{orders_with, order_with, AreSymbolsOf};
ghost use Rattle.wasmi_interner.specs.Search.{IsFound, IsSearchable};

use crate::entry::Entry;
use crate::hash::hash_of_text;
use crate::rest::Rest;
use crate::texts::Texts;
use crate::{LenOrder, Probe, Steps, Sym, search};
use std::alloc::Allocator;
use std::cmp::Ordering;
use std::mem;

// A text that is sought among the texts of an interner, and its hash.
#[derive(Drop)]
pub(crate) struct Sought<'a, A: Allocator> {
    pub(crate) texts: &'a Texts<A>,
    text: &'a str,
    pub(crate) hash: u32,
    ghost hashed: { hash ≡ hash_of text.now },
}

impl<'a, A: Allocator> Sought<'a, A> {
    // A text that is sought among these.
    #[inline]
    pub(crate) fn new(texts: &'a Texts<A>, text: &'a str) -> Self
        ensures texts { result.texts.now ≡ texts.now }
        ensures text { result.text.now ≡ text.now }
    {
        Sought {
            texts,
            text,
            hash: hash_of_text(text),
        }
    }

    // Whether it is the text of a symbol. A step.
    #[inline]
    pub(crate) fn is_text_of(&self, symbol: Sym, steps: &mut Steps) -> bool
        requires within { symbol < length self.now.texts.now }
        requires countable { steps.old ≤ 2 ^ 63 }
        ensures same { IsTrue result ↔ (slice_get self.now.texts.now symbol ≡ Some self.now.text.now) }
        ensures counted { steps.new ≡ steps.old + 1 }
    {
        steps.tick();
        self.texts.get(symbol.into_usize()) == self.text
    }

    // The first symbol, if it is that of this text. A step, if there are texts.
    #[inline]
    pub(crate) fn symbol_if_first(&self, steps: &mut Steps) -> Option<Sym>
        requires { steps.old ≤ 2 ^ 63 }
        ensures there { IfSome result (λ symbol. slice_get self.now.texts.now symbol ≡ Some self.now.text.now) }
        ensures few_steps { steps.new ≤ steps.old + digits (length self.now.texts.now) }
        ensures some_steps { 0 < length self.now.texts.now → steps.old < steps.new }
    {
        if self.texts.len() == 0 {
            return None;
        }
        let first = Sym::from_u32(0);
        if self.is_text_of(first, steps) {
            Some(first)
        } else {
            None
        }
    }

    // The rank of its entry in the rest, or as an error the one where it belongs. A step for each look.
    #[inline]
    pub(crate) fn rank_in(&self, rest: &Rest<A>, steps: &mut Steps) -> Result<usize, usize>
        requires symbols { AreSymbolsOf self.now.texts.now rest.now.entries }
        requires in_order { IsSearchable (orders_with self.now.texts.now self.now.hash self.now.text.now rest.now.entries) }
        requires countable { steps.old ≤ 2 ^ 63 }
        ensures found { IsFound (orders_with self.now.texts.now self.now.hash self.now.text.now rest.now.entries) result }
        ensures few_steps { steps.new ≤ steps.old + digits (length rest.now.entries) }
        ensures some_steps { 0 < length rest.now.entries → steps.old < steps.new }
    {
        // Counted in a local: through the `&mut` each step is a store, after which the compiler reads again where the
        // entries lie.
        let mut probe = Comparison {
            sought: self,
            rest,
            steps: mem::replace(steps, Steps::new()),
        };
        let found = search(rest.len(), &mut probe);
        *steps = probe.steps;
        found
    }

    // How the text of an entry compares with it, their hashes first.
    #[inline]
    fn compare(&self, entry: Entry) -> Ordering
        requires { entry.symbol < length self.now.texts.now }
        ensures { result ≡ order_with self.now.texts.now self.now.hash self.now.text.now entry }
    {
        match entry.hash.cmp(&self.hash) {
            Ordering::Equal => {}
            order => return order,
        }
        let other = self.texts.get(entry.symbol.into_usize());
        if other == self.text {
            return Ordering::Equal;
        }
        LenOrder::new(other).cmp(&LenOrder::new(self.text))
    }
}

// A text that is sought in the rest, and with how many entries it was compared.
#[derive(Drop)]
struct Comparison<'a, A: Allocator> {
    sought: &'a Sought<'a, A>,
    rest: &'a Rest<A>,
    steps: Steps,
    ghost symbols: { AreSymbolsOf sought.now.texts.now rest.now.entries },
}

impl<A: Allocator> Probe for Comparison<'_, A> {
    ghost orders = { λ probe. orders_with probe.sought.now.texts.now probe.sought.now.hash probe.sought.now.text.now probe.rest.now.entries };

    ghost looks = { λ probe. probe.steps };

    #[inline]
    fn look(&mut self, at: usize) -> Ordering {
        self.steps.tick();
        self.sought.compare(self.rest.at(at))
    }
}
