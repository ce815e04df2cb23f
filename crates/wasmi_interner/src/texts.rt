//! The texts of an interner.
ghost use Rattle.std.specs.Prelude.{◌≡◌, ◌<◌, [], ◌∷◌, ◌++◌, length, IfOk, OnErr, OnOk, Some, slice_get};
ghost use Rattle.std.specs.Cmp.Lexicographic.{pointwise, lists_per};
ghost use Rattle.std.specs.Str.{bytes_eq};
ghost use Rattle.wasmi_interner.specs.LenOrderLaws.{texts_per};

use std::alloc::{AllocError, Allocator};
use std::marker::Model;

// A list of texts, joined in one block of memory.
#[derive(Drop)]
pub(crate) struct Texts<A: Allocator> {
    joined: String<A>,
    parts: Vec<Part, A>,
}

// Where a text lies: from a byte on, so many bytes.
#[derive(Clone, Copy, PartialEq)]
struct Part {
    start: usize,
    len: usize,
}

impl<A: Allocator> Model for Texts<A> {
    ghost use Rattle.std.specs.Prelude.{ℕ, List, string_bytes};
    ghost use Rattle.wasmi_interner.specs.inner.Texts.{AreJoined, texts_at};

    ghost Value = { List (List ℕ) };

    ghost view = { λ texts. texts_at (string_bytes texts.joined) texts.parts.items };

    ghost invariant = { λ texts. AreJoined (string_bytes texts.joined) 0 texts.parts.items };
}

impl<A: Allocator> Texts<A> {
    // No texts.
    pub(crate) fn new(alloc: A) -> Self
    where
        A: Copy,
        ensures { result ≡ [] }
    {
        Texts {
            joined: String::new(alloc),
            parts: Vec::new(alloc),
        }
    }

    // How many there are.
    #[inline]
    pub(crate) fn len(&self) -> usize
        ensures { result ≡ length self.now }
    {
        self.parts.len()
    }

    // Drops all of them.
    pub(crate) fn clear(&mut self)
        ensures { self.new ≡ [] }
    {
        self.joined.clear();
        self.parts.clear();
    }

    // The text at a position.
    #[inline]
    pub(crate) fn get(&self, position: usize) -> &str
        requires { position < length self.now }
        ensures { slice_get self.now position ≡ Some result.now }
    {
        let part = self.parts[position];
        &self.joined.as_str()[part.start..part.start + part.len]
    }

    // Copies a text behind the others. Without memory for it, all is as before.
    pub(crate) fn push(&mut self, text: &str) -> Result<(), AllocError>
        ensures ok { OnOk result (self.new ≡ self.old ++ text.now ∷ []) }
        ensures err { OnErr result (self.new ≡ self.old) }
    {
        self.parts.reserve(1)?;
        let start = self.joined.len();
        self.joined.push_str(text)?;
        self.parts.push_reserved(Part {
            start,
            len: text.len(),
        });
        Ok(())
    }

    // The same texts, over clones of the allocator.
    pub(crate) fn clone(&self) -> Result<Self, AllocError>
    where
        A: Clone,
        ensures { IfOk result (λ other. other ≡ self.now) }
    {
        Ok(Texts {
            joined: self.joined.clone()?,
            parts: self.parts.clone()?,
        })
    }
}

// Equal where the lists of texts are.
impl<A: Allocator> PartialEq for Texts<A> {
    ghost eq = { pointwise bytes_eq };

    ghost laws = { lists_per texts_per };

    fn eq(&self, other: &Self) -> bool {
        self.joined == other.joined && self.parts == other.parts
    }
}
