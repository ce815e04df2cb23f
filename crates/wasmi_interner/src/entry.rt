//! An entry of the index of an interner.
ghost use Rattle.std.specs.Prelude.{◌≡◌, true, nat_lt};
ghost use Rattle.wasmi_interner.specs.inner.HashTable.{is_empty_slot, is_marker};
ghost use Rattle.wasmi_interner.specs.declared.entry.Entry.{Entry};

use crate::Sym;

// A symbol beside the hash of its text, so that few looks read a text.
//
// In a slot, the two greatest symbols stand for none: no text has the hash of the slot, or those that have it are
// in the rest.
#[derive(Copy, Clone)]
pub(crate) struct Entry {
    pub(crate) hash: u32,
    pub(crate) symbol: Sym,
}

// The symbol of an empty slot.
const EMPTY: u32 = u32::MAX;

// The symbol of a marker.
const MARKER: u32 = u32::MAX - 1;

impl Entry {
    // An empty slot.
    pub(crate) fn empty() -> Entry
        ensures { is_empty_slot result ≡ true }
    {
        Entry {
            hash: 0,
            symbol: Sym::from_u32(EMPTY),
        }
    }

    // A slot that says of its hash that all texts which have it are in the rest.
    pub(crate) fn marker(hash: u32) -> Entry
        ensures marks { is_marker result ≡ true }
        ensures hash { result.hash ≡ hash }
    {
        Entry {
            hash,
            symbol: Sym::from_u32(MARKER),
        }
    }

    // Whether a slot can have this symbol.
    #[inline]
    pub(crate) fn fits(symbol: Sym) -> bool
        ensures { result ≡ nat_lt symbol 4294967294 }
    {
        symbol.into_u32() < MARKER
    }

    // Whether the slot is empty.
    #[inline]
    pub(crate) fn is_empty(&self) -> bool
        ensures { result ≡ is_empty_slot self.now }
    {
        self.symbol.into_u32() == EMPTY
    }

    // Whether it is a marker.
    #[inline]
    pub(crate) fn is_marker(&self) -> bool
        ensures { result ≡ is_marker self.now }
    {
        self.symbol.into_u32() == MARKER
    }
}
