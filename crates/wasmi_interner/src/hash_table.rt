//! The hash table of the index of an interner.
ghost use Rattle.std.specs.Prelude.{◌≡◌, ◌<◌, [], length, IfOk, IsTrue, Some, false, slice_get, true};
ghost use Rattle.std.specs.List.{All};
ghost use Rattle.wasmi_interner.specs.inner.HashTable.{Meets, Puts, is_empty_slot, with_slot};

use crate::entry::Entry;
use std::alloc::{AllocError, Allocator};
use std::marker::Model;

// Slots for entries, some behind the home of each hash: 2^(32 - shift) homes, which the upper bits of a hash tell, and
// then the slots within reach of the last one.
#[derive(Drop)]
pub(crate) struct HashTable<A: Allocator> {
    slots: Vec<Entry, A>,
    // By how many bits a hash is shifted to its home.
    shift: u32,
}

// How many slots are looked at, from a home on. `met_from` of `specs/inner/HashTable.antt` has the number too.
const REACH: usize = 32;

// By how many bits a hash is shifted to one of the fewest homes.
const FEWEST: u32 = 29;

// So many texts there are to eight homes, before the slots are doubled.
const LOAD: usize = 5;

// What stands for a hash.
#[derive(Drop)]
pub(crate) enum Met {
    // Nothing: this slot is the first empty one.
    Gap(usize),
    // The entry of this slot, the only one.
    One(usize),
    // A marker, or nothing within reach: what there is, is in the rest.
    Rest,
}

impl<A: Allocator> Model for HashTable<A> {
    ghost use Rattle.std.specs.Prelude.{◌≤◌, vec_items};
    ghost use Rattle.wasmi_interner.specs.inner.HashTable.{HashTableState};

    ghost Value = { HashTableState };

    ghost view = { λ slots. record { slots = vec_items slots.slots; shift = slots.shift } };

    ghost invariant = { λ slots. slots.shift ≤ 32 };
}

impl<A: Allocator> HashTable<A> {
    // No slots.
    pub(crate) fn new(alloc: A) -> Self
        ensures { result.slots ≡ [] }
    {
        HashTable {
            slots: Vec::new(alloc),
            shift: 32,
        }
    }

    // Takes all slots away.
    pub(crate) fn clear(&mut self)
        ensures { self.new.slots ≡ [] }
    {
        self.slots.clear();
        self.shift = 32;
    }

    // What stands for a hash.
    #[inline]
    pub(crate) fn meet(&self, hash: u32) -> Met
        ensures { Meets self.now hash result }
    {
        let home = (hash as u64 >> self.shift) as usize;
        let Some(window) = self.slots.get(home..home + REACH) else {
            return Met::Rest;
        };
        for (place, slot) in window.iter().enumerate() {
            if slot.is_empty() {
                return Met::Gap(home + place);
            }
            if slot.hash == hash {
                return if slot.is_marker() {
                    Met::Rest
                } else {
                    Met::One(home + place)
                };
            }
        }
        Met::Rest
    }

    // The entry of a slot.
    #[inline]
    pub(crate) fn at(&self, place: usize) -> Entry
        requires { place < length self.now.slots }
        ensures { slice_get self.now.slots place ≡ Some result }
    {
        self.slots[place]
    }

    // Puts an entry into a slot.
    #[inline]
    pub(crate) fn set(&mut self, place: usize, entry: Entry)
        requires { place < length self.old.slots }
        ensures { self.new ≡ with_slot self.old place entry }
    {
        self.slots[place] = entry;
    }

    // Whether they are few for so many texts. They can't be doubled where a hash has no more bits.
    #[inline]
    pub(crate) fn are_few(&self, texts: usize) -> bool
        ensures { IsTrue result → 0 < self.now.shift }
    {
        0 < self.shift && (LOAD << 32 >> self.shift) / 8 <= texts
    }

    // Empty slots for twice as many homes, or for the fewest where there are none.
    pub(crate) fn twice_as_many(&self) -> Result<Self, AllocError>
    where
        A: Clone,
        requires { 0 < self.now.shift }
        ensures { IfOk result (λ more. All (λ slot. is_empty_slot slot ≡ true) more.slots) }
    {
        let shift = if self.slots.is_empty() {
            FEWEST
        } else {
            self.shift - 1
        };
        let len = (1 << (32 - shift)) + REACH - 1;
        let alloc = self.slots.allocator().clone()?;
        Ok(HashTable {
            slots: vec![in alloc; Entry::empty(); len]?,
            shift,
        })
    }

    // How many there are.
    pub(crate) fn len(&self) -> usize
        ensures { result ≡ length self.now.slots }
    {
        self.slots.len()
    }

    // Puts an entry into the slot that is met for its hash, and returns whether it is met there then.
    pub(crate) fn put(&mut self, entry: Entry) -> bool
        requires { is_empty_slot entry ≡ false }
        ensures { IsTrue result → Puts self.old entry self.new }
    {
        match self.meet(entry.hash) {
            Met::Gap(place) => {
                self.set(place, entry);
                true
            }
            Met::One(_) => false,
            Met::Rest => entry.is_marker(),
        }
    }

    // The same slots, over a clone of the allocator.
    pub(crate) fn clone(&self) -> Result<Self, AllocError>
    where
        A: Clone,
        ensures { IfOk result (λ other. other ≡ self.now) }
    {
        Ok(HashTable {
            slots: self.slots.clone()?,
            shift: self.shift,
        })
    }
}
