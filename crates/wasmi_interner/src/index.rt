//! The index of an interner.
ghost use Rattle.std.specs.Prelude.{◌≡◌, ℕ, ◌+◌, ◌<◌, ◌≤◌, ◌^◌, List, [], ◌++◌, length, IfErr, IfOk, IfSome, IsOkUnless, None, OnOk, Some, replicate, slice_get};
ghost use Rattle.wasmi_interner.specs.BinaryDigits.{digits};
ghost use Rattle.wasmi_interner.specs.inner.Index.{BelongsAt, Carries, Inserts, IsEntryOf, IsIndexOf, IsReady, IsRestOf, orders_with, text_at};
ghost use Rattle.wasmi_interner.specs.Interner.{symbol_of};
ghost use Rattle.wasmi_interner.specs.Search.{IsFound};
ghost use Rattle.wasmi_interner.specs.inner.HashTable.{IsTaken, met_in, rest};

use crate::entry::Entry;
use crate::hash_table::{HashTable, Met};
use crate::rest::Rest;
use crate::sought::Sought;
use crate::texts::Texts;
use crate::{Steps, Sym};
use std::alloc::{AllocError, Allocator};
use std::cmp::Ordering;
use wasmi_arena::ArenaError;

// The symbols of texts beside their hashes. Most stand in slots, where the hash tells. Where it has no slot left, or
// several texts have it, they are in the rest, in the order of the hashes and then in length order.
//
// So to find names that were made to have one hash, or near ones, costs no more than a search of sorted ones.
#[derive(Drop)]
pub(crate) struct Index<A: Allocator> {
    slots: HashTable<A>,
    rest: Rest<A>,
}

// Where a text belongs that isn't there.
#[derive(Drop)]
pub(crate) enum Vacancy {
    // In this slot, which is empty.
    Gap(usize),
    // In the rest, beside the text of this slot, which has the same hash.
    Beside(usize),
    // In the rest, at this rank.
    Rest(usize),
}

impl<A: Allocator> Index<A> {
    // An index of no texts.
    pub(crate) fn new(alloc: A) -> Self
    where
        A: Copy,
        ensures { IsIndexOf [] result.slots result.rest.entries }
    {
        Index {
            slots: HashTable::new(alloc),
            rest: Rest::new(alloc),
        }
    }

    // Takes all out.
    pub(crate) fn clear(&mut self)
        ensures { IsIndexOf [] self.new.slots self.new.rest.entries }
    {
        self.slots.clear();
        self.rest.clear();
    }

    // The symbol of a text, or as an error the place where the text belongs. One step for each comparison.
    //
    // Where an empty slot is met for its hash, the text isn't there. The first text is compared all the same, so
    // that a step is taken wherever there are texts.
    // As a call of its own it costs a search that finds its text a third more.
    #[inline(always)]
    pub(crate) fn find(&self, sought: &Sought<'_, A>, steps: &mut Steps) -> Result<Sym, Vacancy>
        requires indexed { IsIndexOf sought.now.texts.now self.now.slots self.now.rest.entries }
        requires countable { steps.old ≤ 2 ^ 63 }
        ensures there { IfOk result (λ symbol. symbol_of sought.now.texts.now sought.now.text.now ≡ Some symbol) }
        ensures absent { IfErr result (λ place. symbol_of sought.now.texts.now sought.now.text.now ≡ None) }
        ensures place { IfErr result (λ place.
            BelongsAt sought.now.texts.now self.now.slots self.now.rest.entries sought.now.hash sought.now.text.now place) }
        ensures few_steps { steps.new ≤ steps.old + digits (length sought.now.texts.now) }
        ensures some_steps { 0 < length sought.now.texts.now → steps.old < steps.new }
    {
        match self.slots.meet(sought.hash) {
            Met::Gap(place) => match sought.symbol_if_first(steps) {
                Some(symbol) => Ok(symbol),
                None => Err(Vacancy::Gap(place)),
            },
            Met::One(place) => {
                let symbol = self.slots.at(place).symbol;
                if sought.is_text_of(symbol, steps) {
                    Ok(symbol)
                } else {
                    Err(Vacancy::Beside(place))
                }
            }
            Met::Rest => match find_in_rest(&self.rest, sought, steps) {
                Ok(symbol) => Ok(symbol),
                Err(rank) => Err(Vacancy::Rest(rank)),
            },
        }
    }

    // As `find`, of a text that is put in where it isn't there. Slots that are few for the texts are doubled before.
    #[inline]
    pub(crate) fn find_to_insert(&mut self, sought: &Sought<'_, A>) -> Result<Sym, Vacancy>
    where
        A: Clone,
        requires { IsIndexOf sought.now.texts.now self.old.slots self.old.rest.entries }
        ensures there { IfOk result (λ symbol. symbol_of sought.now.texts.now sought.now.text.now ≡ Some symbol) }
        ensures absent { IfErr result (λ place. symbol_of sought.now.texts.now sought.now.text.now ≡ None) }
        ensures place { IfErr result (λ place.
            BelongsAt sought.now.texts.now self.new.slots self.new.rest.entries sought.now.hash sought.now.text.now place) }
        ensures indexed { IsIndexOf sought.now.texts.now self.new.slots self.new.rest.entries }
    {
        let found = self.find(sought, &mut Steps::new());
        if found.is_ok() || !self.slots.are_few(sought.texts.len()) {
            return found;
        }
        self.grow();
        self.find(sought, &mut Steps::new())
    }

    // Doubles the slots, if there is memory for them.
    #[inline(never)]
    fn grow(&mut self)
    where
        A: Clone,
        requires { 0 < self.old.slots.shift }
        ensures { (texts : List (List ℕ)) → IsIndexOf texts self.old.slots self.old.rest.entries
            → IsIndexOf texts self.new.slots self.new.rest.entries }
    {
        if let Ok(Some(slots)) = self.doubled() {
            self.slots = slots;
        }
    }

    // Twice as many slots, with the same entries in them. None stands further behind its home than here, so there is
    // a slot for each; where there weren't, the old ones would stay.
    fn doubled(&self) -> Result<Option<HashTable<A>>, AllocError>
    where
        A: Clone,
        requires { 0 < self.now.slots.shift }
        ensures { IfOk result (λ done. IfSome done (λ slots. Carries self.now.slots self.now.rest.entries slots)) }
    {
        let mut slots = self.slots.twice_as_many()?;
        for place in 0..self.slots.len() {
            let slot = self.slots.at(place);
            if slot.is_empty() {
                continue;
            }
            if !slots.put(slot) {
                return Ok(None);
            }
        }
        for rank in 0..self.rest.len() {
            if !slots.put(Entry::marker(self.rest.at(rank).hash)) {
                return Ok(None);
            }
        }
        Ok(Some(slots))
    }

    // Makes room for the entry of a new text, whose symbol this is, and returns its place then.
    #[inline]
    pub(crate) fn reserve(
        &mut self,
        vacancy: Vacancy,
        symbol: Sym,
        sought: &Sought<'_, A>,
    ) -> Result<Vacancy, ArenaError>
    where
        A: Clone,
        requires indexed { IsIndexOf sought.now.texts.now self.old.slots self.old.rest.entries }
        requires absent { symbol_of sought.now.texts.now sought.now.text.now ≡ None }
        requires belongs { BelongsAt sought.now.texts.now self.old.slots self.old.rest.entries sought.now.hash sought.now.text.now vacancy }
        requires next { symbol ≡ length sought.now.texts.now }
        requires few { length sought.now.texts.now < 2 ^ 32 }
        ensures ready { IfOk result (λ place. IsReady sought.now.texts.now self.new.slots self.new.rest sought.now.hash sought.now.text.now place) }
        ensures indexed { IsIndexOf sought.now.texts.now self.new.slots self.new.rest.entries }
        ensures errors { IsOkUnless result ArenaError.OutOfSystemMemory }
    {
        match vacancy {
            Vacancy::Gap(place) => {
                if Entry::fits(symbol) {
                    return Ok(Vacancy::Gap(place));
                }
                self.slots.set(place, Entry::marker(sought.hash));
            }
            Vacancy::Beside(place) => self.move_to_rest(place, sought.texts)?,
            Vacancy::Rest(rank) => return self.reserve_in_rest(rank, sought),
        }
        let rank = self.rank_in_rest(sought);
        self.reserve_in_rest(rank, sought)
    }

    // Makes room in the rest for the entry of a new text, which belongs at a rank there, and returns that place.
    // proof: a call of its own, for its clauses.
    fn reserve_in_rest(
        &mut self,
        rank: usize,
        sought: &Sought<'_, A>,
    ) -> Result<Vacancy, ArenaError>
    where
        A: Clone,
        requires indexed { IsIndexOf sought.now.texts.now self.old.slots self.old.rest.entries }
        requires belongs { BelongsAt sought.now.texts.now self.old.slots self.old.rest.entries sought.now.hash sought.now.text.now (Vacancy.Rest rank) }
        requires few { length sought.now.texts.now < 2 ^ 32 }
        ensures ready { IfOk result (λ place. IsReady sought.now.texts.now self.new.slots self.new.rest sought.now.hash sought.now.text.now place) }
        ensures indexed { IsIndexOf sought.now.texts.now self.new.slots self.new.rest.entries }
        ensures errors { IsOkUnless result ArenaError.OutOfSystemMemory }
    {
        self.rest.reserve()?;
        Ok(Vacancy::Rest(rank))
    }

    // The rank where the entry of a new text belongs in the rest.
    fn rank_in_rest(&self, sought: &Sought<'_, A>) -> usize
        requires indexed { IsIndexOf sought.now.texts.now self.now.slots self.now.rest.entries }
        requires absent { symbol_of sought.now.texts.now sought.now.text.now ≡ None }
        requires met { met_in self.now.slots sought.now.hash ≡ rest }
        ensures { BelongsAt sought.now.texts.now self.now.slots self.now.rest.entries sought.now.hash sought.now.text.now (Vacancy.Rest result) }
    {
        match find_in_rest(&self.rest, sought, &mut Steps::new()) {
            Ok(_) => unreachable!(),
            Err(rank) => rank,
        }
    }

    // Moves the entry of a slot to the rest, and leaves a marker.
    #[inline(never)]
    fn move_to_rest(&mut self, place: usize, texts: &Texts<A>) -> Result<(), ArenaError>
    where
        A: Clone,
        requires indexed { IsIndexOf texts.now self.old.slots self.old.rest.entries }
        requires taken { (hash : ℕ) × IsTaken self.old.slots hash place }
        requires few { length texts.now < 2 ^ 32 }
        ensures indexed { IsIndexOf texts.now self.new.slots self.new.rest.entries }
        ensures met { OnOk result ((hash : ℕ) → IsTaken self.old.slots hash place → met_in self.new.slots hash ≡ rest) }
        ensures errors { IsOkUnless result ArenaError.OutOfSystemMemory }
    {
        let entry = self.slots.at(place);
        self.rest.reserve()?;
        let hash = entry.hash;
        // Where the rest had it already, which the invariant allows, nothing is put in.
        if let Err(rank) = rank_of(&self.rest, texts, &entry) {
            self.rest.insert(rank, entry);
        }
        self.slots.set(place, Entry::marker(hash));
        Ok(())
    }

    // Puts an entry to a place, where there is room.
    #[inline]
    pub(crate) fn insert(&mut self, vacancy: Vacancy, entry: Entry)
        requires { (texts : List (List ℕ)) × (hash : ℕ) × (text : List ℕ) × IsReady texts self.old.slots self.old.rest hash text vacancy }
        ensures { Inserts self.old.slots self.old.rest.entries vacancy entry self.new.slots self.new.rest.entries }
    {
        match vacancy {
            Vacancy::Gap(place) => self.slots.set(place, entry),
            Vacancy::Rest(rank) => self.rest.insert(rank, entry),
            Vacancy::Beside(_) => unreachable!(),
        }
    }

    // The same index, over clones of the allocator.
    pub(crate) fn clone(&self) -> Result<Self, ArenaError>
    where
        A: Clone,
        ensures same { IfOk result (λ other. (other.slots ≡ self.now.slots) × (other.rest.entries ≡ self.now.rest.entries)) }
        ensures errors { IsOkUnless result ArenaError.OutOfSystemMemory }
    {
        Ok(Index {
            slots: self.slots.clone()?,
            rest: self.rest.clone()?,
        })
    }
}

// The symbol of a text whose entry is in the rest, or as an error the rank where it belongs. One step for each
// comparison, or for that with the first text.
#[inline(never)]
fn find_in_rest<A: Allocator>(
    rest: &Rest<A>,
    sought: &Sought<'_, A>,
    steps: &mut Steps,
) -> Result<Sym, usize>
    requires sorted { IsRestOf sought.now.texts.now rest.now.entries }
    requires countable { steps.old ≤ 2 ^ 63 }
    ensures there { IfOk result (λ symbol. slice_get sought.now.texts.now symbol ≡ Some sought.now.text.now) }
    ensures absent { IfErr result (λ rank. (rank ≤ length rest.now.entries) × (greater : ℕ)
        × (orders_with sought.now.texts.now sought.now.hash sought.now.text.now rest.now.entries
        ≡ replicate rank Ordering.Less ++ replicate greater Ordering.Greater)) }
    ensures few_steps { steps.new ≤ steps.old + digits (length sought.now.texts.now) }
    ensures some_steps { 0 < length sought.now.texts.now → steps.old < steps.new }
{
    if rest.len() == 0 {
        return match sought.symbol_if_first(steps) {
            Some(symbol) => Ok(symbol),
            None => Err(0),
        };
    }
    match sought.rank_in(rest, steps) {
        Ok(rank) => Ok(rest.at(rank).symbol),
        Err(rank) => Err(rank),
    }
}

// The rank of an entry in the rest, or as an error the one where it belongs.
fn rank_of<A: Allocator>(rest: &Rest<A>, texts: &Texts<A>, entry: &Entry) -> Result<usize, usize>
    requires sorted { IsRestOf texts.now rest.now.entries }
    requires entry { IsEntryOf texts.now entry.now }
    ensures { IsFound (orders_with texts.now entry.now.hash (text_at texts.now entry.now) rest.now.entries) result }
{
    let sought = Sought::new(texts, texts.get(entry.symbol.into_usize()));
    sought.rank_in(rest, &mut Steps::new())
}
