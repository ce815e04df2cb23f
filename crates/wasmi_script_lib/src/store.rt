//! A store of entities, on top of the containers.
ghost use Rattle.std.specs.Prelude.{◌≡◌, ◌<◌, ◌≤◌, ◌↔◌, ◌⊎◌, ◌^◌, [], length, IfOk, IfErr, IfNone, IfSome, OnOk, OnErr, IsErrOf, IsOk, IsOkUnless, IsSome, IsTrue, IsFalse, None, Some, option_map, slice_get};
ghost use Rattle.std.specs.List.{AllByRecursion};
ghost use Rattle.wasmi_arena.specs.Geometry.{max_len};
ghost use Rattle.wasmi_collections.specs.Interner.{symbol_of, AreDistinctTexts};
ghost use Rattle.wasmi_script_lib.specs.Distinct.{with_new};
ghost use Rattle.wasmi_script_lib.specs.Store.{Entity, IsFullFor, IsListed, IsOtherKind, KeepsEntities, RenamesKind, with_entity, with_property};

use crate::kinds::Kinds;
use std::alloc::{Allocator, Global};
use std::marker::Model;
use wasmi_arena::{ArenaError, ArenaKey, StableArena, TypedKey};
use wasmi_collections::string_interner::{StringInterner, Sym};
use wasmi_dense::ComponentVec;

/// What an [`EntityKey`] is the key of.
pub enum Entities {}

/// The key of an entity. A contract sees its number, which is the entity's position.
pub type EntityKey = TypedKey<Entities>;

// What is kept of an entity: the symbol of its name, and the key of its kind.
#[derive(Clone, Copy, PartialEq, Eq)]
struct Named {
    name: Sym,
    kind: usize,
}

/// Entities with a name, a kind and perhaps a property, each under its key.
///
/// Each name and each kind is kept once. A kind that is renamed is renamed for each entity that has it.
#[derive(Drop)]
pub struct EntityStore<A: Allocator = Global> {
    entities: StableArena<EntityKey, Named, A>,
    properties: ComponentVec<EntityKey, u64, A>,
    names: StringInterner<A>,
    kinds: Kinds<A>,
}

impl<A: Allocator> Model for EntityStore<A> {
    ghost use Rattle.wasmi_script_lib.specs.Store.{Store, store_of, IsSound};

    ghost Value = { Store };

    ghost view = { λ store. store_of store.names store.kinds store.properties store.entities };

    ghost invariant = { λ store. IsSound store.names store.kinds store.properties store.entities };
}

impl<A: Allocator> EntityStore<A> {
    /// A store without entities, which asks `alloc` for memory when one comes. Constant time, no allocation.
    pub fn new(alloc: A) -> Self
    where
        A: Copy,
        ensures { result ≡ record { names = []; kinds = []; entities = [] } }
    {
        EntityStore {
            entities: StableArena::new(alloc),
            properties: ComponentVec::new(alloc),
            names: StringInterner::new(alloc),
            kinds: Kinds::new(alloc),
        }
    }

    /// The number of entities. Constant time.
    pub fn len(&self) -> usize
        ensures value { result ≡ length self.now.entities }
        ensures most { length self.now.entities ≤ max_len }
        ensures listed { AllByRecursion (IsListed self.now) self.now.entities }
    {
        self.entities.len()
    }

    // The key of this number, if an entity has it. Constant time.
    pub(crate) fn key(&self, number: usize) -> Option<EntityKey>
        ensures there { IfSome result (λ key. (key ≡ number) × (number < length self.now.entities)) }
        ensures absent { IfNone result (length self.now.entities ≤ number) }
    {
        if number < self.len() {
            EntityKey::from_usize(number)
        } else {
            None
        }
    }

    // Whether a key reads an entity.
    fn has(&self, key: EntityKey) -> bool
        ensures there { IsTrue result → key < length self.now.entities }
        ensures past { IsFalse result → length self.now.entities ≤ key }
        ensures few { length self.now.entities ≤ max_len }
    {
        key.into_usize() < self.len()
    }

    /// The number of names. Constant time.
    pub fn names(&self) -> usize
        ensures value { result ≡ length self.now.names }
        ensures most { length self.now.names ≤ 2 ^ 32 }
        ensures distinct { AreDistinctTexts self.now.names }
    {
        self.names.len()
    }

    /// The number of kinds. Constant time.
    pub fn kinds(&self) -> usize
        ensures value { result ≡ length self.now.kinds }
        ensures distinct { AreDistinctTexts self.now.kinds }
    {
        self.kinds.len()
    }

    /// Adds an entity without a property, and returns its key. Its name and its kind are copied if they are
    /// new.
    ///
    /// Fails with `NotEnoughKeys` if there are 4,294,967,264 entities, or the name is new and there are 2^32
    /// names, and then nothing has changed; and with `OutOfSystemMemory` if there is no memory, and then the
    /// entities are as before, but the name and the kind may be there. Expected time as of
    /// [`get_or_intern`](StringInterner::get_or_intern) and [`alloc`](wasmi_collections::DedupArena::alloc).
    pub fn add(&mut self, name: &str, kind: &str) -> Result<EntityKey, ArenaError>
    where
        A: Copy,
        ensures key { IfOk result (λ key. key ≡ length self.old.entities) }
        ensures ok { OnOk result (self.new ≡ with_entity self.old name.now kind.now) }
        ensures no_key { IsErrOf result ArenaError.NotEnoughKeys ↔ IsFullFor self.old name.now }
        ensures unchanged { IsErrOf result ArenaError.NotEnoughKeys → self.new ≡ self.old }
        ensures errors { IfErr result (λ error. (error ≡ ArenaError.NotEnoughKeys)
            ⊎ (error ≡ ArenaError.OutOfSystemMemory)) }
        ensures err { OnErr result (KeepsEntities self.old name.now kind.now self.new) }
    {
        self.entities.next_key()?;
        let name = intern(&mut self.names, name)?;
        let kind = self.kinds.number_for(kind)?;
        self.entities.alloc(Named { name, kind })
    }

    /// The name, the kind and the property of an entity, or `KeyOutOfBounds` if there is none under the key.
    /// Constant time, no allocation.
    pub fn get(&self, key: EntityKey) -> Result<(&str, &str, Option<u64>), ArenaError>
        ensures entity { IfOk result (λ entity. slice_get self.now.entities key
            ≡ Some (record { name = entity.0.now; kind = entity.1.now; property = entity.2 })) }
        ensures out_of_bounds { IsErrOf result ArenaError.KeyOutOfBounds ↔ (length self.now.entities ≤ key) }
        ensures errors { IsOkUnless result ArenaError.KeyOutOfBounds }
    {
        match self.entities.get(key) {
            Ok(named) => {
                let name = self.names.text(named.name);
                let kind = self.kinds.text(named.kind);
                Ok((name, kind, self.properties.get(key).copied()))
            }
            Err(error) => Err(error),
        }
    }

    /// Gives an entity a property, and returns the one that it had.
    ///
    /// Fails with `KeyOutOfBounds` if there is no entity under the key, and then with `OutOfSystemMemory` if
    /// there is no memory, but not for an entity that has a property. After an error nothing has changed.
    /// Constant time, but linear in the entities behind the last with a property, for one of these.
    pub fn set(&mut self, key: EntityKey, property: u64) -> Result<Option<u64>, ArenaError>
        ensures old { IfOk result (λ old.
            option_map (λ entity. entity.property) (slice_get self.old.entities key) ≡ Some old) }
        ensures ok { OnOk result (self.new ≡ with_property self.old key (Some property)) }
        ensures out_of_bounds { IsErrOf result ArenaError.KeyOutOfBounds ↔ (length self.old.entities ≤ key) }
        ensures errors { IfErr result (λ error. (error ≡ ArenaError.KeyOutOfBounds)
            ⊎ (error ≡ ArenaError.OutOfSystemMemory)) }
        ensures there { (entity : Entity) → slice_get self.old.entities key ≡ Some entity
            → IsSome entity.property → IsOk result }
        ensures err { OnErr result (self.new ≡ self.old) }
    {
        if self.has(key) {
            self.properties.set(key, property)
        } else {
            Err(ArenaError::KeyOutOfBounds)
        }
    }

    /// Takes an entity's property out, and returns it. Fails with `KeyOutOfBounds` if there is no entity
    /// under the key, and then nothing has changed. Constant time, no allocation.
    pub fn unset(&mut self, key: EntityKey) -> Result<Option<u64>, ArenaError>
        ensures old { IfOk result (λ old.
            option_map (λ entity. entity.property) (slice_get self.old.entities key) ≡ Some old) }
        ensures ok { OnOk result (self.new ≡ with_property self.old key None) }
        ensures out_of_bounds { IsErrOf result ArenaError.KeyOutOfBounds ↔ (length self.old.entities ≤ key) }
        ensures errors { IsOkUnless result ArenaError.KeyOutOfBounds }
        ensures err { OnErr result (self.new ≡ self.old) }
    {
        if self.has(key) {
            Ok(self.properties.unset(key))
        } else {
            Err(ArenaError::KeyOutOfBounds)
        }
    }

    /// Renames the kind of an entity, and so that of each entity of this kind. The name that it has already
    /// changes nothing, and needs no memory.
    ///
    /// Fails with `KeyOutOfBounds` if there is no entity under the key, then with `DuplicateItem` if another
    /// kind has the name, and then with `OutOfSystemMemory` if there is no memory. After an error nothing has
    /// changed. Expected linear in the two names, but for growths.
    pub fn rename_kind(&mut self, key: EntityKey, kind: &str) -> Result<(), ArenaError>
    where
        A: Copy,
        ensures ok { OnOk result (RenamesKind self.old key kind.now self.new) }
        ensures out_of_bounds { IsErrOf result ArenaError.KeyOutOfBounds ↔ (length self.old.entities ≤ key) }
        ensures duplicate { IsErrOf result ArenaError.DuplicateItem ↔ IsOtherKind self.old key kind.now }
        ensures errors { IfErr result (λ error. (error ≡ ArenaError.KeyOutOfBounds)
            ⊎ ((error ≡ ArenaError.DuplicateItem) ⊎ (error ≡ ArenaError.OutOfSystemMemory))) }
        ensures same { (entity : Entity) → slice_get self.old.entities key ≡ Some entity
            → entity.kind ≡ kind.now → IsOk result }
        ensures err { OnErr result (self.new ≡ self.old) }
    {
        match self.entities.get(key) {
            Ok(named) => self.kinds.rename(named.kind, kind),
            Err(error) => Err(error),
        }
    }
}

// The symbol of a name, which goes to the end of the names if it is new.
// proof: a call of its own, with one clause for names that are there and new ones.
fn intern<A: Allocator + Clone>(
    names: &mut StringInterner<A>,
    name: &str,
) -> Result<Sym, ArenaError>
    ensures ok { OnOk result (names.new ≡ with_new names.old name.now) }
    ensures reads { IfOk result (λ symbol. slice_get names.new symbol ≡ Some name.now) }
    ensures no_symbol { IsErrOf result ArenaError.NotEnoughKeys
        ↔ ((symbol_of names.old name.now ≡ None) × (2 ^ 32 ≤ length names.old)) }
    ensures errors { IfErr result (λ error. (error ≡ ArenaError.NotEnoughKeys)
        ⊎ (error ≡ ArenaError.OutOfSystemMemory)) }
    ensures err { OnErr result (names.new ≡ names.old) }
{
    names.get_or_intern(name)
}
