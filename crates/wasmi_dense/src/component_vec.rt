//! Components of entities, by key.
ghost use Rattle.std.specs.Prelude.{◌≡◌, ◌<◌, ◌≤◌, ◌+◌, ◌^◌, ◌↔◌, ◌⊎◌, [], count_by, length, max, take, IfOk, IfErr, OnOk, OnErr, IsErrOf, IsOk, IsSome, Some, None, option_copied, is_some, IsOkUnless, ℕ, vec_len};
ghost use Rattle.std.specs.Option.{option_copied_mut, option_eq};
ghost use Rattle.std.specs.Cmp.Lexicographic.{pointwise};
ghost use Rattle.std.specs.List.{AllZip};
ghost use Rattle.wasmi_dense.specs.ComponentEntries.{component_entries};
ghost use Rattle.wasmi_dense.specs.Components.{component_at, extent, ChangesAt, IsCloneOf};
ghost use Rattle.wasmi_dense.specs.ComponentLaws.{components_per, components_equiv};

mod iter;
mod iter_mut;

pub use iter::ComponentVecIter;
pub use iter_mut::ComponentVecIterMut;
use std::alloc::{Allocator, Global};
use std::fmt::{self, Debug, Formatter, Write};
use std::marker::{Model, PhantomData};
use std::ops::{Index, IndexMut};
use wasmi_arena::{ArenaError, ArenaKey};

/// Components of entities, each under the key of its entity.
///
/// It is a finite map from the numbers of keys to components, and has an
/// [`extent`](ComponentVec::extent) above all these numbers. It is kept in one vector, with a place
/// for each number below the extent, so it suits keys that run from 0 on.
#[derive(Drop)]
pub struct ComponentVec<Key, T, A: Allocator = Global> {
    components: Vec<Option<T>, A>,
    keys: PhantomData<Key>,
}

impl<Key, T, A: Allocator> Model for ComponentVec<Key, T, A> {
    ghost use Rattle.std.specs.Prelude.{List, Option};

    ghost Value = { List (Option T) };

    ghost view = { λ vec. vec.components.items };
}

impl<Key, T, A: Allocator> ComponentVec<Key, T, A> {
    /// No components, and the extent 0. Asks `alloc` for memory when a component is set. Constant time, no
    /// allocation.
    pub fn new(alloc: A) -> Self
        ensures { result ≡ [] }
    {
        ComponentVec {
            components: Vec::new(alloc),
            keys: PhantomData,
        }
    }

    /// Drops all components, and makes the extent 0. The block is kept. Linear in the extent.
    pub fn clear(&mut self)
    where
        T: Drop,
        ensures { self.new ≡ [] }
    {
        self.components.clear();
    }

    /// One more than the greatest number at which a component was set, or 0 if none was, since
    /// [`new`](ComponentVec::new) or the last [`clear`](ComponentVec::clear). Constant time.
    pub fn extent(&self) -> usize
        ensures { result ≡ extent self.now }
    {
        self.components.len()
    }

    /// A clone of each component under the key of its source, and the same extent, over a clone of the
    /// allocator. Linear in the extent.
    ///
    /// Fails with `OutOfSystemMemory` if there is no memory for them, or the clone of a component or of
    /// the allocator fails.
    pub fn clone(&self) -> Result<Self, ArenaError>
    where
        T: Clone,
        A: Clone,
        ensures extent { IfOk result (λ other. extent other ≡ extent self.now) }
        ensures components { IfOk result (λ other. AllZip (IsCloneOf T.is_clone) self.now other) }
        ensures errors { IsOkUnless result ArenaError.OutOfSystemMemory }
    {
        Ok(ComponentVec {
            components: self.components.clone()?,
            keys: PhantomData,
        })
    }
}

// Adds places without a component up to that of `index`: one request for memory at most, then a fill.
#[cold]
fn raise_extent<T: Drop, A: Allocator>(
    slots: &mut Vec<Option<T>, A>,
    index: usize,
) -> Result<(), ArenaError>
    requires { vec_len slots.old ≤ index }
    ensures extent { OnOk result (extent slots.new.items ≡ index + 1) }
    ensures components { OnOk result ((number : ℕ)
        → component_at slots.new.items number ≡ component_at slots.old.items number) }
    ensures out_of_bounds { IsErrOf result ArenaError.KeyOutOfBounds ↔ (index ≡ usize.MAX) }
    ensures errors { IfErr result (λ error. (error ≡ ArenaError.KeyOutOfBounds)
        ⊎ (error ≡ ArenaError.OutOfSystemMemory)) }
    ensures err { OnErr result (slots.new.items ≡ slots.old.items) }
{
    let extent = index.checked_add(1).ok_or(ArenaError::KeyOutOfBounds)?;
    slots.resize_with(extent, || None)?;
    Ok(())
}

impl<Key: ArenaKey, T, A: Allocator> ComponentVec<Key, T, A> {
    ghost use Rattle.std.specs.Borrow.{sem};
    ghost use Rattle.wasmi_dense.specs.ComponentsLend.{lends_get};

    /// Puts a component under a key, and returns the one that was there.
    ///
    /// Fails with `KeyOutOfBounds` if the key's number is `usize::MAX`, and then with
    /// `OutOfSystemMemory` if the number isn't below the extent and there is no memory to raise it.
    /// After an error nothing has changed, and the component is dropped. Below the extent it takes
    /// constant time and no memory; from there on it makes one request for memory at most, and is linear in
    /// how far the extent rises, or in the new extent where the block grows. So once the greatest key was
    /// set, no key is refused.
    pub fn set(&mut self, index: Key, component: T) -> Result<Option<T>, ArenaError>
    where
        T: Drop,
        ensures old { IfOk result (λ old. old ≡ component_at self.old (Key.keys.number index)) }
        ensures changes { OnOk result
            (ChangesAt self.old (Key.keys.number index) (Some component) self.new) }
        ensures extent { OnOk result
            (extent self.new ≡ max (extent self.old) (Key.keys.number index + 1)) }
        ensures out_of_bounds { IsErrOf result ArenaError.KeyOutOfBounds
            ↔ (Key.keys.number index ≡ usize.MAX) }
        ensures memory { IsErrOf result ArenaError.OutOfSystemMemory
            → extent self.old ≤ Key.keys.number index }
        ensures errors { IfErr result (λ error. (error ≡ ArenaError.KeyOutOfBounds)
            ⊎ (error ≡ ArenaError.OutOfSystemMemory)) }
        ensures below { Key.keys.number index < extent self.old → IsOk result }
        ensures err { OnErr result (self.new ≡ self.old) }
    {
        let index = index.into_usize();
        let extent = self.components.len();
        if index >= extent {
            // The next key in turn is one push. What is rare stands apart, in `raise_extent`.
            if index == extent && extent < self.components.capacity() {
                self.components.push_reserved(Some(component));
                return Ok(None);
            }
            raise_extent(&mut self.components, index)?;
        }
        Ok(self.components[index].replace(component))
    }

    /// Takes out the component under a key, if there is one. The extent stays. Constant time.
    #[inline]
    pub fn unset(&mut self, index: Key) -> Option<T>
        ensures old { result ≡ component_at self.old (Key.keys.number index) }
        ensures changes { ChangesAt self.old (Key.keys.number index) None self.new }
        ensures extent { extent self.new ≡ extent self.old }
    {
        match self.components.get_mut(index.into_usize()) {
            Some(slot) => slot.take(),
            None => None,
        }
    }

    /// The component under a key, if there is one. Constant time.
    #[inline]
    pub fn get(&self, index: Key) -> Option<&T>
        ensures { option_copied result ≡ component_at self.now (Key.keys.number index) }
    {
        match self.components.get(index.into_usize()) {
            Some(slot) => slot.as_ref(),
            None => None,
        }
    }

    /// Whether there is a component under a key. Constant time.
    #[inline]
    pub fn has(&self, index: Key) -> bool
        ensures { result ≡ is_some (component_at self.now (Key.keys.number index)) }
    {
        self.get(index).is_some()
    }

    /// Each component beside its key, ascending. Constant time for each place below the extent.
    pub fn iter(&self) -> ComponentVecIter<'_, Key, T>
        ensures entries { result ≡ component_entries Key.keys self.now }
        ensures len { length result ≡ count_by is_some (take Key.keys.count self.now) }
        ensures within { length result ≤ extent self.now }
        ensures bound { extent self.now < 2 ^ 64 }
    {
        ComponentVecIter {
            slots: self.components.iter(),
            next: 0,
            keys: PhantomData,
        }
    }

    /// The component under a key to write to, if there is one. Constant time.
    #[inline]
    pub fn get_mut(&mut self, index: Key) -> Option<&mut T>
        ensures* writes_back { sem 𝓛 (lends_get Key.row T.row A.row Key.ArenaKey A.Allocator self.entry index result) }
        ensures value { option_copied_mut result ≡ component_at self.old (Key.keys.number index) }
    {
        match self.components.get_mut(index.into_usize()) {
            Some(slot) => slot.as_mut(),
            None => None,
        }
    }
}

impl<Key: ArenaKey, T, A: Allocator> ComponentVec<Key, T, A> {
    ghost use Rattle.std.specs.Borrow.{sem};
    ghost use Rattle.wasmi_dense.specs.ComponentLoan.{left_components, IsNumbered, loan_of};
    ghost use Rattle.wasmi_dense.specs.ComponentsLend.{lends_all};

    /// Each component beside its key, ascending, to write to. The extent stays. Constant time for each
    /// place below the extent.
    pub fn iter_mut(&mut self) -> ComponentVecIterMut<'_, Key, T>
        ensures* writes_back { sem 𝓛 (lends_all Key.row T.row A.row Key.ArenaKey A.Allocator self.entry (loan_of result)) }
        ensures entries { left_components Key.keys result ≡ component_entries Key.keys self.old }
        ensures ready { IsNumbered result }
    {
        ComponentVecIterMut::new(self.components.as_mut_slice())
    }
}

impl<Key: ArenaKey, T, A: Allocator> Index<Key> for ComponentVec<Key, T, A> {
    ghost use Rattle.std.specs.Prelude.{◌≡◌, IsSome, Some};
    ghost use Rattle.wasmi_dense.specs.Components.{component_at};

    type Output = T;

    // The key reads a component.
    ghost can_index = { λ vec key. IsSome (component_at vec (Key.keys.number key)) };

    ghost index_gives = { λ vec key item. component_at vec (Key.keys.number key) ≡ Some item };

    fn index(&self, index: Key) -> &T {
        match self.get(index) {
            Some(component) => component,
            None => unreachable!(),
        }
    }
}

impl<Key: ArenaKey, T, A: Allocator> IndexMut<Key> for ComponentVec<Key, T, A> {
    ghost use Rattle.std.specs.Borrow.{sem};
    ghost use Rattle.wasmi_dense.specs.ComponentsLend.{lends_component};

    fn index_mut(&mut self, index: Key) -> &mut T
        requires { IsSome (component_at self.old (Key.keys.number index)) }
        ensures* writes_back { sem 𝓛 (lends_component Key.row T.row A.row Key.ArenaKey A.Allocator self.entry index result) }
        ensures value { component_at self.old (Key.keys.number index) ≡ Some result.now }
    {
        match self.get_mut(index) {
            Some(component) => component,
            None => unreachable!(),
        }
    }
}

/// Each component beside its key, as [`iter`](ComponentVec::iter).
impl<'a, Key: ArenaKey, T, A: Allocator> IntoIterator for &'a ComponentVec<Key, T, A> {
    type Item = (Key, &'a T);

    type IntoIter = ComponentVecIter<'a, Key, T>;

    ghost into_iter_gives = { λ vec it. it ≡ component_entries Key.keys vec.now };

    fn into_iter(self) -> ComponentVecIter<'a, Key, T> {
        self.iter()
    }
}

/// Each component beside its key to write to, as [`iter_mut`](ComponentVec::iter_mut).
impl<'a, Key: ArenaKey, T, A: Allocator> IntoIterator for &'a mut ComponentVec<Key, T, A> {
    ghost use Rattle.std.specs.Borrow.{sem};
    ghost use Rattle.wasmi_dense.specs.ComponentLoan.{left_components, IsNumbered, loan_of};
    ghost use Rattle.wasmi_dense.specs.ComponentsLend.{lends_all};

    type Item = (Key, &'a mut T);

    type IntoIter = ComponentVecIterMut<'a, Key, T>;

    ghost into_iter_gives = { λ vec it. (left_components Key.keys it ≡ component_entries Key.keys vec.now) × IsNumbered it };

    fn into_iter(self) -> ComponentVecIterMut<'a, Key, T>
        ensures* writes_back { sem 𝓛 (lends_all Key.row T.row A.row Key.ArenaKey A.Allocator self.entry (loan_of result)) }
        ensures into_iter_gives { (left_components Key.keys result ≡ component_entries Key.keys self.old) × IsNumbered result }
    {
        self.iter_mut()
    }
}

impl<Key, T: PartialEq, A: Allocator> PartialEq for ComponentVec<Key, T, A> {
    ghost eq = { pointwise (option_eq T.eq) };

    ghost laws = { components_per T.laws };

    fn eq(&self, other: &Self) -> bool {
        self.components == other.components
    }
}

impl<Key, T: Eq, A: Allocator> Eq for ComponentVec<Key, T, A> {
    ghost laws = { components_equiv T.Eq.laws };
}

/// The components as a map from numbers, ascending.
impl<Key, T: Debug, A: Allocator> Debug for ComponentVec<Key, T, A> {
    fn fmt<W: Write>(&self, f: &mut Formatter<W>) -> fmt::Result {
        f.debug_struct("ComponentVec")
            .field("components", &DebugComponents(self.components.as_slice()))
            .finish()
    }
}

// What `Debug` writes for the components: empty places are not shown.
#[derive(Clone, Copy)]
struct DebugComponents<'a, T>(&'a [Option<T>]);

impl<T: Debug> Debug for DebugComponents<'_, T> {
    fn fmt<W: Write>(&self, f: &mut Formatter<W>) -> fmt::Result {
        let mut map = f.debug_map();
        for (number, component) in self.0.iter().enumerate() {
            if let Some(component) = component {
                map.entry(&number, component);
            }
        }
        map.finish()
    }
}
