//! What all sets have in common.
ghost use Rattle.std.specs.Prelude.{◌≡◌, Bool, List, [], length, IfOk, IfErr};
ghost use Rattle.std.specs.Set.{is_member};
ghost use Rattle.wasmi_collections.specs.SetCalls.{PutsElement, TakesElement, RefusesElement};

use std::alloc::Allocator;
use std::hash::{BuildHasher, Hash};
use wasmi_arena::ArenaError;

/// A set of elements.
///
/// [`run_set`](super::run_set) knows no more of a set than what stands here. Each type of sets has calls
/// of its own under the same names, whose contracts say more.
pub trait AnySet<T> {
    /// Which elements are equal.
    ghost eq: { T → T → Bool };

    /// The elements, in an order of the set's own.
    ghost elements: { Self → List T };

    /// Puts an element in, and returns whether it is new.
    ///
    /// Fails only with `OutOfSystemMemory`, and only where the element isn't there. After an error the
    /// set is as before, and the element is dropped.
    fn insert(&mut self, element: T) -> Result<bool, ArenaError>
        ensures ok { IfOk result (λ added. PutsElement eq (elements self.old) element added (elements self.new)) }
        ensures err { IfErr result (λ error. RefusesElement eq (elements self.old) element error
            × (elements self.new ≡ elements self.old)) };

    /// Takes an element out, and returns whether it was there.
    fn remove(&mut self, element: &T) -> bool
        ensures { TakesElement eq (elements self.old) element.now result (elements self.new) };

    /// Whether the element is there.
    fn has(&self, element: &T) -> bool
        ensures { result ≡ is_member eq (elements self.now) element.now };

    /// The number of elements.
    fn len(&self) -> usize
        ensures { result ≡ length (elements self.now) };

    /// Drops all elements.
    fn clear(&mut self)
        ensures { elements self.new ≡ [] };
}

impl<T: Hash + Ord + Drop, A: Allocator + Clone> AnySet<T> for wasmi_ordered::Set<T, A> {
    ghost use Rattle.std.specs.Ordering.{eq_by_cmp};

    ghost eq = { eq_by_cmp T.cmp };

    ghost elements = { λ set. set };

    fn insert(&mut self, element: T) -> Result<bool, ArenaError> {
        self.insert(element)
    }

    fn remove(&mut self, element: &T) -> bool {
        self.remove(element)
    }

    fn has(&self, element: &T) -> bool {
        self.contains(element)
    }

    fn len(&self) -> usize {
        self.len()
    }

    fn clear(&mut self) {
        self.clear();
    }
}

impl<T: Eq + Hash + Drop, S: BuildHasher, A: Allocator + Clone> AnySet<T>
    for wasmi_hashed::Set<T, S, A> {
    ghost eq = { T.eq };

    ghost elements = { λ set. set.elements };

    fn insert(&mut self, element: T) -> Result<bool, ArenaError> {
        self.insert(element)
    }

    fn remove(&mut self, element: &T) -> bool {
        self.remove(element)
    }

    fn has(&self, element: &T) -> bool {
        self.contains(element)
    }

    fn len(&self) -> usize {
        self.len()
    }

    fn clear(&mut self) {
        self.clear();
    }
}
