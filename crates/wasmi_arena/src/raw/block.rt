//! The block of a bucket and the slots in it.
ghost use Rattle.std.specs.Prelude.{◌≡◌, ℕ, List, ⊤};
ghost use base.Fml.{ftrue};
ghost use denote.RawPtr.{Ptr};
ghost use Rattle.wasmi_arena.specs.inner.Block.{slots_own, slots_lend, right_owns};

mod items;
mod memory;

pub(crate) use memory::{allocate, deallocate, without_block};
use std::alloc::{AllocError, Allocator};
use std::marker::{Model, PhantomData};

/// A pointer to the first slot of a block. It owns nothing.
pub struct BlockPtr<T> {
    pub(crate) start: *mut T,
}

impl<T> Clone for BlockPtr<T> {
    ghost is_clone = { λ ptr copy. copy ≡ ptr };

    ghost is_infallible = { λ _. ⊤ };

    fn clone(&self) -> Result<BlockPtr<T>, AllocError> {
        Ok(*self)
    }
}

impl<T> Copy for BlockPtr<T> {}

/// The slots of one block, as a value without bytes that owns them.
///
/// They are three runs, one after the other: slots whose items were taken out, slots that hold the `items`, and free
/// slots. So a push fills the first free slot, a drop takes the items out from first to last, and the items are one
/// slice.
pub struct Slots<T> {
    marker: PhantomData<*const T>,
    ghost block: { Ptr },
    ghost taken: { ℕ },
    ghost items: { List T },
    ghost free: { ℕ },
}

impl<T> Model for Slots<T> {
    ghost also_owns = { λ s. slots_own T.row s.block s.taken s.items s.free };

    ghost also_shares = { λ s _ κ. slots_lend T.row s.block s.taken s.items s.free κ };
}

/// The right to give a block back to the allocator that it came from, as a value without bytes.
pub struct DeallocRight<T, A: Allocator> {
    marker: PhantomData<*const (T, A)>,
    ghost block: { Ptr },
    ghost slots: { ℕ },
    ghost alloc: { A },
}

impl<T, A: Allocator> Model for DeallocRight<T, A> {
    ghost also_owns = { λ r. right_owns T.row (A.dealloc_token r.alloc) r.block r.slots };

    ghost also_shares = { λ _ _ _. ftrue };
}
