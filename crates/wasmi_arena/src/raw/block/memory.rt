//! Where a block comes from, and where it goes back to.
ghost use Rattle.std.specs.Prelude.{◌≡◌, ◌↔◌, IfOk, IfSome, IsSome, IsTrue};
ghost use Rattle.std.specs.Mem.{type_size};
ghost use Rattle.std.specs.Vec.Ownership.{FitsInBlock};
ghost use Rattle.wasmi_arena.specs.inner.Block.{takes_memory};
ghost use Rattle.wasmi_arena.specs.inner.Slots.{IsNewBlock, AreEmptied};

use super::{BlockPtr, DeallocRight, Slots};
use std::alloc::{AllocError, Allocator};
use std::marker::PhantomData;
use std::mem::{align_of, size_of};

// The parts of a block that isn't there, for items without a size. `None` where items have one.
// proof: the contract alone reads the allocator.
pub(crate) fn without_block<T, A: Allocator>(
    _alloc: &A,
    count: usize,
) -> Option<(BlockPtr<T>, Slots<T>, DeallocRight<T, A>)>
    ensures some { IsSome result ↔ (type_size T.row ≡ 0) }
    ensures new { IfSome result (λ block. IsNewBlock block.0 block.1 block.2 count _alloc.now) }
{
    if size_of::<T>() != 0 {
        return None;
    }
    let nothing: [T; 0] = [];
    let ptr = BlockPtr {
        start: &raw const nothing as *mut T,
    };
    Some((
        ptr,
        Slots {
            marker: PhantomData,
        },
        DeallocRight {
            marker: PhantomData,
        },
    ))
}

// A block of that many free slots.
pub(crate) fn allocate<T, A: Allocator>(
    alloc: &A,
    count: usize,
) -> Result<(BlockPtr<T>, Slots<T>, DeallocRight<T, A>), AllocError>
    requires fits { FitsInBlock T.row count }
    requires sized { IsTrue (takes_memory T.row count) }
    ensures { IfOk result (λ block. IsNewBlock block.0 block.1 block.2 count alloc.now) }
{
    match alloc.allocate(count * size_of::<T>(), align_of::<T>()) {
        Ok(block) => {
            let ptr = BlockPtr {
                start: block as *mut T,
            };
            Ok((
                ptr,
                Slots {
                    marker: PhantomData,
                },
                DeallocRight {
                    marker: PhantomData,
                },
            ))
        }
        Err(error) => Err(error),
    }
}

// Gives a block back, whose slots are all empty.
pub(crate) fn deallocate<T, A: Allocator>(
    alloc: &A,
    ptr: BlockPtr<T>,
    count: usize,
    slots: Slots<T>,
    right: DeallocRight<T, A>,
)
    requires { AreEmptied ptr slots right count alloc.now }
{
    let Slots { marker: _ } = slots;
    let DeallocRight { marker: _ } = right;
    let size = count * size_of::<T>();
    if size != 0 {
        unsafe {
            alloc.deallocate(ptr.start as *mut u8, size, align_of::<T>());
        }
    }
}
