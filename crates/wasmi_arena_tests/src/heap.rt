//! Vectors over a heap of fixed size: the buckets fit, and nothing is copied as a vector grows.
use crate::items::{are_counted, are_same};
use linked_list_allocator::LocalHeap;
use std::ops::Range;
use wasmi_arena::{ArenaError, StableArena, StableVec};
use wasmi_vectors::assert_equal;

// Blocks of 256 and 512 bytes fit. A vector that is copied as it grows from 32 to 96 items would hold
// 256 and 768 bytes at once.
const HEAP_SIZE: usize = 1008;

#[test]
fn ninety_six_items_fit(rt: HostRuntime) {
    let heap = LocalHeap::new(rt.alloc(), HEAP_SIZE).expect(&rt, "");
    let before = heap.used();
    for _ in 0..2 {
        let mut vec = StableVec::new(&heap);
        for i in 0..96u64 {
            assert_equal!(rt; vec.push(i).expect(&rt, ""), i as usize);
        }
        assert_equal!(rt; vec.push(96), Err(ArenaError::OutOfSystemMemory));
        assert_equal!(rt; (vec.len(), vec.open_buckets(), vec.slots(), vec.get(95)), (96, 2, 96, Some(&95)));
        let mut copy = vec.clone_in(rt.alloc()).expect(&rt, "");
        assert_equal!(rt; (are_counted(&vec, 96), are_counted(&copy, 96)), (true, true));
        assert_equal!(rt; copy.push(96), Ok(96));
        drop(vec);
        assert_equal!(rt; heap.used(), before);
        drop(copy);
    }
}

#[test]
fn a_refused_call_keeps_no_block(rt: HostRuntime) {
    let heap = LocalHeap::new(rt.alloc(), HEAP_SIZE).expect(&rt, "");
    let mut arena = StableArena::from_iter(&heap, 0..32u64).expect(&rt, "");
    assert_equal!(rt; arena.alloc_many(100).err(), Some(ArenaError::OutOfSystemMemory));
    assert_equal!(rt; (arena.len(), arena.items().open_buckets()), (32, 1));
    // There would be no room for these, if a block of 512 bytes were kept.
    let keys: Range<usize> = arena.alloc_many(64).expect(&rt, "");
    assert_equal!(rt; (keys.start, keys.end), (32, 96));
    let copy = arena.clone_in(rt.alloc()).expect(&rt, "");
    assert_equal!(rt; are_same(copy.items(), arena.items()), true);
    drop(copy);
    drop(arena);
}
