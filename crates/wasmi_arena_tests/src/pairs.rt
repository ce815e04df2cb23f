//! Two items that are written at once, or exchanged.
use crate::items::{counted, numbered};
use wasmi_arena::{ArenaError, StableArena, StableVec};
use wasmi_vectors::assert_equal;

// Whether two references read the two numbers, which are then overwritten.
fn writes(pair: (&mut usize, &mut usize), first: usize, second: usize) -> bool {
    let (one, other) = pair;
    let reads = (*one, *other) == (first, second);
    *one = 111;
    *other = 999;
    reads
}

// What is under an index after that.
fn written(index: usize, first: usize, second: usize) -> usize {
    if index == first {
        111
    } else if index == second {
        999
    } else {
        index
    }
}

// In one bucket, in two that lie side by side or far apart, and at the ends of buckets.
#[test]
fn two_items_are_written_and_no_other(rt: HostRuntime) {
    for (first, second) in [(0, 31), (32, 31), (0, 299), (10, 90), (299, 298)] {
        let mut vec: StableVec<usize> = StableVec::from_iter(rt.alloc(), 0..300).expect(&rt, "");
        let mut arena = numbered(rt.alloc(), 300).expect(&rt, "");
        let of_vec = vec.get_disjoint_mut([first, second]).expect(&rt, "");
        assert!(rt; writes(of_vec, first, second));
        let of_arena = arena.get_disjoint_mut([first, second]).expect(&rt, "");
        assert!(rt; writes(of_arena, first, second));
        assert_equal!(rt; (vec.len(), arena.len()), (300, 300));
        for (index, (of_vec, of_arena)) in vec.iter().zip(arena.values()).enumerate() {
            let wanted = written(index, first, second);
            assert_equal!(rt; (*of_vec, *of_arena), (wanted, wanted), at (index, first, second));
        }
        assert_equal!(rt; (vec.swap(first, second), arena.swap(second, first)), (Ok(()), Ok(())));
        assert_equal!(rt; (vec.get(first), vec.get(second)), (Some(&999), Some(&111)));
        assert_equal!(rt; (arena.get(first), arena.get(second)), (Ok(&999), Ok(&111)));
        drop(vec);
        drop(arena);
    }
}

// What `get_disjoint_mut` and `swap` of the vector and of an arena with these items fail with.
fn errors(
    vec: &mut StableVec<u32>,
    arena: &mut StableArena<usize, usize>,
    indices: [usize; 2],
) -> [Option<ArenaError>; 4] {
    let [first, second] = indices;
    [
        vec.get_disjoint_mut(indices).err(),
        arena.get_disjoint_mut(indices).err(),
        vec.swap(first, second).err(),
        arena.swap(first, second).err(),
    ]
}

#[test]
fn equal_indices_are_refused_before_those_out_of_bounds(rt: HostRuntime) {
    let mut vec = counted(rt.alloc(), 3).expect(&rt, "");
    let mut arena = numbered(rt.alloc(), 3).expect(&rt, "");
    let (same_vec, same_arena) = (vec.clone().expect(&rt, ""), arena.clone().expect(&rt, ""));
    for (indices, error) in [
        ([1, 1], ArenaError::AliasingPairAccess),
        ([3, 3], ArenaError::AliasingPairAccess),
        ([5, 5], ArenaError::AliasingPairAccess),
        ([0, 5], ArenaError::KeyOutOfBounds),
        ([2, 3], ArenaError::KeyOutOfBounds),
        ([3, 2], ArenaError::KeyOutOfBounds),
        ([3, 4], ArenaError::KeyOutOfBounds),
    ] {
        assert_equal!(rt; errors(&mut vec, &mut arena, indices), [Some(error); 4]);
        assert_equal!(rt; (&vec, &arena), (&same_vec, &same_arena));
    }
    drop(vec);
    drop(arena);
    drop(same_vec);
    drop(same_arena);
}

// In each bucket, and at its ends.
#[test]
fn a_refused_pair_changes_no_item(rt: HostRuntime) {
    let mut vec = counted(rt.alloc(), 100).expect(&rt, "");
    let mut arena = numbered(rt.alloc(), 100).expect(&rt, "");
    let (same_vec, same_arena) = (vec.clone().expect(&rt, ""), arena.clone().expect(&rt, ""));
    for index in [0, 2, 5, 31, 32, 33, 95, 96, 99] {
        for (indices, error) in [
            ([index, index], ArenaError::AliasingPairAccess),
            ([index, 100], ArenaError::KeyOutOfBounds),
            ([100, index], ArenaError::KeyOutOfBounds),
        ] {
            assert_equal!(rt; errors(&mut vec, &mut arena, indices), [Some(error); 4]);
            assert_equal!(rt; (&vec, &arena), (&same_vec, &same_arena));
        }
    }
    drop(vec);
    drop(arena);
    drop(same_vec);
    drop(same_arena);
}
