//! Items that are written one after another.
use crate::items::{are_ranges, counted, numbered};
use std::alloc::Global;
use std::process::Abort;
use wasmi_arena::StableVec;
use wasmi_vectors::assert_equal;

// Whether a walk gives so many items, which are 1, 3, 5 and so on.
fn are_odd(vec: &StableVec<u32>, len: u32) -> bool {
    let mut items = vec.iter();
    for index in 0..len {
        if items.next() != Some(&index.wrapping_mul(2).wrapping_add(1)) {
            return false;
        }
    }
    items.next().is_none()
}

#[test]
fn each_item_is_written_in_place(rt: HostRuntime) {
    for len in [0, 1, 2, 32, 33, 34, 98, 100, 300] {
        let mut vec = counted(rt.alloc(), len).expect(&rt, "");
        let (open_buckets, slots) = (vec.open_buckets(), vec.slots());
        for item in &mut vec {
            *item = item.wrapping_mul(2);
        }
        for item in vec.iter_mut().rev() {
            *item = item.wrapping_add(1);
        }
        assert_equal!(rt; are_odd(&vec, len), true, at len);
        assert_equal!(rt; (vec.open_buckets(), vec.slots()), (open_buckets, slots), at len);
        drop(vec);
    }
}

fn vector_left_early(rt: &impl Abort, alloc: Global) {
    let mut vec = counted(alloc, 100).expect(rt, "");
    {
        let mut items = vec.iter_mut();
        for _ in 0..3 {
            *items.next().expect(rt, "front") = 7;
        }
        for _ in 0..2 {
            *items.next_back().expect(rt, "back") = 7;
        }
        assert_equal!(*rt; items.len(), 95);
    }
    let seven = (7, 8);
    let is_written = are_ranges(&vec, &[seven, seven, seven, (3, 98), seven, seven]);
    assert_equal!(*rt; is_written, true);
    assert_equal!(*rt; (vec.push(5), vec.open_buckets()), (Ok(100), 3));
    drop(vec);
}

fn arena_left_early(rt: &impl Abort, alloc: Global) {
    let mut arena = numbered(alloc, 300).expect(rt, "");
    {
        let mut entries = arena.iter_mut();
        let (first, item) = entries.next().expect(rt, "first");
        *item = 1000;
        let (last, item) = entries.next_back().expect(rt, "last");
        *item = 2000;
        assert_equal!(*rt; (first, last, entries.len()), (0, 299, 298));
    }
    // No other item was written.
    assert_equal!(*rt; (arena.put(0, 0), arena.put(299, 299)), (Ok(1000), Ok(2000)));
    let same = numbered(alloc, 300).expect(rt, "");
    assert_equal!(*rt; &arena, &same);
    drop(arena);
    drop(same);
}

#[test]
fn an_iterator_that_is_left_early(rt: HostRuntime) {
    vector_left_early(&rt, rt.alloc());
    arena_left_early(&rt, rt.alloc());
}

// Adds to the item of an end, if there is one.
fn add_to(item: Option<&mut u32>, more: u32) {
    if let Some(item) = item {
        *item = item.wrapping_add(more);
    }
}

// Each end takes three at a time, over all buckets.
#[test]
fn both_ends_meet(rt: HostRuntime) {
    let mut vec = counted(rt.alloc(), 225).expect(&rt, "");
    let mut items = vec.iter_mut();
    for _ in 0..38 {
        add_to(items.next(), 1000);
        add_to(items.next(), 1000);
        add_to(items.next(), 1000);
        add_to(items.next_back(), 2000);
        add_to(items.next_back(), 2000);
        add_to(items.next_back(), 2000);
    }
    assert_equal!(rt; (items.next(), items.next_back(), items.len()), (None, None, 0));
    drop(items);
    assert_equal!(rt; are_ranges(&vec, &[(1000, 1114), (2114, 2225)]), true);
    drop(vec);
}

// The length of a slice.
fn len_of(part: Option<&[u32]>) -> Option<usize> {
    match part {
        Some(part) => Some(part.len()),
        None => None,
    }
}

// What is under an index where the first slice was filled with 8 and the last with 9.
fn filled(index: u32) -> u32 {
    match index {
        0..32 => 8,
        32..224 => index,
        _ => 9,
    }
}

#[test]
fn slices_are_written_from_both_ends(rt: HostRuntime) {
    let mut vec = counted(rt.alloc(), 300).expect(&rt, "");
    for (nth, len) in [32, 64, 128, 76].iter().enumerate() {
        assert_equal!(rt; len_of(vec.slices().nth(nth)), Some(*len), at nth);
        assert_equal!(rt; len_of(vec.slices().rev().nth(3 - nth)), Some(*len), at nth);
    }
    let ends = (
        vec.slices().nth(4).is_none(),
        vec.slices().rev().nth(4).is_none(),
    );
    assert_equal!(rt; ends, (true, true));
    let mut slices = vec.slices_mut();
    assert_equal!(rt; slices.len(), 4);
    slices.next_back().expect(&rt, "last").fill(9);
    slices.next().expect(&rt, "first").fill(8);
    assert_equal!(rt; slices.next_back().expect(&rt, "third").len(), 128);
    drop(slices);
    let mut items = vec.iter();
    for index in 0..300 {
        assert_equal!(rt; items.next(), Some(&filled(index)), at index);
    }
    assert_equal!(rt; items.next(), None);
    drop(vec);
}
