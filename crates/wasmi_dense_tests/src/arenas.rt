//! Arenas in one vector: worked keys and refusals, the Rust crate's own cases, and texts.
use std::alloc::Global;
use std::num::NonZero;
use std::ops::Range;
use wasmi_arena::{
    AnyArena, ArenaCommand, ArenaError, ArenaKey, ArenaReply, StableArena, run_arena,
};
use wasmi_dense::Arena;
use wasmi_vectors::assert_equal;
use wasmi_vectors::few_keys::FewKeys;

const TEXTS: [&str; 4] = ["a", "b", "c", "d"];

// An arena of four texts under the keys 0 to 3.
fn four(alloc: Global) -> Result<Arena<usize, &'static str>, ArenaError> {
    Arena::from_iter(alloc, TEXTS)
}

// The four come under the keys 0 to 3, and the same four again under 4 to 7.
#[test]
fn items_get_their_keys_in_turn(rt: HostRuntime) {
    let mut arena: Arena<usize, &'static str> = Arena::new(rt.alloc());
    assert_equal!(rt; (arena.is_empty(), arena.get(0)), (true, Err(ArenaError::KeyOutOfBounds)));
    for turn in [0, 4] {
        for (index, text) in TEXTS.iter().enumerate() {
            let key = index.wrapping_add(turn);
            assert_equal!(rt; (arena.next_key(), arena.alloc(text)), (Ok(key), Ok(key)));
            assert_equal!(rt; (arena.get(key), arena.has(key)), (Ok(text), true));
            assert!(rt; key < arena.len());
            assert_equal!(rt; arena[key], *text);
        }
        let end = turn.wrapping_add(4);
        assert_equal!(rt; (arena.len(), arena.is_empty(), arena.has(end)), (end, false, false));
        assert_equal!(rt; arena.get(end), Err(ArenaError::KeyOutOfBounds));
    }
}

#[test]
fn a_cleared_arena_begins_at_key_0(rt: HostRuntime) {
    let mut arena = four(rt.alloc()).expect(&rt, "");
    let slots = arena.len() + arena.room();
    arena.clear();
    assert_equal!(rt; (arena.is_empty(), arena.room()), (true, slots));
    assert_equal!(rt; arena.get(0), Err(ArenaError::KeyOutOfBounds));
    assert_equal!(rt; (arena.alloc("e"), arena.get(0)), (Ok(0), Ok(&"e")));
}

#[test]
fn a_walk_goes_from_both_ends(rt: HostRuntime) {
    let arena = four(rt.alloc()).expect(&rt, "");
    let mut walk = arena.iter();
    assert_equal!(rt; (walk.len(), walk.next(), walk.next_back()), (4, Some((0, &"a")), Some((3, &"d"))));
    assert_equal!(rt; (walk.next_back(), walk.next(), walk.len()), (Some((2, &"c")), Some((1, &"b")), 0));
    assert_equal!(rt; (walk.next(), walk.next_back()), (None, None));
}

#[test]
fn a_collected_arena_is_the_allocated_one(rt: HostRuntime) {
    let mut made = Arena::new(rt.alloc());
    for text in TEXTS {
        made.alloc(text).expect(&rt, "");
    }
    assert_equal!(rt; &made, &four(rt.alloc()).expect(&rt, ""));
    for other in [["a", "b", "c", "e"], ["d", "b", "c", "a"]] {
        assert!(rt; made != Arena::from_iter(rt.alloc(), other).expect(&rt, ""));
    }
    assert!(rt; made != Arena::from_iter(rt.alloc(), ["a", "b", "c"]).expect(&rt, ""));
}

// By `get_mut`, by index, by `put`, in pairs and by loops.
#[test]
fn items_are_written_under_keys(rt: HostRuntime) {
    let mut arena: Arena<u32, i32> = Arena::from_iter(rt.alloc(), 0..10).expect(&rt, "");
    *arena.get_mut(3).expect(&rt, "") = 30;
    assert!(rt; arena.len() > 4);
    arena[4] = 40;
    assert_equal!(rt; (arena.put(5, 50), arena.put(10, 0)), (Ok(5), Err(ArenaError::KeyOutOfBounds)));
    assert_equal!(rt; arena.get_mut(10).err(), Some(ArenaError::KeyOutOfBounds));
    for (first, second) in [(1, 8), (9, 2)] {
        let (one, other) = arena.get_disjoint_mut([first, second]).expect(&rt, "");
        assert_equal!(rt; (*one, *other), (first as i32, second as i32));
        *one = one.wrapping_neg();
        *other = other.wrapping_neg();
    }
    let wanted = [0, -1, -2, 30, 40, 50, 6, 7, -8, -9];
    assert_equal!(rt; &arena, &Arena::from_iter(rt.alloc(), wanted).expect(&rt, ""));
    assert_equal!(rt; (arena.swap(1, 8), arena.get(1), arena.get(8)), (Ok(()), Ok(&-8), Ok(&-1)));
    let mut arena: Arena<u32, u32> = Arena::from_iter(rt.alloc(), 0..10).expect(&rt, "");
    for (key, item) in &mut arena {
        *item = item.wrapping_add(key);
    }
    let mut walk = arena.iter_mut();
    assert_equal!(rt; walk.len(), 10);
    let (key, item) = walk.next_back().expect(&rt, "last");
    *item = key.wrapping_add(100);
    let (key, item) = walk.next().expect(&rt, "first");
    *item = key.wrapping_add(200);
    drop(walk);
    let wanted = [200, 2, 4, 6, 8, 10, 12, 14, 16, 109];
    assert_equal!(rt; &arena, &Arena::from_iter(rt.alloc(), wanted).expect(&rt, ""));
}

// Which pairs of an arena of three items are refused, and why.
#[test]
fn pairs_out_of_bounds_come_before_equal_ones(rt: HostRuntime) {
    let mut arena: Arena<usize, usize> = Arena::from_iter(rt.alloc(), 0..3).expect(&rt, "");
    let room = arena.room();
    for (first, second) in [(5, 5), (1, 1), (0, 5), (2, 3), (3, 2), (3, 3)] {
        let error = match first {
            1 => ArenaError::AliasingPairAccess,
            _ => ArenaError::KeyOutOfBounds,
        };
        let refused = arena.get_disjoint_mut([first, second]).err();
        assert_equal!(rt; (refused, arena.swap(first, second)), (Some(error), Err(error)), at (first, second));
        let found = (arena.get(0), arena.get(1), arena.get(2), arena.room());
        assert_equal!(rt; found, (Ok(&0), Ok(&1), Ok(&2), room));
    }
}

/// The numbers of a range of keys.
pub fn numbers<Key: ArenaKey>(
    keys: Result<Range<Key>, ArenaError>,
) -> Result<(usize, usize), ArenaError> {
    let keys = keys?;
    Ok((keys.start.into_usize(), keys.end.into_usize()))
}

#[test]
fn four_keys_are_enough_for_four_items(rt: HostRuntime) {
    let refused = Err(ArenaError::NotEnoughKeys);
    let mut arena: Arena<FewKeys<4>, i32> = Arena::new(rt.alloc());
    assert_equal!(rt; (numbers(arena.alloc_many(4)), arena.len()), (refused, 0));
    assert_equal!(rt; numbers(arena.alloc_many(3)), Ok((0, 3)));
    assert_equal!(rt; (numbers(arena.alloc_many(1)), arena.len()), (refused, 3));
    assert_equal!(rt; numbers(arena.alloc_many(0)), Ok((3, 3)));
    assert_equal!(rt; arena.alloc(9).map(FewKeys::<4>::into_usize), Ok(3));
    assert_equal!(rt; (arena.alloc(9).err(), arena.next_key().err()), (refused.err(), refused.err()));
    assert_equal!(rt; (numbers(arena.alloc_many(0)), arena.len()), (refused, 4));
    let mut one: Arena<FewKeys<1>, i32> = Arena::new(rt.alloc());
    assert_equal!(rt; numbers(one.alloc_many(0)), Ok((0, 0)));
    assert_equal!(rt; (numbers(one.alloc_many(1)), one.len()), (refused, 0));
}

#[test]
fn four_of_four_keys_are_collected(rt: HostRuntime) {
    let four: Arena<FewKeys<4>, usize> = Arena::from_iter(rt.alloc(), 0..4).expect(&rt, "");
    assert_equal!(rt; four.len(), 4);
    for (number, (key, item)) in four.iter().enumerate() {
        assert_equal!(rt; (key.into_usize(), *item), (number, number));
    }
    let five: Result<Arena<FewKeys<4>, usize>, ArenaError> = Arena::from_iter(rt.alloc(), 0..5);
    assert_equal!(rt; five.err(), Some(ArenaError::NotEnoughKeys));
}

// No block is so large; and with one item no number is the new length.
#[test]
fn too_many_items_at_once(rt: HostRuntime) {
    let mut arena: Arena<usize, i32> = Arena::new(rt.alloc());
    assert_equal!(rt; numbers(arena.alloc_many(usize::MAX)), Err(ArenaError::OutOfSystemMemory));
    assert_equal!(rt; (arena.len(), arena.alloc(0)), (0, Ok(0)));
    assert_equal!(rt; numbers(arena.alloc_many(usize::MAX)), Err(ArenaError::NotEnoughKeys));
    assert_equal!(rt; (numbers(arena.alloc_many(9)), arena.len()), (Ok((1, 10)), 10));
}

// The replies of an arena to one list of commands.
fn replies_of<S: AnyArena<usize, i32>>(
    alloc: Global,
    arena: &mut S,
) -> Result<Vec<ArenaReply<usize, i32>>, ArenaError> {
    let commands = vec![in alloc;
        ArenaCommand::Alloc(7),
        ArenaCommand::Alloc(8),
        ArenaCommand::Swap(0, 1),
        ArenaCommand::Put(0, 9),
        ArenaCommand::Has(1),
        ArenaCommand::Has(2),
        ArenaCommand::Put(2, 5),
        ArenaCommand::Swap(1, 1),
        ArenaCommand::Swap(5, 5),
    ]?;
    run_arena(alloc, arena, commands)
}

// The two arenas differ in the last reply alone.
#[test]
fn one_run_for_both_arenas(rt: HostRuntime) {
    let mut dense: Arena<usize, i32> = Arena::new(rt.alloc());
    let mut stable: StableArena<usize, i32> = StableArena::new(rt.alloc());
    let of_dense = replies_of(rt.alloc(), &mut dense);
    let of_stable = replies_of(rt.alloc(), &mut stable);
    for (replies, last) in [
        (of_dense, ArenaError::KeyOutOfBounds),
        (of_stable, ArenaError::AliasingPairAccess),
    ] {
        let wanted = [
            ArenaReply::Key(0),
            ArenaReply::Key(1),
            ArenaReply::Done,
            ArenaReply::Old(8),
            ArenaReply::Has(true),
            ArenaReply::Has(false),
            ArenaReply::Refused(ArenaError::KeyOutOfBounds),
            ArenaReply::Refused(ArenaError::AliasingPairAccess),
            ArenaReply::Refused(last),
        ];
        assert_equal!(rt; replies.expect(&rt, "").as_slice(), wanted.as_slice());
    }
    assert_equal!(rt; (dense.len(), dense.get(0), dense.get(1)), (2, Ok(&9), Ok(&7)));
    assert_equal!(rt; (stable.len(), stable.get(0), stable.get(1)), (2, Ok(&9), Ok(&7)));
}

#[test]
fn an_arena_prints_as_a_map(rt: HostRuntime) {
    let empty: Arena<usize, i32> = Arena::new(rt.alloc());
    assert_equal!(rt; format!(in rt.alloc(); "{empty:?}{empty:#?}").expect(&rt, "").as_str(), "{}{}");
    let many: Arena<usize, i32> = Arena::from_iter(rt.alloc(), 0..5_000).expect(&rt, "");
    let text = format!(in rt.alloc(); "{many:?}").expect(&rt, "");
    assert!(rt; text.as_str().ends_with(", 4999: 4999}"));
    // The numbers of its keys.
    let keyed: Arena<NonZero<u32>, i32> = Arena::from_iter(rt.alloc(), 7..9).expect(&rt, "");
    let two = format!(in rt.alloc(); "{keyed:?} {keyed:#?}").expect(&rt, "");
    assert_equal!(rt; two.as_str(), "{0: 7, 1: 8} {\n    0: 7,\n    1: 8,\n}");
}
