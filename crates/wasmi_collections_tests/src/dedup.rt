//! Deduplicating arenas: the worked rows.
use crate::calls::{get, hand_in, hand_in_turn, key_of, made_of};
use std::alloc::Global;
use std::process::Abort;
use wasmi_arena::ArenaKey;
use wasmi_collections::arena::{ArenaError, DedupArena};
use wasmi_collections::run::{DedupCommand, DedupReply, run_dedup};
use wasmi_vectors::assert_equal;
use wasmi_vectors::few_keys::FewKeys;

// Whether an arena has so many items, and none under the number behind them.
fn has_len(arena: &DedupArena<usize, &str>, len: usize) -> bool {
    let is_there = get(arena, len) != Err(ArenaError::KeyOutOfBounds);
    (arena.len(), arena.is_empty(), is_there) == (len, len == 0, false)
}

#[test]
fn equal_values_have_one_key(rt: HostRuntime) {
    let mut arena = DedupArena::new(rt.alloc());
    assert_equal!(rt; has_len(&arena, 0), true);
    let values = ["a", "b", "c", "d"];
    for _ in 0..2 {
        hand_in_turn(&rt, &mut arena, &values);
    }
    assert_equal!(rt; has_len(&arena, 4), true);
    let made = made_of(rt.alloc(), &values).expect(&rt, "");
    assert_equal!(rt; made == arena, true);
    arena.clear();
    assert_equal!(rt; has_len(&arena, 0), true);
    drop(made);
    drop(arena);
}

#[test]
fn equal_values_of_an_iterator_have_one_key(rt: HostRuntime) {
    let mut made = made_of(rt.alloc(), &["a", "b", "a"]).expect(&rt, "");
    assert_equal!(rt; made.len(), 2);
    assert_equal!(rt; hand_in(&mut made, "a"), Ok(0));
    assert_equal!(rt; get(&made, 1), Ok(&"b"));
    assert_equal!(rt; has_len(&made, 2), true);
    drop(made);
}

// An arena that was handed "x" and "y". Its item under the key of "x" was written over by "y".
fn written(rt: &impl Abort, alloc: Global) -> DedupArena<usize, &'static str> {
    let mut arena = made_of(alloc, &["x"]).expect(rt, "");
    *arena.get_mut(0).expect(rt, "") = "y";
    assert_equal!(*rt; hand_in(&mut arena, "y"), Ok(1));
    arena
}

#[test]
fn writes_change_no_key(rt: HostRuntime) {
    let mut arena = written(&rt, rt.alloc());
    hand_in_turn(&rt, &mut arena, &["x", "y"]);
    assert_equal!(rt; (get(&arena, 0), get(&arena, 1)), (Ok(&"y"), Ok(&"y")));
    let index = arena.index();
    assert_equal!(rt; (arena.len(), index.len()), (2, 2));
    assert_equal!(rt; (index.get(&"x"), index.get(&"y")), (Some(&0), Some(&1)));
    drop(arena);
}

#[test]
fn writes_in_a_loop_change_no_key(rt: HostRuntime) {
    let mut arena = made_of(rt.alloc(), &["a", "b", "c"]).expect(&rt, "");
    for (_, item) in &mut arena {
        *item = "z";
    }
    hand_in_turn(&rt, &mut arena, &["a", "b", "c", "z"]);
    assert_equal!(rt; (get(&arena, 0), get(&arena, 2)), (Ok(&"z"), Ok(&"z")));
    drop(arena);
}

// The number of the key of a value, which is handed in if it is new.
fn number_of<const N: u8>(
    arena: &mut DedupArena<FewKeys<N>, &'static str>,
    value: &'static str,
) -> Result<usize, ArenaError> {
    Ok(hand_in(arena, value)?.into_usize())
}

#[test]
fn a_repeat_needs_no_key(rt: HostRuntime) {
    let mut arena: DedupArena<FewKeys<4>, &str> = made_of(rt.alloc(), &["p", "q", "r", "s"]).expect(
        &rt, "",
    );
    assert_equal!(rt; number_of(&mut arena, "q"), Ok(1));
    assert_equal!(rt; number_of(&mut arena, "t"), Err(ArenaError::NotEnoughKeys));
    assert_equal!(rt; (arena.len(), arena.is_empty()), (4, false));
    arena.clear();
    assert_equal!(rt; number_of(&mut arena, "t"), Ok(0));
    assert_equal!(rt; arena.index().len(), 1);
    drop(arena);
}

#[test]
fn more_values_than_keys_make_no_arena(rt: HostRuntime) {
    let values = [0, 1, 0, 2, 3, 1, 4];
    let full: Result<DedupArena<FewKeys<4>, i32>, ArenaError> = made_of(rt.alloc(), &values);
    assert_equal!(rt; full.err(), Some(ArenaError::NotEnoughKeys));
}

#[test]
fn one_key_is_enough_for_equal_values(rt: HostRuntime) {
    let mut arena: DedupArena<FewKeys<1>, &str> = DedupArena::new(rt.alloc());
    for (value, key) in [
        ("a", Ok(0)),
        ("b", Err(ArenaError::NotEnoughKeys)),
        ("a", Ok(0)),
    ] {
        assert_equal!(rt; number_of(&mut arena, value), key, at value);
    }
    for (last, wanted) in [("a", Ok(1)), ("b", Err(ArenaError::NotEnoughKeys))] {
        let made: Result<DedupArena<FewKeys<1>, &str>, ArenaError> = made_of(
            rt.alloc(),
            &["a", "a", last],
        );
        assert_equal!(rt; made.map(|made| made.len()), wanted, at last);
    }
    drop(arena);
}

#[test]
fn a_look_hands_nothing_in(rt: HostRuntime) {
    let arena = written(&rt, rt.alloc());
    for (value, key) in [("x", Some(0)), ("y", Some(1)), ("z", None)] {
        assert_equal!(rt; key_of(&arena, &value), key, at value);
    }
    assert_equal!(rt; (arena.len(), arena.index().len()), (2, 2));
    assert_equal!(rt; arena.next_key(), Ok(2));
    drop(arena);
}

#[test]
fn a_write_under_a_key_hands_nothing_in(rt: HostRuntime) {
    let mut arena = written(&rt, rt.alloc());
    assert_equal!(rt; arena.put(1, "z"), Ok("y"));
    assert_equal!(rt; arena.put(2, "z"), Err(ArenaError::KeyOutOfBounds));
    assert_equal!(rt; (key_of(&arena, &"y"), key_of(&arena, &"z")), (Some(1), None));
    assert_equal!(rt; get(&arena, 1), Ok(&"z"));
    assert_equal!(rt; (arena.has(1), arena.has(2)), (true, false));
    drop(arena);
}

#[test]
fn commands_and_replies(rt: HostRuntime) {
    let mut arena: DedupArena<usize, &str> = DedupArena::new(rt.alloc());
    let commands = vec![in rt.alloc();
        DedupCommand::Alloc("x"),
        DedupCommand::Alloc("y"),
        DedupCommand::Put(0, "y"),
        DedupCommand::Alloc("x"),
        DedupCommand::Alloc("y"),
        DedupCommand::Has(2),
        DedupCommand::Put(2, "z"),
        DedupCommand::Clear,
        DedupCommand::Alloc("y"),
    ]
    .expect(&rt, "");
    let replies = run_dedup(rt.alloc(), &mut arena, commands).expect(&rt, "");
    assert_equal!(rt;
        replies.as_slice(),
        [
            DedupReply::Key(0),
            DedupReply::Key(1),
            DedupReply::Old("x"),
            DedupReply::Key(0),
            DedupReply::Key(1),
            DedupReply::Has(false),
            DedupReply::Refused(ArenaError::KeyOutOfBounds),
            DedupReply::Done,
            DedupReply::Key(0)
        ]
        .as_slice()
    );
    drop(arena);
}

#[test]
fn items_alone_are_compared(rt: HostRuntime) {
    let mut one: DedupArena<usize, i32> = made_of(rt.alloc(), &[1, 2]).expect(&rt, "");
    let other: DedupArena<usize, i32> = made_of(rt.alloc(), &[7, 2]).expect(&rt, "");
    assert_equal!(rt; one != other, true);
    *one.get_mut(0).expect(&rt, "") = 7;
    assert_equal!(rt; &one, &other);
    let text = format!(in rt.alloc(); "{one:?}").expect(&rt, "");
    assert_equal!(rt; text.as_str(), "{0: 7, 1: 2}");
    drop(other);
    drop(one);
}
