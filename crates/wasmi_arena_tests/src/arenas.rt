//! Arenas: worked keys and refusals, the Rust crate's own cases, and texts.
use crate::items::{are, are_all, numbered, text};
use std::alloc::Global;
use std::fmt::Debug;
use std::num::NonZero;
use std::ops::Range;
use std::process::Abort;
use wasmi_arena::{ArenaCommand, ArenaError, ArenaKey, ArenaReply, StableArena};
use wasmi_vectors::assert_equal;
use wasmi_vectors::few_keys::FewKeys;
use wasmi_vectors::observed::{Log, Observed};

// An arena gives the first keys of a type to its first items.
fn fills<Key: ArenaKey + PartialEq + Debug>(
    rt: &impl Abort,
    alloc: Global,
    first: Key,
    second: Key,
) {
    let mut arena: StableArena<Key, u8> = StableArena::new(alloc);
    assert_equal!(*rt; (arena.is_empty(), arena.next_key(), arena.room()), (true, Ok(first), 0));
    assert_equal!(*rt; (arena.alloc(7), arena.alloc(8)), (Ok(first), Ok(second)));
    assert_equal!(*rt; (arena.get(first), arena.get(second)), (Ok(&7), Ok(&8)));
    assert_equal!(*rt; (arena.len(), arena.room()), (2, 30));
    let mut entries = arena.iter();
    assert_equal!(*rt; (entries.len(), entries.next(), entries.len()), (2, Some((first, &7)), 1));
    drop(arena);
}

#[test]
fn arenas_under_each_type_of_keys(rt: HostRuntime) {
    fills(&rt, rt.alloc(), 0usize, 1);
    fills(&rt, rt.alloc(), 0u32, 1);
    let (one, two) = (NonZero::<u32>::new(1), NonZero::<u32>::new(2));
    fills(
        &rt,
        rt.alloc(),
        one.expect(&rt, "one"),
        two.expect(&rt, "two"),
    );
}

#[test]
fn alloc_and_get(rt: HostRuntime) {
    let mut arena: StableArena<usize, usize> = StableArena::new(rt.alloc());
    assert_equal!(rt; arena.get(0), Err(ArenaError::KeyOutOfBounds));
    for number in 0..100 {
        assert_equal!(rt; arena.alloc(number), Ok(number));
    }
    for key in 0..100 {
        assert_equal!(rt; (arena.get(key), arena.has(key)), (Ok(&key), true));
    }
    assert_equal!(rt; arena.get(100), Err(ArenaError::KeyOutOfBounds));
    assert_equal!(rt; (arena.len(), arena.has(100), arena.last()), (100, false, Some(&99)));
    drop(arena);
}

// An arena of 0 to 9.
fn of_ten(alloc: Global) -> Result<StableArena<usize, i32>, ArenaError> {
    StableArena::from_iter(alloc, 0..10)
}

fn ten_defaults(rt: &impl Abort, alloc: Global) {
    let mut ten: StableArena<usize, i32> = StableArena::new(alloc);
    let keys = ten.alloc_many(10).expect(rt, "");
    assert_equal!(*rt; (keys.start, keys.end, ten.len()), (0, 10, 10));
    assert_equal!(*rt; are_all(ten.items(), &0), true);
    drop(ten);
}

fn a_pair(rt: &impl Abort, alloc: Global) {
    let mut pair = of_ten(alloc).expect(rt, "");
    let (one, eight) = pair.get_disjoint_mut([1, 8]).expect(rt, "");
    *one = -1;
    *eight = -8;
    assert_equal!(*rt; are(pair.items(), &[0, -1, 2, 3, 4, 5, 6, 7, -8, 9]), true);
    drop(pair);
}

fn five_backward(rt: &impl Abort, alloc: Global) {
    let five = numbered(alloc, 5).expect(rt, "");
    let mut entries = five.iter();
    assert_equal!(*rt; entries.len(), 5);
    for key in [4, 3, 2, 1, 0] {
        assert_equal!(*rt; entries.next_back(), Some((key, &key)));
    }
    assert_equal!(*rt; (entries.next_back(), entries.next()), (None, None));
    drop(five);
}

#[test]
fn ten_defaults_then_a_pair_then_five_backward(rt: HostRuntime) {
    ten_defaults(&rt, rt.alloc());
    a_pair(&rt, rt.alloc());
    five_backward(&rt, rt.alloc());
}

fn written_by_calls(rt: &impl Abort, alloc: Global) {
    let mut arena = of_ten(alloc).expect(rt, "");
    *arena.get_mut(3).expect(rt, "") = 30;
    assert_equal!(*rt; arena.get(3), Ok(&30));
    assert!(*rt; arena.len() > 9);
    arena[4] = 40;
    assert_equal!(*rt; (arena[3], arena[4], arena[9]), (30, 40, 9));
    assert_equal!(*rt; (arena.put(9, 90), arena.swap(0, 9)), (Ok(9), Ok(())));
    let error = ArenaError::KeyOutOfBounds;
    let refused = (arena.put(10, 7), arena.get_mut(10).err(), arena.swap(0, 10));
    assert_equal!(*rt; refused, (Err(error), Some(error), Err(error)));
    assert_equal!(*rt; are(arena.items(), &[90, 1, 2, 30, 40, 5, 6, 7, 8, 0]), true);
    drop(arena);
}

fn written_by_a_loop(rt: &impl Abort, alloc: Global) {
    let mut arena = numbered(alloc, 10).expect(rt, "");
    for (key, item) in &mut arena {
        *item = item.wrapping_add(key);
    }
    assert_equal!(*rt; are(arena.items(), &[0, 2, 4, 6, 8, 10, 12, 14, 16, 18]), true);
    drop(arena);
}

// By `get_mut`, by index, by `put` and by a loop.
#[test]
fn items_are_written_under_their_keys(rt: HostRuntime) {
    written_by_calls(&rt, rt.alloc());
    written_by_a_loop(&rt, rt.alloc());
}

#[test]
fn equal_arenas(rt: HostRuntime) {
    let arena = numbered(rt.alloc(), 10).expect(&rt, "");
    let same = numbered(rt.alloc(), 10).expect(&rt, "");
    let shorter = numbered(rt.alloc(), 9).expect(&rt, "");
    assert_equal!(rt; &arena, &same);
    assert!(rt; arena != shorter);
    drop(arena);
    drop(same);
    drop(shorter);
}

#[test]
fn keys_and_values_of_an_arena(rt: HostRuntime) {
    let made = StableArena::<NonZero<u32>, u32>::from_iter(rt.alloc(), 0..40);
    let mut arena = made.expect(&rt, "");
    let mut keys = arena.keys();
    let ends = (keys.next(), keys.next_back(), keys.len());
    assert_equal!(rt; ends, (NonZero::<u32>::new(1), NonZero::<u32>::new(40), 38));
    // The arena is written to while its keys are walked.
    for key in keys {
        assert_equal!(rt; arena.put(key, 7), Ok(key.get() - 1));
    }
    let mut values = arena.values();
    assert_equal!(rt; (values.next(), values.next_back(), values.len()), (Some(&0), Some(&39), 38));
    for item in values {
        assert_equal!(rt; *item, 7);
    }
    drop(arena);
}

// The numbers of a range of keys.
fn numbers<Key: ArenaKey>(
    keys: Result<Range<Key>, ArenaError>,
) -> Result<(usize, usize), ArenaError> {
    let keys = keys?;
    Ok((keys.start.into_usize(), keys.end.into_usize()))
}

fn while_there_are_four(rt: &impl Abort, alloc: Global) {
    let refused = Err(ArenaError::NotEnoughKeys);
    let mut four: StableArena<FewKeys<4>, i32> = StableArena::new(alloc);
    assert_equal!(*rt; numbers(four.alloc_many(4)), refused);
    assert_equal!(*rt; (four.len(), four.items().open_buckets()), (0, 0));
    assert_equal!(*rt; numbers(four.alloc_many(3)), Ok((0, 3)));
    assert_equal!(*rt; (numbers(four.alloc_many(1)), four.len()), (refused, 3));
    assert_equal!(*rt; numbers(four.alloc_many(0)), Ok((3, 3)));
    let last = four.alloc(9).expect(rt, "");
    assert_equal!(*rt; (last.into_usize(), numbers(four.alloc_many(0))), (3, refused));
    assert_equal!(*rt; (four.alloc(9).err(), four.next_key().err()), (refused.err(), refused.err()));
    assert_equal!(*rt; are(four.items(), &[0, 0, 0, 9]), true);
    drop(four);
}

fn while_there_is_one(rt: &impl Abort, alloc: Global) {
    let refused = Err(ArenaError::NotEnoughKeys);
    let mut one: StableArena<FewKeys<1>, i32> = StableArena::new(alloc);
    assert_equal!(*rt; numbers(one.alloc_many(0)), Ok((0, 0)));
    assert_equal!(*rt; (numbers(one.alloc_many(1)), one.len()), (refused, 0));
    drop(one);
}

#[test]
fn items_come_while_there_are_keys(rt: HostRuntime) {
    while_there_are_four(&rt, rt.alloc());
    while_there_is_one(&rt, rt.alloc());
}

#[test]
fn four_of_four_keys_are_collected(rt: HostRuntime) {
    let four: StableArena<FewKeys<4>, usize> = StableArena::from_iter(rt.alloc(), 0..4).expect(
        &rt, "",
    );
    assert_equal!(rt; four.len(), 4);
    for (number, (key, item)) in four.iter().enumerate() {
        assert_equal!(rt; (key.into_usize(), *item), (number, number));
    }
    drop(four);
    let five = StableArena::<FewKeys<4>, usize>::from_iter(rt.alloc(), 0..5);
    assert_equal!(rt; five.err(), Some(ArenaError::NotEnoughKeys));
}

// More than there are keys for the end of, or slots, of an empty arena and of one item.
#[test]
fn too_many_items_ask_for_nothing(rt: HostRuntime) {
    for len in [0, 1] {
        for amount in [usize::MAX, 4_294_967_265] {
            let log = Log::new();
            let made = StableArena::from_iter(Observed::new(rt.alloc(), &log), 0..len);
            let mut arena: StableArena<usize, i32, Observed<'_>> = made.expect(&rt, "");
            let made = log.requests();
            assert_equal!(rt; numbers(arena.alloc_many(amount)), Err(ArenaError::NotEnoughKeys));
            let mut values = arena.values();
            for item in 0..len {
                assert_equal!(rt; values.next(), Some(&item));
            }
            assert_equal!(rt; values.next(), None);
            assert_equal!(rt; (log.requests(), arena.items().open_buckets() as u64), (made, made));
            drop(arena);
        }
    }
}

#[test]
fn debug_texts_of_arenas(rt: HostRuntime) {
    let mut arena: StableArena<u32, bool> = StableArena::new(rt.alloc());
    let (alloc, lines) = (
        rt.alloc(),
        format!(in rt.alloc(); "{arena:#?}").expect(&rt, ""),
    );
    assert_equal!(rt; (text(alloc, &arena).expect(&rt, "").as_str(), lines.as_str()), ("{}", "{}"));
    arena.alloc(true).expect(&rt, "");
    arena.alloc(false).expect(&rt, "");
    let two = format!(in rt.alloc(); "{arena:?} {arena:#?}").expect(&rt, "");
    assert_equal!(rt; two.as_str(), "{0: true, 1: false} {\n    0: true,\n    1: false,\n}");
    arena.alloc_many(4_998).expect(&rt, "");
    let many = text(alloc, &arena).expect(&rt, "");
    assert!(rt; many.as_str().ends_with(", 4999: false}"));
    // The numbers of its keys, and not what these hold.
    let made = StableArena::<NonZero<u32>, u8>::from_iter(rt.alloc(), 7..9);
    let keyed = made.expect(&rt, "");
    assert_equal!(rt; text(alloc, &keyed).expect(&rt, "").as_str(), "{0: 7, 1: 8}");
    drop(keyed);
    drop(arena);
}

fn texts_of_commands(rt: &impl Abort, alloc: Global) {
    let commands = [
        ArenaCommand::<u32, u8>::Alloc(7),
        ArenaCommand::Has(1),
        ArenaCommand::Put(1, 9),
        ArenaCommand::Swap(0, 1),
    ];
    let text = format!(in alloc; "{:?}", commands.as_slice()).expect(rt, "");
    assert_equal!(*rt; text.as_str(), "[Alloc(7), Has(1), Put(1, 9), Swap(0, 1)]");
}

fn texts_of_replies(rt: &impl Abort, alloc: Global) {
    let replies = [
        ArenaReply::<u32, u8>::Key(0),
        ArenaReply::Has(true),
        ArenaReply::Old(7),
        ArenaReply::Done,
        ArenaReply::Refused(ArenaError::NotEnoughKeys),
    ];
    let text = format!(in alloc; "{:?}", replies.as_slice()).expect(rt, "");
    assert_equal!(*rt; text.as_str(), "[Key(0), Has(true), Old(7), Done, Refused(NotEnoughKeys)]");
}

#[test]
fn debug_texts_of_commands_and_replies(rt: HostRuntime) {
    texts_of_commands(&rt, rt.alloc());
    texts_of_replies(&rt, rt.alloc());
}
