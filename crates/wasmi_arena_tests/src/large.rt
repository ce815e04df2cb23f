//! Many items, and items of many sizes: past the twelfth growth, refused once each, dropped once each, and
//! calls that would take minutes if they went over the items.
use crate::items::{
    are_all, are_counted, are_keys_but, are_tallied, counted, number_of, numbered, tallied,
};
use std::alloc::Global;
use std::process::Abort;
use wasmi_arena::{ArenaCommand, ArenaError, StableArena, StableVec, run_arena};
use wasmi_vectors::assert_equal;
use wasmi_vectors::observed::{Log, Observed};
use wasmi_vectors::tally::{Item, Tally};

/// The first index of each of thirteen buckets.
pub const STARTS: [u64; 13] = [
    0, 32, 96, 224, 480, 992, 2_016, 4_064, 8_160, 16_352, 32_736, 65_504, 131_040,
];

// The slots of thirteen buckets, and their bytes for an `Item`.
const SLOTS: usize = 262_112;

const BYTES: u64 = 16 * 262_112;

#[test]
fn each_bucket_of_a_vector_is_refused_once(rt: HostRuntime) {
    let (log, tally, refused) = (Log::new(), Tally::new(), Tally::new());
    let mut vec = StableVec::new(Observed::new(rt.alloc(), &log));
    for (open, len) in STARTS.iter().enumerate() {
        for number in vec.len() as u64..*len {
            vec.push(Item::new(&tally, number)).expect(&rt, "");
        }
        log.refuse_once(1);
        let error = vec.push(Item::new(&refused, 0)).err();
        assert_equal!(rt; error, Some(ArenaError::OutOfSystemMemory), at len);
        assert_equal!(rt; (vec.slots() as u64, vec.open_buckets()), (*len, open), at len);
        assert_equal!(rt; are_tallied(&vec, 0..*len), true, at len);
    }
    assert_equal!(rt; vec.push(Item::new(&tally, 131_040)), Ok(131_040));
    assert_equal!(rt; (vec.len(), vec.open_buckets(), vec.slots()), (131_041, 13, SLOTS));
    assert_equal!(rt; (log.requests(), log.given(), log.bytes()), (26, 13, 2 * BYTES));
    assert_equal!(rt; (refused.dropped().0, tally.dropped()), (13, (0, 0)));
    drop(vec);
    assert_equal!(rt; (tally.dropped(), log.amiss()), ((131_041, 131_041), 0));
}

fn many_defaults(rt: &impl Abort, alloc: Global) {
    let log = Log::new();
    let handle = Observed::new(alloc, &log);
    let mut arena: StableArena<usize, u64, Observed<'_>> = StableArena::new(handle);
    let keys = arena.alloc_many(131_041).expect(rt, "");
    assert_equal!(*rt; (keys.start, keys.end, log.requests()), (0, 131_041, 13));
    let copy = arena.clone().expect(rt, "");
    assert_equal!(*rt; (copy == arena, are_all(arena.items(), &0)), (true, true));
    assert_equal!(*rt; (log.requests(), log.given()), (26, 26));
    drop(arena);
    drop(copy);
    assert_equal!(*rt; log.amiss(), 0);
}

fn many_of_an_iterator(rt: &impl Abort, alloc: Global) {
    let log = Log::new();
    let mut vec = StableVec::new(Observed::new(alloc, &log));
    assert_equal!(*rt; vec.extend(0..131_041u64), Ok(()));
    let other = vec.clone_in(alloc).expect(rt, "");
    assert_equal!(*rt; (are_counted(&vec, 131_041), are_counted(&other, 131_041)), (true, true));
    assert_equal!(*rt; (log.requests(), log.given()), (13, 13));
    drop(vec);
    assert_equal!(*rt; log.amiss(), 0);
    drop(other);
}

// All that one call adds.
#[test]
fn many_items_at_once(rt: HostRuntime) {
    many_defaults(&rt, rt.alloc());
    many_of_an_iterator(&rt, rt.alloc());
}

// Cleared; popped; taken out, some by value from both ends.
#[test]
fn many_items_go_as_they_should(rt: HostRuntime) {
    for (way, in_turn) in [(0, 131_041), (1, 1), (2, 131_040)] {
        let (log, tally) = (Log::new(), Tally::new());
        let mut vec = tallied(rt.alloc(), &log, &tally, 0..131_041).expect(&rt, "");
        assert_equal!(rt; (log.given(), log.bytes()), (13, BYTES));
        match way {
            0 => vec.clear(),
            1 => {
                for number in (0..131_041u64).rev() {
                    assert_equal!(rt; number_of(vec.pop().as_ref()), Some(number));
                }
            }
            _ => {
                let none = StableVec::new(Observed::new(rt.alloc(), &log));
                let mut items = std::mem::replace(&mut vec, none).into_iter();
                for number in 0..70_000 {
                    assert_equal!(rt; number_of(items.next().as_ref()), Some(number));
                }
                assert_equal!(rt; number_of(items.next_back().as_ref()), Some(131_040));
                drop(items);
            }
        }
        assert_equal!(rt; (vec.len(), vec.open_buckets(), log.returned()), (0, 0, 13));
        assert_equal!(rt; tally.dropped(), (131_041, in_turn), at way);
        drop(vec);
        assert_equal!(rt; log.amiss(), 0);
    }
}

// Whether a vector has a hundred items, each the same.
fn has_hundred<T: PartialEq>(vec: &StableVec<T, Observed<'_>>, item: &T) -> bool {
    vec.len() == 100 && are_all(vec, item)
}

// Whether a vector and an arena, and their clones, hold a hundred such items in three blocks each.
fn holds<T: Copy + PartialEq + Drop>(rt: &impl Abort, alloc: Global, item: T, size: u64) -> bool {
    let log = Log::new();
    let mut vec = StableVec::new(Observed::new(alloc, &log));
    let heap = Observed::new(alloc, &log);
    let mut arena: StableArena<usize, T, Observed<'_>> = StableArena::new(heap);
    for _ in 0..100 {
        vec.push(item).expect(rt, "");
        arena.alloc(item).expect(rt, "");
    }
    let (second, other) = (vec.clone().expect(rt, ""), arena.clone().expect(rt, ""));
    let are_there = [
        has_hundred(&vec, &item),
        has_hundred(&second, &item),
        has_hundred(arena.items(), &item),
        has_hundred(other.items(), &item),
    ];
    let blocks = if size == 0 { 0 } else { 12 };
    let asked = (log.requests(), log.bytes());
    drop(vec);
    drop(second);
    drop(arena);
    drop(other);
    (are_there, asked) == ([true; 4], (blocks, size.wrapping_mul(896)))
}

// Of no byte, one, 16 that are aligned to 16, and 4,096.
#[test]
fn items_of_many_sizes(rt: HostRuntime) {
    assert_equal!(rt; holds(&rt, rt.alloc(), (), 0), true);
    assert_equal!(rt; holds(&rt, rt.alloc(), 7u8, 1), true);
    assert_equal!(rt; holds(&rt, rt.alloc(), 7u128, 16), true);
    assert_equal!(rt; holds(&rt, rt.alloc(), [7u64; 512], 4_096), true);
}

#[test]
fn a_run_of_many_commands(rt: HostRuntime) {
    let mut commands = Vec::new(rt.alloc());
    for number in 0..150_000usize {
        commands.push(ArenaCommand::Alloc(number)).expect(&rt, "");
    }
    let mut arena: StableArena<usize, usize> = StableArena::new(rt.alloc());
    let replies = run_arena(rt.alloc(), &mut arena, commands).expect(&rt, "");
    assert_equal!(rt; (replies.len(), arena.len()), (150_000, 150_000));
    let are_keys = are_keys_but(replies.as_slice(), &[], ArenaError::NotEnoughKeys);
    assert_equal!(rt; are_keys, true);
    let same = numbered(rt.alloc(), 150_000).expect(&rt, "");
    assert_equal!(rt; &arena, &same);
    drop(arena);
    drop(same);
}

fn calls_of_a_vector(rt: &impl Abort, alloc: Global) {
    let mut vec = counted(alloc, 131_072).expect(rt, "");
    for turn in 0..262_144usize {
        let index = turn % 131_072;
        let sizes = (vec.len(), vec.room(), vec.is_empty(), vec.iter().len());
        assert_equal!(*rt; sizes, (131_072, 131_040, false, 131_072));
        let read = (
            vec.get(index).is_some(),
            vec.first().is_some(),
            vec.last().is_some(),
        );
        assert_equal!(*rt; (read, vec.get_mut(index).is_some()), ((true, true, true), true));
        let written = (vec.put(index, 7).is_ok(), vec.swap(index, 131_071 - index));
        assert_equal!(*rt; (written, vec.iter_mut().next_back().is_some()), ((true, Ok(())), true));
        assert_equal!(*rt; (vec.pop().is_some(), vec.push(7)), (true, Ok(131_071)));
    }
    drop(vec);
}

fn calls_of_an_arena(rt: &impl Abort, alloc: Global) {
    let mut arena = numbered(alloc, 131_072).expect(rt, "");
    for turn in 0..262_144usize {
        let index = turn % 131_072;
        let read = (
            arena.len(),
            arena.is_empty(),
            arena.get(index).is_ok(),
            arena.has(index),
        );
        assert_equal!(*rt; read, (131_072 + turn, false, true, true));
        let ends = (arena.last().is_some(), arena.iter().next_back().is_some());
        assert_equal!(*rt; (ends, arena.put(index, 7).is_ok()), ((true, true), true));
        assert_equal!(*rt; arena.alloc(7), Ok(131_072 + turn));
    }
    drop(arena);
}

#[test]
fn calls_take_constant_time(rt: HostRuntime) {
    calls_of_a_vector(&rt, rt.alloc());
    calls_of_an_arena(&rt, rt.alloc());
}

// The 24th bucket of numbers takes 2 GiB. It is asked for, and refused.
#[test]
fn a_block_of_two_gigabytes_is_asked_for(rt: HostRuntime) {
    let log = Log::new();
    let handle = Observed::new(rt.alloc(), &log);
    let mut arena: StableArena<usize, u64, Observed<'_>> = StableArena::new(handle);
    log.refuse_once(24);
    assert_equal!(rt; arena.alloc_many(268_435_425).err(), Some(ArenaError::OutOfSystemMemory));
    assert_equal!(rt; (log.requests(), arena.len()), (24, 0));
    drop(arena);
}

#[test]
fn a_run_asks_for_its_replies_alone(rt: HostRuntime) {
    let mut arena: StableArena<usize, u8> = StableArena::new(rt.alloc());
    let commands = (0..9usize)
        .map(|key| ArenaCommand::Has(key))
        .collect(rt.alloc());
    let replies = run_arena(rt.alloc(), &mut arena, commands.expect(&rt, "")).expect(&rt, "");
    assert_equal!(rt; (replies.len(), replies.capacity()), (9, 9));
    drop(arena);
}
