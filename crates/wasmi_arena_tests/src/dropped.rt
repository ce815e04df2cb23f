//! Items dropped and cloned once, handed back or dropped where they are refused, and blocks given back.
use crate::items::{are_keys_but, are_tallied, number_of, tallied, tallied_arena};
use std::alloc::{Allocator, Global};
use std::process::Abort;
use wasmi_arena::{
    ArenaCommand, ArenaError, ArenaKey, ArenaReply, StableArena, StableVec, StableVecIntoIter,
    run_arena,
};
use wasmi_vectors::assert_equal;
use wasmi_vectors::few_keys::FewKeys;
use wasmi_vectors::observed::{Log, Observed};
use wasmi_vectors::tally::{Item, Tally};

// Takes the next item from one of both ends, and says whether there was one.
fn takes(items: &mut StableVecIntoIter<u32, Observed<'_>>, from_front: bool) -> bool {
    if from_front {
        items.next().is_some()
    } else {
        items.next_back().is_some()
    }
}

// Each end gives a bucket back as it goes on to the next.
#[test]
fn a_bucket_that_is_left_is_given_back(rt: HostRuntime) {
    for (from_front, first, second) in [(true, 32, 96), (false, 128, 192)] {
        let log = Log::new();
        let mut vec: StableVec<u32, Observed<'_>> = StableVec::new(Observed::new(rt.alloc(), &log));
        vec.extend(0..224u32).expect(&rt, "");
        let mut items = vec.into_iter();
        for taken in 0..224u32 {
            let is_some = takes(&mut items, from_front);
            let left = (first <= taken) as u64 + (second <= taken) as u64;
            assert_equal!(rt; (is_some, log.returned()), (true, left), at taken);
        }
        drop(items);
    }
}

#[test]
fn a_hundred_items_are_cloned_and_dropped_once(rt: HostRuntime) {
    let (log, tally) = (Log::new(), Tally::new());
    let mut vec = StableVec::new(Observed::new(rt.alloc(), &log));
    for number in 0..100 {
        vec.push(Item::new(&tally, number)).expect(&rt, "");
    }
    assert_equal!(rt; (vec.open_buckets(), log.requests(), tally.cloned()), (3, 3, 0));
    drop(vec.clone().expect(&rt, ""));
    drop(
        vec.clone_in(Observed::new(rt.alloc(), &log))
            .expect(&rt, ""),
    );
    assert_equal!(rt; (tally.cloned(), tally.dropped(), log.requests()), (200, (200, 100), 9));
    tally.refuse_clone_of(99);
    assert_equal!(rt; vec.clone().err(), Some(ArenaError::OutOfSystemMemory));
    assert_equal!(rt; (tally.cloned(), tally.dropped().0), (299, 299));
    assert_equal!(rt; are_tallied(&vec, 0..100), true);
    drop(vec);
    assert_equal!(rt; (tally.dropped(), log.amiss()), ((399, 100), 0));
}

#[test]
fn a_hundred_items_of_an_arena_are_cloned_and_dropped_once(rt: HostRuntime) {
    let (log, tally) = (Log::new(), Tally::new());
    let made = tallied_arena::<usize>(rt.alloc(), &log, &tally, 0..100);
    let mut arena = made.expect(&rt, "");
    let copy = arena.clone().expect(&rt, "");
    assert_equal!(rt; copy.len(), 100);
    drop(copy);
    let copy = arena.clone_in(Observed::new(rt.alloc(), &log));
    let copy = copy.expect(&rt, "");
    assert_equal!(rt; copy.len(), 100);
    drop(copy);
    assert_equal!(rt; (tally.cloned(), tally.dropped(), log.requests()), (200, (200, 100), 9));
    tally.refuse_clone_of(50);
    let refused = arena.clone_in(Observed::new(rt.alloc(), &log)).err();
    assert_equal!(rt; (refused, tally.cloned()), (Some(ArenaError::OutOfSystemMemory), 250));
    assert_equal!(rt; are_tallied(arena.items(), 0..100), true);
    arena.clear();
    assert_equal!(rt; (tally.dropped(), arena.next_key()), ((350, 100), Ok(0)));
    assert_equal!(rt; (log.returned(), arena.len()), (log.given(), 0));
    drop(arena);
    assert_equal!(rt; (tally.dropped(), log.amiss()), ((350, 100), 0));
}

// The 33rd item is the first of the second bucket, which each pop of it closes.
#[test]
fn a_pop_at_the_edge_closes_a_bucket(rt: HostRuntime) {
    let (log, tally) = (Log::new(), Tally::new());
    let mut vec = tallied(rt.alloc(), &log, &tally, 0..34).expect(&rt, "");
    for (len, open, slots, returned) in [(33, 2, 96, 0), (32, 1, 32, 1), (31, 1, 32, 1)] {
        let item = vec.pop().expect(&rt, "no item");
        assert_equal!(rt; (item.number(), tally.dropped().0), (len, 33u64.wrapping_sub(len)));
        drop(item);
        assert_equal!(rt; (vec.len() as u64, log.returned()), (len, returned));
        assert_equal!(rt; (vec.open_buckets(), vec.slots()), (open, slots));
    }
    assert_equal!(rt; vec.push(Item::new(&tally, 31)), Ok(31));
    assert_equal!(rt; (number_of(vec.last()), log.requests()), (Some(31), 2));
    drop(vec);
    assert_equal!(rt; (tally.dropped(), log.amiss()), ((35, 32), 0));
}

// One is dropped as it is refused by a key, one where there is no key, and one where it makes way.
#[test]
fn items_that_do_not_come_in_are_dropped(rt: HostRuntime) {
    let (kept, refused) = (Tally::new(), Tally::new());
    let mut vec = StableVec::new(rt.alloc());
    vec.push(Item::new(&refused, 9)).expect(&rt, "");
    let there = vec.put(0, Item::new(&kept, 0)).expect(&rt, "");
    assert_equal!(rt; there.number(), 9);
    drop(there);
    assert_equal!(rt; refused.dropped().0, 1);
    let error = vec.put(1, Item::new(&refused, 9)).err();
    assert_equal!(rt; (error, refused.dropped().0), (Some(ArenaError::KeyOutOfBounds), 2));
    let log = Log::new();
    let made = tallied_arena::<FewKeys<4>>(rt.alloc(), &log, &kept, 0..4);
    let mut arena = made.expect(&rt, "");
    let error = arena.alloc(Item::new(&refused, 9)).err();
    assert_equal!(rt; (error, refused.dropped().0), (Some(ArenaError::NotEnoughKeys), 3));
    let more = tallied_arena::<FewKeys<4>>(rt.alloc(), &log, &refused, 0..5);
    assert_equal!(rt; more.err(), Some(ArenaError::NotEnoughKeys));
    assert_equal!(rt; (refused.dropped().0, kept.dropped().0), (8, 0));
    drop(vec);
    drop(arena);
    assert_equal!(rt; (kept.dropped(), refused.dropped().0), ((5, 4), 8));
}

// The key of an entry, whose item is dropped.
fn key_of(entry: Option<(usize, Item<'_>)>) -> Option<usize> {
    match entry {
        Some((key, _item)) => Some(key),
        None => None,
    }
}

// Buckets of 32, 64 and 128 slots, the last with 4 items. Each goes back once an end is past it.
#[test]
fn entries_are_taken_out_of_an_arena(rt: HostRuntime) {
    // How many are taken from the front, then from the back, how many blocks are back then, and the keys
    // that both ends have come to.
    for (front, back, returned, keys) in [
        (32u64, 0u64, 0, (Some(31), None)),
        (33, 5, 1, (Some(32), Some(95))),
        (0, 4, 0, (None, Some(96))),
        (0, 69, 2, (None, Some(31))),
    ] {
        let (log, tally) = (Log::new(), Tally::new());
        let made = tallied_arena::<usize>(rt.alloc(), &log, &tally, 0..100);
        let mut entries = made.expect(&rt, "").into_iter();
        let (mut first, mut last) = (None, None);
        for _ in 0..front {
            first = key_of(entries.next());
        }
        for _ in 0..back {
            last = key_of(entries.next_back());
        }
        assert_equal!(rt; ((first, last), log.returned()), (keys, returned), at (front, back));
        let taken = tally.dropped().0;
        assert_equal!(rt; (taken, taken.wrapping_add(entries.len() as u64)), (front.wrapping_add(back), 100));
        drop(entries);
        assert_equal!(rt; (tally.dropped().0, log.requests(), log.amiss()), (100, 3, 0));
    }
}

// What a run replies that puts items of the numbers below `len` at the end of an arena.
fn replies<'a, Key: ArenaKey, A: Allocator + Clone>(
    alloc: Global,
    arena: &mut StableArena<Key, Item<'a>, A>,
    tally: &'a Tally,
    len: u64,
) -> Result<Vec<ArenaReply<Key, Item<'a>>>, ArenaError> {
    let mut commands = Vec::new(alloc);
    for number in 0..len {
        commands.push(ArenaCommand::Alloc(Item::new(tally, number)))?;
    }
    run_arena(alloc, arena, commands)
}

fn refused_for_want_of_memory(rt: &impl Abort, alloc: Global) {
    let (log, tally) = (Log::new(), Tally::new());
    let handle = Observed::new(alloc, &log);
    let mut arena: StableArena<usize, Item<'_>, Observed<'_>> = StableArena::new(handle);
    log.refuse_once(2);
    let told = replies(alloc, &mut arena, &tally, 34).expect(rt, "");
    let is_told = are_keys_but(told.as_slice(), &[32], ArenaError::OutOfSystemMemory);
    assert_equal!(*rt; (told.len(), is_told, tally.dropped()), (34, true, (1, 0)));
    let mut values = arena.values();
    for number in (0..32).chain(33..34) {
        assert_equal!(*rt; number_of(values.next()), Some(number));
    }
    assert_equal!(*rt; number_of(values.next()), None);
    drop(arena);
    assert_equal!(*rt; (tally.dropped(), log.amiss()), ((34, 32), 0));
}

fn refused_for_want_of_keys(rt: &impl Abort, alloc: Global) {
    let tally = Tally::new();
    let mut arena: StableArena<FewKeys<4>, Item<'_>> = StableArena::new(alloc);
    let told = replies(alloc, &mut arena, &tally, 6).expect(rt, "");
    let is_told = are_keys_but(told.as_slice(), &[4, 5], ArenaError::NotEnoughKeys);
    assert_equal!(*rt; (told.len(), is_told), (6, true));
    assert_equal!(*rt; (arena.len(), tally.dropped()), (4, (2, 0)));
    drop(arena);
    assert_equal!(*rt; tally.dropped(), (6, 4));
}

// The second bucket is opened for item 32, which is refused, and then for item 33. A fifth item has no key.
#[test]
fn a_run_drops_the_items_that_it_refuses(rt: HostRuntime) {
    refused_for_want_of_memory(&rt, rt.alloc());
    refused_for_want_of_keys(&rt, rt.alloc());
}

// One that makes way comes back in its reply. One that is put under a key of no item is dropped.
#[test]
fn a_run_hands_back_what_makes_way(rt: HostRuntime) {
    let (tally, log) = (Tally::new(), Log::new());
    let commands = vec![in rt.alloc();
        ArenaCommand::Alloc(Item::new(&tally, 0)),
        ArenaCommand::Put(1u32, Item::new(&tally, 7)),
        ArenaCommand::Put(0, Item::new(&tally, 2)),
    ]
    .expect(&rt, "");
    let mut arena = StableArena::new(rt.alloc());
    let replies = run_arena(rt.alloc(), &mut arena, commands).expect(&rt, "");
    assert_equal!(rt; (replies.len(), arena.len(), tally.dropped()), (3, 1, (1, 0)));
    drop(replies);
    assert_equal!(rt; tally.dropped(), (2, 1));
    // No command runs where there is no room for the replies, and all are dropped.
    let handle = Observed::new(rt.alloc(), &log);
    let commands = vec![in handle.clone().expect(&rt, "");
        ArenaCommand::Alloc(Item::new(&tally, 0)),
        ArenaCommand::Put(0, Item::new(&tally, 1)),
    ]
    .expect(&rt, "");
    log.refuse_from(1);
    assert_equal!(rt; run_arena(handle, &mut arena, commands).err(), Some(ArenaError::OutOfSystemMemory));
    let mut values = arena.values();
    assert_equal!(rt; (number_of(values.next()), number_of(values.next())), (Some(2), None));
    assert_equal!(rt; tally.dropped(), (4, 2));
    drop(arena);
    assert_equal!(rt; (tally.dropped(), log.amiss()), ((5, 3), 0));
}
