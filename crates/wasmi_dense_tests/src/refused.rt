//! Each request for memory of a call refused in turn, and then the call made again.
use std::cell::Cell;
use std::mem::size_of;
use wasmi_arena::ArenaError;
use wasmi_dense::{Arena, ComponentVec};
use wasmi_vectors::assert_equal;
use wasmi_vectors::observed::{Log, Observed};
use wasmi_vectors::tally::{Item, Tally};

// The block of an arena has 4 slots, then 8, 16 and so on. Past the last of them there are 131,073 items.
#[test]
fn each_growth_is_refused_once(rt: HostRuntime) {
    let (log, tally, refused) = (Log::new(), Tally::new(), Tally::new());
    let handle = Observed::new(rt.alloc(), &log);
    let mut arena: Arena<usize, Item<'_>, Observed<'_>> = Arena::new(handle);
    for number in 0..131_073u64 {
        if arena.room() == 0 {
            log.refuse_once(1);
            let error = arena.alloc(Item::new(&refused, 0)).err();
            assert_equal!(rt; error, Some(ArenaError::OutOfSystemMemory), at number);
            assert_equal!(rt; (arena.len() as u64, arena.room()), (number, 0));
            assert!(rt; arena.iter().all(|(key, item)| item.number() == key as u64));
        }
        assert_equal!(rt; arena.alloc(Item::new(&tally, number)), Ok(number as usize));
    }
    assert_equal!(rt; (log.requests(), log.given(), log.returned()), (34, 17, 16));
    assert_equal!(rt; (arena.room(), refused.dropped().0, tally.dropped()), (131_071, 17, (0, 0)));
    drop(arena);
    assert_equal!(rt; (tally.dropped(), log.amiss()), ((131_073, 131_073), 0));
}

// The item that is refused is the last that is drawn. All items are dropped.
#[test]
fn a_refused_collection_draws_no_further(rt: HostRuntime) {
    for nth in 1..18 {
        let len = if nth == 1 { 0 } else { 1u64.wrapping_shl(nth) };
        let (log, tally, drawn) = (Log::new(), Tally::new(), Cell::new(0u64));
        log.refuse_once(u64::from(nth));
        let items = (0..140_000u64).map(|number| {
            drawn.set(drawn.get().wrapping_add(1));
            Item::new(&tally, number)
        });
        let handle = Observed::new(rt.alloc(), &log);
        let refused = Arena::<usize, Item<'_>, Observed<'_>>::from_iter(handle, items);
        assert_equal!(rt; refused.err(), Some(ArenaError::OutOfSystemMemory), at len);
        let dropped = len.wrapping_add(1);
        assert_equal!(rt; (drawn.get(), tally.dropped().0), (dropped, dropped), at len);
        assert_equal!(rt; (log.requests(), log.amiss()), (u64::from(nth), 0), at len);
    }
}

#[derive(Clone, Copy, Debug)]
enum Call {
    Alloc,
    AllocMany,
    Reserve,
    WithCapacity,
    Collect,
}

// The length and the room that a call makes of 32 items, if the items are 0, 1 and so on, and from the 33rd on 0.
fn call_arena<'a>(
    call: Call,
    arena: &mut Arena<usize, usize, Observed<'a>>,
    alloc: Observed<'a>,
) -> Result<Option<(usize, usize)>, ArenaError> {
    match call {
        Call::Alloc => drop(arena.alloc(0)?),
        Call::AllocMany => drop(arena.alloc_many(100_000)?),
        Call::Reserve => arena.reserve(100_000)?,
        Call::WithCapacity => *arena = Arena::with_capacity(alloc, 100_000)?,
        Call::Collect => *arena = Arena::from_iter(alloc, 0..9)?,
    }
    let is_item = |(key, item): (usize, &usize)| *item == if key < 32 { key } else { 0 };
    let has_items = arena.iter().all(is_item);
    Ok(has_items.then_some((arena.len(), arena.room())))
}

// A call, how many requests it makes, and the least length and room that there is to be.
#[test]
fn an_arena_goes_on_after_each_refusal(rt: HostRuntime) {
    for (call, requests, (len, room)) in [
        (Call::Alloc, 1, (33, 0)),
        (Call::AllocMany, 1, (100_032, 0)),
        (Call::Reserve, 1, (32, 100_000)),
        (Call::WithCapacity, 1, (0, 100_000)),
        (Call::Collect, 3, (9, 0)),
    ] {
        for nth in 1..requests + 2 {
            let log = Log::new();
            let handle = Observed::new(rt.alloc(), &log);
            let first = Arena::<usize, usize, Observed<'_>>::from_iter(handle, 0..32);
            let mut arena = first.expect(&rt, "");
            assert_equal!(rt; arena.room(), 0);
            log.refuse_once(nth);
            let mut made = call_arena(call, &mut arena, Observed::new(rt.alloc(), &log));
            if nth <= requests {
                assert_equal!(rt; made, Err(ArenaError::OutOfSystemMemory), at (call, nth));
                assert_equal!(rt; (arena.len(), arena.room()), (32, 0), at (call, nth));
                assert!(rt; arena.iter().all(|(key, item)| key == *item));
                made = call_arena(call, &mut arena, Observed::new(rt.alloc(), &log));
            }
            let (found, then) = made.expect(&rt, "").expect(&rt, "other items");
            assert_equal!(rt; (found, then >= room), (len, true), at (call, nth));
            drop(arena);
            assert_equal!(rt; log.amiss(), 0, at (call, nth));
        }
    }
}

// Whether the even numbers below the extent have items of theirs, and no other number has one.
fn has_the_even_ones(
    components: &ComponentVec<usize, Item<'_>, Observed<'_>>,
    extent: usize,
) -> bool {
    let mut count: usize = 0;
    for (key, item) in components {
        if key % 2 != 0 || item.number() != key as u64 {
            return false;
        }
        count = count.wrapping_add(1);
    }
    components.extent() == extent && count == extent.div_ceil(2)
}

// Each growth of the places is refused once, up to 131,073 of them.
#[test]
fn each_growth_of_components_is_refused_once(rt: HostRuntime) {
    let (log, tally, refused) = (Log::new(), Tally::new(), Tally::new());
    let handle = Observed::new(rt.alloc(), &log);
    let mut components: ComponentVec<usize, Item<'_>, Observed<'_>> = ComponentVec::new(handle);
    for half in 0..65_537usize {
        let (number, extent) = (half.wrapping_mul(2), components.extent());
        log.refuse_once(1);
        if let Err(error) = components.set(number, Item::new(&refused, 0)) {
            assert_equal!(rt; error, ArenaError::OutOfSystemMemory);
            assert!(rt; has_the_even_ones(&components, extent), "at {number}");
        }
        log.refuse_none();
        let item = Item::new(&tally, number as u64);
        drop(components.set(number, item).expect(&rt, ""));
    }
    assert!(rt; has_the_even_ones(&components, 131_073));
    // There were several refusals, and few.
    assert!(rt; log.given() > 9 && log.given() < 20);
    assert_equal!(rt; log.requests(), log.given().wrapping_mul(2));
    assert_equal!(rt; (refused.dropped().0, tally.dropped().0), (65_537, 0));
    drop(components);
    assert_equal!(rt; (tally.dropped().0, log.amiss()), (65_537, 0));
}

#[test]
fn a_refused_clone_changes_nothing(rt: HostRuntime) {
    let (log, tally) = (Log::new(), Tally::new());
    let handle = Observed::new(rt.alloc(), &log);
    let mut components: ComponentVec<usize, Item<'_>, Observed<'_>> = ComponentVec::new(handle);
    for number in [0, 2, 4u64] {
        let item = Item::new(&tally, number);
        components.set(number as usize, item).expect(&rt, "");
    }
    let error = ArenaError::OutOfSystemMemory;
    log.refuse_from(1);
    assert_equal!(rt; components.clone().err(), Some(error));
    assert!(rt; has_the_even_ones(&components, 5));
    log.refuse_none();
    tally.refuse_clone_of(4);
    assert_equal!(rt; components.clone().err(), Some(error));
    assert!(rt; has_the_even_ones(&components, 5));
    assert_equal!(rt; (tally.cloned(), tally.dropped().0), (2, 2));
    tally.refuse_clone_of(9);
    let (requests, bytes) = (log.requests().wrapping_add(1), log.bytes());
    let other = components.clone().expect(&rt, "");
    assert!(rt; has_the_even_ones(&other, 5) && has_the_even_ones(&components, 5));
    let places = (size_of::<Option<Item<'_>>>() as u64).wrapping_mul(5);
    assert_equal!(rt; (log.requests(), log.bytes()), (requests, bytes.wrapping_add(places)));
    drop(other);
    assert_equal!(rt; (tally.cloned(), tally.dropped().0), (5, 5));
    drop(components);
    assert_equal!(rt; (tally.dropped().0, log.amiss()), (8, 0));
}
