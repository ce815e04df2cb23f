//! Many items and components, and ones of many sizes: dropped once each, asked for as a whole, and calls that
//! would take minutes if they went over them.
use std::alloc::Global;
use std::mem::replace;
use wasmi_arena::{ArenaCommand, ArenaError, run_arena};
use wasmi_dense::{Arena, ComponentVec};
use wasmi_vectors::assert_equal;
use wasmi_vectors::few_keys::FewKeys;
use wasmi_vectors::noted::{Noted, Notes};
use wasmi_vectors::observed::{Log, Observed};
use wasmi_vectors::tally::{Item, Tally};

// Cleared, or taken out, some by value from both ends.
#[test]
fn many_items_go_as_they_should(rt: HostRuntime) {
    for (is_cleared, in_turn) in [(true, 131_072), (false, 131_071)] {
        let (log, tally) = (Log::new(), Tally::new());
        let items = (0..131_072u64).map(|number| Item::new(&tally, number));
        let handle = Observed::new(rt.alloc(), &log);
        let made = Arena::<usize, Item<'_>, Observed<'_>>::from_iter(handle, items);
        let mut arena = made.expect(&rt, "");
        if is_cleared {
            arena.clear();
            assert_equal!(rt; (arena.len(), arena.room()), (0, 131_072));
        } else {
            let none = Arena::new(Observed::new(rt.alloc(), &log));
            let mut entries = replace(&mut arena, none).into_iter();
            for number in 0..70_000 {
                let (key, item) = entries.next().expect(&rt, "no entry");
                assert_equal!(rt; (key, item.number()), (number, number as u64));
            }
            let (key, item) = entries.next_back().expect(&rt, "no entry");
            assert_equal!(rt; (key, item.number(), entries.len()), (131_071, 131_071, 61_071));
            assert_equal!(rt; tally.dropped(), (70_000, 70_000));
            drop(item);
        }
        assert_equal!(rt; tally.dropped(), (131_072, in_turn));
        drop(arena);
        assert_equal!(rt; log.amiss(), 0);
    }
}

// Whether an arena holds a hundred such items, and a component vector and its clone too, and whether room for
// them is of so many bytes each.
fn holds<T: Copy + PartialEq + Drop>(
    alloc: Global,
    item: T,
    size: u64,
) -> Result<bool, ArenaError> {
    let log = Log::new();
    let handle = Observed::new(alloc, &log);
    let mut arena: Arena<usize, T, Observed<'_>> = Arena::with_capacity(handle, 100)?;
    let has_room = log.bytes() == size.wrapping_mul(100);
    let mut components: ComponentVec<usize, T> = ComponentVec::new(alloc);
    for number in 0..100 {
        arena.alloc(item)?;
        components.set(number, item)?;
    }
    let copy = components.clone()?;
    let mut held = 0u32;
    for number in 0..100 {
        let there = (arena.get(number), components.get(number), copy.get(number));
        if there == (Ok(&item), Some(&item), Some(&item)) {
            held = held.wrapping_add(1);
        }
    }
    Ok(has_room && held == 100)
}

// Of no byte, one, 16 that are aligned to 16, and 4,096.
#[test]
fn items_of_many_sizes(rt: HostRuntime) {
    assert_equal!(rt; (holds(rt.alloc(), (), 0), holds(rt.alloc(), 7u8, 1)), (Ok(true), Ok(true)));
    assert_equal!(rt; holds(rt.alloc(), 7u128, 16), Ok(true));
    assert_equal!(rt; holds(rt.alloc(), [7u64; 512], 4_096), Ok(true));
}

// A million places of 16 bytes, and the thousand that were there: one request each.
#[test]
fn a_far_number_asks_for_its_places_alone(rt: HostRuntime) {
    let log = Log::new();
    let handle = Observed::new(rt.alloc(), &log);
    let mut components: ComponentVec<usize, u64, Observed<'_>> = ComponentVec::new(handle);
    assert_equal!(rt; (components.set(999, 7), log.requests()), (Ok(None), 1));
    let bytes = log.bytes();
    assert_equal!(rt; (components.set(999_999, 8), log.requests()), (Ok(None), 2));
    assert_equal!(rt; (log.bytes().wrapping_sub(bytes), components.get(999_998)), (16_000_000, None));
    assert_equal!(rt; (components.get(999), components.get(999_999)), (Some(&7), Some(&8)));
    assert_equal!(rt; components.extent(), 1_000_000);
    drop(components);
    assert_equal!(rt; log.amiss(), 0);
    // And forty million of one byte.
    let mut far: ComponentVec<usize, ()> = ComponentVec::new(rt.alloc());
    assert_equal!(rt; (far.set(40_000_000, ()), far.extent()), (Ok(None), 40_000_001));
}

#[test]
fn many_that_come_one_by_one_ask_seldom(rt: HostRuntime) {
    let log = Log::new();
    let mut arena: Arena<usize, u64, Observed<'_>> = Arena::new(Observed::new(rt.alloc(), &log));
    for number in 0..1_000usize {
        assert_equal!(rt; arena.alloc_many(1).expect(&rt, "").start, number);
    }
    assert_equal!(rt; log.requests(), 9);
    for number in 1_000..2_097_153usize {
        assert_equal!(rt; arena.alloc(7), Ok(number));
    }
    assert_equal!(rt; log.requests(), 21);
    let more = arena.alloc_many(3_000_000).expect(&rt, "");
    assert_equal!(rt; (more.start, log.requests()), (2_097_153, 22));
    let log = Log::new();
    let handle = Observed::new(rt.alloc(), &log);
    let collected = Arena::<usize, u64, Observed<'_>>::from_iter(handle, 0..2_097_153u64);
    assert_equal!(rt; collected.expect(&rt, "").room(), 2_097_151);
    assert_equal!(rt; log.requests(), 21);
    let log = Log::new();
    let handle = Observed::new(rt.alloc(), &log);
    let mut components: ComponentVec<usize, u64, Observed<'_>> = ComponentVec::new(handle);
    for number in 0..1_048_577usize {
        assert_equal!(rt; components.set(number, 7), Ok(None));
    }
    assert_equal!(rt; log.requests(), 20);
}

#[test]
fn arenas_compare_as_few_items_as_tell(rt: HostRuntime) {
    let notes = Notes::new();
    let few = (0..96).map(|number| Noted::new(number, &notes));
    let arena: Arena<usize, Noted<'_>> = Arena::from_iter(rt.alloc(), few).expect(&rt, "");
    let more = (0..97).map(|number| Noted::new(number, &notes));
    let longer: Arena<usize, Noted<'_>> = Arena::from_iter(rt.alloc(), more).expect(&rt, "");
    assert_equal!(rt; (arena == longer, notes.compared()), (false, 0));
    let others = (0..96).map(|number| Noted::new(95u32.wrapping_sub(number), &notes));
    let other: Arena<usize, Noted<'_>> = Arena::from_iter(rt.alloc(), others).expect(&rt, "");
    assert_equal!(rt; (arena == other, notes.compared()), (false, 1));
}

// Refused by a key, for want of a key, and as a command; one that makes way comes back.
#[test]
fn items_that_do_not_come_in_are_dropped(rt: HostRuntime) {
    let (kept, refused) = (Tally::new(), Tally::new());
    {
        let mut arena: Arena<FewKeys<4>, Item<'_>> = Arena::new(rt.alloc());
        for number in 0..4 {
            arena.alloc(Item::new(&kept, number)).expect(&rt, "");
        }
        let error = arena.alloc(Item::new(&refused, 0)).err();
        assert_equal!(rt; (error, refused.dropped().0), (Some(ArenaError::NotEnoughKeys), 1));
        let five = (0..5).map(|number| Item::new(&refused, number));
        let more = Arena::<FewKeys<4>, Item<'_>>::from_iter(rt.alloc(), five);
        assert_equal!(rt; (more.err(), refused.dropped().0), (Some(ArenaError::NotEnoughKeys), 6));
        let mut arena: Arena<usize, Item<'_>> = Arena::new(rt.alloc());
        let commands = vec![in rt.alloc();
            ArenaCommand::Alloc(Item::new(&refused, 0)),
            ArenaCommand::Put(3, Item::new(&refused, 0)),
            ArenaCommand::Put(0, Item::new(&kept, 4)),
        ]
        .expect(&rt, "");
        let replies = run_arena(rt.alloc(), &mut arena, commands).expect(&rt, "");
        assert_equal!(rt; (replies.len(), arena.len(), refused.dropped().0), (3, 1, 7));
        drop(replies);
        assert_equal!(rt; (kept.dropped().0, refused.dropped().0), (0, 8));
    }
    assert_equal!(rt; (kept.dropped().0, refused.dropped().0), (5, 8));
}

// One is replaced, one taken out, one refused for each of two reasons, and the rest let go at once.
#[test]
fn each_component_is_dropped_once(rt: HostRuntime) {
    let (log, tally, refused) = (Log::new(), Tally::new(), Tally::new());
    let handle = Observed::new(rt.alloc(), &log);
    let mut components: ComponentVec<usize, Item<'_>, Observed<'_>> = ComponentVec::new(handle);
    for number in 0..131_072u64 {
        let item = Item::new(&tally, number);
        components.set(number as usize, item).expect(&rt, "");
    }
    let old = components.set(0, Item::new(&refused, 0)).expect(&rt, "");
    assert_equal!(rt; (old.as_ref().map(Item::number), tally.dropped().0), (Some(0), 0));
    drop(old);
    assert_equal!(rt; components.unset(1).as_ref().map(Item::number), Some(1));
    assert_equal!(rt; tally.dropped(), (2, 2));
    log.refuse_from(1);
    for (number, error) in [
        (1_000_000, ArenaError::OutOfSystemMemory),
        (usize::MAX, ArenaError::KeyOutOfBounds),
    ] {
        assert_equal!(rt; components.set(number, Item::new(&refused, 1)).err(), Some(error));
    }
    assert_equal!(rt; (refused.dropped().0, components.extent()), (2, 131_072));
    components.clear();
    assert_equal!(rt; (tally.dropped(), refused.dropped().0), ((131_072, 131_072), 3));
    // The block is kept: there is room for as many again, and no more memory.
    assert!(rt; components.set(131_071, Item::new(&refused, 2)).is_ok());
    drop(components);
    assert_equal!(rt; (tally.dropped(), log.amiss()), ((131_072, 131_072), 0));
}

#[test]
fn calls_take_constant_time(rt: HostRuntime) {
    let mut arena: Arena<usize, usize> = Arena::from_iter(rt.alloc(), 0..131_072).expect(&rt, "");
    let mut components: ComponentVec<usize, usize> = ComponentVec::new(rt.alloc());
    components.set(131_071, 7).expect(&rt, "");
    let mut turns = 0u32;
    for turn in 0..262_144usize {
        let index = turn % 131_071;
        let of_arena = (arena.len(), arena.is_empty()) == (131_072 + turn, false)
            && arena.get(index).is_ok()
            && arena.get_mut(index).is_ok()
            && arena.put(index, 7).is_ok()
            && arena.swap(index, 131_071).is_ok()
            && arena.has(index)
            && arena.iter().next_back().is_some()
            && arena.next_key() == Ok(131_072 + turn)
            && arena.alloc(7) == Ok(131_072 + turn);
        let of_components = components.extent() == 131_072
            && components.set(index, index) == Ok(None)
            && components.get(index) == Some(&index)
            && components.get_mut(index).is_some()
            && components.has(131_071)
            && components.unset(index) == Some(index);
        if of_arena && of_components {
            turns = turns.wrapping_add(1);
        }
    }
    assert_equal!(rt; turns, 262_144);
}
