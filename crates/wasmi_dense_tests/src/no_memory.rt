//! Calls that ask for no memory, with every request refused.
use crate::arenas::numbers;
use wasmi_arena::ArenaError;
use wasmi_dense::{Arena, ComponentVec};
use wasmi_vectors::assert_equal;
use wasmi_vectors::observed::{Log, Observed};

#[test]
fn nothing_needs_no_memory(rt: HostRuntime) {
    let log = Log::new();
    log.refuse_from(1);
    let handle = Observed::new(rt.alloc(), &log);
    let none = Arena::<usize, u64, Observed<'_>>::from_iter(handle.clone().expect(&rt, ""), 0..0);
    let mut arena = none.expect(&rt, "");
    let other = Arena::<usize, u64, Observed<'_>>::with_capacity(handle.clone().expect(&rt, ""), 0);
    assert!(rt; arena == other.expect(&rt, ""));
    assert_equal!(rt; (arena.reserve(0), numbers(arena.alloc_many(0))), (Ok(()), Ok((0, 0))));
    arena.clear();
    assert_equal!(rt; arena.into_iter().len(), 0);
    let mut components: ComponentVec<usize, u64, Observed<'_>> = ComponentVec::new(handle);
    assert_equal!(rt; components.unset(7), None);
    components.clear();
    assert_equal!(rt; (components.clone().expect(&rt, "").extent(), log.requests()), (0, 0));
}

#[test]
fn an_arena_with_room_needs_no_memory(rt: HostRuntime) {
    let log = Log::new();
    let handle = Observed::new(rt.alloc(), &log);
    let mut arena: Arena<usize, u64, Observed<'_>> = Arena::new(handle);
    log.refuse_from(1);
    assert_equal!(rt; arena.reserve(10), Err(ArenaError::OutOfSystemMemory));
    assert_equal!(rt; (arena.len(), arena.room()), (0, 0));
    log.refuse_none();
    assert_equal!(rt; (arena.reserve(10), arena.room() >= 10), (Ok(()), true));
    log.refuse_from(1);
    for number in 0..10 {
        assert_equal!(rt; arena.alloc(number), Ok(number as usize));
    }
    assert_equal!(rt; (arena.put(9, 90), arena.swap(0, 9)), (Ok(9), Ok(())));
    assert_equal!(rt; arena.get_disjoint_mut([1, 0]).expect(&rt, ""), (&mut 1, &mut 90));
    assert_equal!(rt; arena.get_mut(9), Ok(&mut 0));
    assert_equal!(rt; (arena.get(0), arena.has(10), arena.next_key()), (Ok(&90), false, Ok(10)));
    assert_equal!(rt; (arena.iter().len(), arena.iter_mut().len()), (10, 10));
    arena.clear();
    let room = arena.room();
    for more in [1, 4, room] {
        assert_equal!(rt; (arena.reserve(more), arena.room()), (Ok(()), room));
    }
    assert_equal!(rt; numbers(arena.alloc_many(4)), Ok((0, 4)));
    let last = room.saturating_sub(1);
    assert_equal!(rt; numbers(arena.alloc_many(room.saturating_sub(5))), Ok((4, last)));
    assert_equal!(rt; (arena.room(), arena.into_iter().len(), log.requests()), (1, last, 2));
    assert_equal!(rt; (log.given(), log.amiss()), (1, 0));
}

// Of few items and of many.
#[test]
fn room_that_was_made_suffices(rt: HostRuntime) {
    for (held, more) in [(1, 3), (1, 4), (4, 1), (7, 4), (40, 40), (40, 131_072)] {
        let log = Log::new();
        let handle = Observed::new(rt.alloc(), &log);
        let mut arena: Arena<usize, u64, Observed<'_>> = Arena::new(handle);
        let handle = Observed::new(rt.alloc(), &log);
        let mut components: ComponentVec<usize, u64, Observed<'_>> = ComponentVec::new(handle);
        for number in 0..held {
            assert_equal!(rt; (arena.alloc(7), components.set(number, 7)), (Ok(number), Ok(None)));
        }
        let last = held.wrapping_add(more).wrapping_sub(1);
        let set = (components.set(last, 7), components.unset(last));
        assert_equal!(rt; (arena.reserve(more), set), (Ok(()), (Ok(None), Some(7))));
        // A block that grows is twice as large at most, or as large as it must be.
        let most = more.wrapping_add(held.wrapping_mul(4)).wrapping_add(8);
        assert_equal!(rt; arena.room() <= most, true, at (held, more));
        let handle = Observed::new(rt.alloc(), &log);
        let mut of_capacity: Arena<usize, u64, Observed<'_>> = Arena::with_capacity(
            handle, more,
        ).expect(&rt, "");
        let requests = log.requests();
        log.refuse_from(1);
        for number in 0..more {
            let end = held.wrapping_add(number);
            assert_equal!(rt; (arena.alloc(8), components.set(end, 8)), (Ok(end), Ok(None)), at more);
            assert_equal!(rt; of_capacity.alloc(8), Ok(number));
        }
        assert_equal!(rt; log.requests(), requests);
    }
}

// Below the extent, and after `clear` below that of before.
#[test]
fn components_below_the_extent_need_no_memory(rt: HostRuntime) {
    let log = Log::new();
    let handle = Observed::new(rt.alloc(), &log);
    let mut components: ComponentVec<usize, u64, Observed<'_>> = ComponentVec::new(handle);
    components.set(69_999, 7).expect(&rt, "");
    log.refuse_from(1);
    for number in 0..69_999usize {
        let set = (components.set(number, 1), components.set(number, 2));
        assert_equal!(rt; set, (Ok(None), Ok(Some(1))));
        assert_equal!(rt; (components.unset(number), components.get(number)), (Some(2), None));
    }
    assert_equal!(rt; components.get_mut(69_999), Some(&mut 7));
    assert_equal!(rt; (components.has(69_999), components.extent()), (true, 70_000));
    assert!(rt; components.iter_mut().next().is_some());
    {
        let mut iter = components.iter();
        assert_equal!(rt; (iter.next(), iter.next()), (Some((69_999, &7)), None));
    }
    components.clear();
    for number in 0..70_000usize {
        assert_equal!(rt; components.set(number, 8), Ok(None));
    }
    assert_equal!(rt; log.requests(), 1);
}
