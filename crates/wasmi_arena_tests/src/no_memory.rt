//! Calls that ask for no memory, with every request refused.
use std::alloc::Global;
use std::process::Abort;
use wasmi_arena::{ArenaError, StableArena, StableVec};
use wasmi_vectors::assert_equal;
use wasmi_vectors::observed::{Log, Observed};

fn no_vector(rt: &impl Abort, alloc: Global) {
    let log = Log::new();
    log.refuse_from(1);
    let handle = Observed::new(alloc, &log);
    let none = StableVec::<u64, Observed<'_>>::from_iter(handle, 0..0);
    let mut vec = none.expect(rt, "");
    let copy = vec.clone().expect(rt, "");
    let other = vec.clone_in(alloc).expect(rt, "");
    assert_equal!(*rt; (copy.len(), other.len(), vec.extend(0..0)), (0, 0, Ok(())));
    drop(copy);
    drop(other);
    vec.clear();
    assert_equal!(*rt; vec.pop(), None);
    let items = vec.into_iter();
    assert_equal!(*rt; items.len(), 0);
    drop(items);
    assert_equal!(*rt; log.requests(), 0);
}

fn no_arena(rt: &impl Abort, alloc: Global) {
    let log = Log::new();
    log.refuse_from(1);
    let handle = Observed::new(alloc, &log);
    let none = StableArena::<usize, u64, Observed<'_>>::from_iter(handle, 0..0);
    let mut arena = none.expect(rt, "");
    let copy = arena.clone().expect(rt, "");
    let other = arena.clone_in(alloc).expect(rt, "");
    assert_equal!(*rt; (copy.len(), other.len()), (0, 0));
    drop(copy);
    drop(other);
    assert_equal!(*rt; arena.alloc_many(0).expect(rt, "").end, 0);
    arena.clear();
    let entries = arena.into_iter();
    assert_equal!(*rt; (entries.len(), log.requests()), (0, 0));
    drop(entries);
}

#[test]
fn nothing_needs_no_memory(rt: HostRuntime) {
    no_vector(&rt, rt.alloc());
    no_arena(&rt, rt.alloc());
}

// Of 95 items in 96 slots, of which one is free.
#[test]
fn a_vector_with_room_needs_no_memory(rt: HostRuntime) {
    let log = Log::new();
    let mut vec = StableVec::from_iter(Observed::new(rt.alloc(), &log), 0..95u64).expect(&rt, "");
    log.refuse_from(1);
    assert_equal!(rt; (vec.push(95), vec.pop(), vec.extend([95])), (Ok(95), Some(95), Ok(())));
    assert_equal!(rt; (vec.put(95, 7), vec.swap(0, 95)), (Ok(95), Ok(())));
    assert_equal!(rt; vec.get_disjoint_mut([32, 31]).expect(&rt, ""), (&mut 32, &mut 31));
    let refused = vec.get_disjoint_mut([32, 96]).err();
    assert_equal!(rt; (refused, vec.get_mut(0)), (Some(ArenaError::KeyOutOfBounds), Some(&mut 7)));
    let (items, parts) = (vec.iter_mut().count(), vec.slices().len());
    assert_equal!(rt; (items, parts, vec.slices_mut().len()), (96, 2, 2));
    assert_equal!(rt; (vec == vec, vec.cmp(&vec).is_eq()), (true, true));
    assert_equal!(rt; (vec.first(), vec.get(95), vec.last()), (Some(&7), Some(&0), Some(&0)));
    assert_equal!(rt; log.requests(), 2);
    let mut items = vec.into_iter();
    assert_equal!(rt; (items.next_back(), log.requests()), (Some(0), 2));
    drop(items);
}

#[test]
fn an_arena_with_room_needs_no_memory(rt: HostRuntime) {
    let log = Log::new();
    let handle = Observed::new(rt.alloc(), &log);
    let mut arena: StableArena<usize, u64, Observed<'_>> = StableArena::new(handle);
    arena.alloc(0).expect(&rt, "");
    log.refuse_from(1);
    let keys = arena.alloc_many(30).expect(&rt, "");
    assert_equal!(rt; (keys.start, keys.end, arena.next_key()), (1, 31, Ok(31)));
    assert_equal!(rt; (arena.alloc(31), arena.alloc_many(0).expect(&rt, "").end), (Ok(31), 32));
    assert_equal!(rt; (arena.put(0, 7), arena.swap(0, 31)), (Ok(0), Ok(())));
    assert_equal!(rt; arena.get_disjoint_mut([0, 31]).expect(&rt, ""), (&mut 31, &mut 7));
    let refused = arena.get_disjoint_mut([31, 31]).err();
    assert_equal!(rt; (refused, arena.get_mut(0)), (Some(ArenaError::AliasingPairAccess), Ok(&mut 31)));
    assert_equal!(rt; (arena.get(31), arena.has(32), arena.last()), (Ok(&7), false, Some(&7)));
    let entries = (arena.iter().len(), arena.keys().len(), arena.values().len());
    assert_equal!(rt; (entries, arena.iter_mut().len()), ((32, 32, 32), 32));
    assert_equal!(rt; (log.requests(), arena.room()), (1, 0));
    assert_equal!(rt; arena.alloc_many(1).err(), Some(ArenaError::OutOfSystemMemory));
    arena.clear();
    assert_equal!(rt; (arena.len(), log.requests(), log.returned()), (0, 2, 1));
    drop(arena);
}

fn vector_without_size(rt: &impl Abort, alloc: Global) {
    let log = Log::new();
    log.refuse_from(1);
    let handle = Observed::new(alloc, &log);
    let mut vec = StableVec::new(handle.clone().expect(rt, ""));
    for index in 0..40 {
        assert_equal!(*rt; vec.push(()), Ok(index));
    }
    assert_equal!(*rt; (vec.len(), vec.open_buckets(), vec.slots()), (40, 2, 96));
    assert_equal!(*rt; vec.get_disjoint_mut([39, 0]).expect(rt, ""), (&mut (), &mut ()));
    let made = StableVec::from_iter(handle.clone().expect(rt, ""), [(); 41]);
    let longer = made.expect(rt, "");
    assert_equal!(*rt; (vec == longer, vec < longer), (false, true));
    assert_equal!(*rt; (vec.extend([()]), vec.iter_mut().count()), (Ok(()), 41));
    let copy = vec.clone().expect(rt, "");
    assert_equal!(*rt; &copy, &longer);
    let mut parts = vec.slices();
    let lens = (
        parts.next().expect(rt, "").len(),
        parts.next().expect(rt, "").len(),
    );
    assert_equal!(*rt; (lens, parts.next().is_none()), ((32, 9), true));
    assert_equal!(*rt; log.requests(), 0);
    drop(vec);
    drop(copy);
    drop(longer);
}

fn arena_without_size(rt: &impl Abort, alloc: Global) {
    let log = Log::new();
    log.refuse_from(1);
    let handle = Observed::new(alloc, &log);
    let mut arena: StableArena<usize, (), Observed<'_>> = StableArena::new(handle);
    assert_equal!(*rt; (arena.alloc(()), arena.alloc_many(40).expect(rt, "").end), (Ok(0), 41));
    let copy = arena.clone().expect(rt, "");
    assert_equal!(*rt; (copy.len(), log.requests()), (41, 0));
    drop(arena);
    drop(copy);
}

#[test]
fn items_without_size_need_no_memory(rt: HostRuntime) {
    vector_without_size(&rt, rt.alloc());
    arena_without_size(&rt, rt.alloc());
}
