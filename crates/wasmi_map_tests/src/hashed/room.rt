//! What `drain` takes out, and the room that `reserve` makes.
use std::alloc::Global;
use std::process::Abort;
use wasmi_hashed::hash::FixedState;
use wasmi_hashed::{Map, Set};
use wasmi_vectors::assert_equal;
use wasmi_vectors::logged::Logged;
use wasmi_vectors::noted::{Noted, Notes};
use wasmi_vectors::observed::{Log, Observed};

type Hash<'l> = Map<u32, u32, FixedState, Observed<'l>>;

type HashOfSet<'l> = Set<u32, FixedState, Observed<'l>>;

fn drain_map(rt: &impl Abort, alloc: Global) {
    let mut map: Map<u32, u32> = Map::new(alloc);
    map.extend((0..100u32).map(|key| (key, key.wrapping_mul(3))))
        .expect(rt, "");
    let mut pairs: Vec<(u32, u32)> = map.drain().collect(alloc).expect(rt, "");
    assert_equal!(*rt; (map.is_empty(), map.drain().next()), (true, None));
    pairs.sort_unstable();
    let wanted = (0..100u32).map(|key| (key, key.wrapping_mul(3)));
    assert_equal!(*rt; pairs.iter().copied().eq(wanted), true);
}

fn drain_set(rt: &impl Abort, alloc: Global) {
    let mut set: Set<u32> = Set::new(alloc);
    set.extend(0..100u32).expect(rt, "");
    let mut elements: Vec<u32> = set.drain().collect(alloc).expect(rt, "");
    assert_equal!(*rt; (set.is_empty(), set.drain().next()), (true, None));
    elements.sort_unstable();
    assert_equal!(*rt; elements.iter().copied().eq(0..100u32), true);
}

#[test]
fn all_is_drained_once(rt: HostRuntime) {
    drain_map(&rt, rt.alloc());
    drain_set(&rt, rt.alloc());
}

// Drains so many of a hundred keys of a map, and the others with the iterator. It asks for no memory, and an entry goes
// in again.
fn leave_in_map(rt: &impl Abort, alloc: Global, walked: usize) {
    let (log, notes) = (Log::new(), Notes::new());
    let heap = Logged::new(alloc, &log);
    let mut map: Map<Noted<'_>, u32, FixedState, Logged<'_>> = Map::new(heap);
    for key in 0..100 {
        map.insert(Noted::new(key, &notes), key).expect(rt, "");
    }
    log.refuse_from(1);
    assert_equal!(*rt; map.drain().take(walked).count(), walked);
    assert_equal!(*rt; (map.len(), notes.dropped()), (0, 100), at walked);
    log.refuse_none();
    map.insert(Noted::new(7, &notes), 7).expect(rt, "");
    assert_equal!(*rt; map.contains_key(&Noted::new(7, &notes)), true);
    drop(map);
    assert_equal!(*rt; log.amiss(), 0);
}

// The same of a set.
fn leave_in_set(rt: &impl Abort, alloc: Global, walked: usize) {
    let (log, notes) = (Log::new(), Notes::new());
    let heap = Logged::new(alloc, &log);
    let mut set: Set<Noted<'_>, FixedState, Logged<'_>> = Set::new(heap);
    for key in 0..100 {
        set.insert(Noted::new(key, &notes)).expect(rt, "");
    }
    log.refuse_from(1);
    assert_equal!(*rt; set.drain().take(walked).count(), walked);
    assert_equal!(*rt; (set.len(), notes.dropped()), (0, 100), at walked);
    log.refuse_none();
    set.insert(Noted::new(7, &notes)).expect(rt, "");
    assert_equal!(*rt; set.contains(&Noted::new(7, &notes)), true);
    drop(set);
    assert_equal!(*rt; log.amiss(), 0);
}

// Each key is dropped once, by the one who took it or by the iterator.
#[test]
fn what_a_drain_leaves_is_dropped(rt: HostRuntime) {
    for walked in [0, 1, 50, 100] {
        leave_in_map(&rt, rt.alloc(), walked);
        leave_in_set(&rt, rt.alloc(), walked);
    }
}

// Whether so many keys from this one on go into a map.
fn go_in(map: &mut Hash<'_>, first: u32, more: u32) -> bool {
    for key in first..first.saturating_add(more) {
        if map.insert(key, key) != Ok(None) {
            return false;
        }
    }
    true
}

// The same of a set.
fn go_into_set(set: &mut HashOfSet<'_>, first: u32, more: u32) -> bool {
    for key in first..first.saturating_add(more) {
        if set.insert(key) != Ok(true) {
            return false;
        }
    }
    true
}

// Reserves room in a map of so many keys, of which some are taken out, and needs no memory then.
fn reserve_in_map(rt: &impl Abort, alloc: Global, held: u32, more: u32) {
    let log = Log::new();
    let mut map = Map::new(Observed::new(alloc, &log));
    assert_equal!(*rt; go_in(&mut map, 0, held), true);
    map.retain(|key, _| key % 3 != 0);
    map.reserve(more as usize).expect(rt, "");
    log.refuse_from(1);
    assert_equal!(*rt; go_in(&mut map, held, more), true, at (more, held));
    let left = map.capacity().saturating_sub(map.len());
    assert_equal!(*rt; map.reserve(left), Ok(()), at (left, held));
}

// The same of a set.
fn reserve_in_set(rt: &impl Abort, alloc: Global, held: u32, more: u32) {
    let log = Log::new();
    let mut set = Set::new(Observed::new(alloc, &log));
    assert_equal!(*rt; go_into_set(&mut set, 0, held), true);
    set.retain(|key| key % 3 != 0);
    set.reserve(more as usize).expect(rt, "");
    log.refuse_from(1);
    assert_equal!(*rt; go_into_set(&mut set, held, more), true, at (more, held));
    let left = set.capacity().saturating_sub(set.len());
    assert_equal!(*rt; set.reserve(left), Ok(()), at (left, held));
}

// After `reserve` so many go in with each request refused, also where some were taken out before.
#[test]
fn reserved_room_needs_no_memory(rt: HostRuntime) {
    for held in [0, 7, 100, 1000] {
        for more in [0, 1, 3, 100, 5000] {
            reserve_in_map(&rt, rt.alloc(), held, more);
            reserve_in_set(&rt, rt.alloc(), held, more);
        }
    }
}

// As many go into a map of 2,000 without memory as there is room for.
fn fill_map(rt: &impl Abort, log: &Log, map: &mut Hash<'_>) {
    log.refuse_from(1);
    let room = map.capacity();
    for number in 2_000..5_000u32 {
        assert_equal!(*rt; map.insert(number, 0).is_ok(), (number as usize) < room);
    }
    log.refuse_none();
}

// The same of a set.
fn fill_set(rt: &impl Abort, log: &Log, set: &mut HashOfSet<'_>) {
    log.refuse_from(1);
    let room = set.capacity();
    for number in 2_000..5_000u32 {
        assert_equal!(*rt; set.insert(number).is_ok(), (number as usize) < room);
    }
    log.refuse_none();
}

// Shrinks a map of 2,000 with room for 100,000 more, where the nth request is refused, and again.
fn shrink_map(rt: &impl Abort, alloc: Global, log: &Log, nth: u64) {
    let mut map: Hash<'_> = Map::new(Observed::new(alloc, log));
    assert_equal!(*rt; go_in(&mut map, 0, 2_000), true);
    map.reserve(100_000).expect(rt, "");
    assert_equal!(*rt; map.capacity() >= 102_000, true);
    log.refuse_once(nth);
    map.shrink_to_fit();
    assert_equal!(*rt; (0..2_000u32).all(|key| map.get(&key) == Some(&key)), true);
    assert_equal!(*rt; map.len(), 2_000);
    map.shrink_to_fit();
    assert_equal!(*rt; map.capacity() < 102_000, true);
    fill_map(rt, log, &mut map);
}

// The same of a set.
fn shrink_set(rt: &impl Abort, alloc: Global, log: &Log, nth: u64) {
    let mut set: HashOfSet<'_> = Set::new(Observed::new(alloc, log));
    assert_equal!(*rt; go_into_set(&mut set, 0, 2_000), true);
    set.reserve(100_000).expect(rt, "");
    assert_equal!(*rt; set.capacity() >= 102_000, true);
    log.refuse_once(nth);
    set.shrink_to_fit();
    assert_equal!(*rt; (0..2_000u32).all(|key| set.contains(&key)), true);
    assert_equal!(*rt; set.len(), 2_000);
    set.shrink_to_fit();
    assert_equal!(*rt; set.capacity() < 102_000, true);
    fill_set(rt, log, &mut set);
}

// A refused smaller table keeps the room, and the entries stay either way.
#[test]
fn room_is_given_back(rt: HostRuntime) {
    let log = Log::new();
    for nth in 1..6 {
        shrink_map(&rt, rt.alloc(), &log, nth);
        shrink_set(&rt, rt.alloc(), &log, nth);
    }
    assert_equal!(rt; log.amiss(), 0);
}

// Shrinks a map that was emptied. What is cleared has room for as many again before.
fn empty_map(rt: &impl Abort, alloc: Global, by_clear: bool) {
    let mut map = Map::from_iter(alloc, (0..60_000u32).map(|key| (key, key))).expect(rt, "");
    let room = map.capacity();
    if by_clear {
        map.clear();
        assert_equal!(*rt; map.capacity(), room);
    } else {
        map.retain(|_, _| false);
    }
    map.shrink_to_fit();
    assert_equal!(*rt; (map.capacity() < 8, map.is_empty()), (true, true));
}

// The same of a set.
fn empty_set(rt: &impl Abort, alloc: Global, by_clear: bool) {
    let mut set = Set::from_iter(alloc, 0..1_000u32).expect(rt, "");
    let room = set.capacity();
    if by_clear {
        set.clear();
        assert_equal!(*rt; set.capacity(), room);
    } else {
        set.retain(|_| false);
    }
    set.shrink_to_fit();
    assert_equal!(*rt; (set.capacity() < 8, set.is_empty()), (true, true));
}

#[test]
fn what_is_empty_gives_its_room_back(rt: HostRuntime) {
    for by_clear in [false, true] {
        empty_map(&rt, rt.alloc(), by_clear);
        empty_set(&rt, rt.alloc(), by_clear);
    }
}

// The room of a map of 60,000 of which so many are kept.
fn room_of_map(rt: &impl Abort, alloc: Global, kept: u32) -> usize {
    let mut map = Map::from_iter(alloc, (0..60_000u32).map(|key| (key, key))).expect(rt, "");
    map.retain(|key, _| *key < kept);
    map.shrink_to_fit();
    map.capacity()
}

// The same of a set.
fn room_of_set(rt: &impl Abort, alloc: Global, kept: u32) -> usize {
    let mut set = Set::from_iter(alloc, 0..60_000u32).expect(rt, "");
    set.retain(|key| *key < kept);
    set.shrink_to_fit();
    set.capacity()
}

// Exactly as many as are kept, however many there were.
#[test]
fn room_is_given_back_down_to_what_is_kept(rt: HostRuntime) {
    for kept in [1u32, 7, 100, 448, 449, 896, 897, 1_000, 60_000] {
        let room = kept as usize;
        assert_equal!(rt; room_of_map(&rt, rt.alloc(), kept), room, at kept);
        assert_equal!(rt; room_of_set(&rt, rt.alloc(), kept), room, at kept);
    }
}
