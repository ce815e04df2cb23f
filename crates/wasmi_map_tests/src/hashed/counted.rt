//! How often calls of hashed maps and sets hash and clone.
use std::alloc::Global;
use wasmi_arena::ArenaError;
use wasmi_hashed::{Map, Set};
use wasmi_vectors::assert_equal;
use wasmi_vectors::noted::{Noted, Notes};

// A read, an index and a `try_insert` of a hashed map, of a key that is there or isn't; `replace` of an element that is.
#[test]
fn a_call_hashes_once(rt: HostRuntime) {
    let notes = Notes::new();
    let mut map: Map<Noted<'_>, u32> = Map::new(rt.alloc());
    let mut set: Set<Noted<'_>> = Set::new(rt.alloc());
    map.reserve(100).expect(&rt, "");
    set.reserve(100).expect(&rt, "");
    for number in 0..80u32 {
        let key = Noted::new(number / 2, &notes);
        notes.hashed();
        let there = map.contains_key(&key);
        assert_equal!(rt; (there, notes.hashed()), (number % 2 == 1, 1), at number);
        if there {
            assert_equal!(rt; (map[&key], notes.hashed()), (number / 2, 1), at number);
        }
        let back = map.try_insert(key, number / 2).expect(&rt, "");
        assert_equal!(rt; (back.is_err(), notes.hashed()), (there, 1), at number);
        let old = set.replace(Noted::new(number / 2, &notes)).expect(&rt, "");
        assert!(rt; notes.hashed() == 1 || !there, "of {number}");
        assert_equal!(rt; old.is_some(), there, at number);
    }
}

// The set of the elements from one number on, so many of them.
fn elements<'a>(
    alloc: Global,
    first: u32,
    len: u32,
    notes: &'a Notes,
) -> Result<Set<Noted<'a>>, ArenaError> {
    Set::from_iter(
        alloc,
        (0..len).map(|more| Noted::new(first.wrapping_add(more), notes)),
    )
}

#[test]
fn a_set_of_two_clones_what_it_has(rt: HostRuntime) {
    let notes = Notes::new();
    let one = elements(rt.alloc(), 0, 50, &notes).expect(&rt, "");
    let other = elements(rt.alloc(), 25, 50, &notes).expect(&rt, "");
    assert_equal!(rt; (one.bitor(&other).expect(&rt, "").len(), notes.cloned()), (75, 75));
    assert_equal!(rt; (one.bitand(&other).expect(&rt, "").len(), notes.cloned()), (25, 25));
    assert_equal!(rt; (one.bitxor(&other).expect(&rt, "").len(), notes.cloned()), (50, 50));
    assert_equal!(rt; (one.sub(&other).expect(&rt, "").len(), notes.cloned()), (25, 25));
}

#[test]
fn a_test_of_two_sets_walks_the_smaller(rt: HostRuntime) {
    let notes = Notes::new();
    let few = elements(rt.alloc(), 0, 10, &notes).expect(&rt, "");
    let many = elements(rt.alloc(), 10, 1_000, &notes).expect(&rt, "");
    let all = elements(rt.alloc(), 0, 1_000, &notes).expect(&rt, "");
    notes.hashed();
    assert_equal!(rt; (few.is_disjoint(&many), notes.hashed() <= 10), (true, true));
    assert_equal!(rt; (many.is_disjoint(&few), notes.hashed() <= 10), (true, true));
    assert_equal!(rt; (few.is_subset(&all), notes.hashed() <= 10), (true, true));
    assert_equal!(rt; (all.is_superset(&few), notes.hashed() <= 10), (true, true));
    assert_equal!(rt; (few.intersection(&all).count(), notes.hashed() <= 10), (10, true));
    assert_equal!(rt; (all.intersection(&few).count(), notes.hashed() <= 10), (10, true));
}

#[test]
fn a_hashed_call_hashes_its_key_once(rt: HostRuntime) {
    let notes = Notes::new();
    let mut map: Map<Noted<'_>, u32> = Map::new(rt.alloc());
    let mut set: Set<Noted<'_>> = Set::new(rt.alloc());
    // Each key comes new and once more, by either call.
    for number in 0..200u32 {
        let key = Noted::new(number / 2, &notes);
        if number % 4 == 0 || number % 4 == 3 {
            map.entry(key)
                .expect(&rt, "")
                .or_insert(number)
                .expect(&rt, "");
        } else {
            map.insert(key, number).expect(&rt, "");
        }
        assert_equal!(rt; notes.hashed(), 1, at number);
        set.insert(Noted::new(number / 2, &notes)).expect(&rt, "");
        assert_equal!(rt; notes.hashed(), 1, at number);
    }
}

#[test]
fn equal_sets_are_gone_over_once(rt: HostRuntime) {
    let notes = Notes::new();
    let one = elements(rt.alloc(), 0, 100, &notes).expect(&rt, "");
    let same = elements(rt.alloc(), 0, 100, &notes).expect(&rt, "");
    notes.hashed();
    assert_equal!(rt; (one == same, notes.hashed()), (true, 100));
}
