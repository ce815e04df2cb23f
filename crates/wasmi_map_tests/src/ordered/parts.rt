//! The ends of ordered maps and sets, their parts, and what is joined.
use std::alloc::Global;
use std::cell::Cell;
use std::process::Abort;
use wasmi_arena::ArenaError;
use wasmi_ordered::{Map, Set};
use wasmi_vectors::assert_equal;
use wasmi_vectors::counted::Counted;
use wasmi_vectors::noted::{Noted, Notes};
use wasmi_vectors::observed::{Log, Observed};

// Of a map of 1 to 4, which is empty before it is cut.
fn take_pairs(rt: &impl Abort, alloc: Global) {
    let mut map = Map::from_iter(alloc, [(2, "b"), (1, "a"), (3, "c")]).expect(rt, "");
    map.append(&mut Map::from_iter(alloc, [(2, "d"), (4, "e")]).expect(rt, ""))
        .expect(rt, "");
    assert_equal!(*rt; (map.first_key_value(), map.last_key_value()), (Some((&1, &"a")), Some((&4, &"e"))));
    assert_equal!(*rt;
        [map.pop_first(), map.pop_last(), map.pop_last(), map.pop_first(), map.pop_first()],
        [Some((1, "a")), Some((4, "e")), Some((3, "c")), Some((2, "d")), None]
    );
    assert_equal!(*rt; map.first_key_value(), None);
    let mut rest = map.split_off(&2).expect(rt, "");
    map.append(&mut rest).expect(rt, "");
    assert_equal!(*rt; map.len(), 0);
}

// The same of a set.
fn take_elements(rt: &impl Abort, alloc: Global) {
    let mut set = Set::from_iter(alloc, [2, 1, 3]).expect(rt, "");
    set.append(&mut Set::from_iter(alloc, [2, 4]).expect(rt, ""))
        .expect(rt, "");
    assert_equal!(*rt; (set.first(), set.last()), (Some(&1), Some(&4)));
    assert_equal!(*rt;
        [set.pop_first(), set.pop_last(), set.pop_last(), set.pop_first(), set.pop_last()],
        [Some(1), Some(4), Some(3), Some(2), None]
    );
    assert_equal!(*rt; set.last(), None);
    let mut others = set.split_off(&2).expect(rt, "");
    set.append(&mut others).expect(rt, "");
    assert_equal!(*rt; set.len(), 0);
}

#[test]
fn ends_are_read_and_taken(rt: HostRuntime) {
    take_pairs(&rt, rt.alloc());
    take_elements(&rt, rt.alloc());
}

#[test]
fn a_range_is_walked_from_both_ends(rt: HostRuntime) {
    let map = Map::from_iter(rt.alloc(), (0..10u32).map(|key| (key, key))).expect(&rt, "");
    let set = Set::from_iter(rt.alloc(), 0..10u32).expect(&rt, "");
    let mut part = map.range(3..6);
    assert_equal!(rt; (part.next(), part.next_back()), (Some((&3, &3)), Some((&5, &5))));
    assert_equal!(rt; part.next(), Some((&4, &4)));
    assert_equal!(rt; (part.next_back(), set.range(7..).count(), set.range(..=3).count()), (None, 3, 4));
}

// A map of 0 to 59 with a request refused in the cut at 45, or in the join of both parts.
fn cut_pairs(rt: &impl Abort, alloc: Global, log: &Log, nth: u64) {
    let mut map: Map<u32, u32, Observed<'_>> = Map::new(Observed::new(alloc, log));
    map.extend((0..60u32).map(|key| (key, key))).expect(rt, "");
    log.refuse_once(nth);
    match map.split_off(&45) {
        Ok(mut rest) => {
            assert_equal!(*rt; (map.len(), rest.len()), (45, 15), at nth);
            if let Err(error) = map.append(&mut rest) {
                assert_equal!(*rt; error, ArenaError::OutOfSystemMemory);
            }
            assert_equal!(*rt; map.len().wrapping_add(rest.len()), 60, at nth);
        }
        Err(error) => {
            assert_equal!(*rt; (error, map.len()), (ArenaError::OutOfSystemMemory, 60), at nth);
        }
    }
    log.refuse_none();
}

// Whether each of 0 to 59 is in one of both.
fn have_all(one: &Set<u32, Observed<'_>>, other: &Set<u32, Observed<'_>>) -> bool {
    for key in 0..60u32 {
        if !one.contains(&key) && !other.contains(&key) {
            return false;
        }
    }
    true
}

// Sets of 0 to 39 and 30 to 59 with a request refused in their join, or in the cut at 20 after it.
fn join_elements(rt: &impl Abort, alloc: Global, log: &Log, nth: u64) {
    let mut set: Set<u32, Observed<'_>> = Set::new(Observed::new(alloc, log));
    let mut other: Set<u32, Observed<'_>> = Set::new(Observed::new(alloc, log));
    set.extend(0..40u32).expect(rt, "");
    other.extend(30..60u32).expect(rt, "");
    log.refuse_once(nth);
    if let Err(error) = set.append(&mut other) {
        assert_equal!(*rt; (error, other.is_empty()), (ArenaError::OutOfSystemMemory, false), at nth);
    } else {
        assert_equal!(*rt; (set.len(), other.len()), (60, 0), at nth);
    }
    assert!(*rt; have_all(&set, &other));
    if let Ok(rest) = set.split_off(&20) {
        assert_equal!(*rt; (set.len(), rest.is_empty()), (20, false), at nth);
    }
}

// Each request refused in turn: then both are as before, or all that left one is in the other.
#[test]
fn a_cut_and_a_join_lose_nothing(rt: HostRuntime) {
    for nth in 1..40 {
        let log = Log::new();
        cut_pairs(&rt, rt.alloc(), &log, nth);
        join_elements(&rt, rt.alloc(), &log, nth);
        assert_equal!(rt; log.amiss(), 0);
    }
}

// A map of five numbers.
fn pairs_of<'a>(
    rt: &impl Abort,
    alloc: Global,
    first: u32,
    keys: &'a Notes,
    values: &'a Cell<u64>,
) -> Map<Noted<'a>, Counted<'a>> {
    let mut pairs = Map::new(alloc);
    for number in first..first.wrapping_add(5) {
        let (key, value) = (Noted::new(number, keys), Counted::new(values));
        pairs.insert(key, value).expect(rt, "");
    }
    pairs
}

// A set of them.
fn elements_of<'a>(
    rt: &impl Abort,
    alloc: Global,
    first: u32,
    elements: &'a Notes,
) -> Set<Noted<'a>> {
    let mut others = Set::new(alloc);
    for number in first..first.wrapping_add(5) {
        others.insert(Noted::new(number, elements)).expect(rt, "");
    }
    others
}

// Of 0 to 4, 3 to 7 and 6 to 10, four are there when they come again.
#[test]
fn what_is_in_both_is_dropped_once(rt: HostRuntime) {
    let (keys, elements, values) = (Notes::new(), Notes::new(), Cell::new(0));
    let mut map: Map<Noted<'_>, Counted<'_>> = Map::new(rt.alloc());
    let mut set: Set<Noted<'_>> = Set::new(rt.alloc());
    for first in [0u32, 3, 6] {
        let mut pairs = pairs_of(&rt, rt.alloc(), first, &keys, &values);
        map.append(&mut pairs).expect(&rt, "");
        let mut others = elements_of(&rt, rt.alloc(), first, &elements);
        set.append(&mut others).expect(&rt, "");
    }
    assert_equal!(rt; (map.len(), set.len()), (11, 11));
    assert_equal!(rt; (keys.dropped(), values.get(), elements.dropped()), (4, 4, 4));
}

// Joins an empty map and one of so many entries, which gets an entry then. How many requests come to the allocator of
// the first.
fn exchange_maps(rt: &impl Abort, alloc: Global, len: u64) -> u64 {
    let (log, others) = (Log::new(), Log::new());
    let mut map: Map<u64, u64, Observed<'_>> = Map::new(Observed::new(alloc, &log));
    let mut pairs: Map<u64, u64, Observed<'_>> = Map::new(Observed::new(alloc, &others));
    pairs.extend((0..len).map(|key| (key, key))).expect(rt, "");
    map.append(&mut pairs).expect(rt, "");
    pairs.insert(2, 2).expect(rt, "");
    assert_equal!(*rt; map.len(), len as usize);
    log.requests()
}

// The same of two sets.
fn exchange_sets(rt: &impl Abort, alloc: Global, len: u64) -> u64 {
    let (log, others) = (Log::new(), Log::new());
    let mut set: Set<u64, Observed<'_>> = Set::new(Observed::new(alloc, &log));
    let mut elements: Set<u64, Observed<'_>> = Set::new(Observed::new(alloc, &others));
    elements.extend(0..len).expect(rt, "");
    set.append(&mut elements).expect(rt, "");
    elements.insert(2).expect(rt, "");
    assert_equal!(*rt; set.len(), len as usize);
    log.requests()
}

// What has entries leaves an empty one its allocator for its own, of which the next entry is asked; what has none keeps it.
#[test]
fn empty_ones_are_exchanged(rt: HostRuntime) {
    for len in [0, 1] {
        let requests = (
            exchange_maps(&rt, rt.alloc(), len),
            exchange_sets(&rt, rt.alloc(), len),
        );
        assert_equal!(rt; requests, (len, len));
    }
}

// Whether the ends of a map of 0 to 131,071 and the first key after 6 are read.
fn reads_keys(map: &Map<u32, u32>) -> bool {
    (map.first_key_value(), map.last_key_value()) == (Some((&0, &0)), Some((&131_071, &131_071)))
        && map.range(7..).next() == Some((&7, &7))
}

// The same of a set.
fn reads_elements(set: &Set<u32>) -> bool {
    (set.first(), set.last()) == (Some(&0), Some(&131_071)) && set.range(7..).next() == Some(&7)
}

// They, and a step of a range, would take minutes if they went over the entries.
#[test]
fn the_ends_take_no_walk(rt: HostRuntime) {
    let pairs = (0..131_072u32).map(|key| (key, key));
    let map = Map::from_iter(rt.alloc(), pairs).expect(&rt, "");
    let set = Set::from_iter(rt.alloc(), 0..131_072u32).expect(&rt, "");
    for turn in 0..131_072u32 {
        assert_equal!(rt; (reads_keys(&map), reads_elements(&set)), (true, true), at turn);
    }
}

// Whether the calls by a text find it in a map, and take it out in the end.
fn takes_entry(map: &mut Map<String, u32>, text: &str, number: u32) -> bool {
    map.get_str(text) == Some(&number)
        && map.contains_key_str(text)
        && map.get_mut_str(text).is_some()
        && map.get_key_value_str(text).is_some()
        && if number % 2 == 0 {
            map.remove_str(text) == Some(number)
        } else {
            map.remove_entry_str(text).is_some()
        }
}

// The same of a set.
fn takes_element(set: &mut Set<String>, text: &str, number: u32) -> bool {
    set.contains_str(text)
        && set.get_str(text).is_some()
        && if number % 2 == 0 {
            set.remove_str(text)
        } else {
            set.take_str(text).is_some()
        }
}

// A text of a number.
fn text(rt: &impl Abort, alloc: Global, number: u32) -> String {
    format!(in alloc; "{number:05}").expect(rt, "")
}

// The greatest first, so a walk would take minutes.
#[test]
fn a_text_takes_no_walk(rt: HostRuntime) {
    let mut map: Map<String, u32> = Map::new(rt.alloc());
    let mut set: Set<String> = Set::new(rt.alloc());
    for number in 0..20_000u32 {
        map.insert(text(&rt, rt.alloc(), number), number)
            .expect(&rt, "");
        set.insert(text(&rt, rt.alloc(), number)).expect(&rt, "");
    }
    for number in (0..20_000u32).rev() {
        let key = text(&rt, rt.alloc(), number);
        let is_taken = takes_entry(&mut map, key.as_str(), number)
            && takes_element(&mut set, key.as_str(), number);
        assert_equal!(rt; is_taken, true, at number);
    }
    assert_equal!(rt; (map.len(), set.len()), (0, 0));
}
