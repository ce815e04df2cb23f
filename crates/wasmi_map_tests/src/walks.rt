//! Maps and sets of both backings: worked rows, what loops write, iterators, and texts.
ghost use Rattle.std.specs.Iterator.{IsFinite};

use std::alloc::{AllocError, Global};
use std::process::Abort;
use wasmi_hashed as hashed;
use wasmi_ordered as ordered;
use wasmi_vectors::assert_equal;

macro_rules! later_pair {
    ($rt:ident, $backing:ident) => {{
        let pairs = [(1, "a"), (2, "b"), (1, "c")];
        let mut map = $backing::Map::from_iter($rt.alloc(), pairs).expect(&$rt, "");
        assert_equal!($rt; (map.len(), map.get(&1)), (2, Some(&"c")));
        map.extend([(2, "d"), (3, "e"), (3, "f")]).expect(&$rt, "");
        let pairs = [(3, "f"), (2, "d"), (1, "c")];
        let same = $backing::Map::from_iter($rt.alloc(), pairs).expect(&$rt, "");
        assert_equal!($rt; &map, &same);
        let more = $backing::Map::from_iter($rt.alloc(), [(3, "g"), (4, "h")]).expect(&$rt, "");
        map.extend_ref(&more).expect(&$rt, "");
        assert_equal!($rt; (map.get(&3), map.len(), map == same), (Some(&"g"), 4, false));
        assert_equal!($rt; (map.remove_entry(&1), map.remove_entry(&1)), (Some((1, "c")), None));
    }};
}

#[test]
fn a_later_pair_of_one_key_wins(rt: HostRuntime) {
    later_pair!(rt, ordered);
    later_pair!(rt, hashed);
}

// By a loop over each iterator that lends values. Then the even keys are kept.
macro_rules! written {
    ($rt:ident, $backing:ident) => {{
        let pairs = (1..7u32).map(|key| (key, 0u32));
        let mut map = $backing::Map::from_iter($rt.alloc(), pairs).expect(&$rt, "");
        assert_equal!($rt; map.iter_mut().len(), 6);
        assert_equal!($rt; map.values_mut().len(), 6);
        for (key, value) in map.iter_mut() {
            *value = key.wrapping_mul(10);
        }
        for (key, value) in &mut map {
            *value = value.wrapping_add(*key);
        }
        for value in map.values_mut() {
            *value = value.wrapping_add(1);
        }
        for (key, want) in [(1, 12), (2, 23), (3, 34), (4, 45), (5, 56), (6, 67)] {
            assert_equal!($rt; map.get(&key), Some(&want));
        }
        map.retain(|key, _| *key % 2 == 0);
        let has_even = [2, 4, 6u32].iter().all(|key| map.contains_key(key));
        assert_equal!($rt; (map.len(), has_even), (3, true));
    }};
}

#[test]
fn each_value_is_written_once(rt: HostRuntime) {
    written!(rt, ordered);
    written!(rt, hashed);
}

// Whether a list has these items, in any order if they are of a hashed table.
fn is<T: Ord + Drop>(items: Vec<T>, want: &[T], is_hashed: bool) -> bool {
    let mut items = items;
    if is_hashed {
        items.sort_unstable();
    }
    items.iter().eq(want.iter())
}

const PAIRS: [(u32, u32); 6] = [(1, 2), (2, 4), (3, 6), (4, 8), (5, 10), (6, 12)];

// A map of six keys, each over its double.
macro_rules! six {
    ($rt:ident, $backing:ident, $alloc:ident) => {{
        let six = [4, 2, 6, 1, 3, 5u32].map(|key| (key, key.wrapping_mul(2)));
        $backing::Map::from_iter($alloc, six).expect($rt, "")
    }};
}

// The entries of a map by its iterators.
macro_rules! lent {
    ($rt:ident, $backing:ident, $alloc:ident, $is_hashed:literal) => {{
        let map = six!($rt, $backing, $alloc);
        assert_equal!(*$rt; (map.iter().len(), map.keys().len(), map.values().len()), (6, 6, 6));
        for (key, value) in &map {
            assert_equal!(*$rt; *value, key.wrapping_mul(2));
        }
        let pairs = map.keys().copied().zip(map.values().copied());
        let pairs: Vec<(u32, u32)> = pairs.collect($alloc).expect($rt, "");
        assert_equal!(*$rt; is(pairs, &PAIRS, $is_hashed), true);
    }};
}

// The same by value.
macro_rules! taken {
    ($rt:ident, $backing:ident, $alloc:ident, $is_hashed:literal) => {{
        let map = six!($rt, $backing, $alloc);
        let (one, other) = (map.clone().expect($rt, ""), map.clone().expect($rt, ""));
        let pairs: Vec<(u32, u32)> = map.into_iter().collect($alloc).expect($rt, "");
        assert_equal!(*$rt; is(pairs, &PAIRS, $is_hashed), true);
        let keys: Vec<u32> = one.into_keys().collect($alloc).expect($rt, "");
        assert_equal!(*$rt; is(keys, &[1, 2, 3, 4, 5, 6], $is_hashed), true);
        let values: Vec<u32> = other.into_values().collect($alloc).expect($rt, "");
        assert_equal!(*$rt; is(values, &[2, 4, 6, 8, 10, 12], $is_hashed), true);
    }};
}

fn hashed_lent(rt: &impl Abort, alloc: Global) {
    lent!(rt, hashed, alloc, true);
}

fn hashed_taken(rt: &impl Abort, alloc: Global) {
    taken!(rt, hashed, alloc, true);
}

#[test]
fn walks_give_each_entry_once(rt: HostRuntime) {
    hashed_lent(&rt, rt.alloc());
    hashed_taken(&rt, rt.alloc());
}

fn ordered_lent(rt: &impl Abort, alloc: Global) {
    lent!(rt, ordered, alloc, false);
}

fn ordered_taken(rt: &impl Abort, alloc: Global) {
    taken!(rt, ordered, alloc, false);
}

#[test]
fn walks_ascend(rt: HostRuntime) {
    ordered_lent(&rt, rt.alloc());
    ordered_taken(&rt, rt.alloc());
}

// Whether an iterator over two sets gives these elements.
fn gives<'a, I: Iterator<Item = &'a u32>>(
    alloc: Global,
    elements: I,
    want: &[u32],
    is_hashed: bool,
) -> Result<bool, AllocError>
    requires { I.can_next elements × IsFinite (I.remaining elements) }
{
    let mut given: Vec<u32> = Vec::new(alloc);
    for element in elements {
        given.push(*element)?;
    }
    Ok(is(given, want, is_hashed))
}

// What 1, 2, 3 and 2, 3, 4 make of each other.
macro_rules! made {
    ($rt:ident, $backing:ident, $alloc:ident, $is_hashed:literal) => {{
        let one = $backing::Set::from_iter($alloc, [3, 1, 2u32]).expect($rt, "");
        let other = $backing::Set::from_iter($alloc, [4, 2, 3u32]).expect($rt, "");
        for (made, want) in [
            (one.bitand(&other), [2, 3].as_slice()),
            (one.bitor(&other), [1, 2, 3, 4].as_slice()),
            (one.bitxor(&other), [1, 4].as_slice()),
            (one.sub(&other), [1].as_slice()),
        ] {
            let made = made.expect($rt, "");
            assert_equal!(*$rt; (made != one, made.len()), (true, made.iter().len()));
            assert_equal!(*$rt; gives($alloc, made.iter(), want, $is_hashed), Ok(true));
        }
        let elements: Vec<u32> = one.into_iter().collect($alloc).expect($rt, "");
        assert_equal!(*$rt; is(elements, &[1, 2, 3], $is_hashed), true);
    }};
}

// What walks over both give, and how they lie to each other.
macro_rules! walked {
    ($rt:ident, $backing:ident, $alloc:ident, $is_hashed:literal) => {{
        let one = $backing::Set::from_iter($alloc, [3, 1, 2u32]).expect($rt, "");
        let other = $backing::Set::from_iter($alloc, [4, 2, 3u32]).expect($rt, "");
        for (walked, want) in [
            (gives($alloc, one.intersection(&other), &[2, 3], $is_hashed), true),
            (gives($alloc, one.union(&other), &[1, 2, 3, 4], $is_hashed), true),
            (gives($alloc, one.difference(&other), &[1], $is_hashed), true),
            (gives($alloc, one.symmetric_difference(&other), &[1, 4], $is_hashed), true),
            (gives($alloc, one.union(&other), &[1, 2, 3], $is_hashed), false),
        ] {
            assert_equal!(*$rt; walked, Ok(want));
        }
        let four = $backing::Set::from_iter($alloc, [4u32]).expect($rt, "");
        let tests = (one.is_disjoint(&four), four.is_subset(&other), other.is_superset(&four));
        assert_equal!(*$rt; tests, (true, true, true));
        let tests = (one.is_disjoint(&other), one.is_subset(&other), one.is_superset(&other));
        assert_equal!(*$rt; tests, (false, false, false));
    }};
}

fn ordered_made(rt: &impl Abort, alloc: Global) {
    made!(rt, ordered, alloc, false);
}

fn ordered_walked(rt: &impl Abort, alloc: Global) {
    walked!(rt, ordered, alloc, false);
}

#[test]
fn two_ordered_sets_make_others(rt: HostRuntime) {
    ordered_made(&rt, rt.alloc());
    ordered_walked(&rt, rt.alloc());
}

fn hashed_made(rt: &impl Abort, alloc: Global) {
    made!(rt, hashed, alloc, true);
}

fn hashed_walked(rt: &impl Abort, alloc: Global) {
    walked!(rt, hashed, alloc, true);
}

#[test]
fn two_hashed_sets_make_others(rt: HostRuntime) {
    hashed_made(&rt, rt.alloc());
    hashed_walked(&rt, rt.alloc());
}

fn few_entries_are_printed(rt: &impl Abort, alloc: Global) {
    let map = ordered::Map::from_iter(alloc, [(2, true), (1, false)]).expect(rt, "");
    let set = ordered::Set::from_iter(alloc, [5, 3, 1, 4, 2]).expect(rt, "");
    let text = format!(in alloc; "{map:?} {set:?}").expect(rt, "");
    assert_equal!(*rt; text.as_str(), "{1: false, 2: true} {1, 2, 3, 4, 5}");
    let map = hashed::Map::from_iter(alloc, [(2, true), (3, false)]).expect(rt, "");
    let text = format!(in alloc; "{map:?}").expect(rt, "");
    assert!(*rt; text.as_str() == "{2: true, 3: false}" || text.as_str() == "{3: false, 2: true}");
    let set = hashed::Set::from_iter(alloc, [3, 5]).expect(rt, "");
    let text = format!(in alloc; "{set:?}").expect(rt, "");
    assert!(*rt; text.as_str() == "{3, 5}" || text.as_str() == "{5, 3}");
}

fn many_entries_are_printed(rt: &impl Abort, alloc: Global) {
    let map = ordered::Map::from_iter(alloc, (0..5_000).map(|key| (key, key))).expect(rt, "");
    let set = ordered::Set::from_iter(alloc, 0..5_000).expect(rt, "");
    let text = format!(in alloc; "{set:?}{map:?}").expect(rt, "");
    assert!(*rt; text.as_str().contains(", 4999}{") && text.as_str().ends_with(", 4999: 4999}"));
}

#[test]
fn entries_are_printed(rt: HostRuntime) {
    few_entries_are_printed(&rt, rt.alloc());
    many_entries_are_printed(&rt, rt.alloc());
    let map: ordered::Map<u32, u32> = ordered::Map::new(rt.alloc());
    let set: hashed::Set<u32> = hashed::Set::new(rt.alloc());
    assert_equal!(rt; format!(in rt.alloc(); "{map:?}{set:?}").expect(&rt, "").as_str(), "{}{}");
}
