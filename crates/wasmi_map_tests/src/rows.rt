//! Calls beside their answers: first with memory, then with every request refused.
use crate::table::{Answer, Call, Done, Item, More, Number, Other, Pair, Table, Tree, Truth};
use std::process::Abort;
use wasmi_hashed::hash::RandomState;
use wasmi_hashed::{Map as HashMap, Set as HashSet};
use wasmi_ordered::{Map as TreeMap, Set as TreeSet};
use wasmi_vectors::assert_equal;
use wasmi_vectors::observed::{Log, Observed};

// A call, the key and the value that it is handed, and what it returns.
type Row = (Call, u32, u32, Answer);

// Of an empty map.
const MAP_GROWS: [Row; 21] = [
    (Call::IsEmpty, 0, 0, Truth(true)),
    (Call::Insert, 1, 10, Item(None)),
    (Call::Insert, 1, 11, Item(Some(10))),
    (Call::Len, 0, 0, Number(1)),
    (Call::Remove, 2, 0, Item(None)),
    (Call::VacantKey, 2, 0, Item(Some(2))),
    (Call::VacantIntoKey, 2, 0, Item(Some(2))),
    (Call::Len, 0, 0, Number(1)),
    (Call::OrInsert, 2, 12, Item(Some(12))),
    (Call::Get, 1, 0, Item(Some(11))),
    (Call::Get, 2, 0, Item(Some(12))),
    (Call::OrInsertWith, 3, 13, Item(Some(13))),
    (Call::OrInsertWithKey, 4, 14, Item(Some(4))),
    (Call::Counted, 0, 0, Number(2)),
    (Call::OrDefault, 5, 15, Item(Some(0))),
    (Call::VacantInsert, 6, 16, Item(Some(16))),
    (Call::TryInsert, 8, 18, Item(None)),
    (Call::Remove, 8, 0, Item(Some(18))),
    (Call::EntryKey, 7, 0, Item(Some(7))),
    (Call::Reserve, 0, 100, Done),
    (Call::Len, 0, 0, Number(6)),
];

// Of the keys 1 to 6, under which are 11, 12, 13, 4, 0 and 16.
const MAP_NEEDS_NO_MEMORY: [Row; 50] = [
    (Call::IsEmpty, 0, 0, Truth(false)),
    (Call::Contains, 1, 0, Truth(true)),
    (Call::Contains, 7, 0, Truth(false)),
    (Call::Get, 7, 0, Item(None)),
    (Call::Index, 6, 0, Item(Some(16))),
    (Call::GetKeyValue, 3, 0, Pair(Some((3, 13)))),
    (Call::GetKeyValue, 7, 0, Pair(None)),
    (Call::GetMut, 3, 30, Item(Some(13))),
    (Call::GetMut, 7, 30, Item(None)),
    (Call::Insert, 3, 31, Item(Some(30))),
    (Call::TryInsert, 3, 41, Item(Some(41))),
    (Call::Get, 3, 0, Item(Some(31))),
    (Call::EntryKey, 3, 0, Item(Some(3))),
    (Call::OrInsert, 3, 32, Item(Some(31))),
    (Call::OrInsertWith, 3, 33, Item(Some(31))),
    (Call::OrInsertWithKey, 3, 34, Item(Some(31))),
    (Call::OrDefault, 3, 35, Item(Some(31))),
    // No closure was called.
    (Call::Counted, 0, 0, Number(0)),
    (Call::AndModify, 3, 36, Item(Some(3))),
    (Call::Counted, 0, 0, Number(1)),
    (Call::OccupiedKey, 3, 0, Item(Some(3))),
    (Call::OccupiedGet, 3, 0, Item(Some(36))),
    (Call::OccupiedGetMut, 3, 37, Item(Some(36))),
    (Call::OccupiedInsert, 3, 38, Item(Some(37))),
    (Call::OccupiedIntoMut, 3, 39, Item(Some(38))),
    (Call::VacantInsert, 3, 40, Other),
    (Call::Get, 3, 0, Item(Some(39))),
    (Call::OccupiedRemove, 3, 0, Item(Some(39))),
    (Call::VacantKey, 3, 0, Item(Some(3))),
    (Call::VacantIntoKey, 3, 0, Item(Some(3))),
    (Call::Contains, 3, 0, Truth(false)),
    (Call::OccupiedRemoveEntry, 4, 0, Pair(Some((4, 4)))),
    (Call::Contains, 4, 0, Truth(false)),
    (Call::Len, 0, 0, Number(4)),
    (Call::Remove, 6, 0, Item(Some(16))),
    (Call::Remove, 6, 0, Item(None)),
    (Call::RemoveEntry, 5, 0, Pair(Some((5, 0)))),
    (Call::RemoveEntry, 5, 0, Pair(None)),
    // All but 2, and 3 more under each.
    (Call::Retain, 2, 3, Done),
    (Call::Counted, 0, 0, Number(2)),
    (Call::Contains, 2, 0, Truth(false)),
    (Call::Get, 1, 0, Item(Some(14))),
    (Call::Len, 0, 0, Number(1)),
    (Call::Extend, 0, 0, Done),
    (Call::Get, 1, 0, Item(Some(1))),
    (Call::ExtendRef, 0, 0, Done),
    (Call::Counted, 0, 0, Number(2)),
    (Call::Clear, 0, 0, Done),
    (Call::IsEmpty, 0, 0, Truth(true)),
    (Call::Len, 0, 0, Number(0)),
];

// Of an empty set.
const SET_GROWS: [Row; 12] = [
    (Call::IsEmpty, 0, 0, Truth(true)),
    (Call::Insert, 3, 0, Truth(true)),
    (Call::Insert, 3, 0, Truth(false)),
    (Call::Contains, 3, 0, Truth(true)),
    (Call::Remove, 3, 0, Truth(true)),
    (Call::Remove, 3, 0, Truth(false)),
    (Call::Len, 0, 0, Number(0)),
    (Call::Insert, 1, 0, Truth(true)),
    (Call::Replace, 2, 0, Item(None)),
    (Call::Insert, 4, 0, Truth(true)),
    (Call::Reserve, 0, 100, Done),
    (Call::Len, 0, 0, Number(3)),
];

// Of 1, 2 and 4.
const SET_NEEDS_NO_MEMORY: [Row; 19] = [
    (Call::IsEmpty, 0, 0, Truth(false)),
    (Call::Contains, 3, 0, Truth(false)),
    (Call::Get, 3, 0, Item(None)),
    (Call::Get, 4, 0, Item(Some(4))),
    (Call::Insert, 4, 0, Truth(false)),
    (Call::Replace, 4, 0, Item(Some(4))),
    (Call::Len, 0, 0, Number(3)),
    (Call::Take, 4, 0, Item(Some(4))),
    (Call::Take, 4, 0, Item(None)),
    (Call::Retain, 2, 0, Done),
    (Call::Counted, 0, 0, Number(2)),
    (Call::Contains, 2, 0, Truth(false)),
    (Call::Extend, 0, 0, Done),
    (Call::ExtendRef, 0, 0, Done),
    (Call::Counted, 0, 0, Number(2)),
    (Call::Remove, 1, 0, Truth(true)),
    (Call::Len, 0, 0, Number(0)),
    (Call::Clear, 0, 0, Done),
    (Call::IsEmpty, 0, 0, Truth(true)),
];

// Of ordered ones alone.
const RESERVES: [Row; 1] = [(Call::Reserve, 0, 1000, Done)];

// Carries out the rows, the second ones with every request refused.
fn answers<T: Table>(rt: &impl Abort, log: &Log, mut table: T, grows: &[Row], rest: &[Row]) {
    let more = More::new(&[1]);
    let mut asked = 0;
    for rows in [grows, rest] {
        asked = log.requests();
        for (call, key, value, want) in rows {
            assert_equal!(*rt; table.ask(*call, *key, *value, &more), Ok(*want), at (call, key));
        }
        log.refuse_from(1);
    }
    assert_equal!(*rt; log.requests(), asked);
    log.refuse_none();
}

#[test]
fn a_map_answers(rt: HostRuntime) {
    let log = Log::new();
    let state = RandomState::new(&rt).expect(&rt, "");
    let tree: Tree<'_> = TreeMap::new(Observed::new(rt.alloc(), &log));
    answers(&rt, &log, tree, &MAP_GROWS, &MAP_NEEDS_NO_MEMORY);
    let tree: Tree<'_> = TreeMap::new(Observed::new(rt.alloc(), &log));
    answers(&rt, &log, tree, &[], &RESERVES);
    let map = HashMap::new(Observed::new(rt.alloc(), &log));
    answers(&rt, &log, map, &MAP_GROWS, &MAP_NEEDS_NO_MEMORY);
    let map = HashMap::with_hasher(Observed::new(rt.alloc(), &log), state);
    answers(&rt, &log, map, &MAP_GROWS, &MAP_NEEDS_NO_MEMORY);
    assert_equal!(rt; log.amiss(), 0);
}

#[test]
fn a_set_answers(rt: HostRuntime) {
    let log = Log::new();
    let state = RandomState::new(&rt).expect(&rt, "");
    let tree = TreeSet::new(Observed::new(rt.alloc(), &log));
    answers(&rt, &log, tree, &SET_GROWS, &SET_NEEDS_NO_MEMORY);
    let tree = TreeSet::new(Observed::new(rt.alloc(), &log));
    answers(&rt, &log, tree, &[], &RESERVES);
    let set = HashSet::new(Observed::new(rt.alloc(), &log));
    answers(&rt, &log, set, &SET_GROWS, &SET_NEEDS_NO_MEMORY);
    let set = HashSet::with_hasher(Observed::new(rt.alloc(), &log), state);
    answers(&rt, &log, set, &SET_GROWS, &SET_NEEDS_NO_MEMORY);
    assert_equal!(rt; log.amiss(), 0);
}

#[test]
fn keys_are_hashed_by_the_state_handed_in(rt: HostRuntime) {
    let state = RandomState::new(&rt).expect(&rt, "");
    let mut map: HashMap<u32, u32, RandomState> = HashMap::with_hasher(rt.alloc(), state);
    for key in 0..200u32 {
        map.insert(key, key.wrapping_mul(3)).expect(&rt, "");
    }
    let copy = map.clone().expect(&rt, "");
    for key in 0..200u32 {
        assert_equal!(rt; (map.get(&key), copy.get(&key)), (Some(&key.wrapping_mul(3)), Some(&key.wrapping_mul(3))));
    }
    assert_equal!(rt; (copy == map, map.remove(&7), copy == map), (true, Some(21), false));
}
