//! How often calls of both backings compare, hash and clone.
use std::alloc::Global;
use std::process::Abort;
use wasmi_arena::ArenaError;
use wasmi_hashed as hashed;
use wasmi_ordered::{Map, Set};
use wasmi_vectors::assert_equal;
use wasmi_vectors::noted::{Noted, Notes};

// A map of the noted keys from 0 on, each over itself.
fn ordered_map<'a>(
    alloc: Global,
    notes: &'a Notes,
    len: u32,
) -> Result<Map<Noted<'a>, u32>, ArenaError> {
    let mut map = Map::new(alloc);
    for key in 0..len {
        map.insert(Noted::new(key, notes), key)?;
    }
    Ok(map)
}

fn hashed_map<'a>(
    alloc: Global,
    notes: &'a Notes,
    len: u32,
) -> Result<hashed::Map<Noted<'a>, u32>, ArenaError> {
    let mut map = hashed::Map::new(alloc);
    for key in 0..len {
        map.insert(Noted::new(key, notes), key)?;
    }
    Ok(map)
}

// The same of a set.
fn ordered_set<'a>(
    alloc: Global,
    notes: &'a Notes,
    len: u32,
) -> Result<Set<Noted<'a>>, ArenaError> {
    let mut set = Set::new(alloc);
    for element in 0..len {
        set.insert(Noted::new(element, notes))?;
    }
    Ok(set)
}

fn hashed_set<'a>(
    alloc: Global,
    notes: &'a Notes,
    len: u32,
) -> Result<hashed::Set<Noted<'a>>, ArenaError> {
    let mut set = hashed::Set::new(alloc);
    for element in 0..len {
        set.insert(Noted::new(element, notes))?;
    }
    Ok(set)
}

#[test]
fn each_key_is_cloned_once(rt: HostRuntime) {
    let notes = Notes::new();
    let map = ordered_map(rt.alloc(), &notes, 100).expect(&rt, "");
    assert_equal!(rt; (map.clone().expect(&rt, "").len(), notes.cloned()), (100, 100));
    let map = hashed_map(rt.alloc(), &notes, 100).expect(&rt, "");
    assert_equal!(rt; (map.clone().expect(&rt, "").len(), notes.cloned()), (100, 100));
}

// Whether one of nine calls finds a key.
macro_rules! finds {
    ($map:ident, $set:ident, $call:ident, $key:ident) => {
        match $call {
            0 => $map.get($key).is_some(),
            1 => $map.get_mut($key).is_some(),
            2 => $map.get_key_value($key).is_some(),
            3 => $map.remove($key).is_some(),
            4 => $map.remove_entry($key).is_some(),
            5 => $set.contains($key),
            6 => $set.get($key).is_some(),
            7 => $set.remove($key),
            _ => $set.take($key).is_some(),
        }
    };
}

fn finds_hashed<'a>(
    map: &mut hashed::Map<Noted<'a>, u32>,
    set: &mut hashed::Set<Noted<'a>>,
    call: u32,
    key: &Noted<'a>,
) -> bool {
    finds!(map, set, call, key)
}

fn finds_ordered<'a>(
    map: &mut Map<Noted<'a>, u32>,
    set: &mut Set<Noted<'a>>,
    call: u32,
    key: &Noted<'a>,
) -> bool {
    finds!(map, set, call, key)
}

// A look among the keys below 100 hashes once.
fn look_hashed(rt: &impl Abort, alloc: Global, call: u32, number: u32) {
    let notes = Notes::new();
    let mut map = hashed_map(alloc, &notes, 100).expect(rt, "");
    let mut set = hashed_set(alloc, &notes, 100).expect(rt, "");
    let key = Noted::new(number, &notes);
    notes.hashed();
    let is_there = finds_hashed(&mut map, &mut set, call, &key);
    assert_equal!(*rt; (is_there, notes.hashed()), (number < 100, 1), at (call, number));
}

// It compares as often as `contains_key` does.
fn look_ordered(rt: &impl Abort, alloc: Global, call: u32, number: u32) {
    let notes = Notes::new();
    let mut map = ordered_map(alloc, &notes, 100).expect(rt, "");
    let mut set = ordered_set(alloc, &notes, 100).expect(rt, "");
    let key = Noted::new(number, &notes);
    notes.compared();
    map.contains_key(&key);
    let read = notes.compared();
    let is_there = finds_ordered(&mut map, &mut set, call, &key);
    assert_equal!(*rt; (is_there, notes.compared()), (number < 100, read), at (call, number));
}

#[test]
fn a_look_hashes_or_searches_once(rt: HostRuntime) {
    for call in 0..9 {
        for number in [0, 57, 99, 100] {
            look_hashed(&rt, rt.alloc(), call, number);
            look_ordered(&rt, rt.alloc(), call, number);
        }
    }
}

fn ordered_is_gone_over_once(rt: &impl Abort, alloc: Global) {
    let notes = Notes::new();
    let one = ordered_map(alloc, &notes, 100).expect(rt, "");
    let more = ordered_map(alloc, &notes, 101).expect(rt, "");
    notes.compared();
    assert_equal!(*rt; (one == more, more == one, notes.compared()), (false, false, 0));
    let copy = one.clone().expect(rt, "");
    notes.compared();
    assert_equal!(*rt; (one == copy, notes.compared()), (true, 100));
}

fn hashed_is_gone_over_once(rt: &impl Abort, alloc: Global) {
    let notes = Notes::new();
    let one = hashed_map(alloc, &notes, 100).expect(rt, "");
    let more = hashed_map(alloc, &notes, 101).expect(rt, "");
    notes.hashed();
    assert_equal!(*rt; (one == more, more == one, notes.hashed()), (false, false, 0));
    let copy = one.clone().expect(rt, "");
    notes.hashed();
    assert_equal!(*rt; (one == copy, notes.hashed()), (true, 100));
}

#[test]
fn maps_are_gone_over_once(rt: HostRuntime) {
    ordered_is_gone_over_once(&rt, rt.alloc());
    hashed_is_gone_over_once(&rt, rt.alloc());
}
