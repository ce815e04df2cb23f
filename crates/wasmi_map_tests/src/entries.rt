//! What entries and refused calls of both backings drop.
use std::alloc::Global;
use std::cell::Cell;
use std::process::Abort;
use std::rc::Rc;
use std::test::Fail;
use wasmi_hashed::hash::FixedState;
use wasmi_hashed::{Set as HashSet, map as hashed};
use wasmi_ordered::{Set as TreeSet, map as ordered};
use wasmi_vectors::assert_equal;
use wasmi_vectors::counted::Counted;
use wasmi_vectors::logged::Logged;
use wasmi_vectors::noted::{Noted, Notes};
use wasmi_vectors::observed::Log;

// An element that finds no memory is dropped, and so are those of a set that is cleared.
macro_rules! set_drops {
    ($rt:ident, $set:expr, $log:ident, $notes:ident) => {{
        let mut set = $set;
        $log.refuse_from(1);
        assert_equal!(*$rt; set.replace(Noted::new(1, &$notes)).is_err(), true);
        assert_equal!(*$rt; $notes.dropped(), 1);
        assert_equal!(*$rt; set.insert(Noted::new(1, &$notes)).is_err(), true);
        assert_equal!(*$rt; $notes.dropped(), 1);
        $log.refuse_none();
        for number in 0..100 {
            assert_equal!(*$rt; set.insert(Noted::new(number, &$notes)).is_ok(), true);
        }
        set.clear();
        assert_equal!(*$rt; $notes.dropped(), 100);
    }};
}

// The same of the keys of a map.
macro_rules! map_drops {
    ($rt:ident, $map:expr, $log:ident, $notes:ident) => {{
        let mut map = $map;
        $log.refuse_from(1);
        assert_equal!(*$rt; map.entry(Noted::new(1, &$notes)).is_err(), true);
        assert_equal!(*$rt; $notes.dropped(), 1);
        $log.refuse_none();
        for number in 0..100 {
            assert_equal!(*$rt; map.insert(Noted::new(number, &$notes), 0).is_ok(), true);
        }
        map.clear();
        assert_equal!(*$rt; $notes.dropped(), 100);
    }};
}

fn ordered_set_drops(rt: &impl Abort, alloc: Global) {
    let (log, notes) = (Log::new(), Notes::new());
    let set: TreeSet<Noted<'_>, Logged<'_>> = TreeSet::new(Logged::new(alloc, &log));
    set_drops!(rt, set, log, notes);
}

fn hashed_set_drops(rt: &impl Abort, alloc: Global) {
    let (log, notes) = (Log::new(), Notes::new());
    let set: HashSet<Noted<'_>, FixedState, Logged<'_>> = HashSet::new(Logged::new(alloc, &log));
    set_drops!(rt, set, log, notes);
}

fn ordered_map_drops(rt: &impl Abort, alloc: Global) {
    let (log, notes) = (Log::new(), Notes::new());
    let heap = Logged::new(alloc, &log);
    let map: ordered::Map<Noted<'_>, u32, Logged<'_>> = ordered::Map::new(heap);
    map_drops!(rt, map, log, notes);
}

fn hashed_map_drops(rt: &impl Abort, alloc: Global) {
    let (log, notes) = (Log::new(), Notes::new());
    let heap = Logged::new(alloc, &log);
    let map: hashed::Map<Noted<'_>, u32, FixedState, Logged<'_>> = hashed::Map::new(heap);
    map_drops!(rt, map, log, notes);
}

#[test]
fn what_finds_no_memory_or_is_cleared_is_dropped(rt: HostRuntime) {
    ordered_set_drops(&rt, rt.alloc());
    hashed_set_drops(&rt, rt.alloc());
    ordered_map_drops(&rt, rt.alloc());
    hashed_map_drops(&rt, rt.alloc());
}

// Values that an entry doesn't keep.
macro_rules! values {
    ($rt:ident, $map:expr, $drops:ident) => {{
        let mut map = $map;
        map.entry(1)?.or_insert(Counted::new(&$drops))?;
        assert_equal!($rt; $drops.get(), 0);
        map.entry(1)?.or_insert(Counted::new(&$drops))?;
        assert_equal!($rt; $drops.get(), 1);
        let held = Counted::new(&$drops);
        map.entry(1)?.or_insert_with(move || held)?;
        assert_equal!($rt; $drops.get(), 2);
        let held = Counted::new(&$drops);
        map.entry(1)?.or_insert_with_key(move |_| held)?;
        assert_equal!($rt; $drops.get(), 3);
        let held = Counted::new(&$drops);
        drop(map.entry(2)?.and_modify(move |value| *value = held));
        assert_equal!($rt; $drops.get(), 4);
        drop(map);
        assert_equal!($rt; $drops.get(), 5);
        Ok(())
    }};
}

#[test]
fn an_ordered_entry_drops_the_values_that_it_does_not_keep(rt: HostRuntime) -> Result<(), Fail> {
    let drops = Cell::new(0);
    let map: ordered::Map<u32, Counted<'_>> = ordered::Map::new(rt.alloc());
    values!(rt, map, drops)
}

#[test]
fn a_hashed_entry_drops_the_values_that_it_does_not_keep(rt: HostRuntime) -> Result<(), Fail> {
    let drops = Cell::new(0);
    let map: hashed::Map<u32, Counted<'_>> = hashed::Map::new(rt.alloc());
    values!(rt, map, drops)
}

// The key that was there, and the one that was asked for.
macro_rules! removed {
    ($rt:ident, $backing:ident) => {{
        let seven = Rc::new($rt.alloc(), 7u32).expect(&$rt, "");
        let mut map = $backing::Map::new($rt.alloc());
        let key = seven.clone().expect(&$rt, "");
        map.entry(key).expect(&$rt, "").or_insert(10).expect(&$rt, "");
        assert_equal!($rt; Rc::strong_count(&seven), 2);
        let key = seven.clone().expect(&$rt, "");
        if let $backing::Entry::Occupied(occupied) = map.entry(key).expect(&$rt, "") {
            assert_equal!($rt; occupied.remove(), 10);
        }
        assert_equal!($rt; (map.len(), Rc::strong_count(&seven)), (0, 1));
    }};
}

#[test]
fn an_entry_that_is_removed_drops_its_key(rt: HostRuntime) {
    removed!(rt, ordered);
    removed!(rt, hashed);
}
