//! A call by a `&str` or a slice on a hashed map or set hashes once; and a map's state stays.
ghost use Rattle.std.specs.Hash.BuildHasherDefault.{initial_hasher};

use std::alloc::{AllocError, Global};
use std::cell::Cell;
use std::hash::{BuildHasher, FoldHasher};
use std::process::Abort;
use wasmi_hashed::hash::FixedState;
use wasmi_hashed::map::Entry;
use wasmi_hashed::{Map, Set};
use wasmi_vectors::assert_equal;

// A state that counts the hashers that it makes.
#[derive(Clone, Copy)]
struct Counting<'a> {
    state: FixedState,
    made: &'a Cell<u64>,
}

impl BuildHasher for Counting<'_> {
    type Hasher = FoldHasher;

    ghost build_hasher = { λ counting. initial_hasher counting.state };

    fn build_hasher(&self) -> FoldHasher {
        self.made.set(self.made.get().wrapping_add(1));
        self.state.build_hasher()
    }
}

impl<'a> Counting<'a> {
    fn new(made: &'a Cell<u64>) -> Counting<'a> {
        Counting {
            state: FixedState::new(),
            made,
        }
    }
}

// By the calls of a map.
macro_rules! map_hashes_once {
    (
        $rt:ident, $alloc:ident, $owned:ident, $key:expr, $get:ident, $contains_key:ident, $get_mut:ident,
        $get_key_value:ident, $remove:ident, $remove_entry:ident
    ) => {{
        let made = Cell::new(0);
        let mut map = Map::with_hasher($alloc, Counting::new(&made));
        for is_first in [true, false] {
            map.insert($owned($alloc).expect($rt, ""), 1)
                .expect($rt, "");
            made.set(0);
            if is_first {
                assert_equal!(*$rt; (map.$get($key), made.replace(0)), (Some(&1), 1));
                assert_equal!(*$rt; (map.$contains_key($key), made.replace(0)), (true, 1));
                assert_equal!(*$rt; (map.$get_mut($key).is_some(), made.replace(0)), (true, 1));
                assert_equal!(*$rt; (map.$get_key_value($key).is_some(), made.replace(0)), (true, 1));
                assert_equal!(*$rt; (map.$remove_entry($key).is_some(), made.replace(0)), (true, 1));
            } else {
                assert_equal!(*$rt; (map.$remove($key), made.replace(0)), (Some(1), 1));
            }
        }
    }};
}

// By the calls of a set.
macro_rules! set_hashes_once {
    (
        $rt:ident, $alloc:ident, $owned:ident, $key:expr, $contains:ident, $get:ident, $take:ident, $remove:ident
    ) => {{
        let made = Cell::new(0);
        let mut set = Set::with_hasher($alloc, Counting::new(&made));
        for is_first in [true, false] {
            set.insert($owned($alloc).expect($rt, "")).expect($rt, "");
            made.set(0);
            if is_first {
                assert_equal!(*$rt; (set.$contains($key), made.replace(0)), (true, 1));
                assert_equal!(*$rt; (set.$get($key).is_some(), made.replace(0)), (true, 1));
                assert_equal!(*$rt; (set.$take($key).is_some(), made.replace(0)), (true, 1));
            } else {
                assert_equal!(*$rt; (set.$remove($key), made.replace(0)), (true, 1));
            }
        }
    }};
}

fn text(alloc: Global) -> Result<String, AllocError> {
    String::from_str(alloc, "a")
}

fn items(alloc: Global) -> Result<Vec<u8>, AllocError> {
    Ok(Vec::from_array(alloc, [1, 2])?)
}

fn map_of_texts(rt: &impl Abort, alloc: Global) {
    map_hashes_once!(
        rt,
        alloc,
        text,
        "a",
        get_str,
        contains_key_str,
        get_mut_str,
        get_key_value_str,
        remove_str,
        remove_entry_str
    );
}

fn set_of_texts(rt: &impl Abort, alloc: Global) {
    set_hashes_once!(
        rt,
        alloc,
        text,
        "a",
        contains_str,
        get_str,
        take_str,
        remove_str
    );
}

#[test]
fn a_text_is_hashed_once(rt: HostRuntime) {
    map_of_texts(&rt, rt.alloc());
    set_of_texts(&rt, rt.alloc());
}

fn map_of_slices(rt: &impl Abort, alloc: Global) {
    map_hashes_once!(
        rt,
        alloc,
        items,
        &[1, 2],
        get_slice,
        contains_key_slice,
        get_mut_slice,
        get_key_value_slice,
        remove_slice,
        remove_entry_slice
    );
}

fn set_of_slices(rt: &impl Abort, alloc: Global) {
    set_hashes_once!(
        rt,
        alloc,
        items,
        &[1, 2],
        contains_slice,
        get_slice,
        take_slice,
        remove_slice
    );
}

#[test]
fn a_slice_is_hashed_once(rt: HostRuntime) {
    map_of_slices(&rt, rt.alloc());
    set_of_slices(&rt, rt.alloc());
}

// Where an entry was taken out. A map that makes its hashers otherwise would count none.
#[test]
fn a_map_keeps_its_state(rt: HostRuntime) {
    let made = Cell::new(0);
    let mut map: Map<u32, u32, Counting<'_>> = Map::with_hasher(rt.alloc(), Counting::new(&made));
    map.insert(0, 7).expect(&rt, "");
    if let Ok(Entry::Occupied(entry)) = map.entry(0) {
        assert_equal!(rt; entry.remove(), 7);
    }
    made.set(0);
    assert_equal!(rt; (map.insert(0, 8), made.replace(0)), (Ok(None), 1));
}
