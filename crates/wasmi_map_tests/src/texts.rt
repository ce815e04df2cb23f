//! Keys that are texts or vectors, looked up by a `&str` or a slice, without memory.
use std::process::Abort;
use wasmi_hashed as hashed;
use wasmi_ordered as ordered;
use wasmi_vectors::assert_equal;
use wasmi_vectors::logged::Logged;
use wasmi_vectors::observed::Log;

// The value of an entry that was taken out.
fn value_of<K: Drop>(taken: Option<(K, i32)>) -> Option<i32> {
    match taken {
        Some((_, value)) => Some(value),
        None => None,
    }
}

// Whether this text was taken out.
fn is_text(taken: Option<String<Logged<'_>>>, text: &str) -> bool {
    match taken {
        Some(taken) => taken.as_str() == text,
        None => false,
    }
}

// Whether these items were.
fn is_slice(taken: Option<Vec<u8, Logged<'_>>>, items: &[u8]) -> bool {
    match taken {
        Some(taken) => taken.as_slice() == items,
        None => false,
    }
}

// Of a new map. Every request is refused once three texts are in.
macro_rules! map_by_text {
    ($rt:ident, $log:ident, $heap:ident, $map:expr) => {{
        let mut map = $map;
        for (text, value) in [("a", 1), ("", 0), ("ab", 3)] {
            map.insert(String::from_str($heap, text).expect($rt, ""), value)
                .expect($rt, "");
        }
        $log.refuse_from(1);
        let asked = $log.requests();
        if let Some(value) = map.get_mut_str("a") {
            *value = 11;
        }
        assert_equal!(*$rt; (map.get_str("a"), map.get_str("b")), (Some(&11), None));
        assert_equal!(*$rt; (map.contains_key_str(""), map.contains_key_str("ba")), (true, false));
        if map.contains_key_str("a") {
            assert_equal!(*$rt; map["a"], 11);
        }
        let entry = map.get_key_value_str("ab");
        assert!(*$rt; entry.is_some_and(|(key, value)| (key.as_str(), *value) == ("ab", 3)));
        assert_equal!(*$rt; (map.remove_str(""), map.remove_str("b")), (Some(0), None));
        assert_equal!(*$rt; value_of(map.remove_entry_str("ab")), Some(3));
        assert_equal!(*$rt; (map.len(), map.get_key_value_str("ab").is_some()), (1, false));
        assert_equal!(*$rt; $log.requests(), asked);
        $log.refuse_none();
    }};
}

// The same of a new set.
macro_rules! set_by_text {
    ($rt:ident, $log:ident, $heap:ident, $set:expr) => {{
        let mut set = $set;
        for text in ["a", "", "ab"] {
            set.insert(String::from_str($heap, text).expect($rt, ""))
                .expect($rt, "");
        }
        $log.refuse_from(1);
        let asked = $log.requests();
        assert_equal!(*$rt; (set.contains_str("a"), set.contains_str("b")), (true, false));
        assert!(*$rt; set.get_str("ab").is_some_and(|there| there.as_str() == "ab"));
        assert_equal!(*$rt; is_text(set.take_str("ab"), "ab"), true);
        assert_equal!(*$rt; (set.remove_str(""), set.remove_str("b"), set.len()), (true, false, 1));
        assert_equal!(*$rt; $log.requests(), asked);
        $log.refuse_none();
    }};
}

fn ordered_map_by_text(rt: &impl Abort, log: &Log, heap: Logged<'_>) {
    map_by_text!(rt, log, heap, ordered::Map::new(heap));
}

fn hashed_map_by_text(rt: &impl Abort, log: &Log, heap: Logged<'_>) {
    map_by_text!(rt, log, heap, hashed::Map::new(heap));
}

fn ordered_set_by_text(rt: &impl Abort, log: &Log, heap: Logged<'_>) {
    set_by_text!(rt, log, heap, ordered::Set::new(heap));
}

fn hashed_set_by_text(rt: &impl Abort, log: &Log, heap: Logged<'_>) {
    set_by_text!(rt, log, heap, hashed::Set::new(heap));
}

#[test]
fn a_text_finds_its_key_without_memory(rt: HostRuntime) {
    let log = Log::new();
    let heap = Logged::new(rt.alloc(), &log);
    ordered_map_by_text(&rt, &log, heap);
    hashed_map_by_text(&rt, &log, heap);
    ordered_set_by_text(&rt, &log, heap);
    hashed_set_by_text(&rt, &log, heap);
    assert_equal!(rt; log.amiss(), 0);
}

// The same of vectors, by a slice.
macro_rules! map_by_slice {
    ($rt:ident, $log:ident, $heap:ident, $map:expr) => {{
        let mut map = $map;
        for (key, value) in [([1, 1u8], 1), ([1, 2], 3)] {
            map.insert(Vec::from_array($heap, key).expect($rt, ""), value)
                .expect($rt, "");
        }
        let (one, other, none) = ([1, 1u8].as_slice(), [1, 2].as_slice(), [1].as_slice());
        $log.refuse_from(1);
        let asked = $log.requests();
        if let Some(value) = map.get_mut_slice(one) {
            *value = 11;
        }
        assert_equal!(*$rt; (map.get_slice(one), map.get_slice(none)), (Some(&11), None));
        assert_equal!(*$rt; (map.contains_key_slice(other), map.contains_key_slice(none)), (true, false));
        let entry = map.get_key_value_slice(other);
        assert!(*$rt; entry.is_some_and(|(key, value)| (key.as_slice(), *value) == (other, 3)));
        assert_equal!(*$rt; (map.remove_slice(one), map.remove_slice(none)), (Some(11), None));
        assert_equal!(*$rt; (value_of(map.remove_entry_slice(other)), map.len()), (Some(3), 0));
        assert_equal!(*$rt; $log.requests(), asked);
        $log.refuse_none();
    }};
}

// The same of a new set.
macro_rules! set_by_slice {
    ($rt:ident, $log:ident, $heap:ident, $set:expr) => {{
        let mut set = $set;
        for key in [[1, 1u8], [1, 2]] {
            set.insert(Vec::from_array($heap, key).expect($rt, ""))
                .expect($rt, "");
        }
        let (one, other, none) = ([1, 1u8].as_slice(), [1, 2].as_slice(), [1].as_slice());
        $log.refuse_from(1);
        let asked = $log.requests();
        assert_equal!(*$rt; (set.contains_slice(one), set.contains_slice(none)), (true, false));
        assert!(*$rt; set.get_slice(other).is_some_and(|there| there.as_slice() == other));
        assert_equal!(*$rt; is_slice(set.take_slice(other), other), true);
        assert_equal!(*$rt; (set.remove_slice(one), set.remove_slice(none), set.len()), (true, false, 0));
        assert_equal!(*$rt; $log.requests(), asked);
        $log.refuse_none();
    }};
}

fn ordered_map_by_slice(rt: &impl Abort, log: &Log, heap: Logged<'_>) {
    map_by_slice!(rt, log, heap, ordered::Map::new(heap));
}

fn hashed_map_by_slice(rt: &impl Abort, log: &Log, heap: Logged<'_>) {
    map_by_slice!(rt, log, heap, hashed::Map::new(heap));
}

fn ordered_set_by_slice(rt: &impl Abort, log: &Log, heap: Logged<'_>) {
    set_by_slice!(rt, log, heap, ordered::Set::new(heap));
}

fn hashed_set_by_slice(rt: &impl Abort, log: &Log, heap: Logged<'_>) {
    set_by_slice!(rt, log, heap, hashed::Set::new(heap));
}

#[test]
fn a_slice_finds_its_key_without_memory(rt: HostRuntime) {
    let log = Log::new();
    let heap = Logged::new(rt.alloc(), &log);
    ordered_map_by_slice(&rt, &log, heap);
    hashed_map_by_slice(&rt, &log, heap);
    ordered_set_by_slice(&rt, &log, heap);
    hashed_set_by_slice(&rt, &log, heap);
    assert_equal!(rt; log.amiss(), 0);
}
