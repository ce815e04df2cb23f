//! How often calls of ordered maps and sets compare and clone.
use std::alloc::{AllocError, Global};
use wasmi_arena::ArenaError;
use wasmi_ordered::map::Entry;
use wasmi_ordered::{Map, Set};
use wasmi_vectors::assert_equal;
use wasmi_vectors::noted::{Noted, Notes};

// Whether a call of each kind compares as often as a read of the key does, in a map where it is there or isn't.
fn compares_as_a_read<'a>(
    map: &mut Map<Noted<'a>, u32>,
    set: &mut Set<Noted<'a>>,
    same: &mut Set<Noted<'a>>,
    notes: &Notes,
    key: (Noted<'a>, Noted<'a>, Noted<'a>),
) -> Result<bool, ArenaError> {
    let _there = map.contains_key(&key.0);
    let read = notes.compared();
    map.insert(key.0, 1)?;
    let inserted = notes.compared();
    let there = set.contains(&key.1);
    let found = notes.compared();
    set.replace(key.1)?;
    let replaced = notes.compared();
    same.insert(key.2)?;
    let is_one = inserted == read && notes.compared() == found;
    Ok(is_one && (replaced == found || !there && replaced == found.wrapping_mul(2)))
}

#[test]
fn a_call_compares_as_a_read_does(rt: HostRuntime) {
    let notes = Notes::new();
    let mut map: Map<Noted<'_>, u32> = Map::new(rt.alloc());
    let mut set: Set<Noted<'_>> = Set::new(rt.alloc());
    let mut same: Set<Noted<'_>> = Set::new(rt.alloc());
    for number in 0..80u32 {
        let key = number / 2;
        let keys = (
            Noted::new(key, &notes),
            Noted::new(key, &notes),
            Noted::new(key, &notes),
        );
        assert!(rt;
            compares_as_a_read(&mut map, &mut set, &mut same, &notes, keys).expect(&rt, ""),
            "of {number}"
        );
    }
}

// How often the calls on the place of a key compare: it is put in, changed and taken out.
fn compared_by_a_place<'a>(
    map: &mut Map<Noted<'a>, u32>,
    notes: &Notes,
    key: Noted<'a>,
) -> Result<u64, ArenaError> {
    let entry = map.entry(key)?;
    notes.compared();
    match entry {
        Entry::Vacant(place) => {
            place.insert(1)?;
        }
        Entry::Occupied(mut place) => {
            let value = place.get().wrapping_add(1);
            if value < 3 {
                place.insert(value);
            } else {
                place.remove();
            }
        }
    }
    Ok(notes.compared())
}

#[test]
fn a_place_compares_nothing(rt: HostRuntime) {
    let notes = Notes::new();
    let mut map: Map<Noted<'_>, u32> = Map::new(rt.alloc());
    for number in 0..90u32 {
        let key = Noted::new(number / 3, &notes);
        assert_equal!(rt; compared_by_a_place(&mut map, &notes, key), Ok(0), at number);
    }
    assert!(rt; map.is_empty());
}

// The elements from one number on, so many of them.
fn elements<'a>(
    alloc: Global,
    first: u32,
    len: u32,
    notes: &'a Notes,
) -> Result<Set<Noted<'a>>, ArenaError> {
    Set::from_iter(
        alloc,
        (0..len).map(|more| Noted::new(first.wrapping_add(more), notes)),
    )
}

#[test]
fn a_set_of_two_clones_what_it_has(rt: HostRuntime) {
    let notes = Notes::new();
    let one = elements(rt.alloc(), 0, 100, &notes).expect(&rt, "");
    let other = elements(rt.alloc(), 50, 100, &notes).expect(&rt, "");
    assert_equal!(rt; (one.bitor(&other).expect(&rt, "").len(), notes.cloned()), (150, 150));
    assert_equal!(rt; (one.bitand(&other).expect(&rt, "").len(), notes.cloned()), (50, 50));
    assert_equal!(rt; (one.bitxor(&other).expect(&rt, "").len(), notes.cloned()), (100, 100));
    assert_equal!(rt; (one.sub(&other).expect(&rt, "").len(), notes.cloned()), (50, 50));
}

#[test]
fn a_test_of_two_sets_is_linear(rt: HostRuntime) {
    let notes = Notes::new();
    let one = elements(rt.alloc(), 0, 100, &notes).expect(&rt, "");
    let other = elements(rt.alloc(), 0, 101, &notes).expect(&rt, "");
    let behind = elements(rt.alloc(), 100, 100, &notes).expect(&rt, "");
    let same = elements(rt.alloc(), 0, 100, &notes).expect(&rt, "");
    notes.compared();
    assert_equal!(rt; (one == same, notes.compared()), (true, 100));
    let answers = (one.is_subset(&other), notes.compared() <= 201);
    assert_equal!(rt; answers, (true, true));
    let answers = (other.is_superset(&one), notes.compared() <= 201);
    assert_equal!(rt; answers, (true, true));
    let answers = (one.is_disjoint(&behind), notes.compared() <= 200);
    assert_equal!(rt; answers, (true, true));
    // Of one the even numbers, of the other the odd ones.
    let mut even: Set<Noted<'_>> = Set::new(rt.alloc());
    let mut odd: Set<Noted<'_>> = Set::new(rt.alloc());
    for number in 0..1_000u32 {
        let element = Noted::new(number, &notes);
        if number % 2 == 0 {
            even.insert(element).expect(&rt, "");
        } else {
            odd.insert(element).expect(&rt, "");
        }
    }
    notes.compared();
    let answers = (even.is_disjoint(&odd), notes.compared() <= 1_004);
    assert_equal!(rt; answers, (true, true));
}

// Of an ordered map: `try_insert` and an index beside a read of the key.
fn compared_by_a_call<'a>(
    map: &mut Map<Noted<'a>, u32>,
    notes: &'a Notes,
    number: u32,
) -> Result<[u64; 3], ArenaError> {
    let key = Noted::new(number, notes);
    notes.compared();
    let there = map.contains_key(&key);
    let read = notes.compared();
    if there {
        let _value = map[&key];
    } else {
        let _value = map.get(&key);
    }
    let indexed = notes.compared();
    let _back = map.try_insert(key, 1)?;
    Ok([read, indexed, notes.compared()])
}

#[test]
fn a_call_searches_once(rt: HostRuntime) {
    let notes = Notes::new();
    let mut map: Map<Noted<'_>, u32> = Map::new(rt.alloc());
    for number in 0..80u32 {
        let [read, indexed, inserted] = compared_by_a_call(&mut map, &notes, number / 2).expect(
            &rt, "",
        );
        assert_equal!(rt; (indexed, inserted), (read, read), at number);
    }
}

#[test]
fn an_ordered_entry_compares_as_a_read_does(rt: HostRuntime) {
    let notes = Notes::new();
    let mut map: Map<Noted<'_>, u32> = Map::new(rt.alloc());
    for number in 0..100 {
        for kept in [false, true] {
            let key = Noted::new(number, &notes);
            assert_equal!(rt; map.contains_key(&key), kept);
            let read = notes.compared();
            map.entry(key)
                .expect(&rt, "")
                .or_insert(number)
                .expect(&rt, "");
            assert_equal!(rt; notes.compared(), read, at number);
        }
    }
}

// A key of one number.
fn vector<'a>(alloc: Global, number: u32, notes: &'a Notes) -> Result<Vec<Noted<'a>>, AllocError> {
    Ok(Vec::from_array(alloc, [Noted::new(number, notes)])?)
}

// Whether one of the calls by a slice finds a key.
fn finds_slice<'a>(
    map: &mut Map<Vec<Noted<'a>>, u32>,
    set: &mut Set<Vec<Noted<'a>>>,
    call: u32,
    key: &[Noted<'a>],
) -> bool {
    match call {
        0 => map.get_slice(key).is_some(),
        1 => map.get_mut_slice(key).is_some(),
        2 => map.get_key_value_slice(key).is_some(),
        3 => map.contains_key_slice(key),
        4 => map.remove_slice(key).is_some(),
        5 => map.remove_entry_slice(key).is_some(),
        6 => set.contains_slice(key),
        7 => set.get_slice(key).is_some(),
        8 => set.remove_slice(key),
        _ => set.take_slice(key).is_some(),
    }
}

#[test]
fn a_slice_is_searched_as_its_vector(rt: HostRuntime) {
    let notes = Notes::new();
    for call in 0..10 {
        for number in [0, 57, 99, 100] {
            let mut map: Map<Vec<Noted<'_>>, u32> = Map::new(rt.alloc());
            let mut set: Set<Vec<Noted<'_>>> = Set::new(rt.alloc());
            for key in 0..100u32 {
                let one = vector(rt.alloc(), key, &notes).expect(&rt, "");
                map.insert(one, key).expect(&rt, "");
                let one = vector(rt.alloc(), key, &notes).expect(&rt, "");
                set.insert(one).expect(&rt, "");
            }
            let key = vector(rt.alloc(), number, &notes).expect(&rt, "");
            notes.compared();
            map.contains_key(&key);
            let read = notes.compared();
            let is_there = finds_slice(&mut map, &mut set, call, key.as_slice());
            assert_equal!(rt; (is_there, notes.compared()), (number < 100, read), at (call, number));
        }
    }
}
