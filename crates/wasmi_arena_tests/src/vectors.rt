//! Vectors: worked places, lengths and walks, the Rust crate's own cases, and texts.
use crate::items::counted;
use std::alloc::Global;
use std::cmp::Ordering;
use std::hash::{DefaultHasher, Hash, Hasher};
use std::process::Abort;
use wasmi_arena::{ArenaError, StableArena, StableVec};
use wasmi_vectors::assert_equal;
use wasmi_vectors::noted::{Noted, Notes};

#[test]
fn places_are_those_of_the_table(rt: HostRuntime) {
    for (index, place) in [
        (0, (0, 0)),
        (31, (0, 31)),
        (32, (1, 0)),
        (95, (1, 63)),
        (96, (2, 0)),
        (223, (2, 127)),
        (2147483615, (25, 1073741823)),
        (2147483616, (26, 0)),
        (4294967263, (26, 2147483647)),
    ] {
        assert!(rt; index < 4294967264);
        assert_equal!(rt; StableVec::<u8>::place(index), place, at index);
    }
    for (bucket, size) in [(0, 32), (1, 64), (2, 128), (26, 2147483648)] {
        assert!(rt; bucket < 27);
        assert_equal!(rt; StableVec::<u8>::size_of_bucket_at(bucket), size, at bucket);
    }
}

#[test]
fn buckets_are_the_fewest(rt: HostRuntime) {
    for (len, open, slots) in [
        (0, 0, 0),
        (1, 1, 32),
        (32, 1, 32),
        (33, 2, 96),
        (96, 2, 96),
        (97, 3, 224),
    ] {
        let vec = counted(rt.alloc(), len).expect(&rt, "");
        let taken = vec.room() + vec.len();
        assert_equal!(rt; (vec.open_buckets(), vec.slots(), taken), (open, slots, slots), at len);
        drop(vec);
    }
}

#[test]
fn two_hundred_pushes(rt: HostRuntime) {
    let mut vec = StableVec::new(rt.alloc());
    for i in 0..200usize {
        assert_equal!(rt; vec.push(i), Ok(i));
    }
    assert_equal!(rt; (vec.len(), vec.is_empty(), vec.get(200), vec.room()), (200, false, None, 24));
    for (bucket, len, capacity) in [(0, 32, 32), (1, 64, 64), (2, 104, 128)] {
        let open = vec.bucket(bucket).expect(&rt, "not open");
        assert_equal!(rt; (open.slice().len(), open.capacity()), (len, capacity));
    }
    assert_equal!(rt; (vec.bucket(3).is_none(), vec.bucket(27).is_none()), (true, true));
    for i in 0..200usize {
        assert_equal!(rt; vec.get(i), Some(&i));
    }
    drop(vec);
}

#[test]
fn an_empty_vector_has_no_item(rt: HostRuntime) {
    let vec: StableVec<u32> = StableVec::new(rt.alloc());
    assert_equal!(rt; (vec.len(), vec.is_empty(), vec.iter().len()), (0, true, 0));
    let ends = (vec.first().is_none(), vec.last().is_none());
    assert_equal!(rt; (vec.get(0).is_none(), ends), (true, (true, true)));
    let walks = (
        vec.iter().next().is_none(),
        vec.iter().next_back().is_none(),
    );
    assert_equal!(rt; walks, (true, true));
    drop(vec);
}

fn ends_meet(rt: &impl Abort, alloc: Global) {
    let vec = counted(alloc, 100).expect(rt, "");
    let mut items = vec.iter();
    assert_equal!(*rt; (items.len(), items.next()), (100, Some(&0)));
    assert_equal!(*rt; (items.next_back(), items.len()), (Some(&99), 98));
    for front in 1..50u32 {
        assert_equal!(*rt; (items.next(), items.next_back()), (Some(&front), Some(&(99 - front))));
    }
    assert_equal!(*rt; (items.len(), items.next(), items.next_back()), (0, None, None));
    drop(vec);
}

fn ends_in_two_buckets(rt: &impl Abort, alloc: Global) {
    // The front has left the first bucket when the back comes from the third.
    let three = counted(alloc, 97).expect(rt, "");
    let mut ends = three.iter();
    for wanted in 0..32u32 {
        assert_equal!(*rt; ends.next(), Some(&wanted));
    }
    assert_equal!(*rt; (ends.next_back(), ends.next()), (Some(&96), Some(&32)));
    assert_equal!(*rt; (ends.next_back(), ends.len()), (Some(&95), 62));
    drop(three);
}

#[test]
fn walks_from_both_ends(rt: HostRuntime) {
    ends_meet(&rt, rt.alloc());
    ends_in_two_buckets(&rt, rt.alloc());
}

// By value, from the front and the back in turn, within a bucket and across buckets.
#[test]
fn both_ends_give_items_away(rt: HostRuntime) {
    for len in [2u32, 7, 32, 40, 101] {
        let mut items = counted(rt.alloc(), len).expect(&rt, "").into_iter();
        let arena = StableArena::<u32, u32>::from_iter(rt.alloc(), 0..len);
        let mut entries = arena.expect(&rt, "").into_iter();
        for (front, back) in (0..len / 2).zip((0..len).rev()) {
            assert_equal!(rt; (items.next(), items.next_back()), (Some(front), Some(back)), at len);
            let ends = (entries.next(), entries.next_back());
            assert_equal!(rt; ends, (Some((front, front)), Some((back, back))), at len);
        }
        let left = len % 2 == 1;
        assert_equal!(rt; (items.len(), entries.len()), (left as usize, left as usize));
        assert_equal!(rt; (items.next_back().is_some(), items.next()), (left, None), at len);
        assert_equal!(rt; (entries.next_back().is_some(), entries.next()), (left, None), at len);
        drop(items);
        drop(entries);
    }
}

// Whether a walk gives a hundred items, which are 0, 2, 4 and so on.
fn are_doubled(vec: &StableVec<u32>) -> bool {
    let mut items = vec.iter();
    for index in 0..100u32 {
        if items.next() != Some(&index.wrapping_mul(2)) {
            return false;
        }
    }
    items.next().is_none()
}

// The same from the last one on.
fn are_doubled_backward(vec: &StableVec<u32>) -> bool {
    let mut items = vec.iter().rev();
    for index in (0..100u32).rev() {
        if items.next() != Some(&index.wrapping_mul(2)) {
            return false;
        }
    }
    items.next().is_none()
}

fn doubled_by_index(rt: &impl Abort, alloc: Global) {
    let mut vec = counted(alloc, 100).expect(rt, "");
    for index in 0..100 {
        let item = vec.get_mut(index).expect(rt, "no item");
        *item = item.wrapping_mul(2);
    }
    assert_equal!(*rt; (are_doubled(&vec), vec.get_mut(100)), (true, None));
    drop(vec);
}

fn doubled_by_a_loop(rt: &impl Abort, alloc: Global) {
    let mut vec = counted(alloc, 100).expect(rt, "");
    for item in vec.iter_mut() {
        *item = item.wrapping_mul(2);
    }
    assert_equal!(*rt; are_doubled_backward(&vec), true);
    drop(vec);
}

// What is written by `get_mut`, and by a loop, is read by a walk and backward.
#[test]
fn items_are_doubled_in_place(rt: HostRuntime) {
    doubled_by_index(&rt, rt.alloc());
    doubled_by_a_loop(&rt, rt.alloc());
}

#[test]
fn fifty_items_extended_by_fifty(rt: HostRuntime) {
    let mut vec = counted(rt.alloc(), 50).expect(&rt, "");
    assert_equal!(rt; vec.extend(50..100), Ok(()));
    let mut next = 0;
    for item in &vec {
        assert_equal!(rt; *item, next);
        next = item.wrapping_add(1);
    }
    assert_equal!(rt; (next, vec.len(), vec.open_buckets()), (100, 100, 3));
    drop(vec);
}

fn hash_of(vec: &StableVec<u32>) -> u64 {
    let mut hasher = DefaultHasher::new();
    vec.hash(&mut hasher);
    hasher.finish()
}

#[test]
fn a_clone_equals_its_source(rt: HostRuntime) {
    let vec = counted(rt.alloc(), 100).expect(&rt, "");
    let mut copy = vec.clone().expect(&rt, "");
    assert_equal!(rt; (&copy, hash_of(&copy)), (&vec, hash_of(&vec)));
    let shorter = counted(rt.alloc(), 99).expect(&rt, "");
    assert!(rt; vec != shorter);
    assert_equal!(rt; copy.push(100), Ok(100));
    assert_equal!(rt; (copy == vec, hash_of(&copy) == hash_of(&vec)), (false, false));
    drop(vec);
    drop(copy);
    drop(shorter);
}

#[test]
fn ord_is_lexicographic(rt: HostRuntime) {
    let a = StableVec::from_iter(rt.alloc(), [1, 2, 3]).expect(&rt, "");
    let b = StableVec::from_iter(rt.alloc(), [1, 2, 4]).expect(&rt, "");
    let c = StableVec::from_iter(rt.alloc(), [1, 2]).expect(&rt, "");
    assert_equal!(rt; (a < b, c < a), (true, true));
    assert_equal!(rt; (a.cmp(&b), c.cmp(&a)), (Ordering::Less, Ordering::Less));
    let same = a.clone().expect(&rt, "");
    assert_equal!(rt; a.cmp(&same), Ordering::Equal);
    assert_equal!(rt; format!(in rt.alloc(); "{a:?}").expect(&rt, "").as_str(), "[1, 2, 3]");
    drop(a);
    drop(b);
    drop(c);
    drop(same);
}

// A vector of the numbers below `len`, and one more.
fn noted<'a>(
    alloc: Global,
    notes: &'a Notes,
    len: u32,
    last: u32,
) -> Result<StableVec<Noted<'a>>, ArenaError> {
    let mut vec = StableVec::new(alloc);
    for number in 0..len {
        vec.push(Noted::new(number, notes))?;
    }
    vec.push(Noted::new(last, notes))?;
    Ok(vec)
}

#[test]
fn lists_of_two_lengths_compare_no_item(rt: HostRuntime) {
    let notes = Notes::new();
    let vec = noted(rt.alloc(), &notes, 95, 95).expect(&rt, "");
    let longer = noted(rt.alloc(), &notes, 96, 96).expect(&rt, "");
    assert_equal!(rt; (vec == longer, notes.compared()), (false, 0));
    drop(vec);
    drop(longer);
}

// Of 97 items, of which the last ones differ.
#[test]
fn each_pair_is_compared_once(rt: HostRuntime) {
    let notes = Notes::new();
    let one = noted(rt.alloc(), &notes, 96, 96).expect(&rt, "");
    let other = noted(rt.alloc(), &notes, 96, 0).expect(&rt, "");
    assert_equal!(rt; (one == other, notes.compared()), (false, 97));
    assert_equal!(rt; (one.cmp(&other), notes.compared()), (Ordering::Greater, 97));
    assert_equal!(rt; (one.partial_cmp(&other), notes.compared()), (Some(Ordering::Greater), 97));
    drop(one);
    drop(other);
}

// Of eight buckets the same text as that of a `Vec`.
#[test]
fn debug_texts_of_vectors(rt: HostRuntime) {
    let (vec, two) = (
        counted(rt.alloc(), 5_000).expect(&rt, ""),
        counted(rt.alloc(), 2).expect(&rt, ""),
    );
    let items: Vec<u32> = (0..5_000).collect(rt.alloc()).expect(&rt, "");
    let text = format!(in rt.alloc(); "{vec:?} {vec:#?}").expect(&rt, "");
    let wanted = format!(in rt.alloc(); "{items:?} {items:#?}").expect(&rt, "");
    assert_equal!(rt; text.as_str(), wanted.as_str());
    let none: StableVec<u32> = StableVec::new(rt.alloc());
    let text = format!(in rt.alloc(); "{two:?} {two:#?} {none:?}").expect(&rt, "");
    assert_equal!(rt; text.as_str(), "[0, 1] [\n    0,\n    1,\n] []");
    drop(vec);
    drop(two);
    drop(none);
}
