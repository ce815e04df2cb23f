//! Head vectors: the worked rows, and an allocator that refuses requests.
use std::alloc::{Allocator, Global};
use std::cmp::Ordering;
use std::process::Abort;
use wasmi_collections::HeadVec;
use wasmi_collections::arena::ArenaError;
use wasmi_vectors::assert_equal;
use wasmi_vectors::noted::{Noted, Notes};
use wasmi_vectors::observed::{Log, Observed};
use wasmi_vectors::tally::{Item, Tally};

// A list of these items.
fn list<T: Copy + Drop>(alloc: Global, items: &[T]) -> Result<HeadVec<T>, ArenaError> {
    let mut list = HeadVec::new(alloc);
    for item in items {
        list.push(*item)?;
    }
    Ok(list)
}

// Compares two lists, of which the items of greater numbers are greater.
fn compare(rt: &impl Abort, this: &HeadVec<i32>, that: &HeadVec<i32>, one: usize, other: usize) {
    let order = one.cmp(&other);
    assert_equal!(*rt; this.cmp(that), order, at (one, other));
    assert_equal!(*rt; this.partial_cmp(that), Some(order), at (one, other));
    assert_equal!(*rt; this == that, one == other, at (one, other));
}

#[test]
fn the_last_items_are_compared_first(rt: HostRuntime) {
    // Ascending.
    let lists = [
        [].as_slice(),
        [1].as_slice(),
        [1, 2, 1].as_slice(),
        [2, 1].as_slice(),
        [2].as_slice(),
        [1, 2].as_slice(),
        [3].as_slice(),
    ];
    for (one, items) in lists.iter().enumerate() {
        let this = list(rt.alloc(), items).expect(&rt, "");
        for (other, items) in lists.iter().enumerate() {
            let that = list(rt.alloc(), items).expect(&rt, "");
            compare(&rt, &this, &that, one, other);
        }
    }
}

// Whether a list has so many items, of which this is the last.
fn ends_with(items: &HeadVec<u32>, len: usize, last: Option<&u32>) -> bool {
    items.len() == len && items.is_empty() == (len == 0) && items.last() == last
}

// A list of 1, 2 and 3, of which the last was written over by 30.
fn three_items(rt: &impl Abort, alloc: Global) -> HeadVec<u32> {
    let mut items = list(alloc, &[1, 2, 3]).expect(rt, "");
    assert_equal!(*rt; ends_with(&items, 3, Some(&3)), true);
    if let Some(last) = items.last_mut() {
        *last = 30;
    }
    items
}

#[test]
fn items_come_back_from_the_end(rt: HostRuntime) {
    let mut items = three_items(&rt, rt.alloc());
    let copy = items.clone().expect(&rt, "");
    for last in [Some(30), Some(2), Some(1), None] {
        assert_equal!(rt; items.pop(), last);
    }
    assert_equal!(rt; ends_with(&items, 0, None), true);
    assert_equal!(rt; items.last_mut().is_none(), true);
    assert_equal!(rt; copy, list(rt.alloc(), &[1, 2, 30]).expect(&rt, ""));
}

#[test]
fn an_empty_list_has_no_last_item(rt: HostRuntime) {
    let mut items: HeadVec<u32> = HeadVec::new(rt.alloc());
    assert_equal!(rt; ends_with(&items, 0, None), true);
    assert_equal!(rt; items.last_mut().is_none(), true);
}

#[test]
fn lists_print_their_items(rt: HostRuntime) {
    let mut items = list(rt.alloc(), &[1, 2, 30]).expect(&rt, "");
    let one = list(rt.alloc(), &[1]).expect(&rt, "");
    assert_equal!(rt; format!(in rt.alloc(); "{items:?} {one:?}").expect(&rt, "").as_str(), "[1, 2, 30] [1]");
    items.clear();
    assert_equal!(rt; &items, &HeadVec::new(rt.alloc()));
    assert_equal!(rt; format!(in rt.alloc(); "{items:?}").expect(&rt, "").as_str(), "[]");
}

#[test]
fn one_item_needs_no_memory(rt: HostRuntime) {
    let log = Log::new();
    log.refuse_from(1);
    let mut items = HeadVec::new(Observed::new(rt.alloc(), &log));
    for _ in 0..3 {
        items.push(5u64).expect(&rt, "");
        assert_equal!(rt; (items.len(), items.last()), (1, Some(&5)));
        let copy = items.clone().expect(&rt, "");
        assert_equal!(rt; &copy, &items);
        assert_equal!(rt; (items.pop(), items.clone().expect(&rt, "").len()), (Some(5), 0));
    }
    assert_equal!(rt; log.requests(), 0);
}

// The items before the last lie in blocks of 4, 8, 16 and so on places.
#[test]
fn a_pop_gives_no_memory_back(rt: HostRuntime) {
    let log = Log::new();
    let mut items = HeadVec::new(Observed::new(rt.alloc(), &log));
    for (len, requests, bytes) in [
        (1, 0, 0),
        (2, 1, 16),
        (5, 1, 16),
        (6, 2, 48),
        (5_000, 12, 65_520),
    ] {
        for _ in items.len()..len {
            items.push(7u32).expect(&rt, "");
        }
        assert_equal!(rt; (log.requests(), log.bytes()), (requests, bytes), at len);
    }
    let returned = log.returned();
    for _ in 0..5_000 {
        assert!(rt; items.pop().is_some());
    }
    assert_equal!(rt; log.returned(), returned);
}

// Pushes a number onto those below it, again where it is refused, which changed nothing. Whether it was.
fn push_again<A: Allocator + Clone>(
    rt: &impl Abort,
    items: &mut HeadVec<usize, A>,
    item: usize,
) -> bool {
    let pushed = items.push(item);
    if let Err(error) = pushed {
        assert_equal!(*rt; (error, items.len()), (ArenaError::OutOfSystemMemory, item));
        let copy = items.clone().expect(rt, "");
        assert_equal!(*rt; ends_with_numbers(copy, item), true, at item);
        items.push(item).expect(rt, "");
    }
    assert_equal!(*rt; items.last(), Some(&item));
    pushed.is_err()
}

#[test]
fn each_request_refused_in_turn(rt: HostRuntime) {
    let mut refusals = 0u64;
    for nth in 1..20u64 {
        let log = Log::new();
        let mut items = HeadVec::new(Observed::new(rt.alloc(), &log));
        log.refuse_once(nth);
        for item in 0..300usize {
            if push_again(&rt, &mut items, item) {
                refusals = refusals.wrapping_add(1);
            }
        }
        assert_equal!(rt; ends_with_numbers(items, 300), true, at nth);
        assert_equal!(rt; log.amiss(), 0);
    }
    // The list grew several times.
    assert_equal!(rt; refusals > 3 && refusals < 19, true);
}

// Whether the items are the numbers below `len`, in order.
fn ends_with_numbers<A: Allocator>(items: HeadVec<usize, A>, len: usize) -> bool {
    let mut items = items;
    let mut all = items.len() == len;
    for item in (0..len).rev() {
        all = all && items.pop() == Some(item);
    }
    all && items.pop().is_none()
}

type Boxes<'l> = HeadVec<Box<u64, Observed<'l>>, Observed<'l>>;

// A list of 102 boxes.
fn boxes<'l>(rt: &impl Abort, alloc: Global, log: &'l Log) -> Boxes<'l> {
    let mut items = HeadVec::new(Observed::new(alloc, log));
    for number in 0..102u64 {
        let item = Box::new(Observed::new(alloc, log), number).expect(rt, "");
        items.push(item).expect(rt, "");
    }
    items
}

#[test]
fn a_refused_clone_leaves_its_source(rt: HostRuntime) {
    let log = Log::new();
    let items = boxes(&rt, rt.alloc(), &log);
    // A box for each item, and a block for all but the last.
    for nth in 1..104u64 {
        log.refuse_once(nth);
        assert_equal!(rt; items.clone().err(), Some(ArenaError::OutOfSystemMemory));
        assert_equal!(rt; (items.len(), items.last().map(|last| **last)), (102, Some(101)));
    }
    log.refuse_none();
    let asked = log.requests();
    let copy = items.clone().expect(&rt, "");
    assert_equal!(rt; (log.requests(), &copy), (asked.wrapping_add(103), &items));
    drop((copy, items));
    assert_equal!(rt; log.amiss(), 0);
}

// Drops two items, after two others, and pushes one.
fn clear_and_push<'t, A: Allocator>(
    rt: &impl Abort,
    tally: &'t Tally,
    items: &mut HeadVec<Item<'t>, A>,
) {
    items.clear();
    assert_equal!(*rt; (tally.dropped().0, items.len()), (4, 0));
    items.push(Item::new(tally, 3)).expect(rt, "");
    assert_equal!(*rt; tally.dropped().0, 4);
}

#[test]
fn each_item_is_dropped_once(rt: HostRuntime) {
    let (log, tally) = (Log::new(), Tally::new());
    let mut items = HeadVec::new(Observed::new(rt.alloc(), &log));
    items.push(Item::new(&tally, 0)).expect(&rt, "");
    log.refuse_from(1);
    let refused = items.push(Item::new(&tally, 9)).err();
    assert_equal!(rt; (refused, tally.dropped()), (Some(ArenaError::OutOfSystemMemory), (1, 0)));
    log.refuse_none();
    for number in [1, 2] {
        items.push(Item::new(&tally, number)).expect(&rt, "");
    }
    assert_equal!(rt; (items.pop().map(|item| item.number()), tally.dropped()), (Some(2), (2, 0)));
    clear_and_push(&rt, &tally, &mut items);
    drop(items);
    assert_equal!(rt; (tally.dropped().0, log.amiss()), (5, 0));
}

#[test]
fn items_without_size(rt: HostRuntime) {
    let mut items = HeadVec::new(rt.alloc());
    for len in 0..40 {
        assert_equal!(rt; (items.len(), items.push(())), (len, Ok(())));
    }
    for len in (0..40).rev() {
        assert_equal!(rt; items.last(), Some(&()));
        assert_equal!(rt; (items.pop(), items.len()), (Some(()), len));
    }
    assert_equal!(rt; items.pop(), None);
}

// Of a hundred items, where the last ones differ.
#[test]
fn the_last_items_alone_are_compared(rt: HostRuntime) {
    let notes = Notes::new();
    let (mut one, mut other) = (HeadVec::new(rt.alloc()), HeadVec::new(rt.alloc()));
    for number in 0..100u32 {
        one.push(Noted::new(number, &notes)).expect(&rt, "");
        other.push(Noted::new(number / 99, &notes)).expect(&rt, "");
    }
    assert_equal!(rt; (one.cmp(&other), notes.compared()), (Ordering::Greater, 1));
    assert_equal!(rt; (one.partial_cmp(&other), notes.compared()), (Some(Ordering::Greater), 1));
    assert_equal!(rt; (one == other, notes.compared()), (false, 1));
}
