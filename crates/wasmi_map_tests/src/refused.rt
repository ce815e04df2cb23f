//! Each request for memory of a call refused in turn, and then the call made again.
use crate::table::{
    Answer, Call, Done, Hash, HashOfSet, Item, Made, Make, More, Number, Table, Tree, TreeOfSet,
    Truth,
};
use std::alloc::Global;
use std::process::Abort;
use wasmi_arena::ArenaError;
use wasmi_vectors::assert_equal;
use wasmi_vectors::observed::{Log, Observed};

// Whether the keys are those of these two ranges, each under itself.
pub fn holds<T: Table>(table: &mut T, ranges: [(u32, u32); 2]) -> bool {
    let more = More::new(&[]);
    let mut len: u64 = 0;
    for (from, to) in ranges {
        for key in from..to {
            len = len.wrapping_add(1);
            if table.ask(Call::Get, key, 0, &more) != Ok(Item(Some(key))) {
                return false;
            }
        }
    }
    table.ask(Call::Len, 0, 0, &more) == Ok(Number(len))
}

// One of these keys, each under itself.
fn table<'l, T: Made<'l>>(rt: &impl Abort, alloc: Global, log: &'l Log, from: u32, to: u32) -> T {
    let mut table = T::empty(Observed::new(alloc, log));
    for key in from..to {
        table
            .ask(Call::Insert, key, key, &More::new(&[]))
            .expect(rt, "");
    }
    table
}

// How many of 0 to 99 are in, inserted one by one, before so many requests were made.
fn front<'l, T: Made<'l>>(rt: &impl Abort, alloc: Global, log: &'l Log, requests: u64) -> u32 {
    let mut table = T::empty(Observed::new(alloc, log));
    let until = log.requests().wrapping_add(requests);
    for key in 0..100 {
        table
            .ask(Call::Insert, key, key, &More::new(&[]))
            .expect(rt, "");
        if log.requests() >= until {
            return key;
        }
    }
    100
}

// A call on a table of so many keys, handed the next one, or 100 of them. Returns how many requests it makes.
fn change<'l, T: Made<'l>>(
    rt: &impl Abort,
    alloc: Global,
    log: &'l Log,
    (call, want): (Call, Answer),
    len: u32,
) -> u64 {
    let keys: Vec<u32> = (0..100u32).collect(alloc).expect(rt, "");
    let more = More::new(&keys);
    let is_bulk = call == Call::Extend || call == Call::ExtendRef;
    let want = if let Item(Some(_)) = want {
        Item(Some(len))
    } else {
        want
    };
    let mut last = 0;
    for nth in 1..100u64 {
        let front = front::<T>(rt, alloc, log, nth);
        let (before, after) = match call {
            Call::Extend | Call::ExtendRef => (front, 100),
            Call::Reserve => (len, len),
            _ => (len, len.wrapping_add(1)),
        };
        let mut table: T = table(rt, alloc, log, 0, len);
        let value = if call == Call::Reserve { 1000 } else { len };
        let until = log.requests().wrapping_add(nth);
        log.refuse_once(nth);
        more.counted();
        let mut answer = table.ask(call, len, value, &more);
        let is_refused = log.requests() >= until;
        log.refuse_none();
        if is_refused {
            last = before;
            assert_equal!(*rt; answer, Err(ArenaError::OutOfSystemMemory), at (call, len, nth));
            assert_equal!(*rt; holds(&mut table, [(0, before), (0, 0)]), true, at (call, len, nth));
            // Nothing is drawn from the iterator any more.
            assert_equal!(*rt; !is_bulk || more.counted() == front.wrapping_add(1) as u64, true);
            answer = table.ask(call, len, value, &more);
        }
        assert_equal!(*rt; answer, Ok(want), at (call, len, nth));
        assert_equal!(*rt; holds(&mut table, [(0, after), (0, 0)]), true, at (call, len, nth));
        // What is there needs no memory, whichever way it comes.
        log.refuse_from(1);
        assert_equal!(*rt; table.ask(call, len, value, &more).is_ok(), true, at (call, len));
        log.refuse_none();
        if !is_refused {
            assert_equal!(*rt; !is_bulk || 0 < last && last < 100, true, at call);
            return nth.wrapping_sub(1);
        }
    }
    0
}

// Each of these calls makes a request at one of these lengths, or more.
fn changes<'l, T: Made<'l>>(
    rt: &impl Abort,
    alloc: Global,
    log: &'l Log,
    calls: &[(Call, Answer, u32)],
) {
    for (call, want, lens) in calls {
        let mut refused = 0u64;
        for len in 0..*lens {
            refused = refused.wrapping_add(change::<T>(rt, alloc, log, (*call, *want), len));
        }
        assert_equal!(*rt; 0 < refused, true, at call);
    }
}

// A call that makes a table of 0 to 99, and of 50 to 149 beside it. Both stay as they are.
fn make<'l, T: Made<'l>>(
    rt: &impl Abort,
    alloc: Global,
    log: &'l Log,
    make: Make,
    want: [(u32, u32); 2],
) {
    let keys: Vec<u32> = (0..100u32).collect(alloc).expect(rt, "");
    let more = More::new(&keys);
    let mut one: T = table(rt, alloc, log, 0, 100);
    let mut other: T = table(rt, alloc, log, 50, 150);
    for nth in 1..100u64 {
        let front = front::<T>(rt, alloc, log, nth);
        let until = log.requests().wrapping_add(nth);
        log.refuse_once(nth);
        let first = one.make(&other, Observed::new(alloc, log), make, &more);
        let is_refused = log.requests() >= until;
        log.refuse_none();
        let mut made = match first {
            Ok(made) => {
                assert_equal!(*rt; !is_refused && 1 < nth, true, at (make, nth));
                made
            }
            Err(error) => {
                assert_equal!(*rt; (error, is_refused), (ArenaError::OutOfSystemMemory, true), at make);
                let drawn = more.counted();
                assert_equal!(*rt; drawn == 0 || drawn == front.wrapping_add(1) as u64, true, at (make, nth));
                let heap = Observed::new(alloc, log);
                one.make(&other, heap, make, &more).expect(rt, "")
            }
        };
        more.counted();
        assert_equal!(*rt; holds(&mut made, want), true, at (make, nth));
        assert_equal!(*rt; holds(&mut one, [(0, 100), (0, 0)]) && holds(&mut other, [(50, 150), (0, 0)]), true);
        if !is_refused {
            return;
        }
    }
    assert!(*rt; false, "{make:?}");
}

const OF_MAPS: [(Call, Answer, u32); 9] = [
    (Call::Insert, Item(None), 60),
    (Call::TryInsert, Item(None), 60),
    (Call::OrInsert, Item(Some(0)), 60),
    (Call::OrInsertWith, Item(Some(0)), 60),
    (Call::OrInsertWithKey, Item(Some(0)), 60),
    (Call::OrDefault, Item(Some(0)), 1),
    (Call::VacantInsert, Item(Some(0)), 60),
    (Call::Extend, Done, 1),
    (Call::ExtendRef, Done, 1),
];

const OF_SETS: [(Call, Answer, u32); 4] = [
    (Call::Insert, Truth(true), 60),
    (Call::Replace, Item(None), 60),
    (Call::Extend, Done, 1),
    (Call::ExtendRef, Done, 1),
];

fn of_maps<'l, T: Made<'l>>(rt: &impl Abort, alloc: Global, log: &'l Log) {
    changes::<T>(rt, alloc, log, &OF_MAPS);
    make::<T>(rt, alloc, log, Make::FromIter, [(0, 100), (0, 0)]);
    make::<T>(rt, alloc, log, Make::Clone, [(0, 100), (0, 0)]);
}

fn of_sets<'l, T: Made<'l>>(rt: &impl Abort, alloc: Global, log: &'l Log) {
    changes::<T>(rt, alloc, log, &OF_SETS);
    for (call, want) in [
        (Make::FromIter, [(0, 100), (0, 0)]),
        (Make::Clone, [(0, 100), (0, 0)]),
        (Make::And, [(50, 100), (0, 0)]),
        (Make::Or, [(0, 150), (0, 0)]),
        (Make::Xor, [(0, 50), (100, 150)]),
        (Make::Sub, [(0, 50), (0, 0)]),
    ] {
        make::<T>(rt, alloc, log, call, want);
    }
}

// Each makes what has no key, of one with none and one with 100, as it says.
fn make_none<'l, T: Made<'l>>(
    rt: &impl Abort,
    alloc: Global,
    log: &'l Log,
    makes: &[(Make, bool, bool)],
) {
    let none: T = table(rt, alloc, log, 0, 0);
    let some: T = table(rt, alloc, log, 0, 100);
    log.refuse_from(1);
    for (make, one, other) in makes {
        let one = if *one { &some } else { &none };
        let other = if *other { &some } else { &none };
        let mut made = one
            .make(other, Observed::new(alloc, log), *make, &More::new(&[]))
            .expect(rt, "");
        assert_equal!(*rt; holds(&mut made, [(0, 0); 2]), true, at make);
    }
    log.refuse_none();
}

#[test]
fn what_is_empty_needs_no_memory(rt: HostRuntime) {
    let (log, of_maps) = (
        Log::new(),
        [(Make::Clone, false, false), (Make::FromIter, true, true)],
    );
    let of_sets = [
        (Make::Clone, false, true),
        (Make::FromIter, true, true),
        (Make::And, false, true),
        (Make::And, true, false),
        (Make::Or, false, false),
        (Make::Xor, true, true),
        (Make::Sub, true, true),
        (Make::Sub, false, true),
    ];
    make_none::<Tree<'_>>(&rt, rt.alloc(), &log, &of_maps);
    make_none::<Hash<'_>>(&rt, rt.alloc(), &log, &of_maps);
    make_none::<TreeOfSet<'_>>(&rt, rt.alloc(), &log, &of_sets);
    make_none::<HashOfSet<'_>>(&rt, rt.alloc(), &log, &of_sets);
    assert_equal!(rt; log.amiss(), 0);
}

// Of hashed ones. It makes one at one of these lengths.
const RESERVES: [(Call, Answer, u32); 1] = [(Call::Reserve, Done, 10)];

#[test]
fn a_map_goes_on_after_each_refusal(rt: HostRuntime) {
    let log = Log::new();
    of_maps::<Tree<'_>>(&rt, rt.alloc(), &log);
    of_maps::<Hash<'_>>(&rt, rt.alloc(), &log);
    changes::<Hash<'_>>(&rt, rt.alloc(), &log, &RESERVES);
    assert_equal!(rt; log.amiss(), 0);
}

#[test]
fn a_set_goes_on_after_each_refusal(rt: HostRuntime) {
    let log = Log::new();
    of_sets::<TreeOfSet<'_>>(&rt, rt.alloc(), &log);
    of_sets::<HashOfSet<'_>>(&rt, rt.alloc(), &log);
    changes::<HashOfSet<'_>>(&rt, rt.alloc(), &log, &RESERVES);
    assert_equal!(rt; log.amiss(), 0);
}
