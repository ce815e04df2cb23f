//! Each request for memory of a call refused in turn, and then the call made again.
use crate::items::{logged, number_of, tallied};
use std::cell::Cell;
use wasmi_arena::{ArenaCommand, ArenaError, ArenaReply, StableArena, StableVec, run_arena};
use wasmi_vectors::assert_equal;
use wasmi_vectors::observed::{Log, Observed};
use wasmi_vectors::tally::{Item, Tally};

#[derive(Clone, Copy, Debug)]
enum Call {
    AddOne,
    AddMany,
    Clone,
    CloneIn,
    Collect,
}

// A call on 96 items, how many requests it makes, and how many items there are in what it makes.
const CALLS: [(Call, u64, usize); 5] = [
    (Call::AddOne, 1, 97),
    (Call::AddMany, 2, 300),
    (Call::Clone, 2, 96),
    (Call::CloneIn, 2, 96),
    (Call::Collect, 4, 300),
];

// The number of items, if these are 0, 1 and so on, and from index `zeros` on 0.
fn len_of(items: &StableVec<u64, Observed<'_>>, zeros: usize) -> Option<usize> {
    for (index, item) in items.iter().enumerate() {
        let want = if index < zeros { index as u64 } else { 0 };
        if *item != want {
            return None;
        }
    }
    Some(items.len())
}

fn call_vector<'a>(
    call: Call,
    vec: &mut StableVec<u64, Observed<'a>>,
    alloc: Observed<'a>,
) -> Result<Option<usize>, ArenaError> {
    let len = vec.len() as u64;
    let made = match call {
        Call::AddOne => {
            vec.push(len)?;
            return Ok(len_of(vec, 97));
        }
        Call::AddMany => {
            vec.extend(len..300)?;
            return Ok(len_of(vec, 300));
        }
        Call::Clone => vec.clone()?,
        Call::CloneIn => vec.clone_in(alloc)?,
        Call::Collect => StableVec::from_iter(alloc, 0..300)?,
    };
    let len = len_of(&made, 300);
    drop(made);
    Ok(len)
}

fn call_arena<'a>(
    call: Call,
    arena: &mut StableArena<usize, u64, Observed<'a>>,
    alloc: Observed<'a>,
) -> Result<Option<usize>, ArenaError> {
    let made = match call {
        Call::AddOne => {
            arena.alloc(96)?;
            return Ok(len_of(arena.items(), 97));
        }
        Call::AddMany => {
            arena.alloc_many(204)?;
            return Ok(len_of(arena.items(), 96));
        }
        Call::Clone => arena.clone()?,
        Call::CloneIn => arena.clone_in(alloc)?,
        Call::Collect => StableArena::from_iter(alloc, 0..300)?,
    };
    let len = len_of(made.items(), 300);
    drop(made);
    Ok(len)
}

// Each request of each call refused in turn. What a refused call keeps is told of the call and the request.
macro_rules! goes_on {
    ($rt:ident, $type:ident, $call:ident, $items:ident => $vec:expr, $kept:expr) => {
        for (call, requests, made) in CALLS {
            for nth in 1..=requests.wrapping_add(1) {
                let log = Log::new();
                let first = Observed::new($rt.alloc(), &log);
                let mut $items = $type::from_iter(first, 0..96u64).expect(&$rt, "");
                log.refuse_once(nth);
                let mut found = $call(call, &mut $items, Observed::new($rt.alloc(), &log));
                if nth <= requests {
                    assert_equal!($rt; found, Err(ArenaError::OutOfSystemMemory), at (call, nth));
                    let (len, open) = $kept(call, nth);
                    assert_equal!($rt; (len_of($vec, len), $vec.open_buckets()), (Some(len), open));
                    found = $call(call, &mut $items, Observed::new($rt.alloc(), &log));
                }
                assert_equal!($rt; found, Ok(Some(made)), at (call, nth));
                drop($items);
                assert_equal!($rt; log.amiss(), 0, at (call, nth));
            }
        }
    };
}

// An `extend` keeps the items before the one that found no memory.
fn kept_of_vector(call: Call, nth: u64) -> (usize, usize) {
    match (call, nth) {
        (Call::AddMany, 2) => (224, 3),
        _ => (96, 2),
    }
}

fn kept_of_arena(_: Call, _: u64) -> (usize, usize) {
    (96, 2)
}

#[test]
fn a_vector_goes_on_after_each_refusal(rt: HostRuntime) {
    goes_on!(rt, StableVec, call_vector, vec => &vec, kept_of_vector);
}

#[test]
fn an_arena_goes_on_after_each_refusal(rt: HostRuntime) {
    goes_on!(rt, StableArena, call_arena, arena => arena.items(), kept_of_arena);
}

#[test]
fn a_full_bucket_and_then_no_memory(rt: HostRuntime) {
    let log = Log::new();
    let mut vec = logged(rt.alloc(), &log, 31).expect(&rt, "");
    log.refuse_from(1);
    let refused = Err(ArenaError::OutOfSystemMemory);
    assert_equal!(rt; (vec.push(31), vec.push(32)), (Ok(31), refused));
    assert_equal!(rt; (vec.len(), vec.open_buckets(), vec.slots()), (32, 1, 32));
    log.refuse_none();
    assert_equal!(rt; (vec.push(32), vec.open_buckets(), vec.slots()), (Ok(32), 2, 96));
    drop(vec);
    assert_equal!(rt; (log.requests(), log.given(), log.amiss()), (3, 2, 0));
}

// Of no free slot for two of five; and of a block for 64 of a hundred.
#[test]
fn a_refused_extend_goes_as_far_as_its_buckets(rt: HostRuntime) {
    // What is held, is to come, comes and is dropped; the length and the buckets then. Of as many requests as there are
    // buckets then, the last is refused.
    for (held, more, came, dropped, found) in [(30, 5, 2, 3, (32, 1)), (32, 100, 64, 36, (96, 2))] {
        let (log, kept, added) = (Log::new(), Tally::new(), Tally::new());
        let mut vec = tallied(rt.alloc(), &log, &kept, 0..held).expect(&rt, "");
        log.refuse_from(found.1);
        let mut items = Vec::new(rt.alloc());
        for number in 0..more {
            items.push(Item::new(&added, number)).expect(&rt, "");
        }
        assert_equal!(rt; vec.extend(items), Err(ArenaError::OutOfSystemMemory));
        assert_equal!(rt; (vec.len() as u64, vec.open_buckets() as u64), found);
        let mut items = vec.iter();
        for number in (0..held).chain(0..came) {
            assert_equal!(rt; number_of(items.next()), Some(number));
        }
        assert_equal!(rt; number_of(items.next()), None);
        assert_equal!(rt; (kept.dropped().0, added.dropped().0), (0, dropped));
        drop(vec);
        assert_equal!(rt; (kept.dropped(), added.dropped().0, log.amiss()), ((held, held), more, 0));
    }
}

// The item that is refused is the last that is drawn. All items are dropped, that one first.
#[test]
fn a_refused_collection_draws_no_further(rt: HostRuntime) {
    for (nth, len) in (1u64..).zip(crate::large::STARTS) {
        for of_arena in [false, true] {
            let (log, tally, drawn) = (Log::new(), Tally::new(), Cell::new(0u64));
            log.refuse_once(nth);
            let items = (0..140_000u64).map(|number| {
                drawn.set(drawn.get().wrapping_add(1));
                Item::new(&tally, number)
            });
            let handle = Observed::new(rt.alloc(), &log);
            let refused = if of_arena {
                StableArena::<usize, Item<'_>, Observed<'_>>::from_iter(handle, items).err()
            } else {
                StableVec::from_iter(handle, items).err()
            };
            assert_equal!(rt; refused, Some(ArenaError::OutOfSystemMemory), at len);
            let dropped = (len.wrapping_add(1), len.max(1));
            assert_equal!(rt; (drawn.get(), tally.dropped()), (dropped.0, dropped), at len);
            assert_equal!(rt; (log.requests(), log.amiss()), (nth, 0), at len);
        }
    }
}

// The first of two new buckets is closed again. Then the arena ends, or the call is made again.
#[test]
fn alloc_many_adds_all_or_none(rt: HostRuntime) {
    for is_made_again in [false, true] {
        let (log, tally) = (Log::new(), Tally::new());
        let items = (0..31).map(|number| Some(Item::new(&tally, number)));
        let made = StableArena::from_iter(Observed::new(rt.alloc(), &log), items);
        let mut arena: StableArena<usize, Option<Item<'_>>, Observed<'_>> = made.expect(&rt, "");
        log.refuse_once(2);
        assert_equal!(rt; arena.alloc_many(100).err(), Some(ArenaError::OutOfSystemMemory));
        assert_equal!(rt; (arena.len(), arena.items().open_buckets()), (31, 1));
        assert_equal!(rt; (log.given(), log.returned(), tally.dropped()), (2, 1, (0, 0)));
        if is_made_again {
            let keys = arena.alloc_many(100).expect(&rt, "");
            assert_equal!(rt; (keys.start, keys.end), (31, 131));
            assert_equal!(rt; (arena.items().open_buckets(), arena.items().slots()), (3, 224));
        }
        for (index, item) in (0u64..).zip(arena.values()) {
            let wanted = (index < 31).then_some(index);
            assert_equal!(rt; number_of(item.as_ref()), wanted);
        }
        drop(arena);
        assert_equal!(rt; (tally.dropped(), log.amiss()), ((31, 31), 0));
    }
}

// The replies to two commands, which lie in a block of another log.
fn replies<'a>(
    commands_in: Observed<'a>,
    alloc: Observed<'a>,
    arena: &mut StableArena<usize, u8, Observed<'a>>,
) -> Result<Vec<ArenaReply<usize, u8>, Observed<'a>>, ArenaError> {
    let commands = vec![in commands_in; ArenaCommand::Alloc(1), ArenaCommand::Has(0)]?;
    run_arena(alloc, arena, commands)
}

// The first request is for the replies alone. The second is for a bucket, and is replied to as refused.
#[test]
fn a_run_goes_on_after_each_refusal(rt: HostRuntime) {
    let error = ArenaError::OutOfSystemMemory;
    for (nth, reply, len) in [
        (1, None, 32),
        (2, Some(ArenaReply::Refused(error)), 32),
        (3, Some(ArenaReply::Key(32)), 33),
    ] {
        let (log, other) = (Log::new(), Log::new());
        let made = StableArena::from_iter(Observed::new(rt.alloc(), &log), 0..32u8);
        let mut arena = made.expect(&rt, "");
        let commands_in = Observed::new(rt.alloc(), &other);
        log.refuse_once(nth);
        let found = replies(commands_in, Observed::new(rt.alloc(), &log), &mut arena);
        match reply {
            Some(first) => {
                let (found, second) = (found.expect(&rt, ""), ArenaReply::Has(true));
                assert_equal!(rt; (found.as_slice(), found.capacity()), ([first, second].as_slice(), 2));
            }
            None => assert_equal!(rt; found.err(), Some(error)),
        }
        assert_equal!(rt; arena.len(), len, at nth);
        log.refuse_none();
        let commands_in = Observed::new(rt.alloc(), &other);
        let again = replies(commands_in, Observed::new(rt.alloc(), &log), &mut arena);
        let wanted = [ArenaReply::Key(len), ArenaReply::Has(true)];
        assert_equal!(rt; again.expect(&rt, "").as_slice(), wanted.as_slice(), at nth);
        let mut items = arena.values();
        for index in 0..=len {
            let item = if index < 32 { index as u8 } else { 1 };
            assert_equal!(rt; items.next(), Some(&item), at (index, nth));
        }
        assert_equal!(rt; items.next(), None, at nth);
        drop(arena);
        assert_equal!(rt; (log.amiss(), other.amiss()), (0, 0));
    }
}

// A bucket is over a clone of the vector's handle.
#[test]
fn a_handle_that_cannot_be_cloned_opens_no_bucket(rt: HostRuntime) {
    let log = Log::new();
    let mut vec = logged(rt.alloc(), &log, 31).expect(&rt, "");
    log.refuse_clones();
    let refused = Err(ArenaError::OutOfSystemMemory);
    assert_equal!(rt; (vec.push(31), vec.push(32)), (Ok(31), refused));
    assert_equal!(rt; (len_of(&vec, 32), vec.open_buckets(), vec.slots()), (Some(32), 1, 32));
    log.refuse_none();
    assert_equal!(rt; (vec.push(32), vec.open_buckets()), (Ok(32), 2));
    drop(vec);
    assert_equal!(rt; (log.given(), log.amiss()), (2, 0));
}

// Each bucket has one, and `clone` one more, for the vector.
#[test]
fn a_bucket_takes_one_clone_of_the_allocator(rt: HostRuntime) {
    let (log, other) = (Log::new(), Log::new());
    let mut vec = StableVec::new(Observed::new(rt.alloc(), &log));
    for number in 0..97usize {
        assert_equal!(rt; vec.push(7u8), Ok(number));
        assert_equal!(rt; log.clones(), vec.open_buckets() as u64, at number);
    }
    let copy = vec.clone().expect(&rt, "");
    let apart = vec.clone_in(Observed::new(rt.alloc(), &other));
    let apart = apart.expect(&rt, "");
    assert_equal!(rt; (apart.len(), copy.len()), (97, 97));
    assert_equal!(rt; (other.clones(), log.clones()), (3, 7));
    let handle = Observed::new(rt.alloc(), &other);
    let mut arena: StableArena<usize, u8, Observed<'_>> = StableArena::new(handle);
    assert_equal!(rt; (arena.alloc_many(97).expect(&rt, "").end, other.clones()), (97, 6));
    drop(vec);
    drop(copy);
    drop(apart);
    drop(arena);
}
