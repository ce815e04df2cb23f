//! Deduplicating arenas: an allocator that refuses requests, and what is cloned.
use crate::calls::{hand_in, key_of, text};
use std::alloc::{AllocError, Allocator};
use std::hash::{Hash, Hasher};
use std::process::Abort;
use wasmi_collections::arena::{ArenaError, DedupArena};
use wasmi_collections::run::{DedupCommand, DedupReply, run_dedup};
use wasmi_vectors::assert_equal;
use wasmi_vectors::few_keys::FewKeys;
use wasmi_vectors::logged::Logged;
use wasmi_vectors::observed::Log;

// An item whose clone fails where the number is odd.
#[derive(Debug, PartialEq, Eq, Hash, Drop)]
struct Even(u32);

impl Clone for Even {
    fn clone(&self) -> Result<Self, AllocError> {
        if self.0 % 2 == 0 {
            Ok(Even(self.0))
        } else {
            Err(AllocError)
        }
    }
}

// Whether the keys of 0, 1, .. are these numbers, and the items are those values.
fn has_first<A: Allocator>(arena: &DedupArena<usize, u32, A>, len: u32) -> bool {
    arena.len() == len as usize
        && arena.index().len() == arena.len()
        && (0..len).all(|value| {
            let key = value as usize;
            arena.index().get(&value) == Some(&key) && arena.get(key) == Ok(&value)
        })
}

// Hands in the numbers below a hundred, each again where it was refused. What was refused changed nothing.
fn hand_hundred_in(rt: &impl Abort, arena: &mut DedupArena<usize, u32, Logged<'_>>) {
    for value in 0..100u32 {
        if let Err(error) = hand_in(arena, value) {
            assert_equal!(*rt; error, ArenaError::OutOfSystemMemory);
            assert_equal!(*rt; has_first(arena, value), true, at value);
            assert_equal!(*rt; hand_in(arena, value), Ok(value as usize));
        }
    }
    assert_equal!(*rt; has_first(arena, 100), true);
}

// Hands in values that are there, and one after all were dropped. Nothing is asked for.
fn hand_in_without_memory(
    rt: &impl Abort,
    log: &Log,
    arena: &mut DedupArena<usize, u32, Logged<'_>>,
) {
    log.refuse_from(1);
    let asked = log.requests();
    for (value, key) in [(0, 0), (99, 99)] {
        assert_equal!(*rt; hand_in(arena, value), Ok(key));
    }
    arena.clear();
    assert_equal!(*rt; (hand_in(arena, 5), log.requests()), (Ok(0), asked));
}

// What is there needs no memory, whichever request was refused before.
#[test]
fn each_request_refused_in_turn(rt: HostRuntime) {
    for nth in 1..30 {
        let log = Log::new();
        let mut arena = DedupArena::new(Logged::new(rt.alloc(), &log));
        log.refuse_once(nth);
        hand_hundred_in(&rt, &mut arena);
        hand_in_without_memory(&rt, &log, &mut arena);
        drop(arena);
        assert_equal!(rt; log.amiss(), 0, at nth);
    }
}

#[test]
fn a_refused_clone_changes_nothing(rt: HostRuntime) {
    let mut arena: DedupArena<usize, Even> = DedupArena::new(rt.alloc());
    for (number, key) in [
        (0, Ok(0)),
        (2, Ok(1)),
        (1, Err(ArenaError::OutOfSystemMemory)),
    ] {
        assert_equal!(rt; hand_in(&mut arena, Even(number)), key, at number);
    }
    assert_equal!(rt; (arena.len(), arena.index().len()), (2, 2));
    assert_equal!(rt; key_of(&arena, &Even(1)), None);
    for (number, key) in [(2, 1), (4, 2)] {
        assert_equal!(rt; hand_in(&mut arena, Even(number)), Ok(key));
    }
    drop(arena);
}

// How many values were refused of a run that handed in those from 0 on, of which each other one has its key; nothing
// where a reply is another one.
fn refused_of(
    arena: &DedupArena<usize, u32, Logged<'_>>,
    replies: Vec<DedupReply<usize, u32>, Logged<'_>>,
) -> Option<usize> {
    let (mut next, mut refused) = (0usize, 0usize);
    for (value, reply) in (0u32..).zip(replies) {
        let key = arena.index().get(&value).copied();
        if reply == DedupReply::Key(next) && key == Some(next) {
            next = next.wrapping_add(1);
        } else if reply == DedupReply::Refused(ArenaError::OutOfSystemMemory) && key.is_none() {
            refused = refused.wrapping_add(1);
        } else {
            return None;
        }
    }
    (arena.len() == next).then_some(refused)
}

// A run that hands in 0 to 19.
fn run<'l>(
    heap: Logged<'l>,
    log: &Log,
    arena: &mut DedupArena<usize, u32, Logged<'l>>,
    refused: u64,
) -> Result<Vec<DedupReply<usize, u32>, Logged<'l>>, ArenaError> {
    let commands = (0..20u32)
        .map(|value| DedupCommand::Alloc(value))
        .collect(heap)?;
    log.refuse_once(refused);
    run_dedup(heap, arena, commands)
}

// A run whose nth request is refused, and again without a refusal where it made no call.
fn run_refused<'l>(
    rt: &impl Abort,
    heap: Logged<'l>,
    log: &Log,
    arena: &mut DedupArena<usize, u32, Logged<'l>>,
    nth: u64,
) {
    match run(heap, log, arena, nth) {
        Ok(replies) => {
            let is_one_at_most = refused_of(arena, replies).is_some_and(|refused| refused < 2);
            assert_equal!(*rt; is_one_at_most, true, at nth);
        }
        Err(error) => {
            assert_equal!(*rt; (nth, error, arena.len()), (1, ArenaError::OutOfSystemMemory, 0));
            let replies = run(heap, log, arena, 0).expect(rt, "");
            assert_equal!(*rt; refused_of(arena, replies), Some(0));
        }
    }
}

// Each request of a run refused in turn. The first is for the replies.
#[test]
fn a_run_goes_on_after_a_refusal(rt: HostRuntime) {
    for nth in 1..20 {
        let log = Log::new();
        let heap = Logged::new(rt.alloc(), &log);
        let mut arena = DedupArena::new(heap);
        run_refused(&rt, heap, &log, &mut arena, nth);
        for value in 0..20u32 {
            hand_in(&mut arena, value).expect(&rt, "");
        }
        assert_equal!(rt; arena.len(), 20, at nth);
        drop(arena);
        assert_equal!(rt; log.amiss(), 0);
    }
}

type Texts<'l> = DedupArena<usize, String<Logged<'l>>, Logged<'l>>;

// An arena of "a" and "b". Each text is one request, and so is each clone of one.
fn two_texts<'l>(rt: &impl Abort, heap: Logged<'l>) -> Texts<'l> {
    let mut arena = DedupArena::new(heap);
    for letter in ["a", "b"] {
        hand_in(&mut arena, text(rt, heap, letter)).expect(rt, "");
    }
    arena
}

// What comes of a third value whose nth request is refused, and how many items there are.
fn third_refused<'l>(
    rt: &impl Abort,
    heap: Logged<'l>,
    log: &Log,
    arena: &mut Texts<'l>,
    nth: u64,
) -> (Result<usize, ArenaError>, usize) {
    let value = text(rt, heap, "c");
    log.refuse_once(nth);
    let key = hand_in(arena, value);
    log.refuse_none();
    (key, arena.len())
}

// Each request for a third one refused in turn: the first is for its clone.
#[test]
fn a_third_value_is_refused(rt: HostRuntime) {
    for nth in 1..5u64 {
        let log = Log::new();
        let heap = Logged::new(rt.alloc(), &log);
        let mut arena = two_texts(&rt, heap);
        let (key, len) = third_refused(&rt, heap, &log, &mut arena, nth);
        let wanted = if nth == 1 || key.is_err() {
            (Err(ArenaError::OutOfSystemMemory), 2)
        } else {
            (Ok(2), 3)
        };
        assert_equal!(rt; (key, len), wanted, at nth);
        assert_equal!(rt; (arena.key_of_str("a"), arena.key_of_str("b")), (Some(0), Some(1)), at nth);
        assert_equal!(rt; arena.alloc_str(heap, "c"), Ok(2), at nth);
        drop(arena);
        assert_equal!(rt; log.amiss(), 0);
    }
}

#[test]
fn a_new_value_is_cloned_once(rt: HostRuntime) {
    let log = Log::new();
    let heap = Logged::new(rt.alloc(), &log);
    let mut arena = two_texts(&rt, heap);
    let (asked, returned) = (log.requests(), log.returned());
    assert_equal!(rt; hand_in(&mut arena, text(&rt, heap, "a")), Ok(0));
    assert_equal!(rt; log.requests(), asked.wrapping_add(1));
    assert_equal!(rt; log.returned(), returned.wrapping_add(1));
    assert_equal!(rt; hand_in(&mut arena, text(&rt, heap, "c")), Ok(2));
    assert_equal!(rt; log.requests(), asked.wrapping_add(3));
    drop(arena);
    assert_equal!(rt; log.amiss(), 0);
}

// A value by reference, by either call.
fn by_reference<'l>(
    heap: Logged<'l>,
    arena: &mut Texts<'l>,
    value: &String<Logged<'l>>,
    is_value: bool,
) -> Result<usize, ArenaError> {
    if is_value {
        arena.alloc_ref(value)
    } else {
        arena.alloc_str(heap, value.as_str())
    }
}

// Hands in a value that is there by reference. Nothing is asked for.
fn find_by_reference<'l>(
    rt: &impl Abort,
    log: &Log,
    arena: &mut Texts<'l>,
    heap: Logged<'l>,
    value: &String<Logged<'l>>,
    is_value: bool,
    key: usize,
) {
    log.refuse_from(1);
    let asked = log.requests();
    assert_equal!(*rt; by_reference(heap, arena, value, is_value), Ok(key));
    assert_equal!(*rt; log.requests(), asked);
    log.refuse_none();
}

// Hands in a new text of 70,000 bytes by reference, both of whose clones are refused before.
fn clone_twice<'l>(
    rt: &impl Abort,
    log: &Log,
    arena: &mut Texts<'l>,
    heap: Logged<'l>,
    value: &String<Logged<'l>>,
    is_value: bool,
) {
    let (asked, bytes) = (log.requests(), log.bytes());
    for nth in [1, 2] {
        log.refuse_once(nth);
        let refused = by_reference(heap, arena, value, is_value);
        assert_equal!(*rt; refused, Err(ArenaError::OutOfSystemMemory), at nth);
        assert_equal!(*rt; (key_of(arena, value), arena.len()), (None, 2), at nth);
    }
    assert_equal!(*rt; by_reference(heap, arena, value, is_value), Ok(2));
    assert_equal!(*rt; log.requests(), asked.wrapping_add(5));
    assert_equal!(*rt; log.bytes(), bytes.wrapping_add(350_000));
    assert_equal!(*rt; (key_of(arena, value), arena.len()), (Some(2), 3));
}

// Both clones of a new one are refused in turn. Nothing is asked for one that is there, however long it is.
#[test]
fn a_value_by_reference_is_cloned_twice(rt: HostRuntime) {
    for is_value in [false, true] {
        let log = Log::new();
        let heap = Logged::new(rt.alloc(), &log);
        let mut arena = two_texts(&rt, heap);
        let known = text(&rt, heap, "a");
        find_by_reference(&rt, &log, &mut arena, heap, &known, is_value, 0);
        let long = "0123456789".repeat(heap, 7_000).expect(&rt, "");
        clone_twice(&rt, &log, &mut arena, heap, &long, is_value);
        find_by_reference(&rt, &log, &mut arena, heap, &long, is_value, 2);
        drop(arena);
        drop(known);
        drop(long);
        assert_equal!(rt; log.amiss(), 0);
    }
}

// An arena of four keys, into which five texts are put, whose nth request is refused.
fn few_texts<'l>(
    heap: Logged<'l>,
    log: &Log,
    nth: u64,
) -> DedupArena<FewKeys<4>, String<Logged<'l>>, Logged<'l>> {
    let mut arena = DedupArena::new(heap);
    log.refuse_once(nth);
    for letter in ["p", "q", "r", "s", "t"] {
        if let Ok(value) = String::from_str(heap, letter) {
            let _key = hand_in(&mut arena, value);
        }
    }
    log.refuse_none();
    arena
}

// A value without a key or without memory.
#[test]
fn what_is_refused_is_dropped(rt: HostRuntime) {
    for nth in 1..12 {
        let log = Log::new();
        let arena = few_texts(Logged::new(rt.alloc(), &log), &log, nth);
        assert_equal!(rt; arena.len() > 2, true, at nth);
        drop(arena);
        assert_equal!(rt; log.amiss(), 0, at nth);
    }
}

#[test]
fn an_item_without_a_place_is_dropped(rt: HostRuntime) {
    let log = Log::new();
    let heap = Logged::new(rt.alloc(), &log);
    let mut texts = two_texts(&rt, heap);
    let refused = texts.put(9, text(&rt, heap, "z"));
    assert_equal!(rt; refused.err(), Some(ArenaError::KeyOutOfBounds));
    drop(texts);
    assert_equal!(rt; log.amiss(), 0);
}
