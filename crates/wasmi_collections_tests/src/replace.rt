//! Values of a deduplicating arena that take the place of others: the worked rows, and what a call asks
//! for, compares, clones and drops.
use crate::calls::{get, hand_in, key_of, made_of, replace, text};
use std::alloc::{AllocError, Global};
use std::hash::{Hash, Hasher};
use std::process::Abort;
use wasmi_collections::arena::{ArenaError, DedupArena};
use wasmi_collections::run::{DedupCommand, DedupReply, run_dedup};
use wasmi_vectors::assert_equal;
use wasmi_vectors::few_keys::FewKeys;
use wasmi_vectors::logged::Logged;
use wasmi_vectors::noted::{Noted, Notes};
use wasmi_vectors::observed::Log;

// What was compared, cloned and dropped since it was asked for last.
fn taken(notes: &Notes) -> (u64, u64, u64) {
    (notes.compared(), notes.cloned(), notes.dropped())
}

// An arena of the numbers below `len`.
fn of_numbers<'a>(
    alloc: Global,
    notes: &'a Notes,
    len: u32,
) -> Result<DedupArena<usize, Noted<'a>>, ArenaError> {
    DedupArena::from_iter(alloc, (0..len).map(|number| Noted::new(number, notes)))
}

// What one call compares, clones and drops, where something else was written under the key 7.
fn costs_in<'a>(
    notes: &'a Notes,
    arena: &mut DedupArena<usize, Noted<'a>>,
    key: usize,
    number: u32,
) -> Result<(u64, u64, u64), ArenaError> {
    *arena.get_mut(7)? = Noted::new(12_345, notes);
    taken(notes);
    let there = replace(arena, key, Noted::new(number, notes));
    let counts = taken(notes);
    drop(there);
    Ok(counts)
}

// The same, in an arena of the numbers below `len`.
fn costs(alloc: Global, len: u32, key: usize, number: u32) -> Result<(u64, u64, u64), ArenaError> {
    let notes = Notes::new();
    let mut arena = of_numbers(alloc, &notes, len)?;
    let counts = costs_in(&notes, &mut arena, key, number);
    drop(arena);
    counts
}

// The value and the one that it takes the place of are looked up, and that one is taken out; where another
// item was written, it is cloned to be looked up. What isn't returned is dropped.
#[test]
fn a_call_costs_the_same_in_any_arena(rt: HostRuntime) {
    for len in [100, 4_096, 5_000] {
        for (key, number, want) in [
            (5, 9_999, (2, 1, 1)),
            (7, 9_999, (2, 2, 2)),
            (7, 7, (1, 0, 0)),
            (5, 8, (1, 0, 1)),
            (50_000, 8, (0, 0, 1)),
        ] {
            assert_equal!(rt; costs(rt.alloc(), len, key, number).expect(&rt, ""), want, at (number, key, len));
        }
    }
}

// It would take minutes if it went over the values, or the entries of the index.
#[test]
fn a_call_takes_no_walk(rt: HostRuntime) {
    let numbers = DedupArena::<usize, usize>::from_iter(rt.alloc(), 0..524_288);
    let mut arena = numbers.expect(&rt, "");
    for key in 0..524_288usize {
        assert_equal!(rt; replace(&mut arena, key, key + 524_288), Ok(key));
    }
    drop(arena);
}

// A value that is looked up is compared with no other that was handed in.
#[test]
fn a_look_compares_one_value(rt: HostRuntime) {
    let notes = Notes::new();
    let mut arena = of_numbers(rt.alloc(), &notes, 1_000).expect(&rt, "");
    let value = Noted::new(500, &notes);
    taken(&notes);
    assert_equal!(rt; (key_of(&arena, &value), taken(&notes)), (Some(500), (1, 0, 0)));
    assert_equal!(rt; (arena.alloc_ref(&value), taken(&notes)), (Ok(500), (1, 0, 0)));
    drop(arena);
}

#[test]
fn the_worked_rows(rt: HostRuntime) {
    let log = Log::new();
    let heap = Logged::new(rt.alloc(), &log);
    let mut arena: DedupArena<usize, &str, Logged<'_>> = DedupArena::new(heap);
    let commands = vec![in rt.alloc();
        DedupCommand::Alloc("a"),
        DedupCommand::Alloc("b"),
        DedupCommand::Replace(0, "c"),
        DedupCommand::Alloc("c"),
        DedupCommand::Alloc("a"),
        DedupCommand::Replace(1, "c"),
        DedupCommand::Replace(7, "c"),
        DedupCommand::Replace(1, "b"),
        DedupCommand::Put(1, "z"),
        DedupCommand::Replace(1, "d"),
        DedupCommand::Alloc("b"),
        DedupCommand::Alloc("z"),
        DedupCommand::Put(2, "q"),
    ]
    .expect(&rt, "");
    let replies = run_dedup(rt.alloc(), &mut arena, commands).expect(&rt, "");
    assert_equal!(rt;
        replies.as_slice(),
        [
            DedupReply::Key(0),
            DedupReply::Key(1),
            DedupReply::Old("a"),
            DedupReply::Key(0),
            DedupReply::Key(2),
            DedupReply::Refused(ArenaError::DuplicateItem),
            DedupReply::Refused(ArenaError::KeyOutOfBounds),
            DedupReply::Old("b"),
            DedupReply::Old("b"),
            DedupReply::Old("z"),
            DedupReply::Key(3),
            DedupReply::Key(4),
            DedupReply::Old("a")
        ]
        .as_slice()
    );
    // The value has this key already, so nothing is asked for.
    log.refuse_from(1);
    assert_equal!(rt; (replace(&mut arena, 2, "a"), hand_in(&mut arena, "a")), (Ok("q"), Ok(2)));
    drop(arena);
}

#[test]
fn a_new_value_needs_no_key(rt: HostRuntime) {
    let mut arena: DedupArena<FewKeys<4>, &str> = made_of(rt.alloc(), &["p", "q", "r", "s"]).expect(
        &rt, "",
    );
    let last = hand_in(&mut arena, "s").expect(&rt, "");
    assert_equal!(rt; replace(&mut arena, last, "t"), Ok("s"));
    assert_equal!(rt; hand_in(&mut arena, "t"), Ok(last));
    assert_equal!(rt; hand_in(&mut arena, "s").err(), Some(ArenaError::NotEnoughKeys));
    drop(arena);
}

// A text whose clone has one more character.
#[derive(Debug, PartialEq, Eq, Hash, Drop)]
struct Longer<'l>(String<Logged<'l>>);

impl Clone for Longer<'_> {
    fn clone(&self) -> Result<Self, AllocError> {
        let mut text = self.0.clone()?;
        text.push('x')?;
        Ok(Longer(text))
    }
}

type Longers<'l> = DedupArena<usize, Longer<'l>, Logged<'l>>;

fn text_to_lengthen<'l>(rt: &impl Abort, heap: Logged<'l>, letter: &str) -> Longer<'l> {
    Longer(text(rt, heap, letter))
}

// Hands letters in, whose keys are the numbers from 0 on.
fn hand_letters_in<'l>(
    rt: &impl Abort,
    heap: Logged<'l>,
    arena: &mut Longers<'l>,
    letters: &[&str],
) {
    let mut key = 0usize;
    for letter in letters {
        assert_equal!(*rt; hand_in(arena, text_to_lengthen(rt, heap, *letter)), Ok(key));
        key = key.wrapping_add(1);
    }
}

// The text of an item.
fn lengthened<'a>(arena: &'a Longers<'_>, key: usize) -> Result<&'a str, ArenaError> {
    Ok(get(arena, key)?.0.as_str())
}

// What is refused is dropped, and so are the clones that were made for it.
#[test]
fn a_clone_that_differs_changes_nothing(rt: HostRuntime) {
    let log = Log::new();
    let heap = Logged::new(rt.alloc(), &log);
    let mut arena = DedupArena::new(heap);
    hand_letters_in(&rt, heap, &mut arena, &["a", "b"]);
    let refused = replace(&mut arena, 0, text_to_lengthen(&rt, heap, "d"));
    assert_equal!(rt; refused.err(), Some(ArenaError::OutOfSystemMemory));
    assert_equal!(rt; lengthened(&arena, 0), Ok("ax"));
    assert_equal!(rt; lengthened(&arena, 1), Ok("bx"));
    hand_letters_in(&rt, heap, &mut arena, &["a", "b", "d"]);
    assert_equal!(rt; arena.index().len(), 3);
    drop(arena);
    assert_equal!(rt; log.amiss(), 0);
}

type Texts<'l> = DedupArena<usize, String<Logged<'l>>, Logged<'l>>;

// Hands three texts in, whose keys are the numbers from 0 on. There is no other.
fn hand_three_in<'l>(rt: &impl Abort, heap: Logged<'l>, arena: &mut Texts<'l>, letters: [&str; 3]) {
    let mut key = 0usize;
    for letter in letters {
        assert_equal!(*rt; hand_in(arena, text(rt, heap, letter)), Ok(key), at letter);
        key = key.wrapping_add(1);
    }
    assert_equal!(*rt; arena.len(), 3);
}

// An arena of "a", "b" and "c", of which the second was written over where it says so.
fn three_texts<'l>(rt: &impl Abort, heap: Logged<'l>, written: bool) -> Texts<'l> {
    let mut arena = DedupArena::new(heap);
    hand_three_in(rt, heap, &mut arena, ["a", "b", "c"]);
    if written {
        *arena.get_mut(1).expect(rt, "") = text(rt, heap, "z");
    }
    arena
}

// Puts a text in the place of the second one, where the nth request is refused.
fn replace_second<'l>(
    rt: &impl Abort,
    heap: Logged<'l>,
    log: &Log,
    arena: &mut Texts<'l>,
    letter: &str,
    nth: u64,
) -> Result<String<Logged<'l>>, ArenaError> {
    let value = text(rt, heap, letter);
    log.refuse_once(nth);
    let there = replace(arena, 1, value);
    log.refuse_none();
    there
}

// The requests are for the clone of the value, and for that of the one that it takes the place of, where
// an item was written there. The index has room.
#[test]
fn each_request_refused_in_turn(rt: HostRuntime) {
    for (written, letter, there, requests) in [
        (false, "d", "b", 1),
        (true, "d", "z", 2),
        (true, "b", "z", 0),
    ] {
        for nth in 1..4 {
            let log = Log::new();
            let heap = Logged::new(rt.alloc(), &log);
            let mut arena = three_texts(&rt, heap, written);
            let result = replace_second(&rt, heap, &log, &mut arena, letter, nth);
            let second = if nth <= requests {
                assert_equal!(rt; result.err(), Some(ArenaError::OutOfSystemMemory), at (letter, nth));
                "b"
            } else {
                let was = result.expect(&rt, "");
                assert_equal!(rt; was.as_str(), there, at (letter, nth));
                letter
            };
            hand_three_in(&rt, heap, &mut arena, ["a", second, "c"]);
            drop(arena);
            assert_equal!(rt; log.amiss(), 0);
        }
    }
}

// The first request is for the replies, the second for the clone of the first value.
#[test]
fn a_run_goes_on_after_a_refusal(rt: HostRuntime) {
    let log = Log::new();
    let heap = Logged::new(rt.alloc(), &log);
    let mut arena = three_texts(&rt, heap, false);
    let commands = vec![in heap;
        DedupCommand::Replace(1, text(&rt, heap, "d")),
        DedupCommand::Replace(2, text(&rt, heap, "e")),
    ]
    .expect(&rt, "");
    log.refuse_once(2);
    let replies = run_dedup(heap, &mut arena, commands).expect(&rt, "");
    let wanted = [
        DedupReply::Refused(ArenaError::OutOfSystemMemory),
        DedupReply::Old(text(&rt, heap, "c")),
    ];
    assert_equal!(rt; replies.as_slice(), wanted.as_slice());
    hand_three_in(&rt, heap, &mut arena, ["a", "b", "e"]);
    drop(arena);
    drop(replies);
    drop(wanted);
    assert_equal!(rt; log.amiss(), 0);
}

type Numbers<'l> = DedupArena<usize, u32, Logged<'l>>;

// Puts 99 in the place of 0, where the first request is refused, which is made only where the index is full. Then
// nothing has changed, and 99 takes the place. Whether it is full.
fn replace_refused(rt: &impl Abort, log: &Log, arena: &mut Numbers<'_>) -> bool {
    let full = arena.index().capacity() == arena.len();
    let asked = log.requests();
    log.refuse_once(1);
    let first = replace(arena, 0, 99);
    log.refuse_none();
    assert_equal!(*rt; first.is_err(), full);
    if full {
        assert_equal!(*rt; get(arena, 0), Ok(&0));
        assert_equal!(*rt; hand_in(arena, 0), Ok(0));
        assert_equal!(*rt; replace(arena, 0, 99), Ok(0));
    }
    assert_equal!(*rt; (log.requests() != asked, get(arena, 0)), (full, Ok(&99)));
    full
}

// The numbers ask for nothing, so that what is refused is a block of the index, which is asked for only where
// it is full.
#[test]
fn a_refused_growth_changes_nothing(rt: HostRuntime) {
    let mut refused = 0u64;
    for len in 1..60u32 {
        let log = Log::new();
        let mut arena: Numbers<'_> = DedupArena::from_iter(
            Logged::new(rt.alloc(), &log),
            0..len,
        ).expect(&rt, "");
        if replace_refused(&rt, &log, &mut arena) {
            refused = refused.wrapping_add(1);
        }
        for value in 1..len {
            assert_equal!(rt; hand_in(&mut arena, value), Ok(value as usize), at len);
        }
        assert_equal!(rt; arena.len(), len as usize);
        drop(arena);
        assert_equal!(rt; log.amiss(), 0);
    }
    assert_equal!(rt; refused > 2, true);
}

// One entry more than there are values goes into the index, and no item.
#[test]
fn many_calls_ask_for_one_block(rt: HostRuntime) {
    let log = Log::new();
    let mut arena: Numbers<'_> = DedupArena::from_iter(
        Logged::new(rt.alloc(), &log),
        0..4u32,
    ).expect(&rt, "");
    let asked = log.requests();
    for value in 4..1_004u32 {
        let there = replace(&mut arena, (value % 4) as usize, value);
        assert_equal!(rt; there, Ok(value.wrapping_sub(4)));
    }
    assert_equal!(rt; log.requests().wrapping_sub(asked) < 2, true);
    drop(arena);
}

// Puts a text in the place of the first of so many, where the second request is refused. Whether the call fails.
fn replace_among(rt: &impl Abort, heap: Logged<'_>, log: &Log, len: u32) -> bool {
    let mut arena: Texts<'_> = DedupArena::new(heap);
    for number in 0..len {
        let value = format!(in heap; "{number}").expect(rt, "");
        hand_in(&mut arena, value).expect(rt, "");
    }
    let value = text(rt, heap, "new");
    log.refuse_once(2);
    let fails = replace(&mut arena, 0, value).is_err();
    drop(arena);
    fails
}

// The clone of the value is refused, or a block of the index.
#[test]
fn a_refused_text_is_dropped(rt: HostRuntime) {
    let mut refused = 0u64;
    for len in 1..30u32 {
        let log = Log::new();
        if replace_among(&rt, Logged::new(rt.alloc(), &log), &log, len) {
            refused = refused.wrapping_add(1);
        }
        assert_equal!(rt; log.amiss(), 0);
    }
    assert_equal!(rt; refused > 1, true);
}
