//! The memory of interners: how much is asked for, and each request refused in turn.
use crate::calls::{HINTS, compare, copy_of, extend, get, intern, intern_with_hint, resolve};
use crate::numbered::{
    APART, ONE_HASH, ONE_HOME, asked_for_text, counted, counted_since, find_numbers,
    intern_numbers, numbered, with_texts,
};
use std::alloc::Global;
use std::ops::Range;
use std::process::Abort;
use wasmi_arena::ArenaError;
use wasmi_interner::{InternHint, StringInterner, Sym};
use wasmi_vectors::assert_equal;
use wasmi_vectors::logged::Logged;
use wasmi_vectors::observed::Log;

const NAMES: [&str; 10] = [
    "memory", "table", "", "global", "func", "start", "elem", "a", "data", "é",
];

// A text for which there is no room behind those.
const LONG: &str = "a name that is longer than the room behind others";

// Whether there are so many texts, the names from the first on.
fn has_first(interner: &StringInterner<Logged<'_>>, len: usize) -> bool {
    let mut number = 0u32;
    for name in NAMES {
        let symbol = Sym::from_u32(number);
        if symbol.into_usize() < len {
            let found = (get(interner, name), resolve(interner, symbol));
            if found != (Some(symbol), Some(name)) {
                return false;
            }
        }
        number = number.wrapping_add(1);
    }
    interner.len() == len
}

// Whether a name that was refused isn't there and all before it are, and has the next symbol the second time.
fn goes_on(
    interner: &mut StringInterner<Logged<'_>>,
    len: usize,
    name: &str,
) -> Result<bool, ArenaError> {
    let is_as_before = get(interner, name).is_none() && has_first(interner, len);
    let symbol = intern_with_hint(interner, name, InternHint::LikelyNew)?;
    Ok(is_as_before && symbol.into_usize() == len)
}

#[test]
fn a_refused_text_changes_nothing(rt: HostRuntime) {
    let mut refusals = 0u64;
    for nth in 1..30 {
        let log = Log::new();
        let mut interner = StringInterner::new(Logged::new(rt.alloc(), &log));
        log.refuse_once(nth);
        for (len, name) in NAMES.into_iter().enumerate() {
            if let Err(error) = intern(&mut interner, name) {
                assert_equal!(rt; error, ArenaError::OutOfSystemMemory);
                assert_equal!(rt; goes_on(&mut interner, len, name), Ok(true), at nth);
                refusals = refusals.wrapping_add(1);
            }
        }
        assert!(rt; has_first(&interner, 10), "at {nth}");
        drop(interner);
        assert_equal!(rt; log.amiss(), 0);
    }
    // Four for the bytes of the texts as they grow, and three for the list of where they lie. That slots are refused
    // is no error.
    assert_equal!(rt; refusals, 7);
}

// How many of so many texts are refused. Each of the others has its symbol then, and is found.
fn refused_among(
    rt: &impl Abort,
    interner: &mut StringInterner<Logged<'_>>,
    alloc: Global,
    around: (&str, &str),
    texts: u32,
) -> u64 {
    let mut refused = 0u64;
    for number in 0..texts {
        let text = numbered(rt, alloc, around, number);
        let len = interner.len();
        match intern(interner, text.as_str()) {
            Ok(symbol) => {
                let found = (get(interner, text.as_str()), resolve(interner, symbol));
                assert_equal!(*rt; found, (Some(symbol), Some(text.as_str())));
            }
            Err(error) => {
                assert_equal!(*rt; error, ArenaError::OutOfSystemMemory);
                assert_equal!(*rt; (get(interner, text.as_str()), interner.len()), (None, len));
                refused = refused.wrapping_add(1);
            }
        }
    }
    refused
}

// The slots are doubled four times, or six. Of so many requests so many are errors where they are refused: all but those
// for the slots. For 41 texts five are for the list of where they lie and seven for their bytes. What finds no slot in
// one home needs the list of blocks and one of sixteen entries. For 300 of one hash eight and ten are for the texts, and
// beside the list of blocks five as the first block gets its 256 entries, and one for the second.
#[test]
fn each_request_refused_as_slots_are_doubled(rt: HostRuntime) {
    let cases = [
        (APART, 41, 17, 12),
        (ONE_HOME, 41, 19, 14),
        (ONE_HASH, 300, 32, 25),
    ];
    for (around, texts, requests, errors) in cases {
        let (mut met, mut refused) = (0u64, 0u64);
        for nth in 1..35u64 {
            for is_last in [true, false] {
                let log = Log::new();
                let mut interner = StringInterner::new(Logged::new(rt.alloc(), &log));
                if is_last {
                    log.refuse_once(nth);
                } else {
                    log.refuse_from(nth);
                }
                let count = refused_among(&rt, &mut interner, rt.alloc(), around, texts);
                if is_last {
                    met = met.wrapping_add(u64::from(nth <= log.requests()));
                    refused = refused.wrapping_add(count);
                }
                log.refuse_none();
                for _ in 0..2 {
                    let count = refused_among(&rt, &mut interner, rt.alloc(), around, texts);
                    assert_equal!(rt; (count, interner.len()), (0, texts as usize), at nth);
                }
                drop(interner);
                assert_equal!(rt; log.amiss(), 0);
            }
        }
        assert_equal!(rt; (met, refused), (requests, errors), at around.0);
    }
}

// How many slots are asked for when a text comes behind so many. They are doubled first behind these three numbers.
fn slots_behind(number: u32, doubled: (u32, u32, u32)) -> u64 {
    let (fifth, tenth, twentieth) = doubled;
    for (texts, slots) in [
        (0, 39),
        (fifth, 47),
        (tenth, 63),
        (twentieth, 95),
        (40, 159),
        (80, 287),
    ] {
        if texts == number {
            return slots;
        }
    }
    0
}

// Interns the texts of a hundred numbers, each of which is its symbol, and some of which are refused slots.
fn double_slots(
    rt: &impl Abort,
    interner: &mut StringInterner<Logged<'_>>,
    log: &Log,
    alloc: Global,
    refused: Range<u32>,
    doubled: (u32, u32, u32),
) {
    for number in 0..100u32 {
        let is_refused = refused.contains(&number);
        if is_refused {
            log.refuse_from(1);
        } else {
            log.refuse_none();
        }
        let text = numbered(rt, alloc, APART, number);
        let before = counted(log);
        let symbol = intern(interner, text.as_str());
        assert_equal!(*rt; symbol, Ok(Sym::from_u32(number)));
        let (_, bytes, clones) = counted_since(log, before);
        if !is_refused {
            let slots = slots_behind(number, doubled);
            let wanted = (slots.wrapping_mul(8), u64::from(slots != 0));
            assert_equal!(*rt; (bytes, clones), wanted, at number);
        }
    }
}

// So many slots of eight bytes, and a clone of the handle for them, when a text comes behind so many. The texts have
// room from before. Where slots are refused from the second time on, the first 39 take 32 texts, whatever their homes.
#[test]
fn slots_are_doubled_in_turn(rt: HostRuntime) {
    let log = Log::new();
    let mut interner = with_texts(&rt, Logged::new(rt.alloc(), &log), rt.alloc(), APART, 100);
    interner.clear();
    double_slots(&rt, &mut interner, &log, rt.alloc(), 0..0, (5, 10, 20));
    find_numbers(&rt, &interner, rt.alloc(), APART, 100, true);
    interner.clear();
    double_slots(&rt, &mut interner, &log, rt.alloc(), 1..32, (32, 33, 34));
    find_numbers(&rt, &interner, rt.alloc(), APART, 100, true);
    drop(interner);
}

// Behind 4,096 texts of one hash one more asks for eight blocks in the place of sixteen and for their list, for a longer
// one and one more block, and for more room for where texts lie and for their bytes.
#[test]
fn refused_blocks_of_the_rest_are_joined_later(rt: HostRuntime) {
    let mut refusals = 0u64;
    for nth in 1..15 {
        let log = Log::new();
        let handle = Logged::new(rt.alloc(), &log);
        let mut interner = with_texts(&rt, handle, rt.alloc(), ONE_HASH, 4096);
        let more = numbered(&rt, rt.alloc(), ONE_HASH, 4096);
        log.refuse_once(nth);
        if intern(&mut interner, more.as_str()).is_err() {
            assert_equal!(rt; (get(&interner, more.as_str()), interner.len()), (None, 4096));
            refusals = refusals.wrapping_add(1);
        }
        assert_equal!(rt; intern(&mut interner, more.as_str()), Ok(Sym::from_u32(4096)));
        // Each of them once, and then each 64th.
        find_numbers(&rt, &interner, rt.alloc(), ONE_HASH, 4096, nth <= 1);
        drop(interner);
        assert_equal!(rt; log.amiss(), 0);
    }
    assert_equal!(rt; refusals, 13);
}

// Where all blocks of the rest are full, the next text of one hash widens the only one, opens one more, or has them
// joined; and the texts get twice their room. So many requests it makes, for so many bytes, and so many clones of the
// handle; and so many blocks of memory are held then. Once all are cleared, the first text takes 39 slots, and the
// second a block of sixteen entries.
#[test]
fn blocks_of_the_rest_widen_in_turn(rt: HostRuntime) {
    for (texts, asked, held) in [
        (16, (3, 1792, 0), 5),
        (256, (3, 26_624, 1), 6),
        (4096, (13, 431_424, 10), 13),
        (16_384, (21, 1_714_816, 18), 21),
    ] {
        let log = Log::new();
        let handle = Logged::new(rt.alloc(), &log);
        let mut interner = with_texts(&rt, handle, rt.alloc(), ONE_HASH, texts);
        let made = asked_for_text(&rt, &mut interner, &log, rt.alloc(), ONE_HASH, texts);
        let blocks = log.given().wrapping_sub(log.returned());
        assert_equal!(rt; (made, blocks), (asked, held), at texts);
        interner.clear();
        let sizes = (
            asked_for_text(&rt, &mut interner, &log, rt.alloc(), ONE_HASH, 0).1,
            asked_for_text(&rt, &mut interner, &log, rt.alloc(), ONE_HASH, 1).1,
        );
        assert_equal!(rt; sizes, (312, 128), at texts);
        drop(interner);
        assert_equal!(rt; log.amiss(), 0);
    }
}

// An interner of the names. One that is refused is interned again.
fn with_names<'l>(rt: &impl Abort, handle: Logged<'l>) -> StringInterner<Logged<'l>> {
    let mut interner = StringInterner::new(handle);
    for name in NAMES {
        if intern(&mut interner, name).is_err() {
            intern_with_hint(&mut interner, name, InternHint::LikelyNew).expect(rt, "");
        }
    }
    interner
}

// Interns a text that is there, under each hint and without a request.
fn intern_with_hints(
    rt: &impl Abort,
    interner: &mut StringInterner<Logged<'_>>,
    log: &Log,
    text: &str,
    number: u32,
) {
    let asked = log.requests();
    for hint in HINTS {
        let symbol = intern_with_hint(interner, text, hint);
        assert_equal!(*rt; (symbol, log.requests()), (Ok(Sym::from_u32(number)), asked));
    }
}

// What is there needs no memory, whatever the hint, and whichever request was refused before.
#[test]
fn a_text_that_is_there_needs_no_memory(rt: HostRuntime) {
    for nth in 1..30 {
        let log = Log::new();
        log.refuse_once(nth);
        let mut interner = with_names(&rt, Logged::new(rt.alloc(), &log));
        log.refuse_from(1);
        intern_with_hints(&rt, &mut interner, &log, "global", 3);
        assert!(rt; intern(&mut interner, LONG).is_err());
        assert!(rt; has_first(&interner, 10), "at {nth}");
        drop(interner);
        assert_equal!(rt; log.amiss(), 0);
    }
}

// A text as long as the room for texts, whatever the hint.
#[test]
fn a_long_text_that_is_there_needs_no_memory(rt: HostRuntime) {
    let log = Log::new();
    let mut interner = StringInterner::new(Logged::new(rt.alloc(), &log));
    assert_equal!(rt; intern(&mut interner, LONG), Ok(Sym::from_u32(0)));
    log.refuse_from(1);
    intern_with_hints(&rt, &mut interner, &log, LONG, 0);
    drop(interner);
}

// The request for its bytes is refused. One for where it lies is in `a_refused_text_changes_nothing`.
#[test]
fn a_third_text_is_refused(rt: HostRuntime) {
    let log = Log::new();
    let mut interner = StringInterner::new(Logged::new(rt.alloc(), &log));
    extend(&mut interner, &["a", "b"]).expect(&rt, "");
    log.refuse_from(1);
    assert_equal!(rt; intern(&mut interner, LONG), Err(ArenaError::OutOfSystemMemory));
    assert_equal!(rt; (get(&interner, LONG), interner.len()), (None, 2));
    log.refuse_none();
    assert_equal!(rt; intern(&mut interner, LONG), Ok(Sym::from_u32(2)));
    drop(interner);
}

// An interner of the names and two texts of one hash.
fn with_rest<'l>(rt: &impl Abort, handle: Logged<'l>, alloc: Global) -> StringInterner<Logged<'l>> {
    let mut interner = with_names(rt, handle);
    intern_numbers(rt, &mut interner, alloc, ONE_HASH, 0..2);
    interner
}

// How many requests a clone makes, which is as its source.
fn clone_requests(rt: &impl Abort, interner: &StringInterner<Logged<'_>>, log: &Log) -> u64 {
    let before = counted(log);
    let copy = copy_of(rt, interner);
    compare(rt, &copy, interner);
    let requests = counted_since(log, before).0;
    drop(copy);
    requests
}

// One for the texts, one for where they lie, and one for the slots. Two more for the rest.
#[test]
fn a_clone_asks_for_five_blocks(rt: HostRuntime) {
    let log = Log::new();
    let handle = Logged::new(rt.alloc(), &log);
    let names = with_names(&rt, handle);
    assert_equal!(rt; clone_requests(&rt, &names, &log), 3);
    let more = with_rest(&rt, handle, rt.alloc());
    assert_equal!(rt; clone_requests(&rt, &more, &log), 5);
    drop(more);
    drop(names);
}

#[test]
fn a_refused_clone_leaves_its_source(rt: HostRuntime) {
    let log = Log::new();
    let interner = with_rest(&rt, Logged::new(rt.alloc(), &log), rt.alloc());
    for nth in 1..6 {
        log.refuse_once(nth);
        let refused = interner.clone().err();
        assert_equal!(rt; refused, Some(ArenaError::OutOfSystemMemory), at nth);
        assert!(rt; has_first(&interner, 12), "at {nth}");
    }
    let copy = copy_of(&rt, &interner);
    compare(&rt, &copy, &interner);
    drop(copy);
    drop(interner);
    assert_equal!(rt; log.amiss(), 0);
}

#[test]
fn an_empty_interner_is_cloned(rt: HostRuntime) {
    let log = Log::new();
    let mut interner = StringInterner::new(Logged::new(rt.alloc(), &log));
    intern(&mut interner, "a").expect(&rt, "");
    interner.clear();
    log.refuse_from(1);
    let mut copy = copy_of(&rt, &interner);
    compare(&rt, &copy, &interner);
    log.refuse_none();
    assert_equal!(rt; intern(&mut copy, "b"), Ok(Sym::from_u32(0)));
    drop(copy);
    drop(interner);
}

// Nor does a new one, whatever the hint, but for slots or a block that it opens.
#[test]
fn a_text_clones_no_handle(rt: HostRuntime) {
    let log = Log::new();
    let mut interner = with_texts(&rt, Logged::new(rt.alloc(), &log), rt.alloc(), APART, 50);
    let before = (log.requests(), log.clones());
    for (hint, text) in [
        (InternHint::None, "import"),
        (InternHint::LikelyExists, "export"),
        (InternHint::LikelyNew, "x"),
    ] {
        for _ in 0..2 {
            intern_with_hint(&mut interner, text, hint).expect(&rt, "");
        }
    }
    assert_equal!(rt; (log.requests(), log.clones()), before);
    drop(interner);
}

// The first 39 slots take 32 texts, so from the sixth text on each asks for more, once.
#[test]
fn refused_slots_are_asked_for_once(rt: HostRuntime) {
    let log = Log::new();
    let mut interner = with_texts(&rt, Logged::new(rt.alloc(), &log), rt.alloc(), APART, 100);
    interner.clear();
    for number in 0..32u32 {
        if number == 5 {
            log.refuse_from(1);
        }
        let (requests, _, _) = asked_for_text(&rt, &mut interner, &log, rt.alloc(), APART, number);
        let wanted = u64::from(number == 0 || 5 <= number);
        assert_equal!(rt; requests, wanted, at number);
    }
    drop(interner);
}

// They go on from 2^13 homes to 2^14.
#[test]
fn slots_are_doubled_beside_a_long_rest(rt: HostRuntime) {
    let log = Log::new();
    let handle = Logged::new(rt.alloc(), &log);
    let mut interner = with_texts(&rt, handle, rt.alloc(), ONE_HASH, 5120);
    let (requests, bytes, _) = asked_for_text(&rt, &mut interner, &log, rt.alloc(), APART, 0);
    assert_equal!(rt; (requests, bytes), (1, 131_320));
    drop(interner);
}

#[test]
fn long_texts_ask_seldom(rt: HostRuntime) {
    let log = Log::new();
    let mut interner = StringInterner::new(Logged::new(rt.alloc(), &log));
    let long = "x".repeat(rt.alloc(), 5_000).expect(&rt, "");
    for number in 0..1_000u32 {
        let text = format!(in rt.alloc(); "{number}{}", long.as_str()).expect(&rt, "");
        intern(&mut interner, text.as_str()).expect(&rt, "");
    }
    assert!(rt; log.requests() < 50, "{} requests", log.requests());
    drop(interner);
}
