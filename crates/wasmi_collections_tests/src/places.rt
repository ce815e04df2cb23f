//! Many values and texts, and the places that they ask for.
use std::alloc::{AllocError, Global};
use std::process::Abort;
use wasmi_collections::StringInterner;
use wasmi_collections::arena::{ArenaError, DedupArena};
use wasmi_vectors::assert_equal;
use wasmi_vectors::logged::Logged;
use wasmi_vectors::observed::Log;

// The nth text: a number, but for a long one in one place.
fn nth_text(alloc: Global, number: u32, long: &str) -> Result<String, AllocError> {
    if number == 4_500 {
        String::from_str(alloc, long)
    } else {
        format!(in alloc; "{number}")
    }
}

fn many_numbers(rt: &impl Abort, alloc: Global) {
    let mut numbers: DedupArena<usize, u32> = DedupArena::new(alloc);
    for number in 0..5_000u32 {
        assert_equal!(*rt; numbers.alloc_ref(&number), Ok(number as usize));
    }
    assert_equal!(*rt; numbers.len(), 5_000);
    for number in 5_000..2_097_153u32 {
        assert_equal!(*rt; numbers.alloc(number), Ok(number as usize));
    }
    drop(numbers);
}

fn many_texts(rt: &impl Abort, alloc: Global, long: &str) {
    let mut texts: DedupArena<usize, String> = DedupArena::new(alloc);
    for number in 0..5_000u32 {
        let text = nth_text(alloc, number, long).expect(rt, "");
        assert_equal!(*rt; texts.alloc_str(alloc, text.as_str()), Ok(number as usize));
    }
    assert_equal!(*rt; texts.len(), 5_000);
    assert_equal!(*rt; (texts.key_of_str(long), texts.key_of_str("4500")), (Some(4_500), None));
    drop(texts);
}

fn many_names(rt: &impl Abort, alloc: Global, long: &str) {
    let mut interner = StringInterner::new(alloc);
    for number in 0..5_000u32 {
        let text = nth_text(alloc, number, long).expect(rt, "");
        assert_equal!(*rt; interner.extend([text.as_str()]), Ok(()));
    }
    assert_equal!(*rt; interner.len(), 5_000);
    match interner.get(long) {
        Some(symbol) => assert_equal!(*rt; symbol.into_u32(), 4_500),
        None => assert!(*rt; false, "the long text has no symbol"),
    }
    drop(interner);
}

// From empty on, past the growths of each part.
#[test]
fn many_values_and_texts(rt: HostRuntime) {
    let long = "0123456789".repeat(rt.alloc(), 7_000).expect(&rt, "");
    many_numbers(&rt, rt.alloc());
    many_texts(&rt, rt.alloc(), long.as_str());
    many_names(&rt, rt.alloc(), long.as_str());
}

// Adds a number, puts another in its place, and then that one again, by both calls.
fn add_number(
    arena: &mut DedupArena<usize, u32, Logged<'_>>,
    number: u32,
) -> Result<(), ArenaError> {
    let next = number.wrapping_add(10_000);
    let key = if number % 2 == 0 {
        arena.alloc(number)?
    } else {
        arena.alloc_ref(&number)?
    };
    arena.replace(key, next)?;
    arena.replace(key, next)?;
    arena.alloc_ref(&next)?;
    Ok(())
}

// The items ask for a block of 4, of 8 and so on up to 8,192, which are 12; the index for a few blocks each time that
// it doubles, of which a value takes some 20 bytes. A request for each value would be thousands.
#[test]
fn a_value_asks_for_its_places_alone(rt: HostRuntime) {
    let log = Log::new();
    let mut arena = DedupArena::new(Logged::new(rt.alloc(), &log));
    for number in 0..5_000u32 {
        add_number(&mut arena, number).expect(&rt, "");
    }
    let (requests, bytes) = (log.requests(), log.bytes());
    assert_equal!(rt; requests < 64, true, at requests);
    assert_equal!(rt; bytes < 4 * 16_384 + 40 * 32_768, true, at bytes);
    drop(arena);
}
