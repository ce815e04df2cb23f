//! Texts of numbers, many of them in interners, and what is asked for meanwhile.
use crate::calls::{get, get_counted, intern};
use std::alloc::{Allocator, Global};
use std::ops::Range;
use std::process::Abort;
use wasmi_interner::{StringInterner, Sym};
use wasmi_vectors::assert_equal;
use wasmi_vectors::logged::Logged;
use wasmi_vectors::observed::Log;

// What stands before and behind the number of a text. The standard library's hash of 32 bytes is a product: of the third
// eight bytes, xored with what it made of the sixteen before, and of the last eight, xored with a constant. The first
// factor is 0 here, and so is the hash, whatever the number is.
pub(crate) const ONE_HASH: (&str, &str) = ("they-meet-xaennpvzjyrlqs---", "");

// The first factor is 1 here, so the hash is the last four bytes, the last one first, xored with a constant. Its
// first twelve bits are the same for all numbers below 1,000, and so is the home in a table of at most 2^12 homes.
pub(crate) const ONE_HOME: (&str, &str) = ("they-meet-xaennpwzjyrlqs--", "z");

// The last digits of the number tell the home, so there are ten homes at most.
pub(crate) const TEN_HOMES: (&str, &str) = ("they-meet-xaennpwzjyrlqs---", "");

// These have hashes of their own, and each finds a slot.
pub(crate) const APART: (&str, &str) = ("new", "");

// A text of a number.
pub(crate) fn numbered(
    rt: &impl Abort,
    alloc: Global,
    around: (&str, &str),
    number: u32,
) -> String {
    let (head, tail) = around;
    format!(in alloc; "{head}{number:05}{tail}").expect(rt, "")
}

// Interns the texts of these numbers, whatever their symbols are.
pub(crate) fn intern_numbers<A: Allocator + Clone>(
    rt: &impl Abort,
    interner: &mut StringInterner<A>,
    alloc: Global,
    around: (&str, &str),
    numbers: Range<u32>,
) {
    for number in numbers {
        let text = numbered(rt, alloc, around, number);
        intern(interner, text.as_str()).expect(rt, "");
    }
}

// Interns the texts of so many numbers from 0 on, each of which is the symbol of its text.
pub(crate) fn intern_in_turn<A: Allocator + Clone>(
    rt: &impl Abort,
    interner: &mut StringInterner<A>,
    alloc: Global,
    around: (&str, &str),
    count: u32,
) {
    for number in 0..count {
        let text = numbered(rt, alloc, around, number);
        assert_equal!(*rt; intern(interner, text.as_str()), Ok(Sym::from_u32(number)));
    }
}

// How many texts a look-up of one of these compares at the most. Each has its number as its symbol.
pub(crate) fn most_compared<A: Allocator>(
    rt: &impl Abort,
    interner: &StringInterner<A>,
    alloc: Global,
    around: (&str, &str),
    count: u32,
) -> u64 {
    let mut most = 0;
    for number in 0..count {
        let text = numbered(rt, alloc, around, number);
        let (symbol, compared) = get_counted(interner, text.as_str());
        assert_equal!(*rt; symbol, Some(Sym::from_u32(number)));
        most = compared.max(most);
    }
    most
}

// What a log counted: requests, their bytes, and clones of handles.
pub(crate) fn counted(log: &Log) -> (u64, u64, u64) {
    (log.requests(), log.bytes(), log.clones())
}

// What a log counted since then.
pub(crate) fn counted_since(log: &Log, before: (u64, u64, u64)) -> (u64, u64, u64) {
    let (requests, bytes, clones) = before;
    (
        log.requests().wrapping_sub(requests),
        log.bytes().wrapping_sub(bytes),
        log.clones().wrapping_sub(clones),
    )
}

// What a log counts while the text of a number is interned.
pub(crate) fn asked_for_text(
    rt: &impl Abort,
    interner: &mut StringInterner<Logged<'_>>,
    log: &Log,
    alloc: Global,
    around: (&str, &str),
    number: u32,
) -> (u64, u64, u64) {
    let text = numbered(rt, alloc, around, number);
    let before = counted(log);
    intern(interner, text.as_str()).expect(rt, "");
    counted_since(log, before)
}

// Finds the texts of so many numbers, or of each 64th. Each number is the symbol of its text.
pub(crate) fn find_numbers(
    rt: &impl Abort,
    interner: &StringInterner<Logged<'_>>,
    alloc: Global,
    around: (&str, &str),
    count: u32,
    is_each: bool,
) {
    for number in 0..count {
        if is_each || number % 64 == 0 {
            let text = numbered(rt, alloc, around, number);
            let found = get(interner, text.as_str());
            assert_equal!(*rt; found, Some(Sym::from_u32(number)));
        }
    }
}

// An interner of so many texts.
pub(crate) fn with_texts<'l>(
    rt: &impl Abort,
    handle: Logged<'l>,
    alloc: Global,
    around: (&str, &str),
    texts: u32,
) -> StringInterner<Logged<'l>> {
    let mut interner = StringInterner::new(handle);
    intern_numbers(rt, &mut interner, alloc, around, 0..texts);
    interner
}
