//! Interners: worked texts, and how many texts a search compares.
use crate::calls::{
    HINTS, compare, copy_of, extend, get, get_counted, intern, intern_with_hint, resolve,
};
use crate::numbered::{
    APART, ONE_HASH, ONE_HOME, TEN_HOMES, intern_in_turn, intern_numbers, most_compared, numbered,
};
use std::alloc::Global;
use std::process::Abort;
use wasmi_interner::{InternHint, LenOrder, Steps, StringInterner, Sym};
use wasmi_vectors::assert_equal;
use wasmi_vectors::logged::Logged;
use wasmi_vectors::observed::Log;

// Interns a text that isn't there, and finds it then.
fn intern_new(rt: &impl Abort, interner: &mut StringInterner, text: &str, number: u32) {
    let symbol = Sym::from_u32(number);
    assert_equal!(*rt; get(interner, text), None, at text);
    assert_equal!(*rt; intern(interner, text), Ok(symbol), at text);
    assert_equal!(*rt; get(interner, text), Some(symbol), at text);
}

// An interner of five texts.
fn five(rt: &impl Abort, alloc: Global) -> StringInterner {
    let mut interner = StringInterner::new(alloc);
    assert_equal!(*rt; interner.is_empty(), true);
    for (text, number) in [("b", 0), ("a", 1), ("bb", 2), ("", 3), ("é", 4)] {
        intern_new(rt, &mut interner, text, number);
    }
    interner
}

// Interns the first of five texts under each hint.
fn intern_first_again(rt: &impl Abort, interner: &mut StringInterner) {
    for hint in HINTS {
        assert_equal!(*rt; intern_with_hint(interner, "b", hint), Ok(Sym::from_u32(0)));
    }
    assert_equal!(*rt; (interner.len(), interner.is_empty()), (5, false));
}

// Reads symbols of five texts, and ones that are none.
fn resolve_five(rt: &impl Abort, interner: &StringInterner) {
    for (number, text) in [(0, Some("b")), (4, Some("é")), (5, None), (u32::MAX, None)] {
        assert_equal!(*rt; resolve(interner, Sym::from_u32(number)), text);
    }
}

// Looks texts up among five, each of which compares one to three.
fn count_among_five(rt: &impl Abort, interner: &StringInterner) {
    for text in ["", "a", "b", "c", "aa", "bb", "bc", "é", "zz", "bbb"] {
        let (symbol, compared) = get_counted(interner, text);
        let is_few = (1..=3).contains(&compared);
        assert_equal!(*rt; (symbol, is_few), (get(interner, text), true), at text);
    }
}

// Five texts; one again under each hint; their symbols; and how many texts a look-up compares.
#[test]
fn five_texts(rt: HostRuntime) {
    let mut interner = five(&rt, rt.alloc());
    intern_first_again(&rt, &mut interner);
    resolve_five(&rt, &interner);
    count_among_five(&rt, &interner);
    let text = format!(in rt.alloc(); "{interner:?}").expect(&rt, "");
    assert_equal!(rt; text.as_str(), "[\"b\", \"a\", \"bb\", \"\", \"é\"]");
    drop(interner);
}

#[test]
fn shorter_texts_come_first(rt: HostRuntime) {
    let ascending = ["", "a", "b", "bb", "é"];
    for (i, a) in ascending.iter().enumerate() {
        for (j, b) in ascending.iter().enumerate() {
            let order = LenOrder::new(a).cmp(&LenOrder::new(b));
            assert_equal!(rt; order, i.cmp(&j), at (a, b));
        }
    }
    assert_equal!(rt; ("é".as_bytes(), LenOrder::new("bb").as_str()), ([0xc3, 0xa9].as_slice(), "bb"));
}

// Where these differ, no byte is read of texts of megabytes.
#[test]
fn lengths_are_compared_first(rt: HostRuntime) {
    let text = "x".repeat(rt.alloc(), 4_194_304).expect(&rt, "");
    let mut less = 0u32;
    for start in 0..1_000_000usize {
        if let Some(text) = text.as_str().get(start..)
            && let Some(rest) = text.get(1..)
            && LenOrder::new(rest) < LenOrder::new(text)
        {
            less = less.wrapping_add(1);
        }
    }
    assert_equal!(rt; less, 1_000_000);
}

// Symbols are numbers, in their order.
#[test]
fn symbols_are_numbers(rt: HostRuntime) {
    for number in [0, 1, u32::MAX] {
        let symbol = Sym::from_u32(number);
        assert_equal!(rt; (symbol.into_u32(), Sym::from_usize(symbol.into_usize())), (number, symbol));
    }
    assert!(rt; Sym::from_u32(2) < Sym::from_u32(10));
    let mut steps = Steps::new();
    steps.tick();
    assert_equal!(rt; steps.count(), 1);
}

// A text of a letter. There are 32 bytes behind the head of a number of one hash.
fn lettered(rt: &impl Abort, alloc: Global, around: (&str, &str), letter: &str) -> String {
    let (head, _) = around;
    format!(in alloc; "{head}----{letter}").expect(rt, "")
}

// An interner of texts of one letter, whose order isn't that of the letters.
fn letters(rt: &impl Abort, alloc: Global, around: (&str, &str), count: usize) -> StringInterner {
    let mut interner = StringInterner::new(alloc);
    for letter in "h b p d n f l j r".split(' ').take(count) {
        let text = lettered(rt, alloc, around, letter);
        intern(&mut interner, text.as_str()).expect(rt, "");
    }
    interner
}

// How many texts a look-up compares at the most, among so many of one letter.
fn most_among_letters(rt: &impl Abort, alloc: Global, around: (&str, &str), count: usize) -> u64 {
    let interner = letters(rt, alloc, around, count);
    assert_equal!(*rt; interner.len(), count);
    let mut most = 0;
    for letter in "a b c d e f g h i j k l m n o p q r s".split(' ') {
        let text = lettered(rt, alloc, around, letter);
        let (_, compared) = get_counted(&interner, text.as_str());
        assert_equal!(*rt; count == 0 || 0 < compared, true, at letter);
        most = compared.max(most);
    }
    drop(interner);
    most
}

// Among texts of one hash, as many are compared as their number has binary digits; among others, one.
#[test]
fn a_search_is_binary(rt: HostRuntime) {
    let mut count = 0usize;
    for most in [0, 1, 2, 2, 3, 3, 3, 3, 4, 4] {
        let found = (
            most_among_letters(&rt, rt.alloc(), ONE_HASH, count),
            most_among_letters(&rt, rt.alloc(), APART, count),
        );
        assert_equal!(rt; found, (most, most.min(1)), at count);
        count = count.wrapping_add(1);
    }
}

// The first three of the first order have one hash, and so have the two behind them, and the last three.
const ORDERS: [&str; 3] = [
    "fatilu kuvutuge sidisene vuva dolafo vosunu biganike fologobi",
    "fologobi sidisene dolafo biganike kuvutuge vuva vosunu fatilu",
    "biganike vuva kuvutuge fologobi fatilu dolafo sidisene vosunu",
];

// Interns the words of an order, and another text behind each.
fn intern_order(rt: &impl Abort, interner: &mut StringInterner, alloc: Global, order: &str) {
    let mut number = 0u32;
    for text in order.split(' ') {
        let symbol = Sym::from_u32(number.wrapping_mul(2));
        assert_equal!(*rt; get(interner, text), None, at text);
        assert_equal!(*rt; intern(interner, text), Ok(symbol), at text);
        let next = number.wrapping_add(1);
        intern_numbers(rt, interner, alloc, APART, number..next);
        number = next;
    }
}

// How many texts a look-up of a word of an order compares at the most, in a copy. Each is there in both.
fn most_compared_of_order(
    rt: &impl Abort,
    interner: &mut StringInterner,
    copy: &StringInterner,
    order: &str,
) -> u64 {
    let (mut number, mut most) = (0u32, 0);
    for text in order.split(' ') {
        let symbol = Sym::from_u32(number.wrapping_mul(2));
        let (found, compared) = get_counted(copy, text);
        assert_equal!(*rt; found, Some(symbol), at text);
        assert_equal!(*rt; intern(interner, text), Ok(symbol), at text);
        assert_equal!(*rt; resolve(interner, symbol), Some(text));
        most = compared.max(most);
        number = number.wrapping_add(1);
    }
    most
}

// The same, in a copy that is made for it.
fn most_compared_in_copy(rt: &impl Abort, interner: &mut StringInterner, order: &str) -> u64 {
    let copy = copy_of(rt, interner);
    let most = most_compared_of_order(rt, interner, &copy, order);
    drop(copy);
    most
}

// A text behind each of them, and more behind all. A search of eight entries compares four texts at the most.
#[test]
fn texts_of_one_hash_are_told_apart(rt: HostRuntime) {
    let mut interner = StringInterner::new(rt.alloc());
    for order in ORDERS {
        interner.clear();
        intern_order(&rt, &mut interner, rt.alloc(), order);
        assert_equal!(rt; most_compared_in_copy(&rt, &mut interner, order), 4);
        intern_numbers(&rt, &mut interner, rt.alloc(), APART, 8..100);
        assert_equal!(rt; most_compared_in_copy(&rt, &mut interner, order), 4);
    }
    drop(interner);
}

// Nine texts are compared at the most where 300 texts are looked up, in a copy. Each is there in both.
fn find_in_rest(
    rt: &impl Abort,
    interner: &mut StringInterner,
    alloc: Global,
    around: (&str, &str),
) {
    let copy = copy_of(rt, interner);
    assert_equal!(*rt; most_compared(rt, &copy, alloc, around, 300), 9, at around.0);
    intern_in_turn(rt, interner, alloc, around, 300);
    let absent = numbered(rt, alloc, around, 300);
    assert_equal!(*rt; get(&copy, absent.as_str()), None);
    drop(copy);
}

// In the rest are all where they have one hash, 268 of one home, for the others fill its 32 slots, and at least 259 of
// ten homes: they have 41 slots among 2^8 homes, and markers fill what they have more among 2^9. So a search compares
// nine texts at the most. Behind 1,000 more texts there are 2^12 homes.
#[test]
fn texts_that_find_no_slot_are_found(rt: HostRuntime) {
    for around in [ONE_HASH, ONE_HOME, TEN_HOMES] {
        let mut interner = StringInterner::new(rt.alloc());
        intern_in_turn(&rt, &mut interner, rt.alloc(), around, 300);
        find_in_rest(&rt, &mut interner, rt.alloc(), around);
        intern_numbers(&rt, &mut interner, rt.alloc(), APART, 0..1000);
        find_in_rest(&rt, &mut interner, rt.alloc(), around);
        drop(interner);
    }
}

// A text of its own for each number below 100,003, in no order.
pub(crate) fn scattered(rt: &impl Abort, alloc: Global, number: u32) -> String {
    format!(in alloc; "{}", number.wrapping_mul(6007) % 660003).expect(rt, "")
}

// Interns the texts of all numbers in turn: by themselves under a hint, and by an iterator.
fn intern_scattered(rt: &impl Abort, interner: &mut StringInterner<Logged<'_>>, alloc: Global) {
    for number in 0..660_003u32 {
        let text = scattered(rt, alloc, number);
        if number % 2 == 0 {
            let hint = if number % 4 == 0 {
                InternHint::LikelyNew
            } else {
                InternHint::LikelyExists
            };
            let symbol = intern_with_hint(interner, text.as_str(), hint);
            assert_equal!(*rt; symbol, Ok(Sym::from_u32(number)));
        } else {
            assert_equal!(*rt; extend(interner, &[text.as_str()]), Ok(()), at number);
        }
    }
}

// Finds the texts of all numbers, and counts the comparisons.
fn find_scattered(rt: &impl Abort, interner: &StringInterner<Logged<'_>>, alloc: Global) {
    let mut steps = Steps::new();
    for number in 0..660_003u32 {
        let text = scattered(rt, alloc, number);
        assert!(*rt; steps.count() < 663_000, "{} steps", steps.count());
        let symbol = interner.get_counted(text.as_str(), &mut steps);
        assert_equal!(*rt; symbol, Some(Sym::from_u32(number)));
    }
}

// Each has a hash of its own, but for few, and finds a slot, so one text is compared. The slots are made, and then
// doubled at 5 texts, 10, 20 and so on up to 655,360, each time over a clone of the handle. One more is that of the
// block for the texts that find no slot.
#[test]
fn many_texts_are_found(rt: HostRuntime) {
    let log = Log::new();
    let mut interner = StringInterner::new(Logged::new(rt.alloc(), &log));
    let clones = log.clones();
    intern_scattered(&rt, &mut interner, rt.alloc());
    assert_equal!(rt; log.clones().wrapping_sub(clones), 20);
    let copy = copy_of(&rt, &interner);
    find_scattered(&rt, &copy, rt.alloc());
    assert_equal!(rt; get(&interner, "660003"), None);
    compare(&rt, &copy, &interner);
    drop(copy);
    drop(interner);
}

#[test]
fn more_texts_of_one_hash_than_a_short_number_tells(rt: HostRuntime) {
    let mut interner = StringInterner::new(rt.alloc());
    intern_in_turn(&rt, &mut interner, rt.alloc(), ONE_HASH, 65_540);
    drop(interner);
}

// Interns a text of that length, again without memory, and reads it.
fn keep_long(
    rt: &impl Abort,
    interner: &mut StringInterner<Logged<'_>>,
    log: &Log,
    alloc: Global,
    len: usize,
    number: u32,
) {
    let text = "x".repeat(alloc, len).expect(rt, "");
    let symbol = Sym::from_u32(number);
    assert_equal!(*rt; intern(interner, text.as_str()), Ok(symbol), at len);
    log.refuse_from(1);
    assert_equal!(*rt; intern(interner, text.as_str()), Ok(symbol), at len);
    log.refuse_none();
    let is_kept = resolve(interner, symbol) == Some(text.as_str());
    assert_equal!(*rt; is_kept, true, at len);
}

// What is there needs no memory, however long it is.
#[test]
fn long_texts_are_kept(rt: HostRuntime) {
    let log = Log::new();
    let mut interner = StringInterner::new(Logged::new(rt.alloc(), &log));
    let mut number = 0u32;
    for len in [4096, 4097, 65_536, 65_537, 1_048_577, 5] {
        keep_long(&rt, &mut interner, &log, rt.alloc(), len, number);
        number = number.wrapping_add(1);
    }
    drop(interner);
}
