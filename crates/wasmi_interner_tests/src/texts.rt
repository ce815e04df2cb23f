//! The texts of an interner: visited, handed in by an iterator, and dropped.
use crate::calls::{extend, get, resolve};
use std::hash::{DefaultHasher, Hash, Hasher};
use wasmi_arena::{ArenaError, ArenaKey};
use wasmi_interner::{StringInterner, Sym};
use wasmi_vectors::assert_equal;
use wasmi_vectors::observed::{Log, Observed};

const NAMES: [&str; 5] = ["memory", "table", "", "global", "é"];

// A text for which there is no room behind those of one letter.
const LONG: &str = "a name that is longer than the room behind others";

#[test]
fn texts_are_visited_from_both_ends(rt: HostRuntime) {
    let mut interner = StringInterner::new(rt.alloc());
    extend(&mut interner, &NAMES).expect(&rt, "");
    let mut left = interner.iter();
    for (from_back, number, text, len) in [
        (true, 4, "é", 4),
        (false, 0, "memory", 3),
        (true, 3, "global", 2),
    ] {
        let visited = if from_back {
            left.next_back()
        } else {
            left.next()
        };
        match visited {
            Some((symbol, there)) => assert_equal!(rt; (symbol.into_u32(), there), (number, text)),
            None => assert!(rt; false, "a text is left"),
        }
        assert_equal!(rt; left.len(), len);
    }
    for (symbol, text) in &interner {
        assert_equal!(rt; resolve(&interner, symbol), Some(text));
    }
    drop(interner);
}

#[test]
fn a_symbol_is_a_key(rt: HostRuntime) {
    for number in [0, u32::MAX] {
        let symbol = Sym::from_u32(number);
        let key: Option<Sym> = ArenaKey::from_usize(number as usize);
        assert_equal!(rt; (key, ArenaKey::into_usize(symbol)), (Some(symbol), number as usize));
    }
    let none: Option<Sym> = ArenaKey::from_usize(4_294_967_296);
    assert_equal!(rt; none, None);
    let symbol = Sym::from_u32(20);
    assert_equal!(rt; format!(in rt.alloc(); "{symbol}{symbol:>4}").expect(&rt, "").as_str(), "20  20");
}

// What is there needs no memory. After an error the texts before it stay.
#[test]
fn texts_of_an_iterator_are_interned(rt: HostRuntime) {
    let log = Log::new();
    let handle = Observed::new(rt.alloc(), &log);
    let mut interner = StringInterner::new(&handle);
    interner.extend(NAMES).expect(&rt, "");
    let asked = log.requests();
    extend(&mut interner, &["é", "", "table", ""]).expect(&rt, "");
    assert_equal!(rt; (interner.len(), log.requests()), (5, asked));
    interner.clear();
    assert_equal!(rt; (interner.len(), interner.contains("table"), log.requests()), (0, false, asked));
    extend(&mut interner, &["x"]).expect(&rt, "");
    log.refuse_once(1);
    let mut more = ["", "x", LONG, "z"].into_iter();
    assert_equal!(rt; interner.extend(&mut more), Err(ArenaError::OutOfSystemMemory));
    assert_equal!(rt; more.next(), Some("z"));
    let before = (interner.contains("x"), interner.contains(""));
    assert_equal!(rt; before, (true, true));
    let behind = (interner.contains(LONG), interner.contains("z"));
    assert_equal!(rt; behind, (false, false));
    extend(&mut interner, &["z", LONG]).expect(&rt, "");
    assert_equal!(rt; get(&interner, LONG), Some(Sym::from_u32(3)));
    if interner.len() > 1 {
        assert_equal!(rt; interner.text(Sym::from_u32(1)), "");
    }
    drop(interner);
    drop(handle);
    assert_equal!(rt; log.amiss(), 0);
}

fn hash_of(number: u32) -> u64 {
    let mut hasher = DefaultHasher::new();
    Sym::from_u32(number).hash(&mut hasher);
    hasher.finish()
}

// Each bit of the number tells.
#[test]
fn symbols_that_differ_hash_apart(rt: HostRuntime) {
    for bit in 0..32u32 {
        assert!(rt; hash_of(1u32.wrapping_shl(bit)) != hash_of(0), "of {bit}");
    }
}
