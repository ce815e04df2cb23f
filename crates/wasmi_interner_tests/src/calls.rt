//! The calls of an interner that tests make most, without their clauses, which the proof of a test would carry along.
use std::alloc::Allocator;
use std::process::Abort;
use wasmi_arena::ArenaError;
use wasmi_interner::{InternHint, Steps, StringInterner, Sym};
use wasmi_vectors::assert_equal;

pub(crate) const HINTS: [InternHint; 3] = [
    InternHint::None,
    InternHint::LikelyExists,
    InternHint::LikelyNew,
];

// The symbol of a text, if it is there.
pub(crate) fn get<A: Allocator>(interner: &StringInterner<A>, text: &str) -> Option<Sym> {
    interner.get(text)
}

// The symbol of a text, if it is there, and how many texts the look-up compares.
pub(crate) fn get_counted<A: Allocator>(
    interner: &StringInterner<A>,
    text: &str,
) -> (Option<Sym>, u64) {
    let mut steps = Steps::new();
    let symbol = interner.get_counted(text, &mut steps);
    (symbol, steps.count())
}

// The text of a symbol.
pub(crate) fn resolve<A: Allocator>(interner: &StringInterner<A>, symbol: Sym) -> Option<&str> {
    interner.resolve(symbol)
}

// Interns a text.
pub(crate) fn intern<A: Allocator + Clone>(
    interner: &mut StringInterner<A>,
    text: &str,
) -> Result<Sym, ArenaError> {
    interner.get_or_intern(text)
}

// Interns a text under a hint.
pub(crate) fn intern_with_hint<A: Allocator + Clone>(
    interner: &mut StringInterner<A>,
    text: &str,
    hint: InternHint,
) -> Result<Sym, ArenaError> {
    interner.get_or_intern_with_hint(text, hint)
}

// Interns the texts of an iterator.
pub(crate) fn extend<A: Allocator + Clone>(
    interner: &mut StringInterner<A>,
    texts: &[&str],
) -> Result<(), ArenaError> {
    interner.extend(texts.iter().copied())
}

// An interner of the same texts.
pub(crate) fn copy_of<A: Allocator + Clone>(
    rt: &impl Abort,
    interner: &StringInterner<A>,
) -> StringInterner<A> {
    interner.clone().expect(rt, "")
}

// Compares two interners.
pub(crate) fn compare<A: Allocator>(
    rt: &impl Abort,
    got: &StringInterner<A>,
    want: &StringInterner<A>,
) {
    assert_equal!(*rt; got, want);
}
