//! The names that modules export, each of which a linker takes once.
ghost use Rattle.std.specs.Prelude.{◌≡◌, ◌≢◌, ◌≤◌, ◌^◌, ◌↔◌, None, [], ◌∷◌, ◌++◌, length, not, true, false, is_some, IfOk, IfSome, IfNone, OnErr, IsErrOf, Ok, Some, slice_get};
ghost use Rattle.wasmi_collections.specs.Interner.{symbol_of};

use std::alloc::Allocator;
use wasmi_arena::ArenaError;
use wasmi_collections::StringInterner;
use wasmi_collections::laws::appended_texts;
use wasmi_collections::string_interner::Sym;

/// Takes a name that a module exports, and returns whether no module exported it before. The symbols of
/// the names before stay.
pub fn export<A: Allocator + Clone>(
    names: &mut StringInterner<A>,
    name: &str,
) -> Result<bool, ArenaError>
    ensures was_new { IfOk result (λ was_new. was_new ≡ not (is_some (symbol_of names.old name.now))) }
    ensures added { IfOk result (λ was_new. was_new ≡ true → names.new ≡ names.old ++ name.now ∷ []) }
    ensures kept { IfOk result (λ was_new. was_new ≡ false → names.new ≡ names.old) }
    ensures there { IfSome (symbol_of names.old name.now) (λ _. result ≡ Ok false) }
    ensures full { IsErrOf result ArenaError.NotEnoughKeys
        ↔ ((symbol_of names.old name.now ≡ None) × (2 ^ 32 ≤ length names.old)) }
    ensures err { OnErr result (names.new ≡ names.old) }
{
    if names.get(name).is_some() {
        return Ok(false);
    }
    names.get_or_intern(name)?;
    Ok(true)
}

/// The symbol of a name, which is taken if no module exported it, and whether the symbol resolves to a text:
/// it does, and to this name.
pub fn symbol_and_text<A: Allocator + Clone>(
    names: &mut StringInterner<A>,
    name: &str,
) -> Result<(Sym, bool), ArenaError>
    ensures resolves { IfOk result (λ taken. taken.1 ≡ true) }
    ensures reads { IfOk result (λ taken. slice_get names.new taken.0 ≡ Some name.now) }
{
    let symbol = names.get_or_intern(name)?;
    Ok((symbol, names.resolve(symbol).is_some()))
}

/// The symbols of two names, and that of the first again, which is the same.
pub fn symbol_again<A: Allocator + Clone>(
    names: &mut StringInterner<A>,
    one: &str,
    other: &str,
) -> Result<(Sym, Sym), ArenaError>
    ensures { IfOk result (λ symbols. symbols.0 ≡ symbols.1) }
{
    let first = names.get_or_intern(one)?;
    names.get_or_intern(other)?;
    let again = names.get_or_intern(one)?;
    Ok((first, again))
}

/// The symbol of a name that a module imports, if a module exports it.
pub fn import<A: Allocator>(names: &StringInterner<A>, name: &str) -> Option<Sym>
    ensures { result ≡ symbol_of names.now name.now }
{
    names.get(name)
}

/// Takes a name that a module exports, and returns its symbol if no module exported it before: the number of
/// names before.
pub fn symbol_of_new<A: Allocator + Clone>(
    names: &mut StringInterner<A>,
    name: &str,
) -> Result<Option<Sym>, ArenaError>
    ensures new { IfOk result (λ symbol. IfSome symbol (λ number. number ≡ length names.old)) }
    ensures added { IfOk result (λ symbol. IfSome symbol (λ _. names.new ≡ names.old ++ name.now ∷ [])) }
    ensures known { IfOk result (λ symbol. IfNone symbol (symbol_of names.old name.now ≢ None)) }
    ensures kept { IfOk result (λ symbol. IfNone symbol (names.new ≡ names.old)) }
    ensures there { IfSome (symbol_of names.old name.now) (λ _. result ≡ Ok None) }
    ensures full { IsErrOf result ArenaError.NotEnoughKeys
        ↔ ((symbol_of names.old name.now ≡ None) × (2 ^ 32 ≤ length names.old)) }
    ensures err { OnErr result (names.new ≡ names.old) }
{
    appended_texts();
    if names.get(name).is_some() {
        return Ok(None);
    }
    export(names, name)?;
    Ok(names.get(name))
}
