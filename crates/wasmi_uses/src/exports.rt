//! What a linker knows of each name, in a table beside the names.
ghost use Rattle.std.specs.Prelude.{◌≡◌, IfOk, IfSome, IfNone, None, Some, option_copied};
ghost use Rattle.wasmi_collections.specs.Interner.{symbol_of};
ghost use Rattle.wasmi_dense.specs.Components.{component_at, ChangesAt};

use std::alloc::Allocator;
use wasmi_collections::StringInterner;
use wasmi_collections::arena::{ArenaError, ComponentVec};
use wasmi_collections::string_interner::Sym;

/// Takes a name, and notes what it stands for under its symbol. What other names stand for stays.
pub fn note<T: Drop, A: Allocator + Clone>(
    names: &mut StringInterner<A>,
    noted: &mut ComponentVec<Sym, T, A>,
    name: &str,
    value: T,
) -> Result<Sym, ArenaError>
    ensures symbol { IfOk result (λ symbol. symbol_of names.new name.now ≡ Some symbol) }
    ensures noted { IfOk result (λ symbol. ChangesAt noted.old symbol (Some value) noted.new) }
{
    let symbol = names.get_or_intern(name)?;
    noted.set(symbol, value)?;
    Ok(symbol)
}

/// What a name stands for, if the name was taken and something was noted.
pub fn noted_of<'a, T, A: Allocator>(
    names: &StringInterner<A>,
    noted: &'a ComponentVec<Sym, T, A>,
    name: &str,
) -> Option<&'a T>
    ensures there { IfSome (symbol_of names.now name.now) (λ symbol.
        option_copied result ≡ component_at noted.now symbol) }
    ensures absent { IfNone (symbol_of names.now name.now) (option_copied result ≡ None) }
{
    match names.get(name) {
        Some(symbol) => noted.get(symbol),
        None => None,
    }
}
