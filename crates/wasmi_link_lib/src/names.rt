//! All names, each once under a symbol.
ghost use Rattle.std.specs.Prelude.{◌≡◌, ◌<◌, ◌^◌, ◌⊎◌, Some, length, map, fold, IfOk, OnOk, IfErr, IsErrOf};
ghost use Rattle.std.specs.List.{AllZip, flat_map};
ghost use Rattle.std.specs.Str.{bytes_eq};
ghost use Rattle.wasmi_module.specs.Views.{import_of, export_of};
ghost use Rattle.wasmi_interner.specs.Interner.{symbol_of};
ghost use Rattle.wasmi_link_lib.specs.Linking.{named_of, names_of, all_names, import_names, with_value};
ghost use Rattle.wasmi_link_lib.specs.inner.Tables.{AreSymbolsOf, HasSymbols};

use crate::named::NamedModule;
use std::alloc::Allocator;
use wasmi_arena::ArenaError;
use wasmi_interner::{StringInterner, Sym};
use wasmi_module::{Export, Import};

// The symbols of the two names of an import.
#[derive(Clone, Copy)]
pub(crate) struct ImportSymbols {
    // Of the module that is asked.
    pub(crate) asked: Sym,
    // Of the export that it asks for.
    pub(crate) field: Sym,
}

// Takes the names of all modules: their own, those of their imports, and those of their exports. Returns for each
// module the symbols of its imports.
pub(crate) fn intern_all<A: Allocator + Copy>(
    alloc: A,
    names: &mut StringInterner<A>,
    modules: &[NamedModule<'_, A>],
) -> Result<Vec<Vec<ImportSymbols, A>, A>, ArenaError>
    ensures ok { OnOk result (names.new ≡ fold (with_value bytes_eq) names.old (all_names (map named_of modules.now))) }
    ensures symbols { IfOk result (λ symbols.
        AllZip (HasSymbols names.new) (map named_of modules.now) (map (λ s. s.items) symbols.items)) }
    ensures keys { IsErrOf result ArenaError.NotEnoughKeys
        → 2 ^ 32 < length (fold (with_value bytes_eq) names.old (all_names (map named_of modules.now))) }
    ensures errors { IfErr result (λ error. (error ≡ ArenaError.NotEnoughKeys)
        ⊎ (error ≡ ArenaError.OutOfSystemMemory)) }
{
    let mut all = Vec::with_capacity(alloc, modules.len())?;
    for named in modules {
        let symbols = intern_names(alloc, names, named)?;
        all.push(symbols)?;
    }
    Ok(all)
}

// The names of a module.
fn intern_names<A: Allocator + Copy>(
    alloc: A,
    names: &mut StringInterner<A>,
    named: &NamedModule<'_, A>,
) -> Result<Vec<ImportSymbols, A>, ArenaError>
    ensures ok { OnOk result (names.new ≡ fold (with_value bytes_eq) names.old (names_of (named_of named.now))) }
    ensures symbols { IfOk result (λ symbols. HasSymbols names.new (named_of named.now) symbols.items) }
    ensures keys { IsErrOf result ArenaError.NotEnoughKeys
        → 2 ^ 32 < length (fold (with_value bytes_eq) names.old (names_of (named_of named.now))) }
    ensures errors { IfErr result (λ error. (error ≡ ArenaError.NotEnoughKeys)
        ⊎ (error ≡ ArenaError.OutOfSystemMemory)) }
{
    intern(names, named.name)?;
    let symbols = intern_imports(alloc, names, named.module.imports.as_slice())?;
    intern_exports(names, named.module.exports.as_slice())?;
    Ok(symbols)
}

// The names of imports.
fn intern_imports<A: Allocator + Copy>(
    alloc: A,
    names: &mut StringInterner<A>,
    imports: &[Import<'_>],
) -> Result<Vec<ImportSymbols, A>, ArenaError>
    ensures ok { OnOk result (names.new
        ≡ fold (with_value bytes_eq) names.old (flat_map import_names (map import_of imports.now))) }
    ensures symbols { IfOk result (λ symbols. AllZip (AreSymbolsOf names.new) (map import_of imports.now) symbols.items) }
    ensures keys { IsErrOf result ArenaError.NotEnoughKeys
        → 2 ^ 32 < length (fold (with_value bytes_eq) names.old (flat_map import_names (map import_of imports.now))) }
    ensures errors { IfErr result (λ error. (error ≡ ArenaError.NotEnoughKeys)
        ⊎ (error ≡ ArenaError.OutOfSystemMemory)) }
{
    let mut symbols = Vec::with_capacity(alloc, imports.len())?;
    for import in imports {
        let asked = intern(names, import.module)?;
        let field = intern(names, import.field)?;
        symbols.push(ImportSymbols { asked, field })?;
    }
    Ok(symbols)
}

// The names of exports.
fn intern_exports<A: Allocator + Copy>(
    names: &mut StringInterner<A>,
    exports: &[Export<'_>],
) -> Result<(), ArenaError>
    ensures ok { OnOk result (names.new
        ≡ fold (with_value bytes_eq) names.old (map (λ e. e.name) (map export_of exports.now))) }
    ensures keys { IsErrOf result ArenaError.NotEnoughKeys
        → 2 ^ 32 < length (fold (with_value bytes_eq) names.old (map (λ e. e.name) (map export_of exports.now))) }
    ensures errors { IfErr result (λ error. (error ≡ ArenaError.NotEnoughKeys)
        ⊎ (error ≡ ArenaError.OutOfSystemMemory)) }
{
    for export in exports {
        intern(names, export.name)?;
    }
    Ok(())
}

// A name, which goes to the end where it is new.
fn intern<A: Allocator + Copy>(names: &mut StringInterner<A>, name: &str) -> Result<Sym, ArenaError>
    ensures ok { OnOk result (names.new ≡ with_value bytes_eq names.old name.now) }
    ensures symbol { IfOk result (λ symbol. symbol_of names.new name.now ≡ Some symbol) }
    ensures keys { IsErrOf result ArenaError.NotEnoughKeys
        → 2 ^ 32 < length (with_value bytes_eq names.old name.now) }
    ensures errors { IfErr result (λ error. (error ≡ ArenaError.NotEnoughKeys)
        ⊎ (error ≡ ArenaError.OutOfSystemMemory)) }
{
    names.get_or_intern(name)
}
