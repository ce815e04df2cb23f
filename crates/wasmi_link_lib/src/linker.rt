//! The tables by which imports are resolved.
ghost use Rattle.std.specs.Prelude.{◌≡◌, ℕ, ◌⊎◌, List, ◌++◌, map, option_map, slice_get, IfOk, OnOk, IfErr, IsErrOf, IsOkUnless, Some};
ghost use Rattle.wasmi_interner.specs.Interner.{symbol_of};
ghost use Rattle.wasmi_module.specs.Modules.{Import as PlainImport};
ghost use Rattle.wasmi_module.specs.Valid.{IsImportWithin, IsValid, counts_of};
ghost use Rattle.wasmi_module.specs.Views.{import_of, module_of};
ghost use Rattle.wasmi_link_lib.specs.Lines.{answer_of, line_of};
ghost use Rattle.wasmi_link_lib.specs.Linking.{AreValid, IsPastKeys, Named, all_lines, answer_by, exported, line_for, linked, module_named, named_of};
ghost use Rattle.wasmi_link_lib.specs.inner.Tables.{AreSymbolsOf, HasKeys, HasSymbols, IsLinkerOf, first_of, keyed, keyed_of, signature_of};

use crate::exports::{Place, all_exports};
use crate::firsts::first_modules;
use crate::ids::{ModuleId, TypeId};
use crate::imported::{self, Imported};
use crate::item::{Item, asked};
use crate::line::{Answer, Line};
use crate::named::NamedModule;
use crate::names::{self, ImportSymbols};
use crate::types::{self, Signature};
use std::alloc::Allocator;
use wasmi_arena::{ArenaError, ArenaKey};
use wasmi_collections::DedupArena;
use wasmi_dense::{Arena, ComponentVec};
use wasmi_hashed::Map;
use wasmi_hashed::hash::FixedState;
use wasmi_interner::{StringInterner, Sym};
use wasmi_module::{Import, Module};

// All names and types of functions of some modules; the first module of each name; and for each module the symbols
// of its imports, where its exports are, and what it imports of each kind.
#[derive(Drop)]
pub(crate) struct Linker<'a, A: Allocator> {
    pub(crate) names: StringInterner<A>,
    pub(crate) types: DedupArena<TypeId, Signature<'a>, A>,
    symbols: Vec<Vec<ImportSymbols, A>, A>,
    firsts: ComponentVec<Sym, ModuleId, A>,
    exports: Map<(ModuleId, Sym), Place, FixedState, A>,
    imported: Arena<ModuleId, Imported<A>, A>,
}

impl<'a, A: Allocator + Copy> Linker<'a, A> {
    // The tables of these modules.
    pub(crate) fn new(alloc: A, modules: &'a [NamedModule<'a, A>]) -> Result<Self, ArenaError>
        ensures ok { IfOk result (λ linker. IsLinkerOf (map named_of modules.now) linker) }
        ensures keys { IsErrOf result ArenaError.NotEnoughKeys → IsPastKeys (linked (map named_of modules.now)) }
        ensures errors { IfErr result (λ error. (error ≡ ArenaError.NotEnoughKeys)
            ⊎ (error ≡ ArenaError.OutOfSystemMemory)) }
    {
        let mut names = StringInterner::new(alloc);
        let symbols = names::intern_all(alloc, &mut names, modules)?;
        let types = types::take_all(alloc, modules)?;
        let firsts = first_modules(alloc, &names, modules)?;
        let exports = all_exports(alloc, &names, modules)?;
        let imported = imported::of_all(alloc, modules)?;
        Ok(Linker {
            names,
            types,
            symbols,
            firsts,
            exports,
            imported,
        })
    }

    // The first module of the name of a symbol.
    // proof: a call of its own, for its clause.
    fn first(&self, symbol: Sym) -> Option<ModuleId>
        ensures { (modules : List Named) (name : List ℕ) → IsLinkerOf modules self.now
            → symbol_of self.now.names name ≡ Some symbol → result ≡ first_of modules name }
    {
        self.firsts.get(symbol).copied()
    }

    // What a module exports under the name of a symbol.
    fn exported(
        &self,
        modules: &'a [NamedModule<'a, A>],
        id: ModuleId,
        body: &'a Module<'a, A>,
        symbol: Sym,
    ) -> Option<Item<'a, A>>
        requires linker { IsLinkerOf (map named_of modules.now) self.now }
        requires there { option_map (λ m. m.body) (slice_get (map named_of modules.now) id) ≡ Some (module_of body.now) }
        requires valid { IsValid (module_of body.now) }
        requires keys { HasKeys (map signature_of self.now.types.handed) (module_of body.now) }
        ensures { (name : List ℕ) → symbol_of self.now.names name ≡ Some symbol → option_map keyed_of result
            ≡ option_map (keyed (map signature_of self.now.types.handed)) (exported (module_of body.now) name) }
    {
        match self.exports.get(&(id, symbol)) {
            Some(place) => match self.imported.get(id) {
                Ok(imported) => {
                    imported::item(imported, &self.types, body, place.kind, place.index)
                }
                Err(_) => unreachable!(),
            },
            None => None,
        }
    }

    // What becomes of an import.
    fn answer(
        &self,
        modules: &'a [NamedModule<'a, A>],
        asked: &Item<'a, A>,
        symbols: ImportSymbols,
    ) -> Answer<'a, A>
        requires linker { IsLinkerOf (map named_of modules.now) self.now }
        requires valid { AreValid (map named_of modules.now) }
        requires known { (i : PlainImport) × AreSymbolsOf self.now.names i symbols }
        requires keyed { keyed_of asked.now ≡ keyed (map signature_of self.now.types.handed) (keyed_of asked.now).type }
        ensures { (i : PlainImport) → AreSymbolsOf self.now.names i symbols → answer_of result
            ≡ answer_by (keyed_of asked.now).type i.field (module_named (map named_of modules.now) i.asked) }
    {
        let Some(id) = self.first(symbols.asked) else {
            return Answer::Missing;
        };
        let named = &modules[id.into_usize()];
        match self.exported(modules, id, &named.module, symbols.field) {
            Some(given) => {
                if asked.admits(&given) {
                    Answer::Found(named.name)
                } else {
                    Answer::Differs(named.name, given.ty())
                }
            }
            None => Answer::Missing,
        }
    }

    // An import with its answer.
    fn line(
        &self,
        modules: &'a [NamedModule<'a, A>],
        asker: &'a NamedModule<'a, A>,
        import: &'a Import<'a>,
        symbols: ImportSymbols,
    ) -> Line<'a, A>
        requires linker { IsLinkerOf (map named_of modules.now) self.now }
        requires valid { AreValid (map named_of modules.now) }
        requires symbols { AreSymbolsOf self.now.names (import_of import.now) symbols }
        requires within { IsImportWithin (counts_of (named_of asker.now).body) (import_of import.now).item }
        requires keys { HasKeys (map signature_of self.now.types.handed) (named_of asker.now).body }
        ensures { line_of result ≡ line_for (map named_of modules.now) (named_of asker.now) (import_of import.now) }
    {
        let item = asked(&self.types, &asker.module, &import.item);
        let answer = self.answer(modules, &item, symbols);
        Line {
            asker: asker.name,
            asked: import.module,
            field: import.field,
            item: item.ty(),
            answer,
        }
    }

    // The imports of a module with their answers, behind others.
    fn push_lines(
        &self,
        modules: &'a [NamedModule<'a, A>],
        asker: &'a NamedModule<'a, A>,
        symbols: &[ImportSymbols],
        lines: &mut Vec<Line<'a, A>, A>,
    ) -> Result<(), ArenaError>
        requires linker { IsLinkerOf (map named_of modules.now) self.now }
        requires valid { AreValid (map named_of modules.now) }
        requires asker_valid { IsValid (named_of asker.now).body }
        requires keys { HasKeys (map signature_of self.now.types.handed) (named_of asker.now).body }
        requires symbols { HasSymbols self.now.names (named_of asker.now) symbols.now }
        ensures ok { OnOk result (map line_of lines.new.items ≡ map line_of lines.old.items
            ++ map (line_for (map named_of modules.now) (named_of asker.now)) (named_of asker.now).body.imports) }
        ensures errors { IsOkUnless result ArenaError.OutOfSystemMemory }
    {
        for (place, import) in asker.module.imports.iter().enumerate() {
            let line = self.line(modules, asker, import, symbols[place]);
            lines.push(line)?;
        }
        Ok(())
    }

    // All imports of all modules with their answers.
    pub(crate) fn lines(
        &self,
        alloc: A,
        modules: &'a [NamedModule<'a, A>],
    ) -> Result<Vec<Line<'a, A>, A>, ArenaError>
        requires linker { IsLinkerOf (map named_of modules.now) self.now }
        requires valid { AreValid (map named_of modules.now) }
        ensures ok { IfOk result (λ lines. map line_of lines.items ≡ all_lines (map named_of modules.now)) }
        ensures errors { IsOkUnless result ArenaError.OutOfSystemMemory }
    {
        let mut lines = Vec::with_capacity(alloc, count_imports(modules))?;
        for (number, asker) in modules.iter().enumerate() {
            let symbols = self.symbols[number].as_slice();
            self.push_lines(modules, asker, symbols, &mut lines)?;
        }
        Ok(lines)
    }
}

// How many imports all modules have, as room for their lines.
fn count_imports<A: Allocator>(modules: &[NamedModule<'_, A>]) -> usize {
    let mut count = 0usize;
    for named in modules {
        count = count.saturating_add(named.module.imports.len());
    }
    count
}
