//! Where the export of each name is.
ghost use Rattle.std.specs.Prelude.{◌≡◌, ◌≢◌, ℕ, ◌<◌, ◌^◌, ◌⊎◌, List, find, length, map, Some, None, option_map, IfOk, OnOk, IfErr, IsErrOf, IsOkUnless};
ghost use Rattle.std.specs.Str.{bytes_eq};
ghost use Rattle.wasmi_interner.specs.Interner.{symbol_of};
ghost use Rattle.wasmi_module.specs.Views.{export_of};
ghost use Rattle.wasmi_link_lib.specs.Linking.{named_of};
ghost use Rattle.wasmi_link_lib.specs.inner.Tables.{HasExports, Notes, place_in, place_of};

use crate::ids::ModuleId;
use crate::named::NamedModule;
use std::alloc::Allocator;
use wasmi_arena::{ArenaError, ArenaKey};
use wasmi_hashed::Map;
use wasmi_hashed::hash::FixedState;
use wasmi_interner::{StringInterner, Sym};
use wasmi_module::{Export, Kind};

// Where an export is among its module's items.
#[derive(Clone, Copy)]
pub(crate) struct Place {
    pub(crate) kind: Kind,
    pub(crate) index: u32,
}

// Where each export is, by the key of its module and the symbol of its name.
pub(crate) fn all_exports<A: Allocator + Copy>(
    alloc: A,
    names: &StringInterner<A>,
    modules: &[NamedModule<'_, A>],
) -> Result<Map<(ModuleId, Sym), Place, FixedState, A>, ArenaError>
    ensures ok { IfOk result (λ exports. HasExports names.now exports.entries (map named_of modules.now)) }
    ensures keys { IsErrOf result ArenaError.NotEnoughKeys → 2 ^ 32 < length modules.now }
    ensures errors { IfErr result (λ error. (error ≡ ArenaError.NotEnoughKeys)
        ⊎ (error ≡ ArenaError.OutOfSystemMemory)) }
{
    let mut exports = Map::new(alloc);
    for (number, named) in modules.iter().enumerate() {
        let id = ModuleId::from_usize(number).ok_or(ArenaError::NotEnoughKeys)?;
        note_exports(&mut exports, names, id, named.module.exports.as_slice())?;
    }
    Ok(exports)
}

// Notes the exports of a module, of which none is there.
fn note_exports<A: Allocator + Copy>(
    exports: &mut Map<(ModuleId, Sym), Place, FixedState, A>,
    names: &StringInterner<A>,
    id: ModuleId,
    taken: &[Export<'_>],
) -> Result<(), ArenaError>
    requires absent { (text : List ℕ) (symbol : ℕ) → symbol_of names.now text ≡ Some symbol
        → place_in exports.old.entries id symbol ≡ None }
    ensures own { OnOk result ((text : List ℕ) (symbol : ℕ) → symbol_of names.now text ≡ Some symbol
        → place_in exports.new.entries id symbol
        ≡ option_map place_of (find (λ e. bytes_eq text e.name) (map export_of taken.now))) }
    ensures others { OnOk result ((other symbol : ℕ) → other ≢ id
        → place_in exports.new.entries other symbol ≡ place_in exports.old.entries other symbol) }
    ensures errors { IsOkUnless result ArenaError.OutOfSystemMemory }
{
    for export in taken {
        note_export(exports, names, id, export)?;
    }
    Ok(())
}

// Notes an export, unless one of its name is there.
fn note_export<A: Allocator + Copy>(
    exports: &mut Map<(ModuleId, Sym), Place, FixedState, A>,
    names: &StringInterner<A>,
    id: ModuleId,
    export: &Export<'_>,
) -> Result<(), ArenaError>
    ensures own { OnOk result (Notes names.now (place_in exports.old.entries id) export.now.name.now
        (place_of (export_of export.now)) (place_in exports.new.entries id)) }
    ensures others { OnOk result ((other symbol : ℕ) → other ≢ id
        → place_in exports.new.entries other symbol ≡ place_in exports.old.entries other symbol) }
    ensures errors { IsOkUnless result ArenaError.OutOfSystemMemory }
{
    if let Some(symbol) = names.get(export.name) {
        let place = Place {
            kind: export.kind,
            index: export.index,
        };
        // An export of its name that is there stays.
        let _ = exports.try_insert((id, symbol), place)?;
    }
    Ok(())
}
