//! What modules import, by kind.
ghost use Rattle.std.specs.Prelude.{◌≡◌, ◌<◌, ◌^◌, ◌⊎◌, length, map, option_map, slice_get, IfOk, IfErr, IsErrOf};
ghost use Rattle.wasmi_module.specs.Valid.{IsValid};
ghost use Rattle.wasmi_module.specs.Views.{module_of};
ghost use Rattle.wasmi_module.specs.Modules.{Module as PlainModule};
ghost use Rattle.wasmi_link_lib.specs.Linking.{named_of, items_of};
ghost use Rattle.wasmi_link_lib.specs.inner.Tables.{HasKeys, all_imported, imported_of, imported_view, keyed, keyed_of, signature_of};

use crate::ids::{ModuleId, TypeId};
use crate::item::{Item, asked, own};
use crate::named::NamedModule;
use crate::types::Signature;
use std::alloc::{AllocError, Allocator};
use wasmi_arena::ArenaError;
use wasmi_collections::DedupArena;
use wasmi_dense::Arena;
use wasmi_module::{ImportType, Kind, Module};

// What a module imports of each kind, in order.
#[derive(Drop)]
pub(crate) struct Imported<A: Allocator> {
    functions: Vec<ImportType, A>,
    tables: Vec<ImportType, A>,
    memories: Vec<ImportType, A>,
    globals: Vec<ImportType, A>,
}

impl<A: Allocator> Imported<A> {
    // The imports of a module, by kind.
    fn of(alloc: A, body: &Module<'_, A>) -> Result<Self, AllocError>
    where
        A: Copy,
        ensures { IfOk result (λ imported. imported_view imported ≡ all_imported (module_of body.now)) }
    {
        Ok(Imported {
            functions: of_kind(alloc, body, Kind::Func)?,
            tables: of_kind(alloc, body, Kind::Table)?,
            memories: of_kind(alloc, body, Kind::Memory)?,
            globals: of_kind(alloc, body, Kind::Global)?,
        })
    }

    // Those of a kind.
    fn get(&self, kind: Kind) -> &[ImportType]
        ensures { (plain : PlainModule) → imported_view self.now ≡ all_imported plain → result.now ≡ imported_of kind plain }
    {
        match kind {
            Kind::Func => self.functions.as_slice(),
            Kind::Table => self.tables.as_slice(),
            Kind::Memory => self.memories.as_slice(),
            Kind::Global => self.globals.as_slice(),
        }
    }
}

// What a module imports of a kind.
fn of_kind<A: Allocator>(
    alloc: A,
    body: &Module<'_, A>,
    kind: Kind,
) -> Result<Vec<ImportType, A>, AllocError>
    ensures { IfOk result (λ items. items.items ≡ imported_of kind (module_of body.now)) }
{
    let mut items = Vec::new(alloc);
    for import in &body.imports {
        if import.item.is_of(kind) {
            items.push(import.item)?;
        }
    }
    Ok(items)
}

// What each module imports, under the module's key.
pub(crate) fn of_all<A: Allocator + Copy>(
    alloc: A,
    modules: &[NamedModule<'_, A>],
) -> Result<Arena<ModuleId, Imported<A>, A>, ArenaError>
    ensures ok { IfOk result (λ imported. map imported_view imported.items
        ≡ map (λ m. all_imported m.body) (map named_of modules.now)) }
    ensures keys { IsErrOf result ArenaError.NotEnoughKeys → 2 ^ 32 < length modules.now }
    ensures errors { IfErr result (λ error. (error ≡ ArenaError.NotEnoughKeys)
        ⊎ (error ≡ ArenaError.OutOfSystemMemory)) }
{
    let mut all = Arena::new(alloc);
    for named in modules {
        let imported = Imported::of(alloc, &named.module)?;
        all.alloc(imported)?;
    }
    Ok(all)
}

// What a module has under an index: what it imports, and then its own.
pub(crate) fn item<'a, A: Allocator>(
    imported: &Imported<A>,
    types: &DedupArena<TypeId, Signature<'a>, A>,
    body: &'a Module<'a, A>,
    kind: Kind,
    index: u32,
) -> Option<Item<'a, A>>
    requires imported { imported_view imported.now ≡ all_imported (module_of body.now) }
    requires valid { IsValid (module_of body.now) }
    requires keys { HasKeys (map signature_of types.now.handed) (module_of body.now) }
    ensures { option_map keyed_of result
        ≡ option_map (keyed (map signature_of types.now.handed)) (slice_get (items_of (module_of body.now) kind) index) }
{
    let before = imported.get(kind);
    let index = index as usize;
    match before.get(index) {
        Some(item) => Some(asked(types, body, item)),
        None => own(types, body, kind, index - before.len()),
    }
}
