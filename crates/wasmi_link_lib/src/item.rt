//! What modules import and have of their own, with the keys of functions' types.
ghost use Rattle.std.specs.Prelude.{◌≡◌, ◌<◌, length, map, option_map, slice_get};
ghost use Rattle.wasmi_module.specs.Valid.{IsImportWithin, IsValid, counts_of};
ghost use Rattle.wasmi_module.specs.Views.{module_of};
ghost use Rattle.wasmi_link_lib.specs.Lines.{Func, item_of};
ghost use Rattle.wasmi_link_lib.specs.Linking.{type_at, asked_item, own_items};
ghost use Rattle.wasmi_link_lib.specs.inner.Tables.{HasKeys, keyed, keyed_of, keyed_matches, signature_of};

use crate::ids::TypeId;
use crate::line::ItemType;
use crate::types::{Signature, id_of};
use std::alloc::Allocator;
use wasmi_collections::DedupArena;
use wasmi_module::{FuncType, GlobalType, ImportType, Kind, MemoryType, Module, TableType};

// The type of what is imported or exported; of a function with the key of its type.
#[derive_where(Clone, Copy)]
pub(crate) enum Item<'a, A: Allocator> {
    Func(TypeId, &'a FuncType<A>),
    Table(TableType),
    Memory(MemoryType),
    Global(GlobalType),
}

impl<'a, A: Allocator> Item<'a, A> {
    // The type without the key.
    pub(crate) fn ty(&self) -> ItemType<'a, A>
        ensures { item_of result ≡ (keyed_of self.now).type }
    {
        match self {
            Item::Func(_, ty) => ItemType::Func(*ty),
            Item::Table(ty) => ItemType::Table(*ty),
            Item::Memory(ty) => ItemType::Memory(*ty),
            Item::Global(ty) => ItemType::Global(*ty),
        }
    }

    // Whether what is given is what is asked for by this. Constant time.
    pub(crate) fn admits(&self, given: &Item<'_, A>) -> bool
        ensures { result ≡ keyed_matches (keyed_of self.now) (keyed_of given.now) }
    {
        match (self, given) {
            (Item::Func(asked, _), Item::Func(given, _)) => *asked == *given,
            (Item::Table(asked), Item::Table(given)) => asked.admits(given),
            (Item::Memory(asked), Item::Memory(given)) => asked.admits(given),
            (Item::Global(asked), Item::Global(given)) => asked.admits(given),
            _ => false,
        }
    }
}

// A function of the type of this index.
fn func<'a, A: Allocator>(
    types: &DedupArena<TypeId, Signature<'a>, A>,
    body: &'a Module<'a, A>,
    index: u32,
) -> Item<'a, A>
    requires within { index < length (module_of body.now).types }
    requires keys { HasKeys (map signature_of types.now.handed) (module_of body.now) }
    ensures { keyed_of result
        ≡ keyed (map signature_of types.now.handed) (Func (type_at (module_of body.now) index)) }
{
    let ty = &body.types[index as usize];
    let id = id_of(types, ty);
    Item::Func(id, ty)
}

// What an import asks for.
pub(crate) fn asked<'a, A: Allocator>(
    types: &DedupArena<TypeId, Signature<'a>, A>,
    body: &'a Module<'a, A>,
    item: &ImportType,
) -> Item<'a, A>
    requires within { IsImportWithin (counts_of (module_of body.now)) item.now }
    requires keys { HasKeys (map signature_of types.now.handed) (module_of body.now) }
    ensures { keyed_of result
        ≡ keyed (map signature_of types.now.handed) (asked_item (module_of body.now) item.now) }
{
    match item {
        ImportType::Func(index) => func(types, body, *index),
        ImportType::Table(ty) => Item::Table(*ty),
        ImportType::Memory(ty) => Item::Memory(*ty),
        ImportType::Global(ty) => Item::Global(*ty),
    }
}

// What a module has of its own under an index, if there is something.
pub(crate) fn own<'a, A: Allocator>(
    types: &DedupArena<TypeId, Signature<'a>, A>,
    body: &'a Module<'a, A>,
    kind: Kind,
    index: usize,
) -> Option<Item<'a, A>>
    requires valid { IsValid (module_of body.now) }
    requires keys { HasKeys (map signature_of types.now.handed) (module_of body.now) }
    ensures { option_map keyed_of result
        ≡ option_map (keyed (map signature_of types.now.handed)) (slice_get (own_items (module_of body.now) kind) index) }
{
    match kind {
        Kind::Func => match body.functions.get(index) {
            Some(index) => Some(func(types, body, *index)),
            None => None,
        },
        Kind::Table => match body.tables.get(index) {
            Some(ty) => Some(Item::Table(*ty)),
            None => None,
        },
        Kind::Memory => match body.memories.get(index) {
            Some(ty) => Some(Item::Memory(*ty)),
            None => None,
        },
        Kind::Global => match body.globals.get(index) {
            Some(global) => Some(Item::Global(global.ty)),
            None => None,
        },
    }
}
