//! The first module of each name.
ghost use Rattle.std.specs.Prelude.{◌≡◌, ◌<◌, ◌^◌, ◌⊎◌, length, map, IfOk, OnOk, IfErr, IsErrOf, IsOkUnless};
ghost use Rattle.wasmi_dense.specs.Components.{component_at};
ghost use Rattle.wasmi_link_lib.specs.Linking.{named_of};
ghost use Rattle.wasmi_link_lib.specs.inner.Tables.{HasFirsts, Notes};

use crate::ids::ModuleId;
use crate::named::NamedModule;
use std::alloc::Allocator;
use wasmi_arena::{ArenaError, ArenaKey};
use wasmi_dense::ComponentVec;
use wasmi_interner::{StringInterner, Sym};

// The first module of each name, under the symbol of the name.
pub(crate) fn first_modules<A: Allocator>(
    alloc: A,
    names: &StringInterner<A>,
    modules: &[NamedModule<'_, A>],
) -> Result<ComponentVec<Sym, ModuleId, A>, ArenaError>
    ensures ok { IfOk result (λ firsts. HasFirsts names.now firsts (map named_of modules.now)) }
    ensures keys { IsErrOf result ArenaError.NotEnoughKeys → 2 ^ 32 < length modules.now }
    ensures errors { IfErr result (λ error. (error ≡ ArenaError.NotEnoughKeys)
        ⊎ (error ≡ ArenaError.OutOfSystemMemory)) }
{
    let mut firsts = ComponentVec::new(alloc);
    for (number, named) in modules.iter().enumerate() {
        let id = ModuleId::from_usize(number).ok_or(ArenaError::NotEnoughKeys)?;
        note_first(&mut firsts, names, named.name, id)?;
    }
    Ok(firsts)
}

// Notes a module under the symbol of its name, unless an earlier one is there.
fn note_first<A: Allocator>(
    firsts: &mut ComponentVec<Sym, ModuleId, A>,
    names: &StringInterner<A>,
    name: &str,
    id: ModuleId,
) -> Result<(), ArenaError>
    ensures ok { OnOk result (Notes names.now (component_at firsts.old) name.now id (component_at firsts.new)) }
    ensures errors { IsOkUnless result ArenaError.OutOfSystemMemory }
{
    if let Some(symbol) = names.get(name) {
        let there = firsts.has(symbol);
        let is_first = !there;
        if is_first {
            firsts.set(symbol, id)?;
        }
    }
    Ok(())
}
