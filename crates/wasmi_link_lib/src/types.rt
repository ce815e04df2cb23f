//! The types of functions, each once under a key.
ghost use Rattle.std.specs.Prelude.{◌≡◌, ◌<◌, ◌≤◌, ◌^◌, ◌⊎◌, length, map, fold, IfOk, OnOk, IfErr, IsErrOf, IsOkUnless, IsSome, Some};
ghost use Rattle.wasmi_module.specs.Views.{func_type_of};
ghost use Rattle.wasmi_link_lib.specs.Linking.{named_of, all_types, func_type_eq, with_value, without_repetitions};
ghost use Rattle.wasmi_link_lib.specs.inner.Tables.{key_of, signature_of};

use crate::ids::TypeId;
use crate::named::NamedModule;
use std::alloc::Allocator;
use wasmi_arena::ArenaError;
use wasmi_collections::DedupArena;
use wasmi_module::{FuncType, ValType};

// The type of a function, lent from its module.
#[derive(Clone, Copy, PartialEq, Eq, Hash)]
pub(crate) struct Signature<'a> {
    params: &'a [ValType],
    results: &'a [ValType],
}

impl<'a> Signature<'a> {
    // The parameters and results of a type.
    pub(crate) fn of<A: Allocator>(ty: &'a FuncType<A>) -> Self
        ensures { signature_of result ≡ func_type_of ty.now }
    {
        Signature {
            params: ty.params.as_slice(),
            results: ty.results.as_slice(),
        }
    }
}

// The types of functions of all modules.
pub(crate) fn take_all<'a, A: Allocator + Copy>(
    alloc: A,
    modules: &'a [NamedModule<'a, A>],
) -> Result<DedupArena<TypeId, Signature<'a>, A>, ArenaError>
    ensures ok { IfOk result (λ types. map signature_of types.handed
        ≡ without_repetitions func_type_eq (all_types (map named_of modules.now))) }
    ensures keys { IsErrOf result ArenaError.NotEnoughKeys
        → 2 ^ 32 < length (without_repetitions func_type_eq (all_types (map named_of modules.now))) }
    ensures errors { IfErr result (λ error. (error ≡ ArenaError.NotEnoughKeys)
        ⊎ (error ≡ ArenaError.OutOfSystemMemory)) }
{
    let mut types = DedupArena::new(alloc);
    for named in modules {
        take_types(&mut types, named.module.types.as_slice())?;
    }
    Ok(types)
}

// The types of a module.
fn take_types<'a, A: Allocator + Copy>(
    types: &mut DedupArena<TypeId, Signature<'a>, A>,
    taken: &'a [FuncType<A>],
) -> Result<(), ArenaError>
    ensures ok { OnOk result (map signature_of types.new.handed
        ≡ fold (with_value func_type_eq) (map signature_of types.old.handed) (map func_type_of taken.now)) }
    ensures keys { IsErrOf result ArenaError.NotEnoughKeys → 2 ^ 32
        < length (fold (with_value func_type_eq) (map signature_of types.old.handed) (map func_type_of taken.now)) }
    ensures errors { IfErr result (λ error. (error ≡ ArenaError.NotEnoughKeys)
        ⊎ (error ≡ ArenaError.OutOfSystemMemory)) }
{
    for ty in taken {
        take_type(types, ty)?;
    }
    Ok(())
}

// A type, which goes to the end where it is new.
fn take_type<'a, A: Allocator + Copy>(
    types: &mut DedupArena<TypeId, Signature<'a>, A>,
    ty: &'a FuncType<A>,
) -> Result<(), ArenaError>
    ensures ok { OnOk result (map signature_of types.new.handed
        ≡ with_value func_type_eq (map signature_of types.old.handed) (func_type_of ty.now)) }
    ensures keys { IsErrOf result ArenaError.NotEnoughKeys
        → 2 ^ 32 < length (with_value func_type_eq (map signature_of types.old.handed) (func_type_of ty.now)) }
    ensures errors { IfErr result (λ error. (error ≡ ArenaError.NotEnoughKeys)
        ⊎ (error ≡ ArenaError.OutOfSystemMemory)) }
{
    types.alloc(Signature::of(ty))?;
    Ok(())
}

// The key of a type that is there.
pub(crate) fn id_of<'a, A: Allocator>(
    types: &DedupArena<TypeId, Signature<'a>, A>,
    ty: &'a FuncType<A>,
) -> TypeId
    requires { IsSome (key_of (map signature_of types.now.handed) (func_type_of ty.now)) }
    ensures { key_of (map signature_of types.now.handed) (func_type_of ty.now) ≡ Some result }
{
    match types.key_of(&Signature::of(ty)) {
        Some(id) => id,
        None => unreachable!(),
    }
}

// How many entries the sections of types of all modules have.
//
// Fails with `NotEnoughKeys` where these are 2^64 or more.
pub(crate) fn count<A: Allocator>(modules: &[NamedModule<'_, A>]) -> Result<usize, ArenaError>
    ensures ok { IfOk result (λ count. count ≡ length (all_types (map named_of modules.now))) }
    ensures keys { IsErrOf result ArenaError.NotEnoughKeys → 2 ^ 64 ≤ length (all_types (map named_of modules.now)) }
    ensures errors { IsOkUnless result ArenaError.NotEnoughKeys }
{
    let mut count = 0usize;
    for named in modules {
        let Some(more) = count.checked_add(named.module.types.len()) else {
            return Err(ArenaError::NotEnoughKeys);
        };
        count = more;
    }
    Ok(count)
}
