//! Which module gives what another one asks for.
ghost use Rattle.std.specs.Prelude.{◌≡◌, ◌⊎◌, map, IfOk, IfErr, IsErrOf};
ghost use Rattle.wasmi_link_lib.specs.Lines.{linked_of};
ghost use Rattle.wasmi_link_lib.specs.Linking.{AreValid, IsPastKeys, linked, named_of};

use crate::line::Linked;
use crate::linker::Linker;
use crate::named::NamedModule;
use crate::types;
use std::alloc::Allocator;
use wasmi_arena::ArenaError;

/// All imports of the modules, each with what becomes of it. Names and types are found by their hashes: expected
/// time is linear in the modules and in the types of all imports, each counted as often as it is asked for.
///
/// The modules are valid, as those that `decode` returns. Fails with `OutOfSystemMemory` if there is no memory for
/// the tables or the lines, and with `NotEnoughKeys` only if there are more than 2^32 modules, names or types of
/// functions, or 2^64 entries of type sections.
pub fn resolve<'a, A: Allocator + Copy>(
    alloc: A,
    modules: &'a [NamedModule<'a, A>],
) -> Result<Linked<'a, A>, ArenaError>
    requires { AreValid (map named_of modules.now) }
    ensures ok { IfOk result (λ found. linked_of found ≡ linked (map named_of modules.now)) }
    ensures keys { IsErrOf result ArenaError.NotEnoughKeys → IsPastKeys (linked (map named_of modules.now)) }
    ensures errors { IfErr result (λ error. (error ≡ ArenaError.NotEnoughKeys)
        ⊎ (error ≡ ArenaError.OutOfSystemMemory)) }
{
    let linker = Linker::new(alloc, modules)?;
    let lines = linker.lines(alloc, modules)?;
    let types = types::count(modules)?;
    Ok(Linked {
        lines,
        modules: modules.len(),
        types,
        distinct_types: linker.types.len(),
        names: linker.names.len(),
    })
}
