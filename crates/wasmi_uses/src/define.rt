//! Names that are defined once, in a map of any kind.
ghost use Rattle.std.specs.Prelude.{◌≡◌, length, IfOk, OnOk, OnErr, IsSome, Some, None};
ghost use Rattle.wasmi_map_specs.specs.Maps.{value_at, ChangesAt};

use wasmi_arena::ArenaError;
use wasmi_collections::run::AnyMap;

/// Defines a name if it isn't defined, and returns how many names there are then. A name that is defined
/// keeps its value.
pub fn define<K: Drop, V: Drop, M: AnyMap<K, V>>(
    names: &mut M,
    name: K,
    value: V,
) -> Result<usize, ArenaError>
    ensures count { IfOk result (λ count. count ≡ length (M.entries names.new)) }
    ensures kept { IsSome (value_at M.eq (M.entries names.old) name)
        → M.entries names.new ≡ M.entries names.old }
    ensures defined { value_at M.eq (M.entries names.old) name ≡ None → OnOk result
        (ChangesAt M.eq (M.entries names.old) name (Some value) (M.entries names.new)) }
    ensures err { OnErr result (M.entries names.new ≡ M.entries names.old) }
{
    names.or_insert(name, value)?;
    Ok(names.len())
}
