//! Properties of the entities that an arena has.
ghost use Rattle.std.specs.Prelude.{◌≡◌, not, is_some, IfOk, OnErr, Some, true, false};
ghost use Rattle.wasmi_dense.specs.Components.{component_at, ChangesAt};

use std::alloc::Allocator;
use wasmi_arena::{ArenaError, ArenaKey};
use wasmi_dense::ComponentVec;

/// Gives an entity a property if it has none, and returns whether it had none.
pub fn set_once<Key: ArenaKey, T: Drop, A: Allocator>(
    properties: &mut ComponentVec<Key, T, A>,
    key: Key,
    property: T,
) -> Result<bool, ArenaError>
    ensures was_free { IfOk result (λ was_free. was_free
        ≡ not (is_some (component_at properties.old (Key.keys.number key)))) }
    ensures set { IfOk result (λ was_free. was_free ≡ true
        → ChangesAt properties.old (Key.keys.number key) (Some property) properties.new) }
    ensures kept { IfOk result (λ was_free. was_free ≡ false → properties.new ≡ properties.old) }
    ensures err { OnErr result (properties.new ≡ properties.old) }
{
    if properties.get(key).is_some() {
        return Ok(false);
    }
    properties.set(key, property)?;
    Ok(true)
}
