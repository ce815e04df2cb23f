//! An entity that has a property from the start, in a store of entities.
ghost use Rattle.std.specs.Prelude.{◌≡◌, IfOk, Some};
ghost use Rattle.wasmi_script_lib.specs.Store.{with_entity, with_property};

use wasmi_arena::ArenaError;
use wasmi_script_lib::{EntityKey, EntityStore};

/// Adds an entity that has a property. If memory runs out it may have been added without one. Errors as of
/// `EntityStore::add`, time as of that and `EntityStore::set`.
pub fn spawn(
    store: &mut EntityStore,
    name: &str,
    kind: &str,
    property: u64,
) -> Result<EntityKey, ArenaError>
    ensures ok { IfOk result (λ key. store.new
        ≡ with_property (with_entity store.old name.now kind.now) key (Some property)) }
{
    let key = store.add(name, kind)?;
    store.set(key, property)?;
    Ok(key)
}
