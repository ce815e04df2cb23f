//! A write into an arena of any kind.
ghost use Rattle.std.specs.Prelude.{◌≡◌, ◌<◌, ◌≤◌, [], ◌∷◌, ◌++◌, length, IfOk, OnOk, OnErr, slice_get, slice_set, Some};

use wasmi_arena::{AnyArena, ArenaError, ArenaKey};

/// Puts an item under a key in place of the one there, or at the end where the key reads nothing.
/// Returns the key that reads it.
///
/// Fails as [`AnyArena::alloc`] does, and then the items are as before.
pub fn put_or_alloc<Key: ArenaKey, T: Drop, S: AnyArena<Key, T>>(
    arena: &mut S,
    key: Key,
    item: T,
) -> Result<Key, ArenaError>
    ensures reads { IfOk result (λ at.
        slice_get (S.state arena.new).items (Key.keys.number at) ≡ Some item) }
    ensures replaced { Key.keys.number key < length (S.state arena.old).items → IfOk result (λ at. (at ≡ key)
        × ((S.state arena.new).items ≡ slice_set (S.state arena.old).items (Key.keys.number key) item)) }
    ensures added { length (S.state arena.old).items ≤ Key.keys.number key → OnOk result
        ((S.state arena.new).items ≡ (S.state arena.old).items ++ item ∷ []) }
    ensures err { OnErr result ((S.state arena.new).items ≡ (S.state arena.old).items) }
{
    if arena.has(key) {
        arena.put(key, item)?;
        Ok(key)
    } else {
        arena.alloc(item)
    }
}
