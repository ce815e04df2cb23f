//! Two items that go into an arena together, as far as memory goes.
ghost use Rattle.std.specs.Prelude.{◌≡◌, [], ◌∷◌, ◌++◌, OnOk, IsErrOf};

use std::alloc::Allocator;
use wasmi_arena::{ArenaError, ArenaKey};
use wasmi_dense::Arena;

/// Puts two items at the end. Without memory for both, neither goes in; with a key for one, the first stays.
pub fn put_both<Key: ArenaKey, T: Drop, A: Allocator>(
    arena: &mut Arena<Key, T, A>,
    first: T,
    second: T,
) -> Result<(), ArenaError>
    ensures ok { OnOk result (arena.new.items ≡ arena.old.items ++ first ∷ [] ++ second ∷ []) }
    ensures memory { IsErrOf result ArenaError.OutOfSystemMemory → arena.new ≡ arena.old }
{
    arena.reserve(2)?;
    arena.alloc(first)?;
    arena.alloc(second)?;
    Ok(())
}
