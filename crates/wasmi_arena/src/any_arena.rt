//! What all arenas have in common.
ghost use Rattle.std.specs.Prelude.{◌≡◌, ◌<◌, ◌≤◌, ◌↔◌, Bool, length, IfOk, IfErr, OnOk, IsTrue};
ghost use Rattle.wasmi_arena.specs.Arena.{ArenaState, ArenaUnchanged, AllocatesItem, RefusesItem, PutsItem, SwapsItems, RefusesSwap, arena_limit};

use crate::{ArenaError, ArenaKey};

/// An arena: a list of items, each under the key of its position.
///
/// [`run_arena`](crate::run_arena) knows no more of an arena than what stands here. Each type of arenas
/// has calls of its own under the same names, whose contracts say more.
pub trait AnyArena<Key: ArenaKey, T> {
    /// The items of an arena, and how many more fit, if there are keys, before memory is asked for.
    ghost state: { Self → ArenaState T };

    /// Whether an arena holds at most [`MAX_LEN`](crate::MAX_LEN) items, however many keys there are.
    ghost BOUNDED: { Bool };

    /// Whether an arena holds at most [`MAX_LEN`](crate::MAX_LEN) items, however many keys there are.
    const BOUNDED: bool;

    /// The number of items, which is at most that of the keys: each position has one.
    fn len(&self) -> usize
        ensures value { result ≡ length (state self.now).items }
        ensures keyed { length (state self.now).items ≤ arena_limit Key.keys BOUNDED };

    /// How many items can be added, if there are keys for them, before memory is asked for.
    fn room(&self) -> usize
        ensures { result ≡ (state self.now).room };

    /// Puts an item at the end, and returns its key. Where there is room, it falls by one.
    ///
    /// Fails with `NotEnoughKeys` if the arena is full, and else only where there is no room, with
    /// `OutOfSystemMemory`. After an error the items and the room are as before, and the item is dropped.
    fn alloc(&mut self, item: T) -> Result<Key, ArenaError>
        ensures ok { IfOk result (λ key. AllocatesItem Key.keys (arena_limit Key.keys BOUNDED)
            (state self.old) item key (state self.new)) }
        ensures err { IfErr result (λ error. RefusesItem Key.keys (arena_limit Key.keys BOUNDED)
            (state self.old) error × ArenaUnchanged (state self.old) (state self.new)) };

    /// Whether a key reads an item.
    fn has(&self, key: Key) -> bool
        ensures { IsTrue result ↔ (Key.keys.number key < length (state self.now).items) };

    /// Puts an item under a key in place of the one there, which it returns, or drops it and fails with
    /// `KeyOutOfBounds` if there is none. The room stays.
    fn put(&mut self, key: Key, item: T) -> Result<T, ArenaError>
        ensures ok { IfOk result (λ there. PutsItem Key.keys (arena_limit Key.keys BOUNDED)
            (state self.old) key item there (state self.new)) }
        ensures err { IfErr result (λ error. (error ≡ ArenaError.KeyOutOfBounds)
            × (length (state self.old).items ≤ Key.keys.number key)
            × ArenaUnchanged (state self.old) (state self.new)) };

    /// Exchanges the items under two keys. The room stays.
    ///
    /// Fails with `AliasingPairAccess` if the keys are one, and with `KeyOutOfBounds` if one of them
    /// reads nothing. Where both is so, the type of arenas decides.
    fn swap(&mut self, first: Key, second: Key) -> Result<(), ArenaError>
        ensures ok { OnOk result (SwapsItems Key.keys (arena_limit Key.keys BOUNDED)
            (state self.old) first second (state self.new)) }
        ensures err { IfErr result (λ error. RefusesSwap Key.keys (arena_limit Key.keys BOUNDED)
            (state self.old) first second error × ArenaUnchanged (state self.old) (state self.new)) };
}
