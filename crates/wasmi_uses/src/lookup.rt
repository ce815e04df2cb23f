//! Look-ups by the keys that a walk over an arena gives.
ghost use Rattle.std.specs.Prelude.{◌≡◌, ◌≢◌, ◌≤◌, ◌↔◌, length, nat_lt, slice_get, take, IfOk, IfSome, IsTrue, OnErr, Some};
ghost use Rattle.std.specs.List.{find};
ghost use Rattle.wasmi_arena.specs.Entries.{entries};

use anyhow::{Context, Result};
use std::fmt;
use wasmi_arena::laws::{walked_entries_are_all, walked_entries_read};
use wasmi_arena::{ArenaKey, StableArena};

/// Whether an item differs from the one under its key in another arena, which has at least as many.
/// Linear.
pub fn any_differs<Key: ArenaKey>(
    one: &StableArena<Key, u64>,
    other: &StableArena<Key, u64>,
) -> bool
    requires { length one.now ≤ length other.now }
    ensures { IsTrue result ↔ (take (length one.now) other.now ≢ one.now) }
{
    // proof: each position has a key, and a walk gives the entries of the positions, all of them.
    one.len();
    walked_entries_read::<Key, u64>();
    walked_entries_are_all::<Key, u64>();
    for (key, item) in one {
        if other[key] != *item {
            return true;
        }
    }
    false
}

/// The key of the first item above a limit, with what it reads, if there is one. Linear.
pub fn first_above<Key: ArenaKey>(arena: &StableArena<Key, u64>, limit: u64) -> Option<(Key, u64)>
    ensures first { result ≡ find (λ entry. nat_lt limit entry.1) (entries Key.keys arena.now) }
    ensures reads { IfSome result (λ found. slice_get arena.now (Key.keys.number found.0) ≡ Some found.1) }
{
    // proof: as above.
    arena.len();
    walked_entries_read::<Key, u64>();
    match arena.iter().find(|entry| *entry.1 > limit) {
        Some((key, _)) => Some((key, arena[key])),
        None => None,
    }
}

// Says which key failed, and how many items there were.
#[derive(Drop)]
struct Lookup {
    key: u32,
    len: usize,
}

impl fmt::Display for Lookup {
    fn fmt<W: fmt::Write>(&self, f: &mut fmt::Formatter<W>) -> fmt::Result {
        write!(f, "key {} of an arena of {} items", self.key, self.len)
    }
}

/// The item under a key, or an error that says which key it was. Constant time.
pub fn read(arena: &StableArena<u32, u64>, key: u32) -> Result<u64>
    ensures ok { IfOk result (λ item. slice_get arena.now key ≡ Some item) }
    ensures err { OnErr result (length arena.now ≤ key) }
{
    let len = arena.len();
    let item = arena.get(key).context(Lookup { key, len })?;
    Ok(*item)
}
