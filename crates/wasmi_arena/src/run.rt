//! Commands to an arena, and their replies.
ghost use Rattle.std.specs.Prelude.{◌≡◌, [], IfOk, IsOk, IsOkUnless, OnErr, vec_len, vec_capacity};
ghost use Rattle.wasmi_arena.specs.Arena.{arena_limit, ArenaStep, ArenaRun};

use crate::{AnyArena, ArenaError, ArenaKey};
use std::alloc::Allocator;

/// What an arena is asked to do.
#[derive(Debug, Drop)]
pub enum ArenaCommand<Key, T> {
    /// Put the item at the end.
    Alloc(T),
    /// Tell whether the key reads an item.
    Has(Key),
    /// Put the item under the key, in place of the one there.
    Put(Key, T),
    /// Exchange the items under two keys.
    Swap(Key, Key),
}

/// What it replies.
#[derive(Debug, PartialEq, Eq, Drop)]
pub enum ArenaReply<Key, T> {
    /// To `Alloc`: the key of the item that was put at the end.
    Key(Key),
    /// To `Has`: whether the key reads an item.
    Has(bool),
    /// To `Put`: the item that was under the key.
    Old(T),
    /// To `Swap`: the items were exchanged.
    Done,
    /// The command was refused. The arena is as before it, and the item of the command is dropped.
    Refused(ArenaError),
}

// Makes one command's call.
fn perform<Key: ArenaKey, T: Drop, S: AnyArena<Key, T>>(
    arena: &mut S,
    command: ArenaCommand<Key, T>,
) -> ArenaReply<Key, T>
    ensures { ArenaStep Key.keys (arena_limit Key.keys S.BOUNDED)
        (S.state arena.old) command result (S.state arena.new) }
{
    match command {
        ArenaCommand::Alloc(item) => match arena.alloc(item) {
            Ok(key) => ArenaReply::Key(key),
            Err(error) => ArenaReply::Refused(error),
        },
        ArenaCommand::Has(key) => ArenaReply::Has(arena.has(key)),
        ArenaCommand::Put(key, item) => match arena.put(key, item) {
            Ok(there) => ArenaReply::Old(there),
            Err(error) => ArenaReply::Refused(error),
        },
        ArenaCommand::Swap(first, second) => match arena.swap(first, second) {
            Ok(()) => ArenaReply::Done,
            Err(error) => ArenaReply::Refused(error),
        },
    }
}

/// Makes the calls that the commands ask for, one after the other, and returns one reply for each. The
/// cost is that of the calls.
///
/// A refused command is replied to as `Refused`, and the run goes on. Memory for all replies is asked
/// of `alloc` before the first command. If there is none, the run fails with `OutOfSystemMemory`: no
/// command ran, and the commands are dropped.
pub fn run_arena<Key: ArenaKey, T: Drop, S: AnyArena<Key, T>, B: Allocator>(
    alloc: B,
    arena: &mut S,
    commands: Vec<ArenaCommand<Key, T>, B>,
) -> Result<Vec<ArenaReply<Key, T>, B>, ArenaError>
    ensures run { IfOk result (λ replies. ArenaRun Key.keys (arena_limit Key.keys S.BOUNDED) S.state
        arena.old commands.items replies.items arena.new) }
    ensures exact { IfOk result (λ replies. vec_capacity replies ≡ vec_len commands) }
    ensures errors { IsOkUnless result ArenaError.OutOfSystemMemory }
    ensures err { OnErr result (arena.new ≡ arena.old) }
    ensures empty { commands.items ≡ [] → IsOk result }
{
    let mut replies = Vec::with_capacity(alloc, commands.len())?;
    for command in commands {
        replies.push_reserved(perform(arena, command));
    }
    Ok(replies)
}
