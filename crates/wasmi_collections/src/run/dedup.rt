//! Commands to a deduplicating arena, and their replies.
ghost use Rattle.std.specs.Prelude.{◌≡◌, [], IfOk, IsOk, IsOkUnless, OnErr, vec_len, vec_capacity};
ghost use Rattle.wasmi_collections.specs.DedupSteps.{DedupStep};
ghost use Rattle.wasmi_collections.specs.Runs.{IsRun};

use crate::arena::DedupArena;
use std::alloc::Allocator;
use std::hash::Hash;
use wasmi_arena::{ArenaError, ArenaKey};

/// What a deduplicating arena is asked to do.
#[derive(Debug, Drop)]
pub enum DedupCommand<Key, T> {
    /// Hand the value in.
    Alloc(T),
    /// Put the item under the key in place of the one there.
    Put(Key, T),
    /// Put the value in the place of the one handed in under the key.
    Replace(Key, T),
    /// Tell whether the key reads an item.
    Has(Key),
    /// Drop all items.
    Clear,
}

/// What it replies.
#[derive(Debug, PartialEq, Eq, Drop)]
pub enum DedupReply<Key, T> {
    /// To `Alloc`: the key of the value.
    Key(Key),
    /// To `Put` and `Replace`: the item that was there.
    Old(T),
    /// To `Has`: whether the key reads an item.
    Has(bool),
    /// To `Clear`: no item is left.
    Done,
    /// The command was refused, and the arena is as before it.
    Refused(ArenaError),
}

// Makes one command's call.
fn perform<Key: ArenaKey, T: Eq + Hash + Clone, A: Allocator + Clone>(
    arena: &mut DedupArena<Key, T, A>,
    command: DedupCommand<Key, T>,
) -> DedupReply<Key, T>
    ensures { DedupStep Key.keys T.eq T.is_clone arena.old command result arena.new }
{
    match command {
        DedupCommand::Alloc(value) => match arena.alloc(value) {
            Ok(key) => DedupReply::Key(key),
            Err(error) => DedupReply::Refused(error),
        },
        DedupCommand::Put(key, item) => match arena.put(key, item) {
            Ok(there) => DedupReply::Old(there),
            Err(error) => DedupReply::Refused(error),
        },
        DedupCommand::Replace(key, value) => match arena.replace(key, value) {
            Ok(there) => DedupReply::Old(there),
            Err(error) => DedupReply::Refused(error),
        },
        DedupCommand::Has(key) => DedupReply::Has(arena.has(key)),
        DedupCommand::Clear => {
            arena.clear();
            DedupReply::Done
        }
    }
}

/// Makes the calls that the commands ask for, one after the other, and returns one reply for each. The
/// cost is that of the calls.
///
/// A refused command is replied to as `Refused`, and the run goes on. Memory for all replies is asked
/// of `alloc` before the first command. If there is none, the run fails with `OutOfSystemMemory`: no
/// command ran, and the commands are dropped.
pub fn run_dedup<Key: ArenaKey, T: Eq + Hash + Clone, A: Allocator + Clone, B: Allocator>(
    alloc: B,
    arena: &mut DedupArena<Key, T, A>,
    commands: Vec<DedupCommand<Key, T>, B>,
) -> Result<Vec<DedupReply<Key, T>, B>, ArenaError>
    ensures run { IfOk result (λ replies. IsRun (DedupStep Key.keys T.eq T.is_clone) (λ state. state)
        arena.old commands.items replies.items arena.new) }
    ensures exact { IfOk result (λ replies. vec_capacity replies ≡ vec_len commands) }
    ensures errors { IsOkUnless result ArenaError.OutOfSystemMemory }
    ensures err { OnErr result (arena.new ≡ arena.old) }
    ensures empty { commands.items ≡ [] → IsOk result }
{
    let mut replies = Vec::with_capacity(alloc, commands.len())?;
    for command in commands {
        replies.push_reserved(perform(arena, command));
    }
    Ok(replies)
}
