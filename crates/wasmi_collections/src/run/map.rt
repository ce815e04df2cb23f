//! Commands to a map, and their replies.
ghost use Rattle.std.specs.Prelude.{◌≡◌, [], IfOk, IsOk, IsOkUnless, OnErr, vec_len, vec_capacity};
ghost use Rattle.wasmi_collections.specs.MapSteps.{MapStep};
ghost use Rattle.wasmi_collections.specs.Runs.{IsRun};

use super::AnyMap;
use std::alloc::Allocator;
use wasmi_arena::ArenaError;

/// What a map is asked to do.
#[derive(Debug, Drop)]
pub enum MapCommand<K, V> {
    /// Put the value under the key.
    Insert(K, V),
    /// Take the key out.
    Remove(K),
    /// Tell whether the key is there.
    Has(K),
    /// Put the value under the key if there is none.
    OrInsert(K, V),
    /// Tell how many entries there are.
    Len,
    /// Drop all entries.
    Clear,
}

/// What it replies.
#[derive(Debug, PartialEq, Eq, Drop)]
pub enum MapReply<V> {
    /// To `Insert` and `Remove`: the value that was under the key, if there was one.
    Old(Option<V>),
    /// To `Has` and `OrInsert`: whether the key was there.
    Has(bool),
    /// To `Len`: how many entries there are.
    Len(usize),
    /// To `Clear`: no entry is left.
    Done,
    /// The command was refused, and the map is as before it.
    Refused(ArenaError),
}

// Makes one command's call.
fn perform<K: Drop, V: Drop, M: AnyMap<K, V>>(map: &mut M, command: MapCommand<K, V>) -> MapReply<V>
    ensures { MapStep M.eq (M.entries map.old) command result (M.entries map.new) }
{
    match command {
        MapCommand::Insert(key, value) => match map.insert(key, value) {
            Ok(old) => MapReply::Old(old),
            Err(error) => MapReply::Refused(error),
        },
        MapCommand::Remove(key) => MapReply::Old(map.remove(&key)),
        MapCommand::Has(key) => MapReply::Has(map.has(&key)),
        MapCommand::OrInsert(key, value) => match map.or_insert(key, value) {
            Ok(found) => MapReply::Has(found),
            Err(error) => MapReply::Refused(error),
        },
        MapCommand::Len => MapReply::Len(map.len()),
        MapCommand::Clear => {
            map.clear();
            MapReply::Done
        }
    }
}

/// Makes the calls that the commands ask for, one after the other, and returns one reply for each. The
/// cost is that of the calls.
///
/// A refused command is replied to as `Refused`, and the run goes on. Memory for all replies is asked
/// of `alloc` before the first command. If there is none, the run fails with `OutOfSystemMemory`: no
/// command ran, and the commands are dropped.
pub fn run_map<K: Drop, V: Drop, M: AnyMap<K, V>, B: Allocator>(
    alloc: B,
    map: &mut M,
    commands: Vec<MapCommand<K, V>, B>,
) -> Result<Vec<MapReply<V>, B>, ArenaError>
    ensures run { IfOk result (λ replies. IsRun (MapStep M.eq) M.entries map.old commands.items replies.items map.new) }
    ensures exact { IfOk result (λ replies. vec_capacity replies ≡ vec_len commands) }
    ensures errors { IsOkUnless result ArenaError.OutOfSystemMemory }
    ensures err { OnErr result (map.new ≡ map.old) }
    ensures empty { commands.items ≡ [] → IsOk result }
{
    let mut replies = Vec::with_capacity(alloc, commands.len())?;
    for command in commands {
        replies.push_reserved(perform(map, command));
    }
    Ok(replies)
}
