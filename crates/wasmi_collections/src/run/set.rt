//! Commands to a set, and their replies.
ghost use Rattle.std.specs.Prelude.{◌≡◌, [], IfOk, IsOk, IsOkUnless, OnErr, vec_len, vec_capacity};
ghost use Rattle.wasmi_collections.specs.Runs.{IsRun};
ghost use Rattle.wasmi_collections.specs.SetSteps.{SetStep};

use super::AnySet;
use std::alloc::Allocator;
use wasmi_arena::ArenaError;

/// What a set is asked to do.
#[derive(Debug, Drop)]
pub enum SetCommand<T> {
    /// Put the element in.
    Insert(T),
    /// Take the element out.
    Remove(T),
    /// Tell whether the element is there.
    Has(T),
    /// Tell how many elements there are.
    Len,
    /// Drop all elements.
    Clear,
}

/// What it replies.
#[derive(Debug, PartialEq, Eq, Drop)]
pub enum SetReply {
    /// To `Insert`: whether the element is new. To `Remove` and `Has`: whether it was there.
    Flag(bool),
    /// To `Len`: how many elements there are.
    Len(usize),
    /// To `Clear`: no element is left.
    Done,
    /// The command was refused, and the set is as before it.
    Refused(ArenaError),
}

// Makes one command's call.
fn perform<T: Drop, S: AnySet<T>>(set: &mut S, command: SetCommand<T>) -> SetReply
    ensures { SetStep S.eq (S.elements set.old) command result (S.elements set.new) }
{
    match command {
        SetCommand::Insert(element) => match set.insert(element) {
            Ok(added) => SetReply::Flag(added),
            Err(error) => SetReply::Refused(error),
        },
        SetCommand::Remove(element) => SetReply::Flag(set.remove(&element)),
        SetCommand::Has(element) => SetReply::Flag(set.has(&element)),
        SetCommand::Len => SetReply::Len(set.len()),
        SetCommand::Clear => {
            set.clear();
            SetReply::Done
        }
    }
}

/// Makes the calls that the commands ask for, one after the other, and returns one reply for each. The
/// cost is that of the calls.
///
/// A refused command is replied to as `Refused`, and the run goes on. Memory for all replies is asked
/// of `alloc` before the first command. If there is none, the run fails with `OutOfSystemMemory`: no
/// command ran, and the commands are dropped.
pub fn run_set<T: Drop, S: AnySet<T>, B: Allocator>(
    alloc: B,
    set: &mut S,
    commands: Vec<SetCommand<T>, B>,
) -> Result<Vec<SetReply, B>, ArenaError>
    ensures run { IfOk result (λ replies. IsRun (SetStep S.eq) S.elements set.old commands.items replies.items set.new) }
    ensures exact { IfOk result (λ replies. vec_capacity replies ≡ vec_len commands) }
    ensures errors { IsOkUnless result ArenaError.OutOfSystemMemory }
    ensures err { OnErr result (set.new ≡ set.old) }
    ensures empty { commands.items ≡ [] → IsOk result }
{
    let mut replies = Vec::with_capacity(alloc, commands.len())?;
    for command in commands {
        replies.push_reserved(perform(set, command));
    }
    Ok(replies)
}
