//! Commands to an interner, and their replies.
ghost use Rattle.std.specs.Prelude.{◌≡◌, [], IfOk, IsOk, IsOkUnless, OnErr, vec_len, vec_capacity};
ghost use Rattle.wasmi_collections.specs.InternerSteps.{InternStep};
ghost use Rattle.wasmi_collections.specs.Runs.{IsRun};

use crate::StringInterner;
use crate::string_interner::{InternHint, Sym};
use std::alloc::Allocator;
use wasmi_arena::ArenaError;

/// What an interner is asked to do.
#[derive(Debug, Drop)]
pub enum InternCommand {
    /// Intern the text.
    Intern(String, InternHint),
    /// Find the symbol of the text.
    Find(String),
    /// Tell how many texts there are.
    Len,
}

/// What it replies.
#[derive(Debug, PartialEq, Eq, Drop)]
pub enum InternReply {
    /// To `Intern`: the symbol of the text.
    Sym(Sym),
    /// To `Find`: the symbol of the text, if it is there.
    Found(Option<Sym>),
    /// To `Len`: how many texts there are.
    Len(usize),
    /// The command was refused, and the interner is as before it.
    Refused(ArenaError),
}

// Makes one command's call.
fn perform<A: Allocator + Clone>(
    interner: &mut StringInterner<A>,
    command: InternCommand,
) -> InternReply
    ensures { InternStep interner.old command result interner.new }
{
    match command {
        InternCommand::Intern(text, hint) => match interner.get_or_intern_with_hint(&text, hint) {
            Ok(symbol) => InternReply::Sym(symbol),
            Err(error) => InternReply::Refused(error),
        },
        InternCommand::Find(text) => InternReply::Found(interner.get(&text)),
        InternCommand::Len => InternReply::Len(interner.len()),
    }
}

/// Makes the calls that the commands ask for, one after the other, and returns one reply for each. The
/// cost is that of the calls.
///
/// A refused command is replied to as `Refused`, and the run goes on. Memory for all replies is asked
/// of `alloc` before the first command. If there is none, the run fails with `OutOfSystemMemory`: no
/// command ran, and the commands are dropped.
pub fn run_interner<A: Allocator + Clone, B: Allocator>(
    alloc: B,
    interner: &mut StringInterner<A>,
    commands: Vec<InternCommand, B>,
) -> Result<Vec<InternReply, B>, ArenaError>
    ensures run { IfOk result (λ replies. IsRun InternStep (λ texts. texts) interner.old commands.items replies.items interner.new) }
    ensures exact { IfOk result (λ replies. vec_capacity replies ≡ vec_len commands) }
    ensures errors { IsOkUnless result ArenaError.OutOfSystemMemory }
    ensures err { OnErr result (interner.new ≡ interner.old) }
    ensures empty { commands.items ≡ [] → IsOk result }
{
    let mut replies = Vec::with_capacity(alloc, commands.len())?;
    for command in commands {
        replies.push_reserved(perform(interner, command));
    }
    Ok(replies)
}
