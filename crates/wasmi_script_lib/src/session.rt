//! A script at work: what it keeps, and the reply to each line.
ghost use Rattle.std.specs.Prelude.{◌≡◌, [], IfOk, OnOk, IsOkUnless, string_bytes};
ghost use Rattle.wasmi_script_lib.specs.Outputs.{line_reply, output_of, state_after_line};
ghost use Rattle.wasmi_script_lib.specs.Requests.{request_of};
ghost use Rattle.wasmi_script_lib.specs.inner.Sessions.{state_of, AddsReply};
ghost use Rattle.wasmi_script_lib.specs.States.{empty};

use crate::line::Command;
use crate::store::EntityStore;
use crate::texts::ScriptTexts;
use std::alloc::Allocator;
use wasmi_arena::ArenaError;

/// The replies to all lines of a script, in order, each ended by a line feed.
///
/// A text of `a` is copied once, a new one of `d` or a new kind twice, a new one of `i` or a new name once.
/// Expected time is linear in the text and the replies. The only error is running out of memory.
pub fn answer<A: Allocator + Copy>(alloc: A, text: &str) -> Result<String<A>, ArenaError>
    ensures output { IfOk result (λ output. string_bytes output ≡ output_of text.now) }
    ensures errors { IsOkUnless result ArenaError.OutOfSystemMemory }
{
    // proof: a reference to an allocator has a known size, and so have the containers over it.
    let heap = &alloc;
    let mut texts = ScriptTexts::new(heap);
    let mut store = EntityStore::new(heap);
    let mut replies = String::new(alloc);
    let answered = reply_all(&mut texts, &mut store, &mut replies, text);
    // proof: dropped before a branch.
    drop(texts);
    drop(store);
    answered?;
    Ok(replies)
}

// Adds the replies to all lines of a script.
fn reply_all<A: Allocator + Copy, B: Allocator>(
    texts: &mut ScriptTexts<A>,
    store: &mut EntityStore<A>,
    replies: &mut String<B>,
    text: &str,
) -> Result<(), ArenaError>
    requires empty { state_of texts.old store.old ≡ empty }
    requires unanswered { string_bytes replies.old ≡ [] }
    ensures output { OnOk result (string_bytes replies.new ≡ output_of text.now) }
    ensures errors { IsOkUnless result ArenaError.OutOfSystemMemory }
{
    let mut number = 0;
    for line in text.split_terminator('\n') {
        number += 1;
        serve(texts, store, replies, number, line)?;
    }
    Ok(())
}

// Does what the line of this number asks for, and adds the reply.
fn serve<A: Allocator + Copy, B: Allocator>(
    texts: &mut ScriptTexts<A>,
    store: &mut EntityStore<A>,
    replies: &mut String<B>,
    number: usize,
    line: &str,
) -> Result<(), ArenaError>
    ensures state { OnOk result (state_of texts.new store.new
        ≡ state_after_line (state_of texts.old store.old) (request_of line.now)) }
    ensures reply { OnOk result (AddsReply replies.old replies.new
        (line_reply (state_of texts.old store.old) number (request_of line.now))) }
    ensures errors { IsOkUnless result ArenaError.OutOfSystemMemory }
{
    match Command::parse(line) {
        Some(Command::Alloc(text)) => texts.alloc(text, replies)?,
        Some(Command::Get(key)) => texts.get(key, replies)?,
        Some(Command::Place(index)) => texts.place(index, replies)?,
        Some(Command::Count) => texts.count(replies)?,
        Some(Command::Dedup(text)) => texts.dedup(text, replies)?,
        Some(Command::Intern(text)) => texts.intern(text, replies)?,
        Some(Command::Resolve(symbol)) => texts.resolve(symbol, replies)?,
        Some(Command::AddEntity(name, kind)) => store.serve_add(name, kind, replies)?,
        Some(Command::SetProperty(key, property)) => store.serve_set(key, property, replies)?,
        Some(Command::RenameKind(key, kind)) => store.serve_rename_kind(key, kind, replies)?,
        Some(Command::GetEntity(key)) => store.serve_get(key, replies)?,
        None => writeln!(replies, "bad line {number}")?,
    }
    Ok(())
}
