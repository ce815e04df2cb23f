//! The reply to a refused call.
ghost use Rattle.std.specs.Prelude.{◌≢◌, OnOk, IsOkUnless};
ghost use Rattle.wasmi_script_lib.specs.Replies.{error_reply};
ghost use Rattle.wasmi_script_lib.specs.inner.Sessions.{AddsReply};

use std::alloc::Allocator;
use wasmi_arena::ArenaError;

// Replies why a call was refused. Running out of memory ends the script.
pub(crate) fn reply_error<A: Allocator>(
    replies: &mut String<A>,
    error: ArenaError,
) -> Result<(), ArenaError>
    ensures reply { OnOk result (AddsReply replies.old replies.new (error_reply error)) }
    ensures memory { OnOk result (error ≢ ArenaError.OutOfSystemMemory) }
    ensures errors { IsOkUnless result ArenaError.OutOfSystemMemory }
{
    match error {
        ArenaError::OutOfSystemMemory => Err(error),
        error => Ok(writeln!(replies, "error {}", error.text())?),
    }
}
