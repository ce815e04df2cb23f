//! The program: reads a script, writes its replies.
ghost use Rattle.std.specs.Prelude.{◌≡◌, ◌≢◌, ◌⊎◌, IfErr, IfOk, IfSome, OnOk, IsErrAnd, IsErrOf, IsOkUnless};
ghost use Rattle.std.specs.Io.KnownBytes.{Appends, IsAtEnd, Keeps};
ghost use Rattle.std.specs.Str.{IsUtf8};
ghost use Rattle.wasmi_script_lib.specs.Outputs.{output_of};

use crate::error::ScriptError;
use crate::session::answer;
use std::alloc::Allocator;
use std::io::{Read, Write};

// The most reads that an input may take.
const MOST_READS: u64 = 1 << 40;

// How many bytes one read asks for.
const READ_LEN: usize = 8192;

/// Reads a script to its end, and writes the replies to it and nothing else.
///
/// Expected time and memory are linear in the input and the replies. Nothing is written before the whole
/// script is answered; after `WriteFailed` any part of the replies may be. A read that fails isn't tried
/// again, and an input that hasn't ended after 2^40 reads is `ReadFailed`.
pub fn run<A: Allocator + Copy, R: Read, W: Write>(
    alloc: A,
    reader: &mut R,
    writer: &mut W,
) -> Result<(), ScriptError>
    // The input is what the reader had left, and all of it was read.
    ensures ok { OnOk result (IfSome (R.remaining reader.old) (λ input.
        Appends (W.contents writer.old) (W.contents writer.new) (output_of input))) }
    ensures end { OnOk result (IsAtEnd (R.remaining reader.new)) }

    ensures unwritten { IfErr result (λ e. e ≢ ScriptError.WriteFailed
        → Keeps (W.contents writer.old) (W.contents writer.new)) }

    // `NotUtf8` says that all was read and is no text. An input that is no text is refused before the
    // write.
    ensures not_utf8 { IsErrOf result ScriptError.NotUtf8 → IsAtEnd (R.remaining reader.new)
        × IfSome (R.remaining reader.old) (λ input. ¬ (IsUtf8 input)) }
    ensures no_text { IfSome (R.remaining reader.old) (λ input. ¬ (IsUtf8 input)
        → IsErrAnd result (λ e. e ≢ ScriptError.WriteFailed)) }
{
    let input = read_all(alloc, reader)?;
    let text = str::from_utf8(input.as_slice()).map_err(|_| ScriptError::NotUtf8)?;
    let replies = answer(alloc, text).map_err(|_| ScriptError::NoMemory)?;
    write_out(writer, replies.as_bytes())
}

// All bytes up to the reader's end.
fn read_all<A: Allocator, R: Read>(alloc: A, reader: &mut R) -> Result<Vec<u8, A>, ScriptError>
    ensures bytes { IfOk result (λ input.
        IfSome (R.remaining reader.old) (λ all. input.items ≡ all)) }
    ensures end { OnOk result (IsAtEnd (R.remaining reader.new)) }
    ensures errors { IfErr result (λ e. (e ≡ ScriptError.NoMemory) ⊎ (e ≡ ScriptError.ReadFailed)) }
{
    let mut input = Vec::new(alloc);
    let mut buffer = [0u8; READ_LEN];
    for _ in 0..MOST_READS {
        let Ok(count) = reader.read(&mut buffer) else {
            return Err(ScriptError::ReadFailed);
        };
        if count == 0 {
            return Ok(input);
        }
        input
            .extend_from_slice(&buffer[..count])
            .map_err(|_| ScriptError::NoMemory)?;
    }
    Err(ScriptError::ReadFailed)
}

// Writes all bytes, and flushes.
fn write_out<W: Write>(writer: &mut W, bytes: &[u8]) -> Result<(), ScriptError>
    ensures ok { OnOk result (Appends (W.contents writer.old) (W.contents writer.new) bytes.now) }
    ensures errors { IsOkUnless result ScriptError.WriteFailed }
{
    writer
        .write_all(bytes)
        .map_err(|_| ScriptError::WriteFailed)?;
    writer.flush().map_err(|_| ScriptError::WriteFailed)
}
