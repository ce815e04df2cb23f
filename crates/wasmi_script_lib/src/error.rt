//! How a script's program fails.
ghost use Rattle.std.specs.Prelude.{◌≡◌};
ghost use Rattle.wasmi_script_lib.specs.Statuses.{exit_status_of, status_of};

use thiserror::Error;

/// Why a script wasn't answered.
#[derive(Clone, Copy, Debug, PartialEq, Eq, Error)]
pub enum ScriptError {
    /// The allocator had no memory left.
    #[error("out of memory")]
    NoMemory,
    /// A read failed, or the input had no end.
    #[error("read failed")]
    ReadFailed,
    /// A write or the flush failed.
    #[error("write failed")]
    WriteFailed,
    /// The input is no UTF-8.
    #[error("not UTF-8")]
    NotUtf8,
}

impl ScriptError {
    /// The exit status of a program that ends with this error. Constant time.
    pub fn status(&self) -> u8
        ensures { result ≡ status_of self.now }
    {
        match self {
            ScriptError::NoMemory | ScriptError::ReadFailed | ScriptError::WriteFailed => 1,
            ScriptError::NotUtf8 => 2,
        }
    }
}

/// The exit status of a program that ends so: 0 for `Ok`, else [that of the error](ScriptError::status).
/// Constant time.
pub fn exit_status(outcome: Result<(), ScriptError>) -> u8
    ensures { result ≡ exit_status_of outcome }
{
    match outcome {
        Ok(()) => 0,
        Err(error) => error.status(),
    }
}
