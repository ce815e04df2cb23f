//! Why a call on an arena was refused.
ghost use Rattle.std.specs.Prelude.{◌≡◌, Some};
ghost use Rattle.wasmi_arena.specs.declared.error.ArenaError.TheVariants.{OutOfSystemMemory};
ghost use Rattle.wasmi_arena.specs.Errors.{text_of};

use std::alloc::{AllocError, AllocFailed};
use std::error::Error;
use std::fmt;

/// Why a call was refused. The value that it was called on has the items that it had, but for what a call
/// says that takes many one by one, as `extend`.
#[derive(Clone, Copy, Debug, PartialEq, Eq)]
pub enum ArenaError {
    /// Memory ran out where more was asked for, or an item or an allocator couldn't be cloned.
    OutOfSystemMemory,
    /// There is no item under the key, or at the index.
    KeyOutOfBounds,
    /// There is no key for one more item, or no slot.
    NotEnoughKeys,
    /// The two keys, or the two indices, are equal.
    AliasingPairAccess,
    /// An equal item was handed in under another key.
    DuplicateItem,
}

impl ArenaError {
    /// What `Display` writes. Constant time.
    pub fn text(&self) -> &'static str
        ensures { result.now ≡ text_of self.now }
    {
        match self {
            ArenaError::OutOfSystemMemory => "ran out of system memory",
            ArenaError::KeyOutOfBounds => "encounteded out of bounds key",
            ArenaError::NotEnoughKeys => "ran out of valid keys",
            ArenaError::AliasingPairAccess => "tried to access aliasing item pair",
            ArenaError::DuplicateItem => "item is already in the arena",
        }
    }
}

impl fmt::Display for ArenaError {
    ghost output = { λ error. Some (text_of error) };

    ghost styled_output = { λ error _. Some (text_of error) };

    fn fmt<W: fmt::Write>(&self, f: &mut fmt::Formatter<W>) -> fmt::Result {
        f.write_str(self.text())
    }
}

impl Error for ArenaError {}

impl From<AllocError> for ArenaError {
    ghost from_gives = { λ _ error. error ≡ OutOfSystemMemory };

    fn from(_error: AllocError) -> ArenaError {
        ArenaError::OutOfSystemMemory
    }
}

impl<T: Drop> From<AllocFailed<T>> for ArenaError {
    ghost from_gives = { λ _ error. error ≡ OutOfSystemMemory };

    fn from(_error: AllocFailed<T>) -> ArenaError {
        ArenaError::OutOfSystemMemory
    }
}
