//! Why bytes aren't a module.
ghost use Rattle.std.specs.Prelude.{◌≡◌};
ghost use Rattle.wasmi_module.specs.declared.error.DecodeError.TheVariants.{NoMemory};

use std::alloc::{AllocError, AllocFailed};
use thiserror::Error;

/// What was expected, where something else stands.
#[derive(Clone, Copy, Debug, PartialEq, Eq, Error)]
pub enum Expected {
    /// The first four bytes of a module.
    #[error("the bytes 00 61 73 6d of a module")]
    Magic,
    /// The four bytes after those.
    #[error("the bytes 01 00 00 00 of version 1")]
    Version,
    /// A section that comes later in the order of sections (12 before 10) than those before it, or the end.
    #[error("the end, or a section that comes later in the order of sections")]
    Section,
    /// The end of the section, where more bytes are.
    #[error("the end of the section")]
    SectionEnd,
    /// One more byte.
    #[error("one more byte")]
    Byte,
    /// As many bytes as the format or a count asks for, where fewer are left.
    #[error("more bytes than are left")]
    Bytes,
    /// The last byte of a number, where it has too many bytes, or bits too many in that one.
    #[error("the last byte of a number")]
    Number,
    /// A name.
    #[error("a name in UTF-8")]
    Name,
    /// The byte that begins the type of a function.
    #[error("the byte 60 of a function type")]
    FuncType,
    /// The type of a value.
    #[error("the type of a value")]
    ValType,
    /// The type of a reference.
    #[error("the type of a reference")]
    RefType,
    /// The byte that begins limits.
    #[error("the byte 00 or 01 of limits")]
    Limits,
    /// The most of limits.
    #[error("a most that is at least the least")]
    Max,
    /// A number of pages.
    #[error("at most 65536 pages")]
    Pages,
    /// Whether a global may be written.
    #[error("the byte 00 or 01 of a global")]
    Mutability,
    /// What is imported or exported.
    #[error("the byte 00, 01, 02 or 03 of a kind")]
    Kind,
    /// The first value of a global.
    #[error("a constant instruction")]
    Constant,
    /// The end of that.
    #[error("the instruction `end`")]
    End,
    /// An index of a type.
    #[error("the index of a type")]
    TypeIndex,
    /// An index of what is exported.
    #[error("the index of an item of the module")]
    ItemIndex,
    /// Initial values that refer to functions and globals that there are.
    #[error("initial values that refer to items of the module")]
    InitIndex,
    /// Exports of which no two have one name.
    #[error("exports of different names")]
    FreshName,
}

impl Expected {
    // The error that this was expected at an offset.
    pub(crate) fn at(self, offset: usize) -> DecodeError {
        DecodeError::Malformed {
            offset,
            expected: self,
        }
    }
}

/// Why no module was decoded.
#[derive(Clone, Copy, Debug, PartialEq, Eq, Error)]
pub enum DecodeError {
    /// The allocator had no memory left.
    #[error("out of memory")]
    NoMemory,
    /// The bytes aren't a module.
    #[error("offset {offset}: expected {expected}")]
    Malformed {
        /// How many bytes are before the place.
        offset: usize,
        /// What was expected there.
        expected: Expected,
    },
}

impl From<AllocError> for DecodeError {
    ghost from_gives = { λ _ error. error ≡ NoMemory };

    fn from(_error: AllocError) -> DecodeError {
        DecodeError::NoMemory
    }
}

impl<T: Drop> From<AllocFailed<T>> for DecodeError {
    ghost from_gives = { λ _ error. error ≡ NoMemory };

    fn from(_error: AllocFailed<T>) -> DecodeError {
        DecodeError::NoMemory
    }
}
