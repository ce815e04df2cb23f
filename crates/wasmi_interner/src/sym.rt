//! Symbols, and hints to interning.
ghost use Rattle.std.specs.Prelude.{◌≡◌, ◌<◌, ◌^◌, Some, decimal};
ghost use Rattle.std.specs.Fmt.{styled_decimal};
ghost use Rattle.std.proofs.Common.{lit≤};
ghost use Rattle.wasmi_arena.specs.Keys.{own_keys};
ghost use Rattle.wasmi_arena.specs.KeyLaws.{own_keys_law};

use std::fmt::{self, Display, Formatter, Write};
use std::marker::Model;
use wasmi_arena::ArenaKey;

/// What the caller expects of a text that it interns.
///
/// A hint never changes what interning does.
#[derive(Debug, Copy, Clone)]
pub enum InternHint {
    /// Nothing is known of the text.
    None,
    /// The text is probably there.
    LikelyExists,
    /// The text is probably new.
    LikelyNew,
}

/// The symbol of an interned text: its number, below 2^32.
#[derive(Debug, Copy, Clone, PartialEq, Eq, PartialOrd, Ord, Hash)]
pub struct Sym(u32);

impl Model for Sym {
    ghost use Rattle.std.specs.Prelude.{ℕ};
    ghost use Rattle.std.specs.Coded.{coded_ℕ};

    ghost Value = { ℕ };

    ghost coded = { coded_ℕ };

    ghost view = { λ sym. sym.0 };

    ghost inverse = { λ number. record { 0 = number } };
}

impl Sym {
    /// The symbol with this number. Constant time.
    pub fn from_u32(value: u32) -> Self
        ensures { result ≡ value }
    {
        Sym(value)
    }

    /// The symbol with this number, which is below 2^32; `ArenaKey::from_usize` tests that. Constant time.
    pub fn from_usize(value: usize) -> Self
        requires { value < 2 ^ 32 }
        ensures { result ≡ value }
    {
        Sym(value as u32)
    }

    /// The number of the symbol. Constant time.
    pub fn into_u32(self) -> u32
        ensures { result ≡ self }
    {
        self.0
    }

    /// The number of the symbol, which is below 2^32. Constant time.
    pub fn into_usize(self) -> usize
        ensures number { result ≡ self }
        ensures below { result < 2 ^ 32 }
    {
        self.0 as usize
    }
}

/// The number of the symbol, in decimal.
impl Display for Sym {
    ghost output = { λ sym. Some (decimal sym) };

    ghost styled_output = { λ sym spec. Some (styled_decimal spec sym) };

    fn fmt<W: Write>(&self, f: &mut Formatter<W>) -> fmt::Result {
        Display::fmt(&self.0, f)
    }
}

/// The key of each number below 2^32, so that a symbol is the key of a
/// `ComponentVec` of what goes with its text.
impl ArenaKey for Sym {
    ghost keys = { own_keys (2 ^ 32) };

    ghost key_law = { own_keys_law (2 ^ 32) (lit≤ tt) };

    fn into_usize(self) -> usize {
        self.0 as usize
    }

    fn from_usize(value: usize) -> Option<Self> {
        match u32::try_from(value) {
            Ok(number) => Some(Sym(number)),
            Err(_) => None,
        }
    }
}
