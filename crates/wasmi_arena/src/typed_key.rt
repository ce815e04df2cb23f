//! A ready-made type of keys, for each kind of items one of its own.
ghost use Rattle.std.specs.Prelude.{◌≡◌, ◌<◌, ◌^◌};
ghost use Rattle.std.proofs.Common.{lit≤};
ghost use Rattle.wasmi_arena.specs.Keys.{own_keys};
ghost use Rattle.wasmi_arena.specs.KeyLaws.{own_keys_law};

use crate::ArenaKey;
use std::marker::{Model, PhantomData};

/// A key that is a number below 2^32. Keys for different `Of` are of different types.
///
/// A kind of items gets its keys by two lines: `pub enum Function {}` and
/// `pub type FunctionKey = TypedKey<Function>;`. A contract sees a key as its number.
#[derive_where(Clone, Copy, Debug, PartialEq, Eq, PartialOrd, Ord, Hash)]
pub struct TypedKey<Of> {
    number: u32,
    #[derive_where(skip(EqHashOrd))]
    of: PhantomData<Of>,
}

impl<Of> Model for TypedKey<Of> {
    ghost use Rattle.std.specs.Prelude.{ℕ};
    ghost use Rattle.std.specs.Coded.{coded_ℕ};

    ghost Value = { ℕ };

    ghost coded = { coded_ℕ };

    ghost view = { λ key. key.number };

    ghost inverse = { λ n. record { number = n; of = record {} } };
}

impl<Of> TypedKey<Of> {
    /// The key of this number. Constant time.
    pub fn from_u32(number: u32) -> Self
        ensures { result ≡ number }
    {
        TypedKey {
            number,
            of: PhantomData,
        }
    }

    /// The number of the key. Constant time.
    pub fn into_u32(self) -> u32
        ensures { result ≡ self }
    {
        self.number
    }
}

/// The key of each number below 2^32.
impl<Of> ArenaKey for TypedKey<Of> {
    ghost keys = { own_keys (2 ^ 32) };

    ghost key_law = { own_keys_law (2 ^ 32) (lit≤ tt) };

    fn into_usize(self) -> usize {
        self.number as usize
    }

    fn from_usize(value: usize) -> Option<Self> {
        match u32::try_from(value) {
            Ok(number) => Some(TypedKey::from_u32(number)),
            Err(_) => None,
        }
    }
}
