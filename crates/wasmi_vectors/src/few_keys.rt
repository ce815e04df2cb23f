//! Types of few keys, which an arena can run out of.
ghost use Rattle.std.proofs.Common.{arith};
ghost use Rattle.wasmi_arena.specs.Keys.{own_keys};
ghost use Rattle.wasmi_arena.specs.KeyLaws.{own_keys_law};

use std::marker::Model;
use wasmi_arena::ArenaKey;

/// A key that is a number below `N`, so that an arena has keys for `N` items.
#[derive(Clone, Copy, Debug, PartialEq, Eq)]
pub struct FewKeys<const N: u8>(u8);

impl<const N: u8> Model for FewKeys<N> {
    ghost use Rattle.std.specs.Prelude.{ℕ, ◌<◌};

    ghost Value = { ℕ };

    ghost view = { λ key. key.0 };

    ghost invariant = { λ key. key.0 < N };

    ghost inverse = { λ number. record { 0 = number } };
}

impl<const N: u8> ArenaKey for FewKeys<N> {
    ghost keys = { own_keys N };

    ghost key_law = { own_keys_law N (Prim.omega arith) };

    fn into_usize(self) -> usize {
        self.0 as usize
    }

    fn from_usize(value: usize) -> Option<Self> {
        match u8::try_from(value) {
            Ok(number) if number < N => Some(FewKeys(number)),
            _ => None,
        }
    }
}
