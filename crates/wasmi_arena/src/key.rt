//! Keys of arenas.
ghost use Rattle.std.specs.Prelude.{◌≡◌, ◌<◌, ◌^◌};
ghost use Rattle.std.specs.Option.{SomeIff};
ghost use Rattle.std.proofs.Common.{lit≤};
ghost use Rattle.wasmi_arena.specs.Keys.{Keys, KeyLaw, own_keys, non_zero_u32_keys, non_zero_usize_keys};
ghost use Rattle.wasmi_arena.specs.KeyLaws.{own_keys_law, non_zero_u32_law, non_zero_usize_law};

use std::num::NonZero;

/// A type of keys, each of which has a number.
///
/// The keys of an arena are those of the numbers 0, 1, 2 and so on, in the order in which its items
/// came. A type with few keys bounds the arena: after its last key nothing more goes in.
pub trait ArenaKey: Copy {
    /// How many keys there are, the key of each number below that, and the number of each key.
    ghost keys: { Keys Self };

    /// The number of the key. Constant time.
    fn into_usize(self) -> usize
        ensures number { result ≡ keys.number self }
        ensures below { keys.number self < keys.count }
        ensures key { keys.key (keys.number self) ≡ self };

    /// The key of a number, or `None` where no key has it. Constant time.
    fn from_usize(value: usize) -> Option<Self>
        ensures { SomeIff result (value < keys.count) (keys.key value) };

    /// There are at most 2^64 keys, and the key of a number has that number.
    ghost key_law: { KeyLaw keys };
}

/// The key of a number that has one. Constant time.
#[inline]
pub fn key_at<Key: ArenaKey>(number: usize) -> Key
    requires { number < Key.keys.count }
    ensures { result ≡ Key.keys.key number }
{
    match Key::from_usize(number) {
        Some(key) => key,
        None => unreachable!(),
    }
}

impl ArenaKey for usize {
    ghost keys = { own_keys (2 ^ 64) };

    ghost key_law = { own_keys_law (2 ^ 64) (lit≤ tt) };

    fn into_usize(self) -> usize {
        self
    }

    fn from_usize(value: usize) -> Option<Self> {
        Some(value)
    }
}

impl ArenaKey for u32 {
    ghost keys = { own_keys (2 ^ 32) };

    ghost key_law = { own_keys_law (2 ^ 32) (lit≤ tt) };

    fn into_usize(self) -> usize {
        self as usize
    }

    fn from_usize(value: usize) -> Option<Self> {
        u32::try_from(value).ok()
    }
}

impl ArenaKey for NonZero<usize> {
    ghost keys = { non_zero_usize_keys };

    ghost key_law = { non_zero_usize_law };

    fn into_usize(self) -> usize {
        self.get() - 1
    }

    fn from_usize(value: usize) -> Option<Self> {
        NonZero::<usize>::new(value.checked_add(1)?)
    }
}

impl ArenaKey for NonZero<u32> {
    ghost keys = { non_zero_u32_keys };

    ghost key_law = { non_zero_u32_law };

    fn into_usize(self) -> usize {
        (self.get() - 1) as usize
    }

    fn from_usize(value: usize) -> Option<Self> {
        NonZero::<u32>::new(u32::try_from(value).ok()?.checked_add(1)?)
    }
}
