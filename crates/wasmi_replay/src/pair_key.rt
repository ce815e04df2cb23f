//! Two items of an arena at once.

use crate::answers::Answer;
use std::mem;
use std::num::NonZero;
use wasmi_arena::ArenaKey;
use wasmi_dense::Arena;
use wasmi_vectors::few_keys::FewKeys;

/// An arena of numbers.
type Items<Key> = Arena<Key, i64>;

/// A key of which an array of two fits into memory, as the call that lends two items wants it. Of a type parameter
/// nothing says so, so each type of keys makes the call itself.
pub trait PairKey: ArenaKey {
    /// The items under two keys, which become `new` and the number after it.
    fn write_both(arena: &mut Items<Self>, first: Self, second: Self, new: i64) -> Answer;
}

macro_rules! write_both {
    ($arena:ident, $first:ident, $second:ident, $new:ident) => {
        match $arena.get_disjoint_mut([$first, $second]) {
            Ok((one, other)) => Answer::Items(
                mem::replace(one, $new),
                mem::replace(other, $new.wrapping_add(1)),
            ),
            Err(error) => Answer::Error(error),
        }
    };
}

impl PairKey for u32 {
    fn write_both(arena: &mut Items<Self>, first: Self, second: Self, new: i64) -> Answer {
        write_both!(arena, first, second, new)
    }
}

impl PairKey for usize {
    fn write_both(arena: &mut Items<Self>, first: Self, second: Self, new: i64) -> Answer {
        write_both!(arena, first, second, new)
    }
}

impl PairKey for NonZero<u32> {
    fn write_both(arena: &mut Items<Self>, first: Self, second: Self, new: i64) -> Answer {
        write_both!(arena, first, second, new)
    }
}

impl PairKey for NonZero<usize> {
    fn write_both(arena: &mut Items<Self>, first: Self, second: Self, new: i64) -> Answer {
        write_both!(arena, first, second, new)
    }
}

impl PairKey for FewKeys<100> {
    fn write_both(arena: &mut Items<Self>, first: Self, second: Self, new: i64) -> Answer {
        write_both!(arena, first, second, new)
    }
}
