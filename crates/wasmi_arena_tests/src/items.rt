//! What the tests of vectors and arenas share: how these are made, whether they hold what they should, and their
//! texts.
use std::alloc::{AllocError, Allocator, Global};
use std::fmt::Debug;
use std::ops::Range;
use wasmi_arena::{ArenaError, ArenaKey, ArenaReply, StableArena, StableVec};
use wasmi_vectors::observed::{Log, Observed};
use wasmi_vectors::tally::{Item, Tally};

/// A vector of 0, 1 and so on.
pub fn counted(alloc: Global, len: u32) -> Result<StableVec<u32>, ArenaError> {
    StableVec::from_iter(alloc, 0..len)
}

/// An arena of 0, 1 and so on.
pub fn numbered(alloc: Global, len: usize) -> Result<StableArena<usize, usize>, ArenaError> {
    StableArena::from_iter(alloc, 0..len)
}

/// A vector of 0, 1 and so on, whose requests for memory are logged.
pub fn logged<'l>(
    alloc: Global,
    log: &'l Log,
    len: u64,
) -> Result<StableVec<u64, Observed<'l>>, ArenaError> {
    StableVec::from_iter(Observed::new(alloc, log), 0..len)
}

/// A vector of the items of these numbers.
pub fn tallied<'l, 'a>(
    alloc: Global,
    log: &'l Log,
    tally: &'a Tally,
    numbers: Range<u64>,
) -> Result<StableVec<Item<'a>, Observed<'l>>, ArenaError> {
    StableVec::from_iter(
        Observed::new(alloc, log),
        numbers.map(|number| Item::new(tally, number)),
    )
}

/// An arena of the items of these numbers.
pub fn tallied_arena<'l, 'a, Key: ArenaKey>(
    alloc: Global,
    log: &'l Log,
    tally: &'a Tally,
    numbers: Range<u64>,
) -> Result<StableArena<Key, Item<'a>, Observed<'l>>, ArenaError> {
    StableArena::from_iter(
        Observed::new(alloc, log),
        numbers.map(|number| Item::new(tally, number)),
    )
}

/// Whether these are the items.
pub fn are<T: PartialEq, A: Allocator>(items: &StableVec<T, A>, want: &[T]) -> bool {
    items.iter().eq(want.iter())
}

/// Whether the items are 0, 1 and so on.
pub fn are_counted<A: Allocator>(items: &StableVec<u64, A>, len: u64) -> bool {
    items.iter().copied().eq(0..len)
}

/// Whether the items are those of these numbers.
pub fn are_tallied<A: Allocator>(items: &StableVec<Item<'_>, A>, numbers: Range<u64>) -> bool {
    items.iter().map(Item::number).eq(numbers)
}

/// Whether the items are the numbers from the first to before the second of each pair.
pub fn are_ranges(items: &StableVec<u32>, ranges: &[(u32, u32)]) -> bool {
    let mut items = items.iter();
    for (from, to) in ranges {
        for number in *from..*to {
            if items.next() != Some(&number) {
                return false;
            }
        }
    }
    items.next().is_none()
}

/// Whether each item is this one.
pub fn are_all<T: PartialEq, A: Allocator>(items: &StableVec<T, A>, item: &T) -> bool {
    for there in items.iter() {
        if there != item {
            return false;
        }
    }
    true
}

/// Whether two vectors hold the same items.
pub fn are_same<A: Allocator, B: Allocator>(
    one: &StableVec<u64, A>,
    other: &StableVec<u64, B>,
) -> bool {
    one.iter().eq(other.iter())
}

/// The number of an item.
pub fn number_of(item: Option<&Item<'_>>) -> Option<u64> {
    match item {
        Some(item) => Some(item.number()),
        None => None,
    }
}

/// Whether the replies at these places are refusals by this error, and the others the keys from 0 on.
pub fn are_keys_but<Key: ArenaKey, T>(
    replies: &[ArenaReply<Key, T>],
    refused: &[usize],
    error: ArenaError,
) -> bool {
    let mut next = 0usize;
    for (at, reply) in replies.iter().enumerate() {
        let is_refused = refused.contains(&at);
        match reply {
            ArenaReply::Key(key) if !is_refused && key.into_usize() == next => {
                next = next.wrapping_add(1);
            }
            ArenaReply::Refused(found) if is_refused && *found == error => {}
            _ => return false,
        }
    }
    true
}

/// The text of a value by `{:?}`.
pub fn text<T: Debug>(alloc: Global, value: &T) -> Result<String, AllocError> {
    format!(in alloc; "{value:?}")
}
