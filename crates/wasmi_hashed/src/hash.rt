//! States of hashing: which hash a key has.
pub use std::hash::RandomState;
use std::hash::{BuildHasherDefault, FoldHasher};

/// The state that every map has which is made without one: a key has the same hash in each run of a
/// program.
///
/// Whoever knows it can choose keys that are slow to find. For untrusted keys take
/// [`RandomState`].
pub type FixedState = BuildHasherDefault<FoldHasher>;
