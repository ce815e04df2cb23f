//! The arenas of the Wasmi interpreter: typed keys, a vector whose items stay in their slots, and an
//! arena over it.
#![tactic(auto)]

mod any_arena;
mod arena_keys;
mod bucket;
mod bucket_table;
mod error;
mod geometry;
mod key;
pub mod laws;
mod raw;
mod run;
mod stable_arena;
mod stable_vec;
mod typed_key;

pub use any_arena::AnyArena;
pub use arena_keys::ArenaKeys;
pub use bucket::Bucket;
// A crate above can name a vector or a bucket in a contract only if it reaches the types of their fields.
#[doc(hidden)]
pub use bucket_table::BucketTable;
pub use error::ArenaError;
pub use geometry::{BUCKETS, MAX_LEN};
pub use key::{ArenaKey, key_at};
#[doc(hidden)]
pub use raw::block::{BlockPtr, DeallocRight, Slots};
#[doc(hidden)]
pub use raw::loan::ItemsLoan;
pub use run::{ArenaCommand, ArenaReply, run_arena};
pub use stable_arena::{StableArena, StableArenaIntoIter, StableArenaIter, StableArenaIterMut};
pub use stable_vec::{
    StableVec, StableVecIntoIter, StableVecIter, StableVecIterMut, StableVecSlices,
    StableVecSlicesMut,
};
pub use typed_key::TypedKey;
