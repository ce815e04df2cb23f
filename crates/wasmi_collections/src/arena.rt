//! Arenas: typed keys, and containers whose items stand under them.

mod dedup;
pub mod laws;

pub use dedup::DedupArena;
pub use wasmi_arena::{
    AnyArena, ArenaCommand, ArenaError, ArenaKey, ArenaKeys, ArenaReply, BUCKETS, Bucket, MAX_LEN,
    StableArena, StableArenaIntoIter, StableArenaIter, StableArenaIterMut, StableVec,
    StableVecIntoIter, StableVecIter, StableVecIterMut, StableVecSlices, StableVecSlicesMut,
    TypedKey, key_at, run_arena,
};
pub use wasmi_dense::arena::{IntoIter, Iter, IterMut};
pub use wasmi_dense::{Arena, ComponentVec, ComponentVecIter, ComponentVecIterMut};
