//! Containers of the Wasmi interpreter.
//!
//! - [`StableVec`]: a vector that grows without moving its items
//! - [`StableArena`]: such a vector under typed keys
//! - [`Arena`]: a list under typed keys, in one vector
//! - [`DedupArena`]: an arena that gives equal values one key
//! - [`ComponentVec`]: properties of the entities that an arena has, by key
//! - [`HeadVec`]: a list with fast access to its last item
//! - [`Map`], [`Set`]: a map and a set kept in the order of their keys; [`hashed`] has those that hash
//! - [`StringInterner`]: a list of distinct texts, each under a symbol
//! - [`run`]: lists of commands to any map, any set, a deduplicating arena and an interner
#![tactic(auto)]

pub mod arena;
pub mod hashed;
mod head_vec;
pub mod laws;
pub mod ordered;
pub mod run;

pub use arena::{Arena, ComponentVec, DedupArena, StableArena, StableVec};
pub use head_vec::HeadVec;
pub use wasmi_hashed::hash;
pub use wasmi_interner as string_interner;
pub use wasmi_interner::StringInterner;
pub use wasmi_ordered::{Map, Set, map, set};
