//! Lists of commands to maps, sets, deduplicating arenas and interners, and their replies.

mod any_map;
mod any_set;
mod dedup;
mod interner;
mod map;
mod set;

pub use any_map::AnyMap;
pub use any_set::AnySet;
pub use dedup::{DedupCommand, DedupReply, run_dedup};
pub use interner::{InternCommand, InternReply, run_interner};
pub use map::{MapCommand, MapReply, run_map};
pub use set::{SetCommand, SetReply, run_set};
