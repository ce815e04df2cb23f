//! Maps and sets whose keys are found by their hash.
#![tactic(auto)]

pub mod hash;
pub mod map;
pub mod set;

pub use map::Map;
pub use set::Set;
