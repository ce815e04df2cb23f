//! Maps and sets whose keys are kept in order.
#![tactic(auto)]

pub mod laws;
pub mod map;
pub mod set;

pub use map::Map;
pub use set::Set;
