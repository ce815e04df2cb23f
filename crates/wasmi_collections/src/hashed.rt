//! Maps and sets whose keys are found by their hash.

pub use wasmi_hashed::{Map, Set, map, set};
