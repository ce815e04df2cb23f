//! Maps and sets whose keys are kept in order.

pub use wasmi_ordered::{Map, Set, laws, map, set};
