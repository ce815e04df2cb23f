//! The containers of the Wasmi interpreter that are kept in one vector.
#![tactic(auto)]

pub mod arena;
mod component_vec;
pub mod laws;
mod slice_pair;

pub use arena::Arena;
pub use component_vec::{ComponentVec, ComponentVecIter, ComponentVecIterMut};
