//! Laws of arenas, of their vectors, and of components.
//!
//! Those of a [`DedupArena`](super::DedupArena) are in [`laws`](crate::laws).

pub use wasmi_arena::laws as stable;
pub use wasmi_dense::laws as dense;
