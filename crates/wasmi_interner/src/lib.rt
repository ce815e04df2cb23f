//! Symbols of texts: [`StringInterner`], a list of distinct texts, each under a symbol.
//!
//! `wasmi_collections::string_interner` is this crate.
#![tactic(auto)]

mod entry;
mod hash;
mod hash_table;
mod index;
mod iter;
pub mod laws;
mod len_order;
mod probe;
mod rest;
mod sought;
mod steps;
mod string_interner;
mod sym;
mod texts;

pub use iter::Iter;
pub use len_order::LenOrder;
pub use probe::{Probe, search};
pub use steps::Steps;
pub use string_interner::StringInterner;
pub use sym::{InternHint, Sym};
