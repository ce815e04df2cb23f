//! Callers of the containers, as someone would write them, each proved from the public contracts alone.
#![tactic(auto)]

pub mod compiler;
pub mod constants;
pub mod define;
pub mod exports;
pub mod frames;
pub mod functions;
pub mod imports;
pub mod linker;
pub mod lookup;
pub mod properties;
pub mod reserve;
pub mod search;
pub mod spawn;
pub mod store;
pub mod symbols;
pub mod tables;
pub mod transfer;
pub mod write;
