//! Reads modules of WebAssembly.
#![tactic(auto)]

mod check;
mod constants;
mod counts;
mod decoder;
mod error;
mod item;
mod items;
pub mod laws;
mod matching;
mod module;
mod numbers;
mod reader;
mod sections;
mod values;

pub use decoder::decode;
pub use error::{DecodeError, Expected};
pub use module::{
    Export, FuncType, Global, GlobalType, Import, ImportType, Init, Kind, Limits, MemoryType,
    Module, RefType, TableType, ValType,
};
