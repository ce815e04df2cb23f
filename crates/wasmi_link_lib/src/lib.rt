//! Links modules of WebAssembly: which module gives what another one asks for.
#![tactic(auto)]

mod exports;
mod files;
mod firsts;
mod ids;
mod imported;
mod item;
pub mod laws;
mod line;
mod linker;
mod named;
mod names;
mod path;
mod resolver;
mod text;
mod types;

pub use files::{File, LinkError, Outcome, link};
pub use line::{Answer, ItemType, Line, Linked};
pub use named::NamedModule;
pub use path::module_name;
pub use resolver::resolve;
pub use text::{exit_status, report};
