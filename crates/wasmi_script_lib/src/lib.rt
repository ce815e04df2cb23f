//! A script of commands to an arena of texts, a deduplicating arena, an interner and a store of entities:
//! each line of the input is a command, and gets one line of reply.
//!
//! | Line | Reply |
//! |---|---|
//! | `a TEXT` | `key N`, the key of the text, which is kept; or an error |
//! | `g N` | `text T`, the text of that key; or an error |
//! | `p N` | `place B S`, the bucket and the slot of the index N; `none` from 4294967264 on |
//! | `n` | `counts A D I SLOTS`: how many texts are kept, deduplicated and interned, and the arena's slots |
//! | `d TEXT` | `key N`, the key of the text in the deduplicating arena; or an error |
//! | `i TEXT` | `sym N`, the symbol of the text; or an error |
//! | `r N` | `text T`, the text of that symbol, or `none` |
//! | `e NAME KIND` | `entity N`, the key of a new entity; or an error |
//! | `v N M` | `was V`, the property that the entity had before, or `was none`; or an error |
//! | `k N KIND` | `done`: its kind has this name now; or an error |
//! | `q N` | `is V NAME KIND`, all of the entity, or `is none NAME KIND` without a property; or an error |
//! | anything else | `bad line N`, the number of the line, from 1 |
//!
//! An error is `error` and the container's own text; without memory the script ends, and nothing is replied.
//! Each of the four has keys of its own.
#![tactic(auto)]

mod error;
mod kinds;
pub mod laws;
mod line;
mod program;
mod reply;
mod session;
mod store;
mod store_commands;
mod texts;

pub use error::{ScriptError, exit_status};
pub use program::run;
pub use session::answer;
pub use store::{Entities, EntityKey, EntityStore};
