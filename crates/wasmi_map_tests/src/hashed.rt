//! Tests of hashed maps and sets alone.

mod counted;
mod room;
mod states;
