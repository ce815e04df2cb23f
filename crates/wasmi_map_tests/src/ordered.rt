//! Tests of ordered maps and sets alone.

mod counted;
mod parts;
