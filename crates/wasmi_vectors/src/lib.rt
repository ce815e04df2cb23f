//! What the tests stand on: `assert_equal!`, an allocator that counts and refuses, types of few keys,
//! items that count what happens to them, and readers and writers that fail.
#![tactic(auto)]

pub mod asserts;
pub mod counted;
pub mod digit;
pub mod few_keys;
pub mod logged;
pub mod noted;
pub mod observed;
pub mod streams;
pub mod tally;
