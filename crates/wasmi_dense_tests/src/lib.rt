//! Tests of arenas in one vector and of component vectors.
#![tactic(auto)]

#[cfg(test)]
mod arenas;
#[cfg(test)]
mod asserts;
#[cfg(test)]
mod components;
#[cfg(test)]
mod large;
#[cfg(test)]
mod no_memory;
#[cfg(test)]
mod refused;
