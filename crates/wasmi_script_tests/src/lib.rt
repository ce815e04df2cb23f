//! Tests of scripts and of the entity store.
#![tactic(auto)]

#[cfg(test)]
mod asserts;
#[cfg(test)]
mod memory;
#[cfg(test)]
mod scripts;
#[cfg(test)]
mod store;
#[cfg(test)]
mod streams;
