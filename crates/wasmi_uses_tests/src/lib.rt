//! Tests of the callers of the containers.
#![tactic(auto)]

#[cfg(test)]
mod asserts;
#[cfg(test)]
mod callers;
