//! Tests of linking modules.
#![tactic(auto)]

#[cfg(test)]
mod asserts;
#[cfg(test)]
mod large;
#[cfg(test)]
mod memory;
#[cfg(test)]
mod modules;
#[cfg(test)]
mod names;
#[cfg(test)]
mod or_abort;
#[cfg(test)]
mod reports;
