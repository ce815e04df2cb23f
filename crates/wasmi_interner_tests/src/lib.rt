//! Tests of interners and of searches.
#![tactic(auto)]

#[cfg(test)]
mod asserts;
#[cfg(test)]
mod calls;
#[cfg(test)]
mod interner;
#[cfg(test)]
mod memory;
#[cfg(test)]
mod numbered;
#[cfg(test)]
mod searches;
#[cfg(test)]
mod texts;
