//! Tests of the decoder of modules.
#![tactic(auto)]

#[cfg(test)]
mod asserts;
#[cfg(test)]
mod bytes;
#[cfg(test)]
mod decoded;
#[cfg(test)]
mod large;
#[cfg(test)]
mod malformed;
#[cfg(test)]
mod matching;
#[cfg(test)]
mod memory;
#[cfg(test)]
mod numbers;
#[cfg(test)]
mod or_abort;
