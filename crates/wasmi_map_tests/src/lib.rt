//! Tests of maps and sets of both backings.
#![tactic(auto)]

#[cfg(test)]
mod asserts;
#[cfg(test)]
mod compared;
#[cfg(test)]
mod entries;
#[cfg(test)]
mod hashed;
#[cfg(test)]
mod kept;
#[cfg(test)]
mod large;
#[cfg(test)]
mod ordered;
#[cfg(test)]
mod refused;
#[cfg(test)]
mod rows;
#[cfg(test)]
mod table;
#[cfg(test)]
mod texts;
#[cfg(test)]
mod walks;
