//! Tests of head vectors, deduplicating arenas and runs.
#![tactic(auto)]

#[cfg(test)]
mod asserts;
#[cfg(test)]
mod calls;
#[cfg(test)]
mod dedup;
#[cfg(test)]
mod dropped;
#[cfg(test)]
mod head_vec;
#[cfg(test)]
mod interner_runs;
#[cfg(test)]
mod large_runs;
#[cfg(test)]
mod places;
#[cfg(test)]
mod printed;
#[cfg(test)]
mod refused;
#[cfg(test)]
mod replace;
#[cfg(test)]
mod runs;
