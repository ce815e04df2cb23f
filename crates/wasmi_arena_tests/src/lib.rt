//! Tests of keys, stable vectors, stable arenas and their runs, and of what all tests stand on.
#![tactic(auto)]

#[cfg(test)]
mod arenas;
#[cfg(test)]
mod asserts;
#[cfg(test)]
mod dropped;
#[cfg(test)]
mod heap;
#[cfg(test)]
mod items;
#[cfg(test)]
mod iter_mut;
#[cfg(test)]
mod keys;
#[cfg(test)]
mod large;
#[cfg(test)]
mod no_memory;
#[cfg(test)]
mod observed;
#[cfg(test)]
mod pairs;
#[cfg(test)]
mod refused;
#[cfg(test)]
mod vectors;
