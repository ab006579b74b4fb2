//! Tests of the engine, over its public surface alone, that are no cases of `corpus`: grammars and sinks in code,
//! trees by hand, logs of events, sets and kinds, the bounds of iterators, and what asks for memory.
//!
//! The values that they want were worked out by hand. Calls are written as lists and steps as lines, in the
//! notations of `row_fixtures`.
#![tactic(auto)]

#[cfg(test)]
mod acts;
#[cfg(test)]
mod bounds;
#[cfg(test)]
mod cases;
#[cfg(test)]
mod deep;
#[cfg(test)]
mod error_lines;
#[cfg(test)]
mod events;
#[cfg(test)]
mod failed;
#[cfg(test)]
mod keywords;
#[cfg(test)]
mod kinds;
#[cfg(test)]
mod limits;
#[cfg(test)]
mod memory;
#[cfg(test)]
mod names;
#[cfg(test)]
mod sets;
#[cfg(test)]
mod sinks;
#[cfg(test)]
mod skips;
#[cfg(test)]
mod trees;
