//! Tests of answers that no document and its lines can tell: readers and writers of many kinds, memory that is
//! refused, how the program ends, bytes that are no text, and what is read of a document that no line shows.
//!
//! The values that they want were worked out by hand.
#![tactic(auto)]

#[cfg(test)]
mod asserts;
#[cfg(test)]
mod documents;
#[cfg(test)]
mod exits;
#[cfg(test)]
mod json;
#[cfg(test)]
mod memory;
#[cfg(test)]
mod readers;
#[cfg(test)]
mod streams;
#[cfg(test)]
mod vocabulary;
#[cfg(test)]
mod writers;
