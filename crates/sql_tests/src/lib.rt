//! Tests of what stands below SQL's programs, over its public surface alone: words and kinds, trees of
//! statements, and lines of JSON.
#![tactic(auto)]

#[cfg(test)]
mod parts;
#[cfg(test)]
mod reports;
#[cfg(test)]
mod scripts;
#[cfg(test)]
mod trees;
#[cfg(test)]
mod windows;
#[cfg(test)]
mod words;
