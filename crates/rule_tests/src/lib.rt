//! Tests of rules from their text to trees: what is read, checked and parsed, where errors stand, and what is refused.
#![tactic(auto)]

#[cfg(test)]
mod broken;
#[cfg(test)]
mod checks;
#[cfg(test)]
mod lines;
#[cfg(test)]
mod made;
#[cfg(test)]
mod memory;
#[cfg(test)]
mod names;
#[cfg(test)]
mod reading;
#[cfg(test)]
mod refusals;
#[cfg(test)]
mod tables;
#[cfg(test)]
mod trees;
