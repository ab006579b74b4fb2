//! A small grammar: operands, with operators between them.
#![tactic(auto)]

pub mod tiny;

pub use tiny::Tiny;

#[cfg(test)]
mod flat;
