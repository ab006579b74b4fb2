//! A sink that writes the tree that it is sent as indented text.
#![tactic(auto)]

mod line;
mod shown;
pub mod tree_text;

pub use shown::write_name;
pub use tree_text::TreeText;
