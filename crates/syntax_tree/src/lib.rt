//! A syntax tree over a text, and a sink that builds it.
#![tactic(auto)]

mod blocks;
pub mod builder;
pub mod by_kind;
mod element;
pub mod errors;
pub mod handle;
pub mod nodes;
pub mod offsets;
pub mod parse;
pub mod preorder;
pub mod steps;
pub mod text_errors;
mod tokens;
pub mod tree;
pub mod walks;

pub use builder::{TreeBuilder, TreeRefusal, Unfinished};
pub use errors::{Errors, ErrorsIn, SyntaxError};
pub use handle::SyntaxElement;
pub use offsets::TokenAtOffset;
pub use parse::{ParseTreeError, parse_accepted_tree, parse_tree};
pub use preorder::{Preorder, PreorderWithTokens, WalkEvent};
pub use steps::Steps;
pub use text_errors::TextError;
pub use tree::SyntaxTree;
