//! What programs on SQL share: the tree of a text in one call, its errors as findings, and printing of files one after
//! another.
#![tactic(auto)]

mod error;
mod files;
mod parse;
mod tree_findings;

pub use error::{FileError, SqlError};
pub use files::{Reporter, Texts, print_files, status};
pub use parse::parse_sql;
pub use tree_findings::findings;
