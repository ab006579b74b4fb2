//! The steps of an output.

use squawk_kinds::SyntaxKind;

/// A step of a walk over a syntax tree.
#[derive(Clone, Copy, Debug, PartialEq, Eq)]
pub enum Step<'a> {
    /// A token of a kind, made of `n_input_tokens` input tokens.
    Token {
        kind: SyntaxKind,
        n_input_tokens: u8,
    },
    /// The beginning of a node.
    Enter {
        kind: SyntaxKind,
    },
    /// The end of the innermost open node.
    Exit,
    /// An error, with its text.
    Error {
        msg: &'a str,
    },
}
