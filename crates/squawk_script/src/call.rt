//! Calls of a parser, as values.

use squawk_parser::{SyntaxKind, Text, TokenSet};

/// A call of a parser.
///
/// The markers that [`Call::Start`] and [`Call::Precede`] make are numbered from 0. A node has the number of
/// its marker.
#[derive(Debug, Drop)]
pub enum Call {
    /// Starts a node, with the next marker.
    Start,
    /// Completes a node with this kind.
    Complete { marker: u32, kind: SyntaxKind },
    /// Abandons a marker.
    Abandon { marker: u32 },
    /// Starts a node in front of a completed one, with the next marker.
    Precede { node: u32 },
    /// Extends a completed node to the left, to an older marker, which is then spent.
    ExtendTo { node: u32, marker: u32 },
    /// Eats a kind, if it is at the position.
    Eat { kind: SyntaxKind },
    /// Eats the current token.
    BumpAny,
    /// Eats the current token as one of this kind.
    BumpRemap { kind: SyntaxKind },
    /// Eats a kind, or records the error that it is expected.
    Expect { kind: SyntaxKind },
    /// Records an error.
    Error { message: Text },
    /// Records an error, in a node with the current token unless the set has its kind.
    ErrRecover { message: Text, recovery: TokenSet },
    /// Records an error, in a node with the current token.
    ErrAndBump { message: Text },
}
