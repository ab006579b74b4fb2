//! The lines of a tree, before they are written.

use squawk_kinds::SyntaxKind;
use squawk_output::Text;

/// A line of a tree, inside of `depth` nodes.
#[derive(Drop)]
pub(crate) struct Line {
    pub(crate) depth: usize,
    pub(crate) shown: Shown,
}

/// What a line shows. Starts, ends and positions count bytes of the texts of all tokens.
#[derive(Drop)]
pub(crate) enum Shown {
    /// A node. It has no end until it is closed.
    Node {
        kind: SyntaxKind,
        start: usize,
        end: Option<usize>,
    },
    Token {
        kind: SyntaxKind,
        start: usize,
        end: usize,
    },
    Error {
        msg: Text,
        pos: usize,
    },
}

impl Line {
    ghost use Rattle.std.specs.Prelude.{◌≡◌};
    ghost use Rattle.squawk_tree.specs.SoundDrawings.{closed_line};

    /// Sets the end of the line's node, if it shows a node.
    pub(crate) fn close(&mut self, at: usize)
        ensures { self.new ≡ closed_line at self.old }
    {
        if let Shown::Node { end, .. } = &mut self.shown {
            *end = Some(at);
        }
    }
}
