//! What a tree keeps of a node or a token.
ghost use Rattle.std.specs.Prelude.{◌≡◌, ◌&&◌, ◌==◌};

use squawk_kinds::SyntaxKind;

/// No element: the parent of the root.
pub(crate) const NONE: u32 = u32::MAX;

/// A node or a token. Elements stand in the order of the text, a node before what is in it. An element's place is its index.
#[derive(Clone, Copy)]
pub(crate) struct Element {
    pub(crate) kind: SyntaxKind,
    pub(crate) is_token: bool,
    /// The byte of the text at which it begins. It ends where the element at `behind` begins.
    pub(crate) start: u32,
    /// The place of the node that it stands in.
    pub(crate) parent: u32,
    /// The place behind all that is in it. Of an open node it is 0.
    pub(crate) behind: u32,
    /// Of a node with children the place of the last of them. Of a token, and of a node without children, the place of the
    /// outermost element that ends with it.
    pub(crate) last: u32,
}

impl Element {
    /// Whether it is a token of a kind.
    pub(crate) fn is_token_of(self, kind: SyntaxKind) -> bool
        ensures { result ≡ (self.is_token && (self.kind == kind)) }
    {
        self.is_token && self.kind == kind
    }
}
