//! A syntax tree.

use crate::element::Element;
use squawk_output::Text;
use squawk_tokens::LexError;
use std::marker::Model;

/// A syntax tree over a text that it borrows.
///
/// Its nodes and tokens are elements of one list, 20 bytes each. Beside it stand 4 bytes for each 32 of the text.
#[derive(Drop)]
pub struct SyntaxTree<'s> {
    pub(crate) text: &'s str,
    pub(crate) elements: Vec<Element>,
    /// For each block of the text's bytes, the place of the first element that begins behind it.
    pub(crate) blocks: Vec<u32>,
    pub(crate) errors: Vec<TreeError>,
    /// The lexical errors of the text that was parsed.
    pub(crate) lexical: Vec<LexError>,
}

impl<'s> Model for SyntaxTree<'s> {
    ghost use Rattle.syntax_tree.specs.Layout.{Laid};
    ghost use Rattle.syntax_tree.specs.Blocks.{IsIndexed};

    ghost Value = { Laid };

    ghost view = { λ t. record { text = t.text.now; elements = t.elements.items; errors = t.errors.items; lexical = t.lexical.items } };

    ghost invariant = { λ t. IsIndexed (view t) t.blocks.items };
}

/// An error of a tree.
#[derive(Drop)]
pub(crate) struct TreeError {
    pub(crate) msg: Text,
    /// How many bytes of the text stand before it.
    pub(crate) pos: usize,
    /// The place of the innermost node that it is in.
    pub(crate) node: u32,
    /// The place of the first element that begins behind it. These places rise along the errors of a tree.
    pub(crate) next: u32,
    /// How many steps of the walk stand before it.
    pub(crate) step: usize,
}

impl<'s> SyntaxTree<'s> {
    ghost use Rattle.std.specs.Prelude.{◌≡◌};

    /// The text of the tree: that of its tokens, joined.
    pub fn text(&self) -> &'s str
        ensures { result.now ≡ self.now.text }
    {
        self.text
    }
}
