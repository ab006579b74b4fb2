//! Elements of one kind among children and descendants.
ghost use Rattle.std.specs.Prelude.{◌≡◌, map};
ghost use Rattle.squawk_tree.specs.Forest.{Forest};
ghost use Rattle.syntax_tree.specs.Trees.{children_of, descendants_of, nodes_among, of_kind, tokens_among};
ghost use Rattle.syntax_tree.specs.Views.{IsTreeOf, IsFirstIn, place_in};

use crate::handle::SyntaxElement;
use crate::nodes::Descendants;
use squawk_kinds::SyntaxKind;
use std::marker::Model;

/// The nodes of one kind that are left of an element and all that is in it, in the order of the text.
#[derive(Drop)]
pub struct DescendantsByKind<'t> {
    all: Descendants<'t>,
    kind: SyntaxKind,
}

impl<'t> Model for DescendantsByKind<'t> {
    ghost use Rattle.std.specs.Prelude.{List};
    ghost use Rattle.syntax_tree.specs.Views.{At, kinds_left};

    ghost Value = { List At };

    ghost view = { λ d. kinds_left d.kind d.all };
}

impl<'t> SyntaxElement<'t> {
    /// The first node of a kind directly in it. It takes time in the number of elements before that.
    pub fn first_child_by_kind(self, kind: SyntaxKind) -> Option<SyntaxElement<'t>>
        ensures { (tree : Forest) → IsTreeOf self.entry tree
            → IsFirstIn self.entry.tree.now (of_kind tree kind (nodes_among tree (children_of tree self.entry.at))) result }
    {
        for child in self.children() {
            if child.element().kind == kind {
                return Some(child);
            }
        }
        None
    }

    /// The first token of a kind directly in it. It takes time in the number of elements before that.
    pub fn first_token_by_kind(self, kind: SyntaxKind) -> Option<SyntaxElement<'t>>
        ensures { (tree : Forest) → IsTreeOf self.entry tree
            → IsFirstIn self.entry.tree.now (of_kind tree kind (tokens_among tree (children_of tree self.entry.at))) result }
    {
        for element in self.children_with_tokens() {
            if element.element().is_token_of(kind) {
                return Some(element);
            }
        }
        None
    }

    /// It itself, if it is a node of a kind, and the nodes of that kind in it, in the order of the text.
    pub fn descendants_by_kind(self, kind: SyntaxKind) -> DescendantsByKind<'t>
        ensures { (tree : Forest) → IsTreeOf self.entry tree
            → result ≡ map (place_in self.entry.tree.now) (of_kind tree kind (nodes_among tree (descendants_of tree self.entry.at))) }
    {
        DescendantsByKind {
            all: self.descendants(),
            kind,
        }
    }
}

impl<'t> Iterator for DescendantsByKind<'t> {
    ghost use Rattle.std.specs.Iterator.{YieldsFirstBy, item_count};
    ghost use Rattle.syntax_tree.specs.Views.{at_of};

    type Item = SyntaxElement<'t>;

    ghost next_gives = { YieldsFirstBy at_of (λ d. d) };

    ghost remaining = { item_count (λ d. d) };

    fn next(&mut self) -> Option<SyntaxElement<'t>> {
        while let Some(node) = self.all.next() {
            if node.element().kind == self.kind {
                return Some(node);
            }
        }
        None
    }
}
