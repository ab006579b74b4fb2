//! Handles on the elements of a tree.
ghost use Rattle.std.specs.Prelude.{◌≡◌, ◌<◌, ◌≤◌, length, MatchOption};
ghost use Rattle.std.specs.Str.{chars};
ghost use Rattle.squawk_tree.specs.Forest.{Forest};
ghost use Rattle.syntax_tree.specs.Layout.{IsTree, HoldsTree};
ghost use Rattle.syntax_tree.specs.Trees.{kind_at, is_token_at, text_at, start_at, end_at, children_of, IsChild, IsFirst, IsLast, AreNeighbours};

use crate::element::{Element, NONE};
use crate::tree::SyntaxTree;
use squawk_kinds::SyntaxKind;
use std::ops::Range;

/// An element of a tree: a node or a token.
///
/// Each method takes constant time, where it doesn't say otherwise.
#[derive(Clone, Copy)]
pub struct SyntaxElement<'t> {
    pub(crate) tree: &'t SyntaxTree<'t>,
    pub(crate) at: u32,
    ghost within: { at < length tree.now.elements },
}

impl<'s> SyntaxTree<'s> {
    /// The root.
    pub fn root<'t>(&'t self) -> SyntaxElement<'t>
        ensures { (result.tree.now ≡ self.now) × (result.at ≡ 0) }
    {
        let _ = &self.elements;
        SyntaxElement { tree: self, at: 0 }
    }

    /// The byte at which an element ends.
    pub(crate) fn end(&self, element: Element) -> usize
        ensures { (tree : Forest) → IsTree self.now tree → element.behind ≤ length self.now.elements → result ≡ start_at tree element.behind }
    {
        match self.elements.get(element.behind as usize) {
            Some(next) => next.start as usize,
            None => self.text.len(),
        }
    }
}

impl<'t> SyntaxElement<'t> {
    ghost use Rattle.syntax_tree.specs.Views.{IsTreeOf, IsElement, IsFirstIn, IsLastIn, element_in};

    pub(crate) fn element(self) -> Element
        ensures element { result ≡ element_in self.entry.tree.now self.entry.at }
        ensures tree { HoldsTree self.entry.tree.now }
    {
        let tree = self.tree;
        tree.elements[self.at as usize]
    }

    /// The place behind all that is in it.
    pub(crate) fn behind(self) -> u32
        ensures behind { result ≡ (element_in self.entry.tree.now self.entry.at).behind }
        ensures tree { HoldsTree self.entry.tree.now }
    {
        self.element().behind
    }

    /// The place of the node that it stands in.
    pub(crate) fn parent_place(self) -> u32
        ensures parent { result ≡ (element_in self.entry.tree.now self.entry.at).parent }
        ensures tree { HoldsTree self.entry.tree.now }
    {
        self.element().parent
    }

    pub(crate) fn at(self, at: u32) -> SyntaxElement<'t>
        requires { at < length self.tree.now.elements }
        ensures { IsElement self.entry result at }
    {
        SyntaxElement {
            tree: self.tree,
            at,
        }
    }

    /// The kind.
    pub fn kind(self) -> SyntaxKind
        ensures { (tree : Forest) → IsTreeOf self.entry tree → result ≡ kind_at tree self.entry.at }
    {
        self.element().kind
    }

    /// Whether it is a token.
    pub fn is_token(self) -> bool
        ensures { (tree : Forest) → IsTreeOf self.entry tree → result ≡ is_token_at tree self.entry.at }
    {
        self.element().is_token
    }

    /// The bytes of the tree's text that it has.
    pub fn text_range(self) -> Range<usize>
        ensures start { (tree : Forest) → IsTreeOf self.entry tree → result.start ≡ start_at tree self.entry.at }
        ensures end { (tree : Forest) → IsTreeOf self.entry tree → result.end ≡ end_at tree self.entry.at }
    {
        let element = self.element();
        element.start as usize..self.tree.end(element)
    }

    /// The text of a token, or of all tokens in a node.
    pub fn text(self) -> &'t str
        ensures { (tree : Forest) → IsTreeOf self.entry tree → chars result.now ≡ text_at tree self.entry.at }
    {
        let tree = self.tree;
        &tree.text[self.text_range()]
    }

    /// The node that it stands in. The root has none.
    pub fn parent(self) -> Option<SyntaxElement<'t>>
        ensures { (tree : Forest) → IsTreeOf self.entry tree → MatchOption result (self.entry.at ≡ 0)
            (λ node. (node.tree.now ≡ self.entry.tree.now) × IsChild tree node.at self.entry.at) }
    {
        let parent = self.element().parent;
        if parent == NONE {
            return None;
        }
        Some(self.at(parent))
    }

    /// The first node or token in it.
    pub fn first_child_or_token(self) -> Option<SyntaxElement<'t>>
        ensures { (tree : Forest) → IsTreeOf self.entry tree → IsFirstIn self.entry.tree.now (children_of tree self.entry.at) result }
    {
        let element = self.element();
        let first = self.at + 1;
        if element.behind == first {
            return None;
        }
        Some(self.at(first))
    }

    /// The last node or token in it.
    pub fn last_child_or_token(self) -> Option<SyntaxElement<'t>>
        ensures { (tree : Forest) → IsTreeOf self.entry tree → IsLastIn self.entry.tree.now (children_of tree self.entry.at) result }
    {
        let element = self.element();
        if element.behind == self.at + 1 {
            return None;
        }
        Some(self.at(element.last))
    }

    /// The node or token directly behind it in the same node.
    pub fn next_sibling_or_token(self) -> Option<SyntaxElement<'t>>
        ensures { (tree : Forest) → IsTreeOf self.entry tree → MatchOption result (IsLast tree self.entry.at)
            (λ next. (next.tree.now ≡ self.entry.tree.now) × AreNeighbours tree self.entry.at next.at) }
    {
        let element = self.element();
        if element.parent == NONE || element.behind == self.at(element.parent).behind() {
            return None;
        }
        Some(self.at(element.behind))
    }

    /// The node or token directly before it in the same node.
    pub fn prev_sibling_or_token(self) -> Option<SyntaxElement<'t>>
        ensures { (tree : Forest) → IsTreeOf self.entry tree → MatchOption result (IsFirst tree self.entry.at)
            (λ previous. (previous.tree.now ≡ self.entry.tree.now) × AreNeighbours tree previous.at self.entry.at) }
    {
        let parent = self.element().parent;
        if parent == NONE || parent + 1 == self.at {
            return None;
        }
        // Before it stands a leaf, and the outermost element that ends with that leaf is its sibling.
        let leaf = self.at(self.at - 1);
        Some(self.at(leaf.element().last))
    }
}
