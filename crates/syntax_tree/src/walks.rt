//! Iterators over the children, the descendants and the ancestors of an element.
ghost use Rattle.std.specs.Prelude.{◌≡◌, map};
ghost use Rattle.squawk_tree.specs.Forest.{Forest};
ghost use Rattle.syntax_tree.specs.Trees.{children_of, descendants_of, ancestors_of};
ghost use Rattle.syntax_tree.specs.Views.{IsTreeOf, place_in};

use crate::element::NONE;
use crate::handle::SyntaxElement;
use crate::tree::SyntaxTree;
use std::marker::Model;

/// The nodes and tokens that are left of those directly in a node.
#[derive(Drop)]
pub struct ChildrenWithTokens<'t> {
    tree: &'t SyntaxTree<'t>,
    node: u32,
    /// The place of the next child.
    at: u32,
    /// The place behind all that is in the node.
    behind: u32,
}

impl<'t> Model for ChildrenWithTokens<'t> {
    ghost use Rattle.std.specs.Prelude.{List, map};
    ghost use Rattle.syntax_tree.specs.Views.{At, place_in, children_between, IsAtChild};

    ghost Value = { List At };

    ghost view = { λ c. map (place_in c.tree.now) (children_between c.tree.now c.node c.at c.behind) };

    ghost invariant = { λ c. IsAtChild c.tree.now c.node c.at c.behind };
}

/// The elements that are left of one and of all that is in it, in the order of the text.
#[derive(Drop)]
pub struct DescendantsWithTokens<'t> {
    tree: &'t SyntaxTree<'t>,
    at: u32,
    behind: u32,
}

impl<'t> Model for DescendantsWithTokens<'t> {
    ghost use Rattle.std.specs.Prelude.{List, map, length, ◌≤◌};
    ghost use Rattle.syntax_tree.specs.Trees.{places_between};
    ghost use Rattle.syntax_tree.specs.Views.{At, place_in};

    ghost Value = { List At };

    ghost view = { λ d. map (place_in d.tree.now) (places_between d.at d.behind) };

    ghost invariant = { λ d. (d.at ≤ d.behind) × (d.behind ≤ length d.tree.now.elements) };
}

/// The elements that are left of one and of the nodes that it is in, the innermost first.
#[derive(Drop)]
pub struct Ancestors<'t> {
    tree: &'t SyntaxTree<'t>,
    /// The element whose ancestors they are.
    at: u32,
    /// The place of the next one.
    next: u32,
}

impl<'t> Model for Ancestors<'t> {
    ghost use Rattle.std.specs.Prelude.{List, map};
    ghost use Rattle.syntax_tree.specs.Views.{At, place_in, ancestors_from, IsAtAncestor};

    ghost Value = { List At };

    ghost view = { λ a. map (place_in a.tree.now) (ancestors_from a.tree.now a.at a.next) };

    ghost invariant = { λ a. IsAtAncestor a.tree.now a.at a.next };
}

impl<'t> SyntaxElement<'t> {
    /// The nodes and tokens directly in it.
    pub fn children_with_tokens(self) -> ChildrenWithTokens<'t>
        ensures { (tree : Forest) → IsTreeOf self.entry tree → result ≡ map (place_in self.entry.tree.now) (children_of tree self.entry.at) }
    {
        let behind = self.behind();
        ChildrenWithTokens {
            tree: self.tree,
            node: self.at,
            at: self.at + 1,
            behind,
        }
    }

    /// It itself and all that is in it, in the order of the text.
    pub fn descendants_with_tokens(self) -> DescendantsWithTokens<'t>
        ensures { (tree : Forest) → IsTreeOf self.entry tree → result ≡ map (place_in self.entry.tree.now) (descendants_of tree self.entry.at) }
    {
        DescendantsWithTokens {
            tree: self.tree,
            at: self.at,
            behind: self.behind(),
        }
    }

    /// It itself and the nodes that it is in, the innermost first.
    pub fn ancestors(self) -> Ancestors<'t>
        ensures { (tree : Forest) → IsTreeOf self.entry tree → result ≡ map (place_in self.entry.tree.now) (ancestors_of tree self.entry.at) }
    {
        let tree = self.tree;
        let _ = &tree.elements;
        Ancestors {
            tree,
            at: self.at,
            next: self.at,
        }
    }
}

impl<'t> Iterator for ChildrenWithTokens<'t> {
    ghost use Rattle.std.specs.Iterator.{YieldsFirstBy, item_count};
    ghost use Rattle.syntax_tree.specs.Views.{at_of};

    type Item = SyntaxElement<'t>;

    ghost next_gives = { YieldsFirstBy at_of (λ c. c) };

    ghost remaining = { item_count (λ c. c) };

    fn next(&mut self) -> Option<SyntaxElement<'t>> {
        if self.at == self.behind {
            return None;
        }
        let tree = self.tree;
        let child = SyntaxElement { tree, at: self.at };
        self.at = child.behind();
        Some(child)
    }
}

impl<'t> Iterator for DescendantsWithTokens<'t> {
    ghost use Rattle.std.specs.Iterator.{YieldsFirstBy, item_count};
    ghost use Rattle.syntax_tree.specs.Views.{at_of};

    type Item = SyntaxElement<'t>;

    ghost next_gives = { YieldsFirstBy at_of (λ d. d) };

    ghost remaining = { item_count (λ d. d) };

    fn next(&mut self) -> Option<SyntaxElement<'t>> {
        if self.at == self.behind {
            return None;
        }
        let tree = self.tree;
        let element = SyntaxElement { tree, at: self.at };
        self.at += 1;
        Some(element)
    }
}

impl<'t> Iterator for Ancestors<'t> {
    ghost use Rattle.std.specs.Iterator.{YieldsFirstBy, item_count};
    ghost use Rattle.syntax_tree.specs.Views.{at_of};

    type Item = SyntaxElement<'t>;

    ghost next_gives = { YieldsFirstBy at_of (λ a. a) };

    ghost remaining = { item_count (λ a. a) };

    fn next(&mut self) -> Option<SyntaxElement<'t>> {
        if self.next == NONE {
            return None;
        }
        let tree = self.tree;
        let element = SyntaxElement {
            tree,
            at: self.next,
        };
        self.next = element.parent_place();
        Some(element)
    }
}
