//! The nodes among children, siblings and descendants.
ghost use Rattle.std.specs.Prelude.{◌≡◌, map, MatchOption};
ghost use Rattle.squawk_tree.specs.Forest.{Forest};
ghost use Rattle.syntax_tree.specs.Trees.{children_of, descendants_of, nodes_among, IsNextNode, IsLastNode, IsPreviousNode, IsFirstNode};
ghost use Rattle.syntax_tree.specs.Views.{IsTreeOf, IsFirstIn, IsLastIn, place_in};

use crate::handle::SyntaxElement;
use crate::walks::{ChildrenWithTokens, DescendantsWithTokens};
use std::marker::Model;

/// The nodes that are left of those directly in a node.
#[derive(Drop)]
pub struct Children<'t> {
    all: ChildrenWithTokens<'t>,
}

impl<'t> Model for Children<'t> {
    ghost use Rattle.std.specs.Prelude.{List};
    ghost use Rattle.syntax_tree.specs.Views.{At, nodes_left};

    ghost Value = { List At };

    ghost view = { λ c. nodes_left c.all };
}

/// The nodes that are left of an element and all that is in it, in the order of the text.
#[derive(Drop)]
pub struct Descendants<'t> {
    all: DescendantsWithTokens<'t>,
}

impl<'t> Model for Descendants<'t> {
    ghost use Rattle.std.specs.Prelude.{List};
    ghost use Rattle.syntax_tree.specs.Views.{At, nodes_left};

    ghost Value = { List At };

    ghost view = { λ d. nodes_left d.all };
}

impl<'t> SyntaxElement<'t> {
    /// The nodes directly in it.
    pub fn children(self) -> Children<'t>
        ensures { (tree : Forest) → IsTreeOf self.entry tree
            → result ≡ map (place_in self.entry.tree.now) (nodes_among tree (children_of tree self.entry.at)) }
    {
        Children {
            all: self.children_with_tokens(),
        }
    }

    /// It itself, if it is a node, and the nodes in it, in the order of the text.
    pub fn descendants(self) -> Descendants<'t>
        ensures { (tree : Forest) → IsTreeOf self.entry tree
            → result ≡ map (place_in self.entry.tree.now) (nodes_among tree (descendants_of tree self.entry.at)) }
    {
        Descendants {
            all: self.descendants_with_tokens(),
        }
    }

    /// The first node directly in it. It takes time in the number of tokens before that.
    pub fn first_child(self) -> Option<SyntaxElement<'t>>
        ensures { (tree : Forest) → IsTreeOf self.entry tree → IsFirstIn self.entry.tree.now (nodes_among tree (children_of tree self.entry.at)) result }
    {
        self.children().next()
    }

    /// The last node directly in it. It takes time in the number of tokens behind that.
    pub fn last_child(self) -> Option<SyntaxElement<'t>>
        ensures { (tree : Forest) → IsTreeOf self.entry tree → IsLastIn self.entry.tree.now (nodes_among tree (children_of tree self.entry.at)) result }
    {
        let last = self.last_child_or_token()?;
        if last.is_token() {
            last.prev_sibling()
        } else {
            Some(last)
        }
    }

    /// The first node behind it in the same node. It takes time in the number of tokens between them.
    pub fn next_sibling(self) -> Option<SyntaxElement<'t>>
        ensures { (tree : Forest) → IsTreeOf self.entry tree → MatchOption result (IsLastNode tree self.entry.at)
            (λ next. (next.tree.now ≡ self.entry.tree.now) × IsNextNode tree self.entry.at next.at) }
    {
        let mut next = self.next_sibling_or_token()?;
        while next.element().is_token {
            next = next.next_sibling_or_token()?;
        }
        Some(next)
    }

    /// The last node before it in the same node. It takes time in the number of tokens between them.
    pub fn prev_sibling(self) -> Option<SyntaxElement<'t>>
        ensures { (tree : Forest) → IsTreeOf self.entry tree → MatchOption result (IsFirstNode tree self.entry.at)
            (λ previous. (previous.tree.now ≡ self.entry.tree.now) × IsPreviousNode tree previous.at self.entry.at) }
    {
        let mut previous = self.prev_sibling_or_token()?;
        while previous.element().is_token {
            previous = previous.prev_sibling_or_token()?;
        }
        Some(previous)
    }
}

impl<'t> Iterator for Children<'t> {
    ghost use Rattle.std.specs.Iterator.{YieldsFirstBy, item_count};
    ghost use Rattle.syntax_tree.specs.Views.{at_of};

    type Item = SyntaxElement<'t>;

    ghost next_gives = { YieldsFirstBy at_of (λ c. c) };

    ghost remaining = { item_count (λ c. c) };

    fn next(&mut self) -> Option<SyntaxElement<'t>> {
        while let Some(child) = self.all.next() {
            if !child.element().is_token {
                return Some(child);
            }
        }
        None
    }
}

impl<'t> Iterator for Descendants<'t> {
    ghost use Rattle.std.specs.Iterator.{YieldsFirstBy, item_count};
    ghost use Rattle.syntax_tree.specs.Views.{at_of};

    type Item = SyntaxElement<'t>;

    ghost next_gives = { YieldsFirstBy at_of (λ d. d) };

    ghost remaining = { item_count (λ d. d) };

    fn next(&mut self) -> Option<SyntaxElement<'t>> {
        while let Some(element) = self.all.next() {
            if !element.element().is_token {
                return Some(element);
            }
        }
        None
    }
}
