//! Walks over an element that say where they enter and where they leave.
ghost use Rattle.std.specs.Prelude.{◌≡◌, map};
ghost use Rattle.squawk_tree.specs.Forest.{Forest};
ghost use Rattle.syntax_tree.specs.Trees.{events_of};
ghost use Rattle.syntax_tree.specs.Views.{IsTreeOf};
ghost use Rattle.syntax_tree.specs.Walks.{in_tree, event_of, event_place, node_events};

use crate::element::NONE;
use crate::handle::SyntaxElement;
use crate::tree::SyntaxTree;
use std::marker::Model;

/// An event of a walk: a node or a token is entered or left.
#[derive(Clone, Copy)]
pub enum WalkEvent<'t> {
    Enter(SyntaxElement<'t>),
    Leave(SyntaxElement<'t>),
}

/// The events that are left of a walk over an element and all that is in it.
#[derive(Drop)]
pub struct PreorderWithTokens<'t> {
    tree: &'t SyntaxTree<'t>,
    /// The element that is walked over.
    root: u32,
    /// The place of the next element. Once the root was left there is none.
    at: u32,
    /// The place of the innermost element that was entered and not left, if there is one.
    entered: u32,
}

impl<'t> Model for PreorderWithTokens<'t> {
    ghost use Rattle.std.specs.Prelude.{List, map};
    ghost use Rattle.syntax_tree.specs.Trees.{Event};
    ghost use Rattle.syntax_tree.specs.Walks.{InTree, in_tree, events_left, visiting, IsVisiting};

    ghost Value = { List (InTree Event) };

    ghost view = { λ p. map (in_tree p.tree.now) (events_left p.tree.now p.root (visiting p.at p.entered)) };

    ghost invariant = { λ p. IsVisiting p.tree.now p.root (visiting p.at p.entered) };
}

/// The events that are left of a walk over the nodes of an element.
#[derive(Drop)]
pub struct Preorder<'t> {
    all: PreorderWithTokens<'t>,
}

impl<'t> Model for Preorder<'t> {
    ghost use Rattle.std.specs.Prelude.{List};
    ghost use Rattle.std.specs.List.{filter};
    ghost use Rattle.syntax_tree.specs.Trees.{Event};
    ghost use Rattle.syntax_tree.specs.Walks.{InTree, is_of_node};

    ghost Value = { List (InTree Event) };

    ghost view = { λ p. filter is_of_node p.all };
}

impl<'t> SyntaxElement<'t> {
    /// A walk over it and all that is in it: each node and each token is entered and left.
    pub fn preorder_with_tokens(self) -> PreorderWithTokens<'t>
        ensures { (tree : Forest) → IsTreeOf self.entry tree
            → result ≡ map (in_tree self.entry.tree.now) (events_of tree self.entry.at) }
    {
        let tree = self.tree;
        let _ = &tree.elements;
        PreorderWithTokens {
            tree,
            root: self.at,
            at: self.at,
            entered: NONE,
        }
    }

    /// A walk over it, if it is a node, and the nodes in it: each is entered and left.
    pub fn preorder(self) -> Preorder<'t>
        ensures { (tree : Forest) → IsTreeOf self.entry tree
            → result ≡ map (in_tree self.entry.tree.now) (node_events tree (events_of tree self.entry.at)) }
    {
        Preorder {
            all: self.preorder_with_tokens(),
        }
    }
}

impl<'t> Iterator for PreorderWithTokens<'t> {
    ghost use Rattle.std.specs.Iterator.{YieldsFirstBy, item_count};
    ghost use Rattle.syntax_tree.specs.Walks.{event_of};

    type Item = WalkEvent<'t>;

    ghost next_gives = { YieldsFirstBy event_of (λ p. p) };

    ghost remaining = { item_count (λ p. p) };

    fn next(&mut self) -> Option<WalkEvent<'t>> {
        let tree = self.tree;
        let entered = self.entered;
        if tree.ends_before(entered, self.at) {
            let element = SyntaxElement { tree, at: entered };
            if entered == self.root {
                self.at = NONE;
                self.entered = NONE;
            } else {
                self.entered = element.parent_place();
            }
            return Some(WalkEvent::Leave(element));
        }
        let at = self.at;
        if at as usize >= tree.elements.len() {
            return None;
        }
        self.at = at + 1;
        self.entered = at;
        Some(WalkEvent::Enter(SyntaxElement { tree, at }))
    }
}

impl<'t> Iterator for Preorder<'t> {
    ghost use Rattle.std.specs.Iterator.{YieldsFirstBy, item_count};
    ghost use Rattle.syntax_tree.specs.Walks.{event_of};

    type Item = WalkEvent<'t>;

    ghost next_gives = { YieldsFirstBy event_of (λ p. p) };

    ghost remaining = { item_count (λ p. p) };

    fn next(&mut self) -> Option<WalkEvent<'t>> {
        while let Some(event) = self.all.next() {
            if !event.element().element().is_token {
                return Some(event);
            }
        }
        None
    }
}

impl<'t> WalkEvent<'t> {
    /// The node or token that is entered or left.
    pub fn element(self) -> SyntaxElement<'t>
        ensures tree { result.tree.now ≡ (event_of self.entry).laid }
        ensures at { result.at ≡ event_place (event_of self.entry).it }
    {
        match self {
            WalkEvent::Enter(element) | WalkEvent::Leave(element) => element,
        }
    }
}
