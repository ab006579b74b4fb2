//! The steps of a walk over a tree.

use crate::element::NONE;
use crate::errors::SyntaxError;
use crate::handle::SyntaxElement;
use crate::tree::SyntaxTree;
use squawk_table::StrStep;
use std::marker::Model;

/// The steps that are left of a walk over a tree.
#[derive(Drop)]
pub struct Steps<'t> {
    tree: &'t SyntaxTree<'t>,
    /// The place of the next element.
    at: u32,
    /// The place of the innermost node that was entered and not left, if there is one.
    node: u32,
    /// The index of the next error.
    error: usize,
    /// How many steps were given.
    given: usize,
}

impl<'t> Model for Steps<'t> {
    ghost use Rattle.std.specs.Prelude.{List};
    ghost use Rattle.squawk_table.specs.declared.shortcuts.str_step.OwnedStep.{OwnedStep};
    ghost use Rattle.syntax_tree.specs.Walks.{steps_left, walking, IsOnWalk};

    ghost Value = { List OwnedStep };

    ghost view = { λ s. steps_left s.tree.now (walking s.at s.node s.error s.given) };

    ghost invariant = { λ s. IsOnWalk s.tree.now (walking s.at s.node s.error s.given) };
}

impl<'s> SyntaxTree<'s> {
    ghost use Rattle.std.specs.Prelude.{◌≡◌};
    ghost use Rattle.squawk_tree.specs.Forest.{Forest, forest_steps};
    ghost use Rattle.syntax_tree.specs.Layout.{IsTree, HoldsTree};
    ghost use Rattle.syntax_tree.specs.Walks.{has_error, ends_before};

    /// The steps of a walk over the tree: those that its builder took.
    pub fn steps<'t>(&'t self) -> Steps<'t>
        ensures { (tree : Forest) → IsTree self.now tree → result ≡ forest_steps tree }
    {
        let _ = &self.elements;
        Steps {
            tree: self,
            at: 0,
            node: NONE,
            error: 0,
            given: 0,
        }
    }

    /// Whether the error at an index comes as the step of a number.
    fn has_error(&self, error: usize, given: usize) -> bool
        ensures error { result ≡ has_error self.now error given }
        ensures tree { HoldsTree self.now }
    {
        match self.errors.get(error) {
            Some(error) => error.step == given,
            None => false,
        }
    }

    /// Whether a place is that of an element which ends before another one.
    pub(crate) fn ends_before(&self, node: u32, at: u32) -> bool
        ensures { result ≡ ends_before self.now node at }
    {
        match self.elements.get(node as usize) {
            Some(node) => node.behind == at,
            None => false,
        }
    }
}

impl<'t> Iterator for Steps<'t> {
    ghost use Rattle.std.specs.Iterator.{YieldsFirstBy, item_count};
    ghost use Rattle.squawk_table.specs.SinkViews.{owned_step_of};

    type Item = StrStep<'t>;

    ghost next_gives = { YieldsFirstBy owned_step_of (λ s. s) };

    ghost remaining = { item_count (λ s. s) };

    fn next(&mut self) -> Option<StrStep<'t>> {
        let tree = self.tree;
        if tree.has_error(self.error, self.given) {
            let at = self.error;
            let error = SyntaxError { tree, at };
            self.error = at + 1;
            self.given += 1;
            let (msg, pos) = (error.message(), error.pos());
            return Some(StrStep::Error { msg, pos });
        }
        if tree.ends_before(self.node, self.at) {
            let at = self.node;
            self.node = SyntaxElement { tree, at }.parent_place();
            self.given += 1;
            return Some(StrStep::Exit);
        }
        let at = self.at;
        if at as usize >= tree.elements.len() {
            return None;
        }
        let here = SyntaxElement { tree, at };
        let element = here.element();
        self.at = at + 1;
        self.given += 1;
        if element.is_token {
            let (kind, text) = (element.kind, here.text());
            return Some(StrStep::Token { kind, text });
        }
        self.node = at;
        Some(StrStep::Enter { kind: element.kind })
    }
}
