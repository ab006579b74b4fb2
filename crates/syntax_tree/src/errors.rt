//! The errors of a tree.
ghost use Rattle.std.specs.Prelude.{◌≡◌, ◌+◌, ◌<◌, length, map, MatchOption};
ghost use Rattle.std.specs.Str.{chars};
ghost use Rattle.squawk_tree.specs.Forest.{Forest};
ghost use Rattle.syntax_tree.specs.Layout.{HoldsTree, IsTree, errors_of};
ghost use Rattle.syntax_tree.specs.Trees.{size_at};

use crate::element::NONE;
use crate::handle::SyntaxElement;
use crate::tree::SyntaxTree;
use std::marker::Model;

/// An error of a tree.
#[derive(Clone, Copy)]
pub struct SyntaxError<'t> {
    pub(crate) tree: &'t SyntaxTree<'t>,
    pub(crate) at: usize,
    ghost within: { at < length tree.now.errors },
}

/// The errors that are left of those of a tree, in the order of the walk.
#[derive(Drop)]
pub struct Errors<'t> {
    tree: &'t SyntaxTree<'t>,
    /// The index of the next one.
    at: usize,
    /// The index behind the last one.
    stop: usize,
}

impl<'t> Model for Errors<'t> {
    ghost use Rattle.std.specs.Prelude.{List, length, ◌≤◌};
    ghost use Rattle.syntax_tree.specs.Errors.{errors_left};
    ghost use Rattle.syntax_tree.specs.Walks.{InTree};
    ghost use Rattle.syntax_tree.specs.declared.tree.TreeError.{TreeError};

    ghost Value = { List (InTree TreeError) };

    ghost view = { λ e. errors_left e.tree.now e.at e.stop };

    ghost invariant = { λ e. e.stop ≤ length e.tree.now.errors };
}

/// The errors that are left of those in an element, in the order of the walk.
#[derive(Drop)]
pub struct ErrorsIn<'t> {
    /// Those in the element, and others that come directly behind it.
    all: Errors<'t>,
    /// The place of the element.
    at: u32,
    /// The place behind all that is in it.
    behind: u32,
}

impl<'t> Model for ErrorsIn<'t> {
    ghost use Rattle.std.specs.Prelude.{List};
    ghost use Rattle.syntax_tree.specs.Errors.{errors_between};
    ghost use Rattle.syntax_tree.specs.Walks.{InTree};
    ghost use Rattle.syntax_tree.specs.declared.tree.TreeError.{TreeError};

    ghost Value = { List (InTree TreeError) };

    ghost view = { λ e. errors_between e.at e.behind e.all };
}

impl<'s> SyntaxTree<'s> {
    ghost use Rattle.syntax_tree.specs.Errors.{ComeBefore};
    ghost use Rattle.syntax_tree.specs.Walks.{in_tree};

    /// The errors, in the order of the walk.
    pub fn errors<'t>(&'t self) -> Errors<'t>
        ensures { (tree : Forest) → IsTree self.now tree → result ≡ map (in_tree self.now) (errors_of tree 4294967295 0 0) }
    {
        Errors {
            tree: self,
            at: 0,
            stop: self.errors.len(),
        }
    }

    /// How many errors come before an element that begins behind a place.
    pub(crate) fn errors_before(&self, place: u32) -> usize
        ensures { ComeBefore self.now place result }
    {
        self.errors.partition_point(|error| error.next <= place)
    }
}

impl<'t> SyntaxElement<'t> {
    ghost use Rattle.syntax_tree.specs.Errors.{errors_between};
    ghost use Rattle.syntax_tree.specs.Walks.{in_tree};
    ghost use Rattle.syntax_tree.specs.Views.{IsTreeOf};

    /// The errors in it, in the order of the walk. It takes logarithmic time in the number of errors of the tree to
    /// find them. Those that stand directly behind it, up to where the next element begins, are passed over.
    pub fn errors_in(self) -> ErrorsIn<'t>
        ensures { (tree : Forest) → IsTreeOf self.entry tree → let errors = map (in_tree self.entry.tree.now) (errors_of tree 4294967295 0 0) in
            result ≡ errors_between self.entry.at (self.entry.at + size_at tree self.entry.at) errors }
    {
        let tree = self.tree;
        let behind = self.behind();
        let first = tree.errors_before(self.at);
        let stop = tree.errors_before(behind);
        ErrorsIn {
            all: Errors {
                tree,
                at: first,
                stop,
            },
            at: self.at,
            behind,
        }
    }
}

impl<'t> SyntaxError<'t> {
    ghost use Rattle.syntax_tree.specs.Errors.{error_of};

    /// What it says.
    pub fn message(self) -> &'t str
        ensures { chars result.now ≡ (error_of self.entry).it.msg }
    {
        let tree = self.tree;
        tree.errors[self.at].msg.as_str()
    }

    /// How many bytes of the tree's text stand before it.
    pub fn pos(self) -> usize
        ensures { result ≡ (error_of self.entry).it.pos }
    {
        let tree = self.tree;
        tree.errors[self.at].pos
    }

    fn node_place(self) -> u32
        ensures node { result ≡ (error_of self.entry).it.node }
        ensures tree { HoldsTree self.entry.tree.now }
    {
        let tree = self.tree;
        tree.errors[self.at].node
    }

    /// The innermost node that it is in. Before and behind the root there is none.
    pub fn node(self) -> Option<SyntaxElement<'t>>
        ensures { MatchOption result ((error_of self.entry).it.node ≡ 4294967295)
            (λ node. (node.tree.now ≡ self.entry.tree.now) × (node.at ≡ (error_of self.entry).it.node)) }
    {
        let tree = self.tree;
        let at = self.node_place();
        if at == NONE {
            return None;
        }
        Some(SyntaxElement { tree, at })
    }
}

impl<'t> Iterator for Errors<'t> {
    ghost use Rattle.std.specs.Iterator.{YieldsFirstBy, item_count};
    ghost use Rattle.syntax_tree.specs.Errors.{error_of};

    type Item = SyntaxError<'t>;

    ghost next_gives = { YieldsFirstBy error_of (λ e. e) };

    ghost remaining = { item_count (λ e. e) };

    fn next(&mut self) -> Option<SyntaxError<'t>> {
        let tree = self.tree;
        let at = self.at;
        if at >= self.stop {
            return None;
        }
        self.at = at + 1;
        Some(SyntaxError { tree, at })
    }
}

impl<'t> Iterator for ErrorsIn<'t> {
    ghost use Rattle.std.specs.Iterator.{YieldsFirstBy, item_count};
    ghost use Rattle.syntax_tree.specs.Errors.{error_of};

    type Item = SyntaxError<'t>;

    ghost next_gives = { YieldsFirstBy error_of (λ e. e) };

    ghost remaining = { item_count (λ e. e) };

    fn next(&mut self) -> Option<SyntaxError<'t>> {
        while let Some(error) = self.all.next() {
            let node = error.node_place();
            if self.at <= node && node < self.behind {
                return Some(error);
            }
        }
        None
    }
}
