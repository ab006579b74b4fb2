//! The tokens in an element, before it and behind it.
ghost use Rattle.std.specs.Prelude.{◌+◌, ◌≤◌, length};
ghost use Rattle.squawk_tree.specs.Forest.{Forest};
ghost use Rattle.syntax_tree.specs.Layout.{IsTree};
ghost use Rattle.syntax_tree.specs.Trees.{size, descendants_of, places_between, tokens_among, size_at};
ghost use Rattle.syntax_tree.specs.Views.{IsTreeOf, IsFirstIn, IsLastIn};

use crate::handle::SyntaxElement;
use crate::tree::SyntaxTree;

impl<'t> SyntaxElement<'t> {
    /// The first token in it, or it itself. It takes time in the number of elements before that.
    pub fn first_token(self) -> Option<SyntaxElement<'t>>
        ensures { (tree : Forest) → IsTreeOf self.entry tree → IsFirstIn self.entry.tree.now (tokens_among tree (descendants_of tree self.entry.at)) result }
    {
        first_token_between(self.tree, self.at, self.behind())
    }

    /// The last token in it, or it itself. It takes time in the number of elements behind that.
    pub fn last_token(self) -> Option<SyntaxElement<'t>>
        ensures { (tree : Forest) → IsTreeOf self.entry tree → IsLastIn self.entry.tree.now (tokens_among tree (descendants_of tree self.entry.at)) result }
    {
        last_token_between(self.tree, self.at, self.behind())
    }

    /// The first token behind it. It takes time in the number of nodes between them.
    pub fn next_token(self) -> Option<SyntaxElement<'t>>
        ensures { (tree : Forest) → IsTreeOf self.entry tree →
            IsFirstIn self.entry.tree.now (tokens_among tree (places_between (self.entry.at + size_at tree self.entry.at) (size tree))) result }
    {
        let tree = self.tree;
        first_token_between(tree, self.behind(), tree.elements.len() as u32)
    }

    /// The last token before it. It takes time in the number of nodes between them.
    pub fn prev_token(self) -> Option<SyntaxElement<'t>>
        ensures { (tree : Forest) → IsTreeOf self.entry tree → IsLastIn self.entry.tree.now (tokens_among tree (places_between 0 self.entry.at)) result }
    {
        last_token_between(self.tree, 0, self.at)
    }
}

/// The first token at the places between two.
fn first_token_between<'t>(
    tree: &'t SyntaxTree<'t>,
    from: u32,
    stop: u32,
) -> Option<SyntaxElement<'t>>
    requires { stop ≤ length tree.now.elements }
    ensures { (forest : Forest) → IsTree tree.now forest → IsFirstIn tree.now (tokens_among forest (places_between from stop)) result }
{
    for at in from..stop {
        let element = SyntaxElement { tree, at };
        if element.is_token() {
            return Some(element);
        }
    }
    None
}

/// The last token at the places between two.
fn last_token_between<'t>(
    tree: &'t SyntaxTree<'t>,
    from: u32,
    stop: u32,
) -> Option<SyntaxElement<'t>>
    requires { stop ≤ length tree.now.elements }
    ensures { (forest : Forest) → IsTree tree.now forest → IsLastIn tree.now (tokens_among forest (places_between from stop)) result }
{
    let mut behind = stop;
    while behind > from {
        let element = SyntaxElement {
            tree,
            at: behind - 1,
        };
        if element.is_token() {
            return Some(element);
        }
        behind -= 1;
    }
    None
}
