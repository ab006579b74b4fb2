//! What stands directly in a node.
ghost use Rattle.std.specs.Prelude.{◌≡◌};
ghost use Rattle.squawk_tree.specs.Forest.{Forest};
ghost use Rattle.syntax_tree.specs.Views.{IsTreeOf};
ghost use Rattle.sql_lint.specs.Nodes as spec;

use squawk_parser::SyntaxKind;
use syntax_tree::SyntaxElement;

/// Whether a node has a node of a kind.
pub(crate) fn has_node(node: SyntaxElement<'_>, kind: SyntaxKind) -> bool
    ensures { (tree : Forest) → IsTreeOf node.entry tree → result ≡ spec.has_node tree node.entry.at kind }
{
    node.first_child_by_kind(kind).is_some()
}

/// Whether it has a token of a kind.
pub(crate) fn has_token(node: SyntaxElement<'_>, kind: SyntaxKind) -> bool
    ensures { (tree : Forest) → IsTreeOf node.entry tree → result ≡ spec.has_token tree node.entry.at kind }
{
    node.first_token_by_kind(kind).is_some()
}

/// Whether the first node of a kind in it has a text, but for the case of ASCII letters.
pub(crate) fn says(node: SyntaxElement<'_>, kind: SyntaxKind, text: &[u8]) -> bool
    ensures { (tree : Forest) → IsTreeOf node.entry tree → result ≡ spec.says tree node.entry.at kind text.now }
{
    match node.first_child_by_kind(kind) {
        Some(child) => child.text().as_bytes().eq_ignore_ascii_case(text),
        None => false,
    }
}
