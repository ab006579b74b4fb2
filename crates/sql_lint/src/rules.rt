//! The rules on statements, and those of ALTER TABLE on what changes. A new rule is a function of a node, and of the kind
//! of the statement that the node is in, and a row in one of the tables `changing_rules`, `adding_rules` and `type_rules`.
ghost use Rattle.std.specs.Prelude.{◌≡◌, map};
ghost use Rattle.squawk_tree.specs.Forest.{Forest};
ghost use Rattle.syntax_tree.specs.Views.{IsTreeOf};
ghost use Rattle.sql_lint.specs.Rules as spec;
ghost use Rattle.sql_lint.specs.Rows.{row_of};

use crate::alter_table::alters;
use crate::nodes::has_token;
use sql_words::SqlKind;
use squawk_parser::SyntaxKind;
use syntax_tree::SyntaxElement;

/// Whether a rule is broken, and what is told of that.
pub(crate) type Row = (bool, &'static str);

/// What these rules say of a node in a statement of a kind.
pub(crate) fn changing_rules(of: SyntaxKind, node: SyntaxElement<'_>) -> [Row; 7]
    ensures { (tree : Forest) → IsTreeOf node.entry tree → map row_of result ≡ spec.changing_rules of tree node.entry.at }
{
    [
        (
            lacks_word(SqlKind::IF_KW, SqlKind::DROP, of, node),
            "prefer-robust-stmts: DROP without IF EXISTS",
        ),
        (
            lacks_word(SqlKind::CONCURRENTLY_KW, SqlKind::CREATE_INDEX, of, node),
            "require-concurrent-index-creation: CREATE INDEX without CONCURRENTLY",
        ),
        (
            alters(of, node, SqlKind::SET_TYPE),
            "changing-column-type: the table may be written anew",
        ),
        (
            alters(of, node, SqlKind::DROP_COLUMN),
            "ban-drop-column: programs may use the column",
        ),
        (
            alters(of, node, SqlKind::DROP_NOT_NULL),
            "ban-drop-not-null: programs may not expect NULL",
        ),
        (
            alters(of, node, SqlKind::RENAME_COLUMN),
            "renaming-column: programs may use the old name",
        ),
        (
            alters(of, node, SqlKind::RENAME_TO),
            "renaming-table: programs may use the old name",
        ),
    ]
}

/// A statement of a kind that has no word of a kind.
fn lacks_word(word: SyntaxKind, kind: SyntaxKind, of: SyntaxKind, node: SyntaxElement<'_>) -> bool
    ensures { (tree : Forest) → IsTreeOf node.entry tree → result ≡ spec.lacks_word word kind of tree node.entry.at }
{
    of == kind && node.kind() == kind && !has_token(node, word)
}
