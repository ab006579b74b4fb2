//! The rules of ALTER TABLE on what is added.
ghost use Rattle.std.specs.Prelude.{◌≡◌, map};
ghost use Rattle.std.specs.List.{list_any};
ghost use Rattle.squawk_tree.specs.Forest.{Forest};
ghost use Rattle.syntax_tree.specs.Trees.{descendants_of, nodes_among, of_kind};
ghost use Rattle.syntax_tree.specs.Views.{IsTreeOf};
ghost use Rattle.sql_lint.specs.Kinds.{CALL_EXPR};
ghost use Rattle.sql_lint.specs.AlterTable as spec;
ghost use Rattle.sql_lint.specs.Rows.{row_of};

use crate::nodes::{has_node, has_token, says};
use crate::rules::Row;
use sql_words::SqlKind;
use squawk_parser::SyntaxKind;
use syntax_tree::SyntaxElement;

/// What these rules say of a node in a statement of a kind.
pub(crate) fn adding_rules(of: SyntaxKind, node: SyntaxElement<'_>) -> [Row; 6]
    ensures { (tree : Forest) → IsTreeOf node.entry tree → map row_of result ≡ spec.adding_rules of tree node.entry.at }
{
    [
        (
            adds_default(of, node),
            "adding-field-with-default: the table is written anew",
        ),
        (
            adds_not_null(of, node),
            "adding-not-nullable-field: rows that stand may have no value",
        ),
        (
            lacks_not_valid(of, node),
            "constraint-missing-not-valid: all rows are read under a lock",
        ),
        (
            adds_foreign_key(of, node),
            "adding-foreign-key-constraint: both tables are locked",
        ),
        (
            builds_index(SqlKind::UNIQUE_CONSTRAINT, of, node),
            "disallowed-unique-constraint: an index is built under a lock",
        ),
        (
            builds_index(SqlKind::PRIMARY_KEY_CONSTRAINT, of, node),
            "adding-serial-primary-key-field: an index is built under a lock",
        ),
    ]
}

/// A node of a kind in an ALTER TABLE.
pub(crate) fn alters(of: SyntaxKind, node: SyntaxElement<'_>, kind: SyntaxKind) -> bool
    ensures { (tree : Forest) → IsTreeOf node.entry tree → result ≡ spec.alters of tree node.entry.at kind }
{
    of == SqlKind::ALTER_TABLE && node.kind() == kind
}

/// A default in which a function is called, or a generated column: they may differ from row to row.
fn adds_default(of: SyntaxKind, node: SyntaxElement<'_>) -> bool
    ensures { (tree : Forest) → IsTreeOf node.entry tree → result ≡ spec.adds_default of tree node.entry.at }
{
    alters(of, node, SqlKind::DEFAULT_CONSTRAINT) && has_call(node)
        || alters(of, node, SqlKind::GENERATED_CONSTRAINT)
}

/// Whether a function is called in a node, but for `now`.
fn has_call(node: SyntaxElement<'_>) -> bool
    ensures { (tree : Forest) → IsTreeOf node.entry tree
        → result ≡ list_any (spec.calls_anew tree) (of_kind tree CALL_EXPR (nodes_among tree (descendants_of tree node.entry.at))) }
{
    for call in node.descendants_by_kind(SqlKind::CALL_EXPR) {
        if calls_anew(call) {
            return true;
        }
    }
    false
}

/// Whether a call is that of a function by its name, but for `now`, whose value is the same in all rows.
fn calls_anew(call: SyntaxElement<'_>) -> bool
    ensures { (tree : Forest) → IsTreeOf call.entry tree → result ≡ spec.calls_anew tree call.entry.at }
{
    has_node(call, SqlKind::ARG_LIST) && !says(call, SqlKind::NAME_REF, b"now")
}

/// SET NOT NULL, or a column that is NOT NULL and has no value in rows that stand.
fn adds_not_null(of: SyntaxKind, node: SyntaxElement<'_>) -> bool
    ensures { (tree : Forest) → IsTreeOf node.entry tree → result ≡ spec.adds_not_null of tree node.entry.at }
{
    alters(of, node, SqlKind::SET_NOT_NULL)
        || alters(of, node, SqlKind::COLUMN_DEF)
            && has_node(node, SqlKind::NOT_NULL_CONSTRAINT)
            && !has_value(node)
}

/// Whether a column has a value in rows that stand.
fn has_value(column: SyntaxElement<'_>) -> bool
    ensures { (tree : Forest) → IsTreeOf column.entry tree → result ≡ spec.has_value tree column.entry.at }
{
    has_node(column, SqlKind::DEFAULT_CONSTRAINT)
        || has_node(column, SqlKind::GENERATED_CONSTRAINT)
        || has_node(column, SqlKind::IDENTITY_CONSTRAINT)
}

/// ADD and a CHECK or FOREIGN KEY without NOT VALID.
fn lacks_not_valid(of: SyntaxKind, node: SyntaxElement<'_>) -> bool
    ensures { (tree : Forest) → IsTreeOf node.entry tree → result ≡ spec.lacks_not_valid of tree node.entry.at }
{
    alters(of, node, SqlKind::ADD_CONSTRAINT)
        && (has_valid(node, SqlKind::CHECK_CONSTRAINT)
            || has_valid(node, SqlKind::FOREIGN_KEY_CONSTRAINT))
}

/// Whether the first node of a kind in a node is there, without NOT VALID.
fn has_valid(node: SyntaxElement<'_>, kind: SyntaxKind) -> bool
    ensures { (tree : Forest) → IsTreeOf node.entry tree → result ≡ spec.has_valid tree node.entry.at kind }
{
    match node.first_child_by_kind(kind) {
        Some(constraint) => !has_node(constraint, SqlKind::NOT_VALID),
        None => false,
    }
}

/// REFERENCES of a column, or a FOREIGN KEY without NOT VALID.
fn adds_foreign_key(of: SyntaxKind, node: SyntaxElement<'_>) -> bool
    ensures { (tree : Forest) → IsTreeOf node.entry tree → result ≡ spec.adds_foreign_key of tree node.entry.at }
{
    alters(of, node, SqlKind::REFERENCES_CONSTRAINT)
        || alters(of, node, SqlKind::FOREIGN_KEY_CONSTRAINT) && !has_node(node, SqlKind::NOT_VALID)
}

/// A constraint of a kind without USING INDEX; USING INDEX TABLESPACE is none.
fn builds_index(kind: SyntaxKind, of: SyntaxKind, node: SyntaxElement<'_>) -> bool
    ensures { (tree : Forest) → IsTreeOf node.entry tree → result ≡ spec.builds_index kind of tree node.entry.at }
{
    alters(of, node, kind) && !uses_index(node)
}

fn uses_index(constraint: SyntaxElement<'_>) -> bool
    ensures { (tree : Forest) → IsTreeOf constraint.entry tree → result ≡ spec.uses_index tree constraint.entry.at }
{
    has_token(constraint, SqlKind::INDEX_KW) && !has_token(constraint, SqlKind::TABLESPACE_KW)
}
