//! The rules on the types of columns.
ghost use Rattle.std.specs.Prelude.{◌≡◌, map};
ghost use Rattle.squawk_tree.specs.Forest.{Forest};
ghost use Rattle.syntax_tree.specs.Views.{IsFirstIn, IsTreeOf};
ghost use Rattle.sql_lint.specs.ColumnTypes as spec;
ghost use Rattle.sql_lint.specs.Rows.{row_of};
ghost use Rattle.sql_lint.specs.Nodes.{first_meets};

use crate::nodes::{has_node, has_token, says};
use crate::rules::Row;
use sql_words::SqlKind;
use squawk_parser::SyntaxKind;
use syntax_tree::SyntaxElement;

/// What these rules say of a node in a statement of a kind.
pub(crate) fn type_rules(of: SyntaxKind, node: SyntaxElement<'_>) -> [Row; 3]
    ensures { (tree : Forest) → IsTreeOf node.entry tree → map row_of result ≡ spec.type_rules of tree node.entry.at }
{
    [
        (
            has_length(of, node),
            "prefer-text-field: another length wants a lock",
        ),
        (
            has_32_bits(of, node),
            "prefer-bigint-over-int: 32 bits may run out",
        ),
        (
            lacks_zone(of, node),
            "prefer-timestamptz: the time zone is lost",
        ),
    ]
}

/// A type with a length, as varchar(3).
fn has_length(of: SyntaxKind, node: SyntaxElement<'_>) -> bool
    ensures { (tree : Forest) → IsTreeOf node.entry tree
        → result ≡ first_meets (spec.has_length tree) (spec.column_types of tree node.entry.at) }
{
    match column_type(of, node) {
        Some(column) => has_node(column, SqlKind::TYPE_ARGS) && is_of_characters(column),
        None => false,
    }
}

fn is_of_characters(column: SyntaxElement<'_>) -> bool
    ensures { (tree : Forest) → IsTreeOf column.entry tree → result ≡ spec.is_of_characters tree column.entry.at }
{
    has_token(column, SqlKind::VARCHAR_KW)
        || has_token(column, SqlKind::CHARACTER_KW)
        || has_token(column, SqlKind::CHAR_KW)
        || has_token(column, SqlKind::NCHAR_KW)
}

/// The type int, by any of its names, or serial.
fn has_32_bits(of: SyntaxKind, node: SyntaxElement<'_>) -> bool
    ensures { (tree : Forest) → IsTreeOf node.entry tree
        → result ≡ first_meets (spec.has_32_bits tree) (spec.column_types of tree node.entry.at) }
{
    match column_type(of, node) {
        Some(column) => is_int(column) || is_named_int(column),
        None => false,
    }
}

fn is_int(column: SyntaxElement<'_>) -> bool
    ensures { (tree : Forest) → IsTreeOf column.entry tree → result ≡ spec.is_int tree column.entry.at }
{
    has_token(column, SqlKind::INT_KW) || has_token(column, SqlKind::INTEGER_KW)
}

fn is_named_int(column: SyntaxElement<'_>) -> bool
    ensures { (tree : Forest) → IsTreeOf column.entry tree → result ≡ spec.is_named_int tree column.entry.at }
{
    says(column, SqlKind::NAME_REF, b"int4")
        || says(column, SqlKind::NAME_REF, b"serial")
        || says(column, SqlKind::NAME_REF, b"serial4")
}

/// The type timestamp, but for timestamp with time zone.
fn lacks_zone(of: SyntaxKind, node: SyntaxElement<'_>) -> bool
    ensures { (tree : Forest) → IsTreeOf node.entry tree
        → result ≡ first_meets (spec.lacks_zone tree) (spec.column_types of tree node.entry.at) }
{
    match column_type(of, node) {
        Some(column) => {
            has_token(column, SqlKind::TIMESTAMP_KW) && !has_token(column, SqlKind::WITH_KW)
        }
        None => false,
    }
}

/// The type, if the node defines a column of a table or gives one another type.
fn column_type<'t>(of: SyntaxKind, node: SyntaxElement<'t>) -> Option<SyntaxElement<'t>>
    ensures { (tree : Forest) → IsTreeOf node.entry tree → IsFirstIn node.entry.tree.now (spec.column_types of tree node.entry.at) result }
{
    if types_column(of, node.kind()) {
        node.first_child_by_kind(SqlKind::TYPE)
    } else {
        None
    }
}

fn types_column(of: SyntaxKind, kind: SyntaxKind) -> bool
    ensures { result ≡ spec.types_column of kind }
{
    matches!(of, SqlKind::CREATE_TABLE | SqlKind::ALTER_TABLE)
        && matches!(kind, SqlKind::COLUMN_DEF | SqlKind::SET_TYPE)
}
