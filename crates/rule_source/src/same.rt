//! Whether two grammars of rules are the same.
ghost use Rattle.std.specs.Prelude.{◌≡◌, ◌↔◌, IsTrue};
ghost use Rattle.rule_source.specs.Same.{AreSameTables, HaveSameKinds, HaveSameLists, HideSame, IsSame, name_of, names_in};

use rule_grammar::{RuleGrammar, Table};
use squawk_parser::SyntaxKind;

/// Whether two grammars are the same: each row, set, look and message, each kind and each number, and what is hidden.
///
/// So all that `rule_tables` promises of a grammar that it makes holds of a constant that is the same.
pub fn is_same(one: &RuleGrammar<'_>, other: &RuleGrammar<'_>) -> bool
    ensures { IsTrue result ↔ IsSame one.now other.now }
{
    are_same_tables(&one.table, &other.table)
        && one.start == other.start
        && one.end == other.end
        && one.root == other.root
        && one.depth == other.depth
        && are_same_names(one.names, other.names)
}

fn are_same_tables(one: &Table<'_>, other: &Table<'_>) -> bool
    ensures { IsTrue result ↔ AreSameTables one.now other.now }
{
    have_same_lists(one, other) && have_same_kinds(one, other) && hide_same(one, other)
}

fn have_same_lists(one: &Table<'_>, other: &Table<'_>) -> bool
    ensures { IsTrue result ↔ HaveSameLists one.now other.now }
{
    are_same_arrays(one.rows, other.rows)
        && are_same_arrays(one.sets, other.sets)
        && are_same_arrays(one.looks, other.looks)
        && one.messages == other.messages
        && one.message_ends == other.message_ends
}

fn are_same_arrays<const N: usize>(one: &[[u16; N]], other: &[[u16; N]]) -> bool
    ensures { IsTrue result ↔ one.now ≡ other.now }
{
    one == other
}

fn have_same_kinds(one: &Table<'_>, other: &Table<'_>) -> bool
    ensures { IsTrue result ↔ HaveSameKinds one.now other.now }
{
    one.operators == other.operators
        && one.plain == other.plain
        && one.composed == other.composed
        && one.glued == other.glued
}

fn hide_same(one: &Table<'_>, other: &Table<'_>) -> bool
    ensures { IsTrue result ↔ HideSame one.now other.now }
{
    are_same_tokens(one.hidden.tokens, other.hidden.tokens)
        && one.hidden.message == other.hidden.message
}

fn are_same_tokens(one: &[bool], other: &[bool]) -> bool
    ensures { IsTrue result ↔ one.now ≡ other.now }
{
    one == other
}

fn are_same_names(one: &[(SyntaxKind, &str)], other: &[(SyntaxKind, &str)]) -> bool
    ensures { IsTrue result ↔ names_in one.now ≡ names_in other.now }
{
    if one.len() != other.len() {
        return false;
    }
    for (index, pair) in one.iter().enumerate() {
        if !is_same_name(pair, &other[index]) {
            return false;
        }
    }
    true
}

fn is_same_name(one: &(SyntaxKind, &str), other: &(SyntaxKind, &str)) -> bool
    ensures { IsTrue result ↔ name_of one.now ≡ name_of other.now }
{
    one.0 == other.0 && one.1 == other.1
}
