//! PostgreSQL's SQL as rules that stand ready: the nodes of one statement, without the sign that ends it.
//!
//! `ready.rt` is what `rule_prepare sql` prints of the texts in `sql_rule_texts`, whose test says that it is the same.
#![tactic(auto)]

ghost use Rattle.std.specs.Prelude.{◌≡◌};

pub mod ready;

use rule_grammar::{Hidden, RuleGrammar, Table};
use sql_words::SqlKind;

/// What is told of a string that can't go on with the one before it.
const STRAY: &str = "expected a line break between two strings";

/// The rules of a statement, from which nothing is hidden. One that no rule begins is a STATEMENT.
pub fn rules<'r>() -> RuleGrammar<'r> {
    RuleGrammar {
        root: SqlKind::STATEMENT,
        ..ready::grammar()
    }
}

/// Rules that take no token of the input whose item in `hidden` is true: strings that can't go on with the one before, as
/// `sql_grammar` tells them.
pub fn hiding<'r: 'h, 'h>(rules: &RuleGrammar<'r>, hidden: &'h [bool]) -> RuleGrammar<'h>
    ensures tokens { result.table.hidden.tokens.now ≡ hidden.now }
    ensures same { result ≡ record rules.now { table = record rules.now.table { hidden = result.table.hidden } } }
{
    RuleGrammar {
        table: Table {
            hidden: Hidden {
                tokens: hidden,
                message: STRAY,
            },
            ..rules.table
        },
        ..*rules
    }
}
