//! A grammar of SQL: statements, in PostgreSQL's text and psql's, and in them what rules say.
//!
//! ```text
//! SOURCE_FILE
//!   QUERY
//!     SELECT
//!       TARGET_LIST  `select f(a)`
//!       FROM_CLAUSE  `from t`
//!     `;`
//! ```
//!
//! Where a statement ends is told by its words alone. The rules of one, as [`sql_rules`] has them, see its tokens
//! without the sign that ends it.
#![tactic(auto)]

mod cut;
mod lines;
mod parse;
mod script_parts;
mod statement_kinds;
mod statements;
mod strings;

pub use crate::lines::whole_lines;
pub use crate::parse::parse_table;
pub use crate::script_parts::{ScriptPart, ScriptParts};
use crate::statements::statement;
pub use crate::strings::stray_strings;
use rule_grammar::RuleGrammar;
use sql_words::SqlKind;
use squawk_parser::{
    EntryPoint, Grammar, Parser, SyntaxKind, TokenSet, WholeGrammar, Words, token_set,
};
use std::alloc::AllocError;

/// The kinds that operators are made of, by PostgreSQL's documentation, section 4.1.3 "Operators".
const OPERATORS: TokenSet = token_set![
    SyntaxKind::PLUS,
    SyntaxKind::MINUS,
    SyntaxKind::STAR,
    SyntaxKind::SLASH,
    SyntaxKind::L_ANGLE,
    SyntaxKind::R_ANGLE,
    SyntaxKind::EQ,
    SyntaxKind::TILDE,
    SyntaxKind::BANG,
    SyntaxKind::AT,
    SyntaxKind::POUND,
    SyntaxKind::PERCENT,
    SyntaxKind::CARET,
    SyntaxKind::AMP,
    SyntaxKind::PIPE,
    SyntaxKind::BACKTICK,
    SyntaxKind::QUESTION,
];

/// What the node of a statement has.
#[derive(Clone, Copy)]
pub enum Detail<'r> {
    /// Its tokens alone, and no errors.
    Tokens,
    /// What rules say. One that no rule begins has the kind of their root.
    Nodes(&'r RuleGrammar<'r>),
}

/// A source file of SQL statements and commands of psql. The detail changes no end of a statement.
#[derive(Clone, Copy)]
pub struct SqlGrammar<'r> {
    pub detail: Detail<'r>,
}

impl<'r> Grammar for SqlGrammar<'r> {
    ghost use Rattle.sql_grammar.specs.Files.{IsFile, Runs};
    ghost use Rattle.sql_grammar.specs.Kinds.{sql_words};

    // One node over all tokens, and in it a node for each statement, by rules where they are asked.
    ghost leaves = { λ grammar _ input draft. IsFile grammar.detail input draft };

    // Without rules at most three events a token, and two for that node.
    ghost runs = { λ grammar _ begun left. Runs grammar.detail 3 2 begun left };

    ghost meaning = { λ grammar. sql_words };

    fn words(&self) -> Words<'_> {
        Words {
            operator_first: OPERATORS,
            names: &[],
        }
    }

    fn entry_point(&self, p: &mut Parser<'_>) -> Result<(), AllocError> {
        let file = p.start();
        while p.current() != SyntaxKind::EOF {
            statement(p, self.detail);
        }
        file.complete(p, SqlKind::SOURCE_FILE);
        Ok(())
    }

    fn plpgsql_entry_point(&self, p: &mut Parser<'_>) -> Result<(), AllocError> {
        self.entry_point(p)
    }
}

impl<'r> WholeGrammar for SqlGrammar<'r> {
    ghost leaves_whole = { λ _ _ _ _ _ left. left.whole };
}
