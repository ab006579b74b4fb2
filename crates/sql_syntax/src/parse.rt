//! From a text of SQL to its tree.
ghost use Rattle.std.specs.Prelude.{IfOk, IfErr};
ghost use Rattle.sql_syntax.specs.SqlErrors.{RefusesSql};
ghost use Rattle.sql_syntax.specs.SqlTrees.{IsSqlTree, sql_given};

use crate::error::SqlError;
use sql_grammar::{Detail, SqlGrammar, stray_strings};
use sql_lexer::{TokenizeError, tokenize_script};
use squawk_parser::{EntryPoint, Vocabulary};
use std::alloc::Global;
use syntax_tree::{SyntaxTree, parse_accepted_tree};

/// The tree of a text of SQL, with statements and what is in them. It has all of the text.
pub fn parse_sql<'s, V: Vocabulary>(
    alloc: Global,
    text: &'s str,
    words: &V,
) -> Result<SyntaxTree<'s>, SqlError>
    ensures tree { IfOk result (IsSqlTree (sql_given (V.keyword words.now) (V.contextual_keyword words.now) text.now)) }
    ensures refused { IfErr result (RefusesSql (sql_given (V.keyword words.now) (V.contextual_keyword words.now) text.now)) }
{
    let tokens = tokenize_script(alloc, text)?;
    let Ok(strays) = stray_strings(alloc, text, &tokens) else {
        return Err(SqlError::Tokens(TokenizeError::OutOfMemory));
    };
    let ready = sql_rules::rules();
    let rules = sql_rules::hiding(&ready, &strays);
    let grammar = SqlGrammar {
        detail: Detail::Nodes(&rules),
    };
    let entry = EntryPoint::SourceFile;
    let tree = parse_accepted_tree(alloc, text, &tokens, words, &grammar, entry)?;
    Ok(tree)
}
