//! What a parse of SQL needs besides the text.
ghost use Rattle.std.specs.Prelude.{◌≡◌, IfOk};
ghost use Rattle.std.proofs.Props.{props};
ghost use Rattle.sql_words.specs.SqlVocabulary.{KnowsKeywords};

use rule_grammar::RuleGrammar;
use sql_rules::rules;
use sql_words::{names, vocabulary};
use squawk_keywords::Keywords;
use squawk_parser::SyntaxKind;
use std::alloc::{AllocError, Global};

/// PostgreSQL's keywords, the rules of its statements, and the names of all kinds.
#[derive(Drop)]
pub struct Sql {
    pub vocabulary: Keywords<'static>,
    pub rules: RuleGrammar<'static>,
    names: Vec<(SyntaxKind, &'static str)>,
    ghost keywords: { KnowsKeywords vocabulary } by { Prim.hlevel props },
}

impl Sql {
    ghost use Rattle.sql_tree.specs.Reports.{IsSql};

    pub fn new(alloc: Global) -> Result<Sql, AllocError>
        ensures { IfOk result IsSql }
    {
        Ok(Sql {
            vocabulary: vocabulary(alloc)?,
            rules: rules(),
            names: names(alloc)?,
        })
    }

    /// The names of all kinds.
    pub fn names(&self) -> &[(SyntaxKind, &'static str)]
        ensures { result.now ≡ self.now.names.items }
    {
        &self.names
    }
}
