//! What a parse needs besides the text.
ghost use Rattle.std.proofs.Props.{props};
ghost use Rattle.sql_words.specs.SqlVocabulary.{KnowsKeywords};

use rule_grammar::RuleGrammar;
use sql_rules::rules;
use sql_words::vocabulary;
use squawk_keywords::Keywords;
use std::alloc::{AllocError, Global};

/// PostgreSQL's keywords, and the rules of its statements.
#[derive(Drop)]
pub(crate) struct Sql {
    pub vocabulary: Keywords<'static>,
    pub rules: RuleGrammar<'static>,
    ghost keywords: { KnowsKeywords vocabulary } by { Prim.hlevel props },
}

impl Sql {
    pub fn new(alloc: Global) -> Result<Sql, AllocError> {
        Ok(Sql {
            vocabulary: vocabulary(alloc)?,
            rules: rules(),
        })
    }
}
