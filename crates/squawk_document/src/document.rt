//! Documents, read whole.
ghost use Rattle.std.specs.Prelude.{◌≡◌, false, IfOk};
ghost use Rattle.serde_json.specs.View.{view};
ghost use Rattle.squawk_kinds.specs.Kinds.{EOF};
ghost use Rattle.squawk_kinds.specs.TokenSets.{has};
ghost use Rattle.squawk_keywords.specs.KeywordAnswers.{classes_of, no_classes};
ghost use Rattle.squawk_document.specs.Documents.{document_in, content_of};
ghost use Rattle.squawk_document.specs.Values.{Gives};

use crate::document_error::DocumentError;
use crate::grammar::{DocumentGrammar, grammar};
use crate::token::tokens;
use crate::vocabulary::vocabulary;
use crate::{members, words};
use serde_json::Value;
use squawk_keywords::Keywords;
use squawk_parser::{SyntaxKind, Token, TokenSet};
use std::alloc::Global;

/// A document: a text with its raw tokens, and a vocabulary, words and a grammar to parse it with.
#[derive(Drop)]
pub struct Document<'v> {
    pub text: &'v str,
    pub tokens: Vec<Token>,
    /// The kinds of tokens that operators consist of.
    pub operator_first: TokenSet,
    /// Kinds with their names.
    pub names: Vec<(SyntaxKind, &'v str)>,
    pub vocabulary: Keywords<'v>,
    pub grammar: DocumentGrammar,
}

impl<'v> Document<'v> {
    /// Reads a document from a JSON value.
    pub fn from_value(alloc: Global, value: &'v Value) -> Result<Document<'v>, DocumentError>
        ensures document { Gives content_of result (document_in (view value.now)) }
        ensures classes { IfOk result (λ d. classes_of d.vocabulary ≡ no_classes) }
        ensures no_end { IfOk result (λ d. has d.operator_first EOF ≡ false) }
    {
        let members = members::members(value)?;
        let text = members::text(members.text)?;
        let tokens = tokens(alloc, members.tokens)?;
        let words = words::members(members.words)?;
        let operator_first = words::operator_first(words.operator_first)?;
        let names = words::names(alloc, words.names)?;
        let vocabulary = vocabulary(alloc, members.vocabulary)?;
        let grammar = grammar(alloc, members.entry, members.calls)?;
        Ok(Document {
            text,
            tokens,
            operator_first,
            names,
            vocabulary,
            grammar,
        })
    }
}
