//! A grammar of SELECT statements, and a text parsed by it: the code of the guide's chapter on expressions.
#![tactic(auto)]

mod expressions;
pub mod kinds;
mod statements;
#[cfg(test)]
mod tests;

ghost use Rattle.std.specs.Prelude.{◌≡◌, IfErr, IfOk, [], map, true};
ghost use Rattle.squawk_keywords.specs.KeywordAnswers.{IsMadeOf, contextual_keyword_of, keyword_of};
ghost use Rattle.squawk_keywords.specs.KeywordPairs.{kind_of_word_ignoring_case};
ghost use Rattle.squawk_parser.specs.Pipeline.{IsParsedInto, IsRefusal, as_into_error, given};
ghost use Rattle.squawk_parser.specs.SomeSteps.{Spends};
ghost use Rattle.squawk_parser.specs.Whole.{IsWholeFile};
ghost use Rattle.select_grammar.specs.Keywords.{keyword_kinds};
ghost use Rattle.select_grammar.specs.Operators.{operator_set};

use crate::kinds::{KEYWORDS, SOURCE_FILE};
use crate::statements::statement;
use squawk_keywords::{Keywords, KeywordsError};
use squawk_parser::{
    EntryPoint, Grammar, ParseWholeError, Parser, Sent, StepSink, SyntaxKind, Token, TokenSet,
    WholeGrammar, Words, parse_whole_into, token_set,
};
use std::alloc::{AllocError, Global};

/// The kinds that operators are made of.
const OPERATORS: TokenSet = token_set![
    SyntaxKind::PLUS,
    SyntaxKind::MINUS,
    SyntaxKind::STAR,
    SyntaxKind::SLASH,
    SyntaxKind::L_ANGLE,
    SyntaxKind::R_ANGLE,
    SyntaxKind::EQ,
];

/// A source file of SELECT statements. Errors name kinds by these names.
#[derive(Clone, Copy)]
pub struct Selects<'n> {
    pub names: &'n [(SyntaxKind, &'n str)],
}

impl<'n> Grammar for Selects<'n> {
    // One node over all tokens.
    ghost leaves = { λ _ _ input draft. IsWholeFile input draft };

    // At most twelve events a token, and two for that node.
    ghost runs = { λ _ _ begun left. Spends 12 2 begun left };

    ghost meaning = { λ selects. record {
      operator_first = operator_set;
      names = map (λ pair. (pair.0, pair.1.now)) selects.names.now;
    } };

    fn words(&self) -> Words<'_> {
        Words {
            operator_first: OPERATORS,
            names: self.names,
        }
    }

    fn entry_point(&self, p: &mut Parser<'_>) -> Result<(), AllocError> {
        let file = p.start();
        while p.current() != SyntaxKind::EOF {
            statement(p);
        }
        file.complete(p, SOURCE_FILE);
        Ok(())
    }

    fn plpgsql_entry_point(&self, p: &mut Parser<'_>) -> Result<(), AllocError> {
        self.entry_point(p)
    }
}

impl<'n> WholeGrammar for Selects<'n> {
    ghost leaves_whole = { λ _ _ _ _ _ left. left };
}

/// The keywords as a vocabulary. A text is one of them in whatever case its letters are.
pub fn vocabulary(alloc: Global) -> Result<Keywords<'static>, KeywordsError>
    ensures { IsMadeOf kind_of_word_ignoring_case keyword_kinds [] result }
{
    Keywords::ignoring_case(alloc, &KEYWORDS, &[])
}

/// Sends the tree of a text with these raw tokens to a sink: all of the text.
pub fn send<S: StepSink>(
    alloc: Global,
    text: &str,
    tokens: &[Token],
    keywords: &Keywords<'_>,
    names: &[(SyntaxKind, &str)],
    sink: &mut S,
) -> Result<Sent, ParseWholeError<S::Refusal>>
    ensures sent { let g = given (keyword_of keywords.now) (contextual_keyword_of keywords.now) text.now tokens.now in
        IfOk result (IsParsedInto g IsWholeFile (S.stands_after sink.old) (S.stands_after sink.new)) }
    ensures all { IfOk result (λ sent. sent.all ≡ true) }
    ensures refused { let g = given (keyword_of keywords.now) (contextual_keyword_of keywords.now) text.now tokens.now in
        IfErr result (λ reason. IsRefusal g IsWholeFile (λ begun left. Spends 12 2 begun left)
        (record { operator_first = operator_set; names = map (λ pair. (pair.0, pair.1.now)) names.now })
        (S.stands_after sink.old) (S.stands_after sink.new) S.refuses (sink.new ≡ sink.old) (as_into_error reason)) }
{
    let selects = Selects { names };
    let entry = EntryPoint::SourceFile;
    parse_whole_into(alloc, text, tokens, keywords, &selects, entry, sink)
}
