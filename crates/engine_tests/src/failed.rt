//! Parsers that fail: what they see and answer then.

use row_fixtures::keywords::NO_KEYWORDS;
use row_fixtures::lexer::tokens_of;
use row_fixtures::tokens::table;
use row_fixtures::words::no_words;
use squawk_parser::{EntryPoint, Grammar, Input, Limits, ParseError, Parser, SyntaxKind, Words};
use std::alloc::{AllocError, Global};
use std::process::Abort;
use std::test::Fail;

/// A grammar that ends the test unless its parser fails at the first event for this reason, and goes on.
#[derive(Drop)]
struct Failing<'a, R> {
    rt: &'a R,
    reason: ParseError,
}

impl<R: Abort> Failing<'_, R> {
    /// Ends the test unless the parser is there, sees the kind, and has failed.
    fn assert_at(&self, p: &Parser<'_>, position: usize, kind: SyntaxKind, ahead: SyntaxKind) {
        assert_eq!(self.rt; p.failed(), Some(self.reason));
        assert_eq!(self.rt; p.position(), position);
        assert_eq!(self.rt; p.current(), kind);
        assert_eq!(self.rt; p.nth(1), ahead);
        assert!(self.rt; p.at(kind));
        let is_word = p.nth_contextual_kind(0) == SyntaxKind::IDENT;
        assert_eq!(self.rt; is_word, kind == SyntaxKind::IDENT);
        assert_eq!(self.rt; p.op_len(), 0);
    }
}

impl<R: Abort> Grammar for Failing<'_, R> {
    ghost use Rattle.squawk_parser.specs.Words.{no_words};

    ghost leaves = { λ _ _ _ _. Unit {0} };

    ghost runs = { λ _ _ _ _. Unit {0} };

    ghost meaning = { λ _. no_words };

    fn words(&self) -> Words<'_> {
        no_words()
    }

    /// Over `a , b`.
    fn entry_point(&self, p: &mut Parser<'_>) -> Result<(), AllocError> {
        assert_eq!(self.rt; p.failed(), None);
        p.error("e");
        self.assert_at(p, 0, SyntaxKind::IDENT, SyntaxKind::COMMA);
        p.bump_any();
        self.assert_at(p, 1, SyntaxKind::COMMA, SyntaxKind::IDENT);
        p.err_and_bump("f");
        self.assert_at(p, 2, SyntaxKind::IDENT, SyntaxKind::EOF);
        p.bump_any();
        self.assert_at(p, 3, SyntaxKind::EOF, SyntaxKind::EOF);
        p.bump_any();
        self.assert_at(p, 3, SyntaxKind::EOF, SyntaxKind::EOF);
        Ok(())
    }

    fn plpgsql_entry_point(&self, p: &mut Parser<'_>) -> Result<(), AllocError> {
        self.entry_point(p)
    }
}

/// The input of a text.
fn input_of(alloc: Global, text: &str) -> Result<Input, Fail> {
    let tokens = tokens_of(alloc, text)?;
    Ok(table(alloc, text, &tokens)?.to_input(alloc, &NO_KEYWORDS)?)
}

#[test]
fn failed_parser_sees_and_eats_as_before(rt: HostRuntime) -> Result<(), Fail> {
    let input = input_of(rt.alloc(), "a , b")?;
    for (events, errors, reason) in [
        (0, 9, ParseError::TooManyEvents),
        (9, 0, ParseError::TooManyErrors),
    ] {
        let grammar = Failing { rt: &rt, reason };
        for entry_point in [EntryPoint::SourceFile, EntryPoint::Plpgsql] {
            let limits = Limits { events, errors };
            let parsed = entry_point.parse_within(rt.alloc(), &input, &grammar, limits);
            assert_eq!(&rt; parsed.err(), Some(reason));
        }
    }
    Ok(())
}

/// A grammar to which memory is refused.
#[derive(Clone, Copy)]
struct WantsMemory;

impl Grammar for WantsMemory {
    ghost use Rattle.squawk_parser.specs.Words.{no_words};

    ghost leaves = { λ _ _ _ _. Unit {0} };

    ghost runs = { λ _ _ _ _. Unit {0} };

    ghost meaning = { λ _. no_words };

    fn words(&self) -> Words<'_> {
        no_words()
    }

    fn entry_point(&self, _p: &mut Parser<'_>) -> Result<(), AllocError> {
        Err(AllocError)
    }

    fn plpgsql_entry_point(&self, p: &mut Parser<'_>) -> Result<(), AllocError> {
        self.entry_point(p)
    }
}

#[test]
fn parse_answers_the_want_of_memory_of_its_grammar(rt: HostRuntime) {
    let input = Input::empty(rt.alloc());
    for entry_point in [EntryPoint::SourceFile, EntryPoint::Plpgsql] {
        let answer = entry_point.parse(rt.alloc(), &input, &WantsMemory);
        assert_eq!(rt; answer.err(), Some(ParseError::OutOfMemory));
    }
}
