//! Tests of the grammar, and of the calls from a text to a sink.

use crate::{Names, send};
use squawk_parser::{
    EntryPoint, Grammar, NoKeywords, OwnedStep, ParseIntoError, Parser, Sent, StepList, StepSink,
    StrStep, SyntaxKind, TableError, Token, TokenKind, TokenSet, Words, parse_into,
};
use std::alloc::{AllocError, Global};
use std::fmt::Write;
use std::test::Fail;
use syntax_tree::{SyntaxTree, parse_tree};

/// A grammar that leaves a token and no node.
struct OneToken;

impl Grammar for OneToken {
    ghost use Rattle.squawk_parser.specs.Words.{no_words};

    ghost leaves = { λ _ _ _ _. Unit {0} };

    ghost runs = { λ _ _ _ _. Unit {0} };

    ghost meaning = { λ _. no_words };

    #[tactic(auto, using(squawk_parser::specs::Words::no_words_has_no_end))]
    fn words(&self) -> Words<'_> {
        Words {
            operator_first: TokenSet::EMPTY,
            names: &[],
        }
    }

    fn entry_point(&self, p: &mut Parser<'_>) -> Result<(), AllocError> {
        p.bump_any();
        Ok(())
    }

    fn plpgsql_entry_point(&self, p: &mut Parser<'_>) -> Result<(), AllocError> {
        let file = p.start();
        p.bump_any();
        file.complete(p, SyntaxKind(710));
        Ok(())
    }
}

/// A sink that refuses each step with its kind.
#[derive(Drop)]
struct Closed;

impl StepSink for Closed {
    type Refusal = SyntaxKind;

    ghost stands_after = { λ _ _. Unit {0} };

    ghost refuses = { λ _ _ _. Unit {0} };

    fn step(&mut self, step: StrStep<'_>) -> Result<(), SyntaxKind> {
        match step {
            StrStep::Token { kind, text: _ } | StrStep::Enter { kind } => Err(kind),
            StrStep::Exit => Err(SyntaxKind::EOF),
            StrStep::Error { msg: _, pos: _ } => Err(SyntaxKind::ERROR),
        }
    }
}

/// The raw tokens of `one, two`.
const TOKENS: [Token; 4] = [
    Token {
        kind: TokenKind::Ident,
        len: 3,
    },
    Token {
        kind: TokenKind::Comma,
        len: 1,
    },
    Token {
        kind: TokenKind::Whitespace,
        len: 1,
    },
    Token {
        kind: TokenKind::Ident,
        len: 3,
    },
];

/// The steps as a line: kinds as numbers, `!` before an error.
fn line_of(alloc: Global, steps: &[OwnedStep]) -> Result<String, AllocError> {
    let mut line = String::new(alloc);
    for step in steps {
        match step {
            OwnedStep::Enter { kind } => write!(line, "{}(", kind.0)?,
            OwnedStep::Token { kind, text } => write!(line, "{}:{}", kind.0, text.as_str())?,
            OwnedStep::Error { msg, pos } => write!(line, "!{pos} {};", msg.as_str())?,
            OwnedStep::Exit => line.push(')')?,
        }
    }
    Ok(line)
}

/// The nodes of a tree's root with their kinds, and then the errors: `702:a !1 text;` is a node 702 over `a`, and an error
/// at byte 1.
fn nodes_line(alloc: Global, tree: &SyntaxTree<'_>) -> Result<String, AllocError> {
    let mut line = String::new(alloc);
    for node in tree.root().children() {
        write!(line, "{}:{} ", node.kind().0, node.text())?;
    }
    for error in tree.errors() {
        write!(line, "!{} {};", error.pos(), error.message())?;
    }
    Ok(line)
}

#[test]
fn names_are_nodes_and_the_rest_errors(rt: HostRuntime) -> Result<(), Fail> {
    let mut sink = StepList::new(rt.alloc());
    let sent = send(rt.alloc(), "one, two", &TOKENS, &mut sink)?;
    // The file's two events, two names of three, and an error of four. Four of the starts are nodes, with a
    // turn more each.
    let wanted = Sent {
        all: true,
        recorded: 12,
        turns: 16,
    };
    assert_eq!(rt; sent, wanted);
    let entry = EntryPoint::SourceFile;
    let tree = parse_tree(rt.alloc(), "one, two", &TOKENS, &NoKeywords, &Names, entry)?;
    let line = nodes_line(rt.alloc(), &tree)?;
    assert_eq!(rt; line.as_str(), "702:one 2:, 702:two !3 expected a name;");
    Ok(())
}

#[test]
fn token_without_a_node_is_no_root(rt: HostRuntime) {
    let mut sink = StepList::new(rt.alloc());
    let entry = EntryPoint::SourceFile;
    let sent = parse_into(
        rt.alloc(),
        "one, two",
        &TOKENS,
        &NoKeywords,
        &OneToken,
        entry,
        &mut sink,
    );
    assert!(rt; matches!(sent, Err(ParseIntoError::NoRoot)));
    assert!(rt; sink.steps().is_empty());
}

#[test]
fn first_token_is_not_all(rt: HostRuntime) -> Result<(), Fail> {
    let mut sink = StepList::new(rt.alloc());
    let entry = EntryPoint::Plpgsql;
    let sent = parse_into(
        rt.alloc(),
        "one, two",
        &TOKENS,
        &NoKeywords,
        &OneToken,
        entry,
        &mut sink,
    )?;
    // The node's two events and the token; the start has a turn more.
    let wanted = Sent {
        all: false,
        recorded: 3,
        turns: 4,
    };
    assert_eq!(rt; sent, wanted);
    let line = line_of(rt.alloc(), sink.steps())?;
    assert_eq!(rt; line.as_str(), "710(3:one)");
    Ok(())
}

#[test]
fn refusals_are_those_of_the_stages(rt: HostRuntime) -> Result<(), Fail> {
    let mut sink = StepList::new(rt.alloc());
    let entry = EntryPoint::SourceFile;
    let sent = parse_into(
        rt.alloc(),
        "one, two!",
        &TOKENS,
        &NoKeywords,
        &Names,
        entry,
        &mut sink,
    );
    let Err(ParseIntoError::Table(TableError::TextLeft { at: 8 })) = sent else {
        return Err(Fail::from("the text is left"));
    };
    assert!(rt; sink.steps().is_empty());

    let closed = parse_into(
        rt.alloc(),
        "one, two",
        &TOKENS,
        &NoKeywords,
        &Names,
        entry,
        &mut Closed,
    );
    assert!(rt; matches!(closed, Err(ParseIntoError::Sink(SyntaxKind(710)))));
    Ok(())
}

#[test]
fn errors_hand_on_the_line_of_their_stage(rt: HostRuntime) -> Result<(), Fail> {
    let left: ParseIntoError<TableError> = ParseIntoError::Table(TableError::TextLeft { at: 8 });
    let none: ParseIntoError<TableError> = ParseIntoError::NoRoot;
    let lines = format!(in rt.alloc(); "{left}, {none}")?;
    assert_eq!(rt; lines.as_str(), "text left at 8, no root");
    Ok(())
}
