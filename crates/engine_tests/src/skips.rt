//! Tokens that are skipped up to a kind of a set.

ghost use Rattle.squawk_parser.specs.SomeSteps.{AddsSome};

use row_fixtures::keywords::NO_KEYWORDS;
use row_fixtures::kinds::ROOT;
use row_fixtures::lexer::tokens_of;
use row_fixtures::lines::line_of;
use row_fixtures::words::no_words;
use squawk_parser::{
    EntryPoint, Grammar, Parser, Sent, StepList, SyntaxKind, TokenSet, Words, parse_into, token_set,
};
use std::alloc::AllocError;
use std::test::Fail;

/// Where tokens are no longer skipped.
const SIGNS: TokenSet = token_set![SyntaxKind::SEMICOLON, SyntaxKind::COMMA];

/// A node in which tokens are skipped up to a sign and up to another, and then up to the end.
struct Skipping;

impl Grammar for Skipping {
    ghost use Rattle.squawk_parser.specs.Words.{no_words};

    ghost leaves = { λ _ _ _ _. Unit {0} };

    ghost runs = { λ _ _ _ _. Unit {0} };

    ghost meaning = { λ _. no_words };

    fn words(&self) -> Words<'_> {
        no_words()
    }

    fn entry_point(&self, p: &mut Parser<'_>) -> Result<(), AllocError> {
        let root = p.start();
        skipped_and_sign(p, "e");
        skipped_and_sign(p, "f");
        p.skip_to(SIGNS, "g");
        root.complete(p, SyntaxKind::from(ROOT));
        Ok(())
    }

    fn plpgsql_entry_point(&self, p: &mut Parser<'_>) -> Result<(), AllocError> {
        self.entry_point(p)
    }
}

/// Tokens that are skipped, and the sign behind them.
fn skipped_and_sign(p: &mut Parser<'_>, message: &str)
    ensures { AddsSome p.old p.new }
{
    p.skip_to(SIGNS, message);
    p.bump_any();
}

#[test]
fn skipped_tokens_stand_in_one_node_if_there_are_any(rt: HostRuntime) -> Result<(), Fail> {
    let text = "a b ; , c";
    let tokens = tokens_of(rt.alloc(), text)?;
    let mut sink = StepList::new(rt.alloc());
    let entry = EntryPoint::SourceFile;
    let sent = parse_into(
        rt.alloc(),
        text,
        &tokens,
        &NO_KEYWORDS,
        &Skipping,
        entry,
        &mut sink,
    )?;
    // The root's two events, two error nodes of five and four, and two signs. Three starts have a turn
    // more each.
    let wanted = Sent {
        all: true,
        recorded: 13,
        turns: 16,
    };
    assert_eq!(rt; sent, wanted);
    // Before the comma none is skipped, and so there is no second error.
    let line = line_of(rt.alloc(), sink.steps())?;
    let wanted = "ROOT(ERROR(!'e'@0 a _ b) _ ; _ , _ ERROR(!'g'@8 c))";
    assert_eq!(rt; line.as_str(), wanted);
    Ok(())
}
