//! A grammar of names, and a text parsed by it: the code of the front page. Copy this crate to begin a
//! grammar of your own.
#![tactic(auto)]

#[cfg(test)]
mod tests;

// The front page begins.
ghost use Rattle.std.specs.Prelude.{◌<◌, ◌≢◌};
ghost use Rattle.squawk_kinds.specs.Kinds.{EOF};
ghost use Rattle.squawk_parser.specs.SomeSteps.{AddsSome, Spends};
ghost use Rattle.squawk_parser.specs.State.{kind_at};

use squawk_parser::{
    EntryPoint, Grammar, NoKeywords, ParseWholeError, Parser, Sent, StepList, SyntaxKind, Token,
    TokenSet, WholeGrammar, Words, parse_whole_into,
};
use std::alloc::{AllocError, Global};

const SOURCE_FILE: SyntaxKind = SyntaxKind(710);

const NAME_REF: SyntaxKind = SyntaxKind(702);

/// A source file of names: each in a node of its own, and what is no name in an error node.
pub struct Names;

impl Grammar for Names {
    ghost use Rattle.squawk_parser.specs.Whole.{IsWholeFile};
    ghost use Rattle.squawk_parser.specs.Words.{no_words};

    // One node over all tokens.
    ghost leaves = { λ _ _ input draft. IsWholeFile input draft };

    // At most four events a token, and two for that node.
    ghost runs = { λ _ _ begun left. Spends 4 2 begun left };

    ghost meaning = { λ _. no_words };

    #[tactic(auto, using(squawk_parser::specs::Words::no_words_has_no_end))]
    fn words(&self) -> Words<'_> {
        Words {
            operator_first: TokenSet::EMPTY,
            names: &[],
        }
    }

    fn entry_point(&self, p: &mut Parser<'_>) -> Result<(), AllocError> {
        let file = p.start();
        while p.current() != SyntaxKind::EOF {
            name(p);
        }
        file.complete(p, SOURCE_FILE);
        Ok(())
    }

    fn plpgsql_entry_point(&self, p: &mut Parser<'_>) -> Result<(), AllocError> {
        self.entry_point(p)
    }
}

impl WholeGrammar for Names {
    ghost leaves_whole = { λ _ _ _ _ _ left. left };
}

/// A name, or an error with the token that is none.
fn name(p: &mut Parser<'_>)
    requires { kind_at p.old 0 ≢ EOF }
    ensures adds { AddsSome p.old p.new }
    ensures spends { Spends 4 0 p.old p.new }
    ensures eats { p.old.position < p.new.position }
{
    if p.current() == SyntaxKind::IDENT {
        let node = p.start();
        p.bump_any();
        node.complete(p, NAME_REF);
    } else {
        p.err_and_bump("expected a name");
    }
}

/// Sends the tree of a text with these raw tokens to a list of steps.
pub fn send(
    alloc: Global,
    text: &str,
    tokens: &[Token],
    sink: &mut StepList,
) -> Result<Sent, ParseWholeError<AllocError>> {
    let entry = EntryPoint::SourceFile;
    parse_whole_into(alloc, text, tokens, &NoKeywords, &Names, entry, sink)
}
// The front page ends.
