//! A grammar that says nothing of what it leaves.

use squawk_parser::{
    EntryPoint, Grammar, LexedStr, NoKeywords, Parser, SyntaxKind, Token, TokenKind, TokenSet,
    Words,
};
use std::alloc::AllocError;
use std::test::Fail;

/// All tokens in one node.
struct Flat;

impl Grammar for Flat {
    ghost use Rattle.squawk_parser.specs.Words.{no_words};

    ghost leaves = { λ _ _ _ _. Unit {0} };

    ghost runs = { λ _ _ _ _. Unit {0} };

    ghost meaning = { λ _. no_words };

    #[tactic(auto, using(squawk_parser::specs::Words::no_words_has_no_end))]
    fn words(&self) -> Words<'_> {
        Words {
            operator_first: TokenSet::EMPTY,
            names: &[],
        }
    }

    fn entry_point(&self, p: &mut Parser<'_>) -> Result<(), AllocError> {
        let file = p.start();
        while p.current() != SyntaxKind::EOF {
            p.bump_any();
        }
        file.complete(p, SyntaxKind(700));
        Ok(())
    }

    fn plpgsql_entry_point(&self, p: &mut Parser<'_>) -> Result<(), AllocError> {
        self.entry_point(p)
    }
}

#[test]
fn all_tokens_stand_in_one_node(rt: HostRuntime) -> Result<(), Fail> {
    let comma = Token {
        kind: TokenKind::Comma,
        len: 1,
    };
    let table = LexedStr::new(rt.alloc(), ",,", &[comma, comma], &NoKeywords)?;
    let input = table.to_input(rt.alloc(), &NoKeywords)?;
    let output = EntryPoint::SourceFile.parse(rt.alloc(), &input, &Flat)?;
    assert!(rt; table.fits(&output));
    // The node's two, and the tokens.
    assert_eq!(rt; output.recorded(), 4);
    Ok(())
}
