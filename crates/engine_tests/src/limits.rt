//! Parts of a grammar that see only so many tokens.
ghost use Rattle.squawk_parser.specs.State.{HasNotFailed};

use row_fixtures::keywords::NO_KEYWORDS;
use row_fixtures::looks::Look;
use row_fixtures::tokens::{space, table, word};
use row_fixtures::words::no_words;
use squawk_parser::{EntryPoint, Grammar, Parser, Part, Words};
use std::alloc::AllocError;
use std::process::Abort;
use std::test::Fail;

/// Tries to eat two tokens, and answers the position.
struct EatTwo;

impl Part for EatTwo {
    ghost use Rattle.squawk_parser.specs.State.{HasNotFailed};

    type Answer = usize;

    ghost does = { λ _ before after _. HasNotFailed after → HasNotFailed before };

    fn run(self, p: &mut Parser<'_>) -> usize {
        let EatTwo = self;
        p.bump_any();
        p.bump_any();
        p.position()
    }
}

/// The kind one place ahead, seen under the greatest limit.
struct LookFar;

impl Part for LookFar {
    ghost use Rattle.std.specs.Prelude.{◌≡◌};

    type Answer = u16;

    ghost does = { λ _ before after _. after ≡ before };

    fn run(self, p: &mut Parser<'_>) -> u16 {
        let LookFar = self;
        p.with_limit(usize::MAX, Look::Kind(1))
    }
}

/// A grammar that eats under limits, and ends the test where they aren't kept.
#[derive(Drop)]
struct Limiting<'a, R> {
    rt: &'a R,
}

impl<R: Abort> Grammar for Limiting<'_, R> {
    ghost use Rattle.squawk_parser.specs.Words.{no_words};

    ghost leaves = { λ _ _ _ _. Unit {0} };

    ghost runs = { λ _ _ _ _. Unit {0} };

    ghost meaning = { λ _. no_words };

    fn words(&self) -> Words<'_> {
        no_words()
    }

    fn entry_point(&self, p: &mut Parser<'_>) -> Result<(), AllocError> {
        let one = p.with_limit(1, LookFar);
        assert_eq!(self.rt; one, 0);
        let two = p.with_limit(2, LookFar);
        assert_eq!(self.rt; two, 3);
        // One token is eaten under the limit of one, then the other two.
        let position = p.with_limit(1, EatTwo);
        assert_eq!(self.rt; position, 1);
        let position = p.with_limit(usize::MAX, EatTwo);
        assert_eq!(self.rt; position, 3);
        Ok(())
    }

    fn plpgsql_entry_point(&self, p: &mut Parser<'_>) -> Result<(), AllocError> {
        self.entry_point(p)
    }
}

#[test]
fn limit_inside_a_limit_is_the_smaller(rt: HostRuntime) -> Result<(), Fail> {
    let tokens = [word(1), space(1), word(1), space(1), word(1)];
    let input = table(rt.alloc(), "a b c", &tokens)?.to_input(rt.alloc(), &NO_KEYWORDS)?;
    let output = EntryPoint::SourceFile.parse(rt.alloc(), &input, &Limiting { rt: &rt })?;
    // The three tokens.
    assert_eq!(&rt; output.recorded(), 3);
    Ok(())
}
