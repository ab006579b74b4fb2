//! Recovery that skips tokens.
ghost use Rattle.std.specs.Prelude.{◌≡◌, ◌≢◌, ◌<◌, ◌==◌, ◌||◌, false};
ghost use Rattle.std.specs.Str.{chars};
ghost use Rattle.squawk_kinds.specs.Kinds.{EOF};
ghost use Rattle.squawk_kinds.specs.TokenSets.{has};
ghost use Rattle.squawk_parser.specs.Recorded.{Puts};
ghost use Rattle.squawk_parser.specs.Skipped.{before_stop, skip_steps};
ghost use Rattle.squawk_parser.specs.SomeSteps.{AddsSome, Spends};
ghost use Rattle.squawk_parser.specs.State.{ahead, kind_at};

use crate::parser::Parser;
use squawk_kinds::{SyntaxKind, TokenSet};

impl Parser<'_> {
    /// Eats all tokens up to one of the set, or up to the end, with an error in one node [`SyntaxKind::ERROR`].
    ///
    /// If there are none, it does nothing and records no error. Upstream has only [`Parser::err_recover`] and
    /// [`Parser::err_and_bump`], which eat at most one token. Other parsers call it `skip_until`.
    // Runs at an error.
    #[cold]
    #[inline(never)]
    pub fn skip_to(&mut self, set: TokenSet, message: &str)
        ensures puts { Puts (skip_steps (chars message.now) (before_stop (has set) (ahead self.old 0))) self.old self.new }
        ensures some { AddsSome self.old self.new }
        ensures spends { Spends 4 0 self.old self.new }
        ensures stops { has set (kind_at self.new 0) ≡ false → kind_at self.new 0 ≡ EOF }
        ensures eats { has set (kind_at self.old 0) ≡ false → kind_at self.old 0 ≢ EOF → self.old.position < self.new.position }
    {
        self.witness_sound();
        if self.stops_at(set) {
            return;
        }
        let node = self.start();
        self.error(message);
        while !self.stops_at(set) {
            self.bump_any();
        }
        node.complete(self, SyntaxKind::ERROR);
    }

    /// Whether skipping stops here: at a token of the set, or at the end.
    fn stops_at(&self, set: TokenSet) -> bool
        ensures { result ≡ (kind_at self.now 0 == EOF || has set (kind_at self.now 0)) }
    {
        self.current() == SyntaxKind::EOF || self.at_ts(set)
    }
}
