//! Calls that record. What is inlined runs at each node or token; what is cold, at an error.
ghost use Rattle.std.specs.Prelude.{◌≡◌, ◌≢◌, ◌+◌, ◌<◌, ◌∷◌, [], false};
ghost use Rattle.std.specs.Str.{chars};
ghost use Rattle.squawk_kinds.specs.Kinds.{EOF};
ghost use Rattle.squawk_kinds.specs.TokenSets.{has};
ghost use Rattle.squawk_table.specs.ParserInput.{kind_in};
ghost use Rattle.squawk_output.specs.Steps.{Error};
ghost use Rattle.squawk_parser.specs.Eaten.{current_as, recovery_steps, no_recovery};
ghost use Rattle.squawk_parser.specs.Recorded.{Begins, Puts};
ghost use Rattle.squawk_parser.specs.SomeSteps.{AddsSome, OpensNode, Spends};
ghost use Rattle.squawk_parser.specs.State.{HasOpenMarker, ahead, kind_at};

use crate::parser::Parser;
use crate::parser::marker::Marker;
use crate::parser::recording::fail_if_refused;
use squawk_kinds::{SyntaxKind, TokenSet};
use squawk_output::Made;

impl Parser<'_> {
    /// Starts a node.
    ///
    /// If markers are completed in the order of nesting, the node has all that is recorded until its marker is
    /// completed. [`squawk_output::Event`] draws the other cases.
    #[inline(always)]
    pub fn start(&mut self) -> Marker
        ensures begins { Begins result self.old self.new }
        ensures opens { OpensNode result self.old self.new }
        ensures open_marker { HasOpenMarker self.new result }
        ensures spends { Spends 0 1 self.old self.new }
    {
        let id = self.next_id();
        if self.has_room() {
            fail_if_refused(&mut self.first_reason, self.log.start());
        }
        self.witness_sound();
        let made = Made::ByStart;
        Marker { id, made }
    }

    /// Eats the current token. Does nothing at the end.
    #[inline(always)]
    pub fn bump_any(&mut self)
        ensures puts { Puts (current_as (kind_in (ahead self.old 0) 0) (ahead self.old 0)) self.old self.new }
        ensures some { AddsSome self.old self.new }
        ensures spends { Spends 1 0 self.old self.new }
        ensures end { kind_at self.old 0 ≡ EOF → self.new ≡ self.old }
        ensures position { kind_at self.old 0 ≢ EOF → self.new.position ≡ self.old.position + 1 }
    {
        let kind = self.current();
        self.witness_sound();
        if kind == SyntaxKind::EOF {
            return;
        }
        self.do_bump(kind, 1);
    }

    /// Eats the current token as one of this kind. Does nothing at the end.
    pub fn bump_remap(&mut self, kind: SyntaxKind)
        ensures puts { Puts (current_as kind (ahead self.old 0)) self.old self.new }
        ensures some { AddsSome self.old self.new }
        ensures spends { Spends 1 0 self.old self.new }
        ensures end { kind_at self.old 0 ≡ EOF → self.new ≡ self.old }
        ensures position { kind_at self.old 0 ≢ EOF → self.new.position ≡ self.old.position + 1 }
    {
        self.witness_sound();
        if self.current() != SyntaxKind::EOF {
            self.do_bump(kind, 1);
        }
    }

    /// Records an error with a copy of this text.
    #[cold]
    #[inline(never)]
    pub fn error(&mut self, msg: &str)
        ensures puts { Puts (Error (chars msg.now) ∷ []) self.old self.new }
        ensures some { AddsSome self.old self.new }
        ensures spends { Spends 0 1 self.old self.new }
    {
        if self.has_room_for_error() {
            let text = String::from_str(self.alloc, msg);
            self.put_error(text);
        }
    }

    /// Records an error, and eats the current token unless `recovery` has its kind.
    ///
    /// Unless `recovery` has it, the error and the token, if there is one, are in a node [`SyntaxKind::ERROR`].
    #[cold]
    #[inline(never)]
    pub fn err_recover(&mut self, msg: &str, recovery: TokenSet)
        ensures puts { Puts (recovery_steps (chars msg.now) (has recovery) (ahead self.old 0)) self.old self.new }
        ensures some { AddsSome self.old self.new }
        ensures spends { Spends 1 3 self.old self.new }
        ensures eats { has recovery (kind_at self.old 0) ≡ false → kind_at self.old 0 ≢ EOF → self.old.position < self.new.position }
    {
        if self.at_ts(recovery) {
            self.error(msg);
            return;
        }
        let node = self.start();
        self.error(msg);
        self.bump_any();
        node.complete(self, SyntaxKind::ERROR);
    }

    /// Records an error and eats the current token, if there is one, both in a node [`SyntaxKind::ERROR`].
    #[cold]
    #[inline(never)]
    pub fn err_and_bump(&mut self, msg: &str)
        ensures puts { Puts (recovery_steps (chars msg.now) no_recovery (ahead self.old 0)) self.old self.new }
        ensures some { AddsSome self.old self.new }
        ensures spends { Spends 1 3 self.old self.new }
        ensures eats { kind_at self.old 0 ≢ EOF → self.old.position < self.new.position }
    {
        self.err_recover(msg, TokenSet::EMPTY);
    }
}
