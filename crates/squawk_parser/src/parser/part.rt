//! Parts of a grammar that a parser runs.
ghost use Rattle.std.specs.Prelude.{◌≡◌};
ghost use Rattle.squawk_output.specs.Draft.{open_markers_of};
ghost use Rattle.squawk_parser.specs.State.{HasNotFailed, Keeps, limited, with_limit_of};

use crate::parser::Parser;

/// A part of a grammar as a value, in place of a closure.
///
/// A run leaves the same markers open as before. You can't recurse through a `Part`: write mutually
/// recursive functions.
pub trait Part: Sized {
    ghost use Rattle.std.specs.Prelude.{◌≡◌};
    ghost use Rattle.squawk_output.specs.Draft.{open_markers_of};
    ghost use Rattle.squawk_parser.specs.State.{State, HasNotFailed, IsSound, Keeps};

    /// The type of a run's result.
    type Answer;

    /// What holds of the parser before and after a run, and of its result.
    ghost does: { Self → State → State → Self.Answer → Type 0 };

    /// Runs the part.
    fn run(self, p: &mut Parser<'_>) -> Self::Answer
        // The invariant of a parser.
        requires { IsSound p.old }
        ensures keeps { Keeps p.old p.new }
        ensures open_markers { HasNotFailed p.new → open_markers_of p.new.draft.items ≡ open_markers_of p.old.draft.items }
        ensures does { does self p.old p.new result };
}

impl Parser<'_> {
    /// Runs a part that sees at most `n` tokens from the position on, and none past the current limit.
    ///
    /// Afterwards the limit is as before. Returns the part's result.
    pub fn with_limit<F: Part>(&mut self, n: usize, f: F) -> F::Answer
        ensures keeps { Keeps self.old self.new }
        ensures open_markers { HasNotFailed self.new → open_markers_of self.new.draft.items ≡ open_markers_of self.old.draft.items }
        ensures does { F.does f (limited self.old n) (with_limit_of self.new (limited self.old n)) result }
    {
        let limit = self.limit;
        self.limit = limit.min(self.position.saturating_add(n));
        self.witness_sound();
        let answer = f.run(self);
        self.limit = limit;
        self.witness_sound();
        answer
    }
}
