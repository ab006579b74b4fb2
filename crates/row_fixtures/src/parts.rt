//! A grammar that eats a kind with a tail.
ghost use Rattle.std.specs.Prelude.{◌≡◌};
ghost use Rattle.squawk_output.specs.Draft.{open_markers_of};
ghost use Rattle.squawk_parser.specs.State.{HasNotFailed, IsSound, Keeps};

use crate::kinds::ROOT;
use crate::words::without_end;
use squawk_parser::{Grammar, Parser, Part, SyntaxKind, TokenSet, Words, has_tail};
use std::alloc::AllocError;

/// The current token.
#[derive(Clone, Copy)]
struct CurrentToken;

impl Part for CurrentToken {
    type Answer = ();

    ghost does = { λ _ _ _ _. Unit {0} };

    fn run(self, p: &mut Parser<'_>) {
        p.bump_any();
    }
}

/// Eats the kind, with the current token as its tail. A kind without a tail isn't eaten.
fn eat_with(p: &mut Parser<'_>, kind: SyntaxKind)
    requires { IsSound p.old }
    ensures keeps { Keeps p.old p.new }
    ensures open_markers { HasNotFailed p.new → open_markers_of p.new.draft.items ≡ open_markers_of p.old.draft.items }
{
    if has_tail(kind) {
        p.eat_with(kind, CurrentToken);
    }
}

/// A root in which the kind is eaten.
fn eat_in_root(p: &mut Parser<'_>, kind: SyntaxKind)
    requires { IsSound p.old }
    ensures keeps { Keeps p.old p.new }
    ensures open_markers { HasNotFailed p.new → open_markers_of p.new.draft.items ≡ open_markers_of p.old.draft.items }
{
    let root = p.start();
    eat_with(p, kind);
    let _ = root.complete(p, SyntaxKind::from(ROOT));
}

/// A root in which a kind is eaten that has a tail. A set of operators' kinds that has the end counts as
/// the empty one.
#[derive(Clone, Copy)]
pub struct EatingWith<'t> {
    pub operator_first: TokenSet,
    pub names: &'t [(SyntaxKind, &'t str)],
    pub kind: SyntaxKind,
}

impl<'t> Grammar for EatingWith<'t> {
    ghost use Rattle.std.specs.Prelude.{if◌then◌else◌, map};
    ghost use Rattle.squawk_kinds.specs.Kinds.{EOF};
    ghost use Rattle.squawk_kinds.specs.TokenSets.{has, no_kinds};

    ghost leaves = { λ _ _ _ _. Unit {0} };

    ghost runs = { λ _ _ _ _. Unit {0} };

    ghost meaning = { λ g. record { operator_first = if has g.operator_first EOF then no_kinds else g.operator_first; names = map (λ pair. (pair.0, pair.1.now)) g.names.now } };

    fn words(&self) -> Words<'_> {
        Words {
            operator_first: without_end(self.operator_first),
            names: self.names,
        }
    }

    fn entry_point(&self, p: &mut Parser<'_>) -> Result<(), AllocError> {
        eat_in_root(p, self.kind);
        Ok(())
    }

    fn plpgsql_entry_point(&self, p: &mut Parser<'_>) -> Result<(), AllocError> {
        self.entry_point(p)
    }
}
