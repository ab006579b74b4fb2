//! The kinds with a tail.
ghost use Rattle.std.specs.Prelude.{◌≡◌, ◌≢◌, IsTrue, not};
ghost use Rattle.squawk_parser.specs.Composites.{NoTail};
ghost use Rattle.squawk_parser.specs.Eaten.{tail_of_kind};

use crate::parser::composite::{Form, Tail, composite};
use squawk_kinds::SyntaxKind;

/// Whether the kind has a tail.
///
/// [`Parser::eat_with`](crate::Parser::eat_with) eats those that do,
/// [`Parser::eat`](crate::Parser::eat) and [`Parser::expect`](crate::Parser::expect) those that don't.
pub fn has_tail(kind: SyntaxKind) -> bool
    ensures yes { IsTrue result → tail_of_kind kind ≢ NoTail }
    ensures no { IsTrue (not result) → tail_of_kind kind ≡ NoTail }
{
    match composite(kind) {
        Some(Form::Sequence { parts: _, tail }) => match tail {
            Tail::Nothing => false,
            Tail::Open | Tail::ClosedBy(_) => true,
        },
        _ => false,
    }
}
