//! Empty nodes whose kinds tell what a parser answered.
ghost use Rattle.std.specs.Prelude.{◌≢◌};
ghost use Rattle.squawk_output.specs.Draft.{HasNoOpenMarker};
ghost use Rattle.squawk_kinds.specs.Kinds.{TOMBSTONE};
ghost use Rattle.squawk_parser.specs.State.{HasNotFailed, Keeps};

use crate::kinds::{NO, YES};
use squawk_parser::{Parser, SyntaxKind};

pub fn yes_or_no(answer: bool) -> u16
    ensures { result ≢ TOMBSTONE }
{
    if answer { YES } else { NO }
}

/// Completes an empty node of this kind. Its marker has the kind, or another node follows.
pub fn note(p: &mut Parser<'_>, kind: u16)
    requires { kind ≢ TOMBSTONE }
    ensures keeps { Keeps p.old p.new }
    ensures went { HasNotFailed p.new → HasNotFailed p.old }
    ensures closed { HasNoOpenMarker p.old.draft.items → HasNotFailed p.new → HasNoOpenMarker p.new.draft.items }
{
    let kind = SyntaxKind::from(kind);
    let node = p.start().complete(p, kind);
    if node.kind() != kind {
        let _ = p.start().complete(p, SyntaxKind::ERROR);
    }
}
