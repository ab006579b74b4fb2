//! The kinds that decide where the name of an operator may end.
//!
//! By PostgreSQL's CREATE OPERATOR, a name of several characters can't end in `+` or `-` unless it also
//! has one of ``~ ! @ # % ^ & | ` ?``.
ghost use Rattle.std.specs.Prelude.{◌≡◌};
ghost use Rattle.squawk_parser.specs.Operators.{is_sign, is_special};

use squawk_kinds::SyntaxKind;

/// Whether the kind is a sign, in which a name of several characters may not end.
pub(super) fn is_sign(kind: SyntaxKind) -> bool
    ensures { result ≡ is_sign kind }
{
    kind == SyntaxKind::PLUS || kind == SyntaxKind::MINUS
}

/// Whether the kind is special: a name that has it may end in a sign.
pub(super) fn is_special(kind: SyntaxKind) -> bool
    ensures { result ≡ is_special kind }
{
    matches!(
        kind,
        SyntaxKind::TILDE
            | SyntaxKind::BANG
            | SyntaxKind::AT
            | SyntaxKind::POUND
            | SyntaxKind::PERCENT
            | SyntaxKind::CARET
            | SyntaxKind::AMP
            | SyntaxKind::PIPE
            | SyntaxKind::BACKTICK
            | SyntaxKind::QUESTION
    )
}
