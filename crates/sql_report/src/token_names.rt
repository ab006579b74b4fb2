//! The names of raw tokens.
ghost use Rattle.std.specs.Prelude.{◌≡◌};
ghost use Rattle.sql_report.specs.TokenLines.{literal_name, token_name};

use squawk_table::{LiteralKind, TokenKind};

/// What a raw token is called: by the name of its kind, a literal by that of its own.
pub(crate) fn token_name(kind: TokenKind) -> &'static str
    ensures { result.now ≡ token_name kind }
{
    match kind {
        TokenKind::Unknown => "Unknown",
        TokenKind::LineComment => "LineComment",
        TokenKind::BlockComment { .. } => "BlockComment",
        TokenKind::Whitespace => "Whitespace",
        TokenKind::Ident => "Ident",
        TokenKind::QuotedIdent { .. } => "QuotedIdent",
        TokenKind::PsqlCommand { .. } => "PsqlCommand",
        TokenKind::PositionalParam { .. } => "PositionalParam",
        TokenKind::Literal { kind } => literal_name(kind),
        TokenKind::Semi => "Semi",
        TokenKind::Comma => "Comma",
        TokenKind::Dot => "Dot",
        TokenKind::DotDot => "DotDot",
        TokenKind::OpenParen => "OpenParen",
        TokenKind::CloseParen => "CloseParen",
        TokenKind::OpenBracket => "OpenBracket",
        TokenKind::CloseBracket => "CloseBracket",
        TokenKind::OpenCurly => "OpenCurly",
        TokenKind::CloseCurly => "CloseCurly",
        TokenKind::At => "At",
        TokenKind::Pound => "Pound",
        TokenKind::Tilde => "Tilde",
        TokenKind::Question => "Question",
        TokenKind::Colon => "Colon",
        TokenKind::Eq => "Eq",
        TokenKind::Bang => "Bang",
        TokenKind::Lt => "Lt",
        TokenKind::Gt => "Gt",
        TokenKind::Minus => "Minus",
        TokenKind::And => "And",
        TokenKind::Or => "Or",
        TokenKind::Plus => "Plus",
        TokenKind::Star => "Star",
        TokenKind::Slash => "Slash",
        TokenKind::Caret => "Caret",
        TokenKind::Percent => "Percent",
        TokenKind::Backtick => "Backtick",
        TokenKind::Eof => "Eof",
    }
}

/// What a literal is called.
fn literal_name(kind: LiteralKind) -> &'static str
    ensures { result.now ≡ literal_name kind }
{
    match kind {
        LiteralKind::Int { .. } => "Int",
        LiteralKind::Numeric { .. } => "Numeric",
        LiteralKind::Str { .. } => "Str",
        LiteralKind::NationalStr { .. } => "NationalStr",
        LiteralKind::ByteStr { .. } => "ByteStr",
        LiteralKind::BitStr { .. } => "BitStr",
        LiteralKind::DollarQuotedString { .. } => "DollarQuotedString",
        LiteralKind::UnicodeEscStr { .. } => "UnicodeEscStr",
        LiteralKind::EscStr { .. } => "EscStr",
    }
}
