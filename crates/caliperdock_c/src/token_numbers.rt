//! How raw tokens are written as numbers.
ghost use Rattle.std.specs.Prelude.{◌≡◌, ◌≢◌, Some, if◌then◌else◌};
ghost use Rattle.caliperdock_c.specs.TokenNumbers.{flag_if, literal_number, number_of, numbered};
ghost use Rattle.caliperdock_c.specs.Tokens.{token_of};
ghost use Rattle.squawk_tokens.specs.declared.token.TokenKind.TheVariants.{Eof};

use crate::token::CToken;
use squawk_parser::{LiteralKind, Token, TokenKind};

/// A raw token as numbers. The end of a text, which no list has, is 45.
#[tactic(auto, using(crate::proofs::ReadsBack::reads_back))]
pub fn number_of(token: &Token) -> CToken
    ensures number { result ≡ number_of token.now }
    // What is written reads back as the token.
    ensures reads_back { token.now.kind ≢ Eof → token_of (number_of token.now) ≡ Some token.now }
{
    let len = token.len;
    match token.kind {
        TokenKind::Unknown => numbered(0, len, 0, 0, 0),
        TokenKind::LineComment => numbered(1, len, 0, 0, 0),
        TokenKind::BlockComment { terminated } => numbered(2, len, 0, 0, flag_if(terminated, 1)),
        TokenKind::Whitespace => numbered(3, len, 0, 0, 0),
        TokenKind::Ident => numbered(4, len, 0, 0, 0),
        TokenKind::QuotedIdent {
            terminated,
            uescape,
        } => numbered(5, len, 0, 0, flag_if(terminated, 1) | flag_if(uescape, 2)),
        TokenKind::PsqlCommand { ends_query } => numbered(6, len, 0, 0, flag_if(ends_query, 4)),
        TokenKind::PositionalParam {
            trailing_junk_start,
        } => numbered(7, len, trailing_junk_start, 0, 0),
        TokenKind::Semi => numbered(8, len, 0, 0, 0),
        TokenKind::Comma => numbered(9, len, 0, 0, 0),
        TokenKind::Dot => numbered(10, len, 0, 0, 0),
        TokenKind::DotDot => numbered(11, len, 0, 0, 0),
        TokenKind::OpenParen => numbered(12, len, 0, 0, 0),
        TokenKind::CloseParen => numbered(13, len, 0, 0, 0),
        TokenKind::OpenBracket => numbered(14, len, 0, 0, 0),
        TokenKind::CloseBracket => numbered(15, len, 0, 0, 0),
        TokenKind::OpenCurly => numbered(16, len, 0, 0, 0),
        TokenKind::CloseCurly => numbered(17, len, 0, 0, 0),
        TokenKind::At => numbered(18, len, 0, 0, 0),
        TokenKind::Pound => numbered(19, len, 0, 0, 0),
        TokenKind::Tilde => numbered(20, len, 0, 0, 0),
        TokenKind::Question => numbered(21, len, 0, 0, 0),
        TokenKind::Colon => numbered(22, len, 0, 0, 0),
        TokenKind::Eq => numbered(23, len, 0, 0, 0),
        TokenKind::Bang => numbered(24, len, 0, 0, 0),
        TokenKind::Lt => numbered(25, len, 0, 0, 0),
        TokenKind::Gt => numbered(26, len, 0, 0, 0),
        TokenKind::Minus => numbered(27, len, 0, 0, 0),
        TokenKind::And => numbered(28, len, 0, 0, 0),
        TokenKind::Or => numbered(29, len, 0, 0, 0),
        TokenKind::Plus => numbered(30, len, 0, 0, 0),
        TokenKind::Star => numbered(31, len, 0, 0, 0),
        TokenKind::Slash => numbered(32, len, 0, 0, 0),
        TokenKind::Caret => numbered(33, len, 0, 0, 0),
        TokenKind::Percent => numbered(34, len, 0, 0, 0),
        TokenKind::Backtick => numbered(35, len, 0, 0, 0),
        TokenKind::Literal { kind } => literal_number(kind, len),
        TokenKind::Eof => numbered(45, len, 0, 0, 0),
    }
}

/// A literal of so many bytes.
fn literal_number(kind: LiteralKind, len: u32) -> CToken
    ensures { result ≡ literal_number kind len }
{
    match kind {
        LiteralKind::Int {
            empty_int,
            base,
            trailing_junk_start,
        } => numbered(
            36,
            len,
            trailing_junk_start,
            base.radix(),
            flag_if(empty_int, 8),
        ),
        LiteralKind::Numeric {
            empty_exponent_start: Some(exponent),
            trailing_junk_start,
        } => numbered(37, len, trailing_junk_start, exponent, 16),
        LiteralKind::Numeric {
            empty_exponent_start: None,
            trailing_junk_start,
        } => numbered(37, len, trailing_junk_start, 0, 0),
        LiteralKind::Str { terminated } => numbered(38, len, 0, 0, flag_if(terminated, 1)),
        LiteralKind::NationalStr { terminated } => numbered(39, len, 0, 0, flag_if(terminated, 1)),
        LiteralKind::ByteStr { terminated } => numbered(40, len, 0, 0, flag_if(terminated, 1)),
        LiteralKind::BitStr { terminated } => numbered(41, len, 0, 0, flag_if(terminated, 1)),
        LiteralKind::DollarQuotedString { terminated } => numbered(
            42,
            len,
            0,
            0,
            flag_if(terminated, 1),
        ),
        LiteralKind::UnicodeEscStr { terminated } => numbered(
            43,
            len,
            0,
            0,
            flag_if(terminated, 1),
        ),
        LiteralKind::EscStr { terminated } => numbered(44, len, 0, 0, flag_if(terminated, 1)),
    }
}

/// A flag that is set where this holds.
fn flag_if(holds: bool, flag: u32) -> u32
    ensures { result ≡ flag_if holds flag }
{
    if holds { flag } else { 0 }
}

fn numbered(kind: u32, len: u32, a: u32, b: u32, flags: u32) -> CToken
    ensures { result ≡ numbered kind len a b flags }
{
    CToken {
        kind,
        len,
        a,
        b,
        flags,
    }
}
