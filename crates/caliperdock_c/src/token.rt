//! Raw tokens as numbers.
ghost use Rattle.std.specs.Prelude.{◌≡◌, Some, map, IfOk, IfErr};
ghost use Rattle.caliperdock_c.specs.Refusals.{RefusesTokenNumbers};
ghost use Rattle.caliperdock_c.specs.Tokens.{base_of, kind_of, token_of};

use crate::answer::Refusal;
use squawk_parser::{Base, LiteralKind, Token, TokenKind};
use std::alloc::Global;

/// A raw token as numbers: its kind's, its length in bytes, and its kind's fields.
///
/// `a` is where the junk of a number or a positional parameter starts, `b` the base of an integer or
/// the place of an empty exponent. The bits of `flags`: 1 terminated, 2 with `U&`, 4 ends a query,
/// 8 an integer without digits, 16 an empty exponent. Fields and bits that the kind doesn't have
/// aren't read; a bit that no kind has is none.
#[repr(C)]
#[derive(Clone, Copy)]
pub struct CToken {
    pub kind: u32,
    pub len: u32,
    pub a: u32,
    pub b: u32,
    pub flags: u32,
}

/// The raw tokens that are written so.
#[tactic(auto, using(crate::proofs::Unknowns::first_token))]
pub fn raw_tokens(alloc: Global, tokens: &[CToken]) -> Result<Vec<Token>, Refusal>
    ensures tokens { IfOk result (λ all. map Some all.items ≡ map token_of tokens.now) }
    ensures refused { IfErr result (RefusesTokenNumbers tokens.now) }
{
    let mut all = Vec::with_capacity(alloc, tokens.len())?;
    for (index, token) in tokens.iter().enumerate() {
        match raw_token(token) {
            Some(token) => all.push_reserved(token),
            None => return Err(Refusal::UnknownToken { index }),
        }
    }
    Ok(all)
}

/// The raw token that is written so.
#[inline(always)]
fn raw_token(token: &CToken) -> Option<Token>
    ensures { result ≡ token_of token.now }
{
    if token.flags >= 32 {
        return None;
    }
    match raw_kind(token) {
        Some(kind) => Some(Token {
            kind,
            len: token.len,
        }),
        None => None,
    }
}

/// The kinds without fields, at their numbers. The places of others aren't read.
static PLAIN_KINDS: [TokenKind; 36] = [
    TokenKind::Unknown,
    TokenKind::LineComment,
    TokenKind::Unknown,
    TokenKind::Whitespace,
    TokenKind::Ident,
    TokenKind::Unknown,
    TokenKind::Unknown,
    TokenKind::Unknown,
    TokenKind::Semi,
    TokenKind::Comma,
    TokenKind::Dot,
    TokenKind::DotDot,
    TokenKind::OpenParen,
    TokenKind::CloseParen,
    TokenKind::OpenBracket,
    TokenKind::CloseBracket,
    TokenKind::OpenCurly,
    TokenKind::CloseCurly,
    TokenKind::At,
    TokenKind::Pound,
    TokenKind::Tilde,
    TokenKind::Question,
    TokenKind::Colon,
    TokenKind::Eq,
    TokenKind::Bang,
    TokenKind::Lt,
    TokenKind::Gt,
    TokenKind::Minus,
    TokenKind::And,
    TokenKind::Or,
    TokenKind::Plus,
    TokenKind::Star,
    TokenKind::Slash,
    TokenKind::Caret,
    TokenKind::Percent,
    TokenKind::Backtick,
];

/// The kind that is written so.
fn raw_kind(token: &CToken) -> Option<TokenKind>
    ensures { result ≡ kind_of token.now }
{
    let flags = token.flags;
    let terminated = flags & 1 != 0;
    match token.kind {
        0..=1 | 3..=4 | 8..=35 => Some(PLAIN_KINDS[token.kind as usize]),
        2 => Some(TokenKind::BlockComment { terminated }),
        5 => Some(TokenKind::QuotedIdent {
            terminated,
            uescape: flags & 2 != 0,
        }),
        6 => Some(TokenKind::PsqlCommand {
            ends_query: flags & 4 != 0,
        }),
        7 => Some(TokenKind::PositionalParam {
            trailing_junk_start: token.a,
        }),
        36 => match base(token.b) {
            Some(base) => Some(TokenKind::Literal {
                kind: LiteralKind::Int {
                    empty_int: flags & 8 != 0,
                    base,
                    trailing_junk_start: token.a,
                },
            }),
            None => None,
        },
        37 => Some(TokenKind::Literal {
            kind: LiteralKind::Numeric {
                empty_exponent_start: if flags & 16 != 0 { Some(token.b) } else { None },
                trailing_junk_start: token.a,
            },
        }),
        38 => Some(TokenKind::Literal {
            kind: LiteralKind::Str { terminated },
        }),
        39 => Some(TokenKind::Literal {
            kind: LiteralKind::NationalStr { terminated },
        }),
        40 => Some(TokenKind::Literal {
            kind: LiteralKind::ByteStr { terminated },
        }),
        41 => Some(TokenKind::Literal {
            kind: LiteralKind::BitStr { terminated },
        }),
        42 => Some(TokenKind::Literal {
            kind: LiteralKind::DollarQuotedString { terminated },
        }),
        43 => Some(TokenKind::Literal {
            kind: LiteralKind::UnicodeEscStr { terminated },
        }),
        44 => Some(TokenKind::Literal {
            kind: LiteralKind::EscStr { terminated },
        }),
        45.. => None,
    }
}

fn base(number: u32) -> Option<Base>
    ensures { result ≡ base_of number }
{
    match number {
        2 => Some(Base::Binary),
        8 => Some(Base::Octal),
        10 => Some(Base::Decimal),
        16 => Some(Base::Hexadecimal),
        _ => None,
    }
}
