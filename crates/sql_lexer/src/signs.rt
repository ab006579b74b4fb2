//! White space and signs.
ghost use Rattle.std.specs.Prelude.{◌≡◌, ◌+◌, ◌<◌, ◌≤◌, ◌^◌, length, slice_index, IsTrue};
ghost use Rattle.std.specs.List.{prefix_len};
ghost use Rattle.sql_lexer.specs.Bytes as bytes;
ghost use Rattle.sql_lexer.specs.Rules as rules;
ghost use Rattle.sql_lexer.specs.Signs as spec;

use crate::bytes::is_space;
use squawk_tokens::TokenKind::{
    And, At, Backtick, Bang, Caret, CloseBracket, CloseCurly, CloseParen, Colon, Comma, Dot, Eq,
    Gt, Lt, Minus, OpenBracket, OpenCurly, OpenParen, Or, Percent, Plus, Pound, Question, Semi,
    Slash, Star, Tilde,
};
use squawk_tokens::{Token, TokenKind};

#[inline(always)]
pub(crate) fn token(kind: TokenKind, len: usize) -> Token
    requires { len < 2 ^ 32 }
    ensures { result ≡ rules.token kind len }
{
    Token {
        kind,
        len: len as u32,
    }
}

/// White space: as many of its bytes as there are.
#[inline(always)]
pub(crate) fn whitespace(text: &[u8]) -> Token
    requires space { IsTrue (bytes.is_space (slice_index text.now 0)) }
    requires short { length text.now < 2 ^ 32 }
    ensures { Some result ≡ spec.whitespace text.now }
{
    token(TokenKind::Whitespace, space_len(text))
}

#[inline(always)]
fn space_len(text: &[u8]) -> usize
    ensures len { result ≡ prefix_len bytes.is_space text.now }
    ensures within { result ≤ length text.now }
{
    text.iter().take_while(|b| is_space(**b)).count()
}

/// Whether the second byte is white space.
#[inline(always)]
pub(crate) fn is_space_second(text: &[u8]) -> bool
    ensures { result ≡ bytes.is_space (slice_index text.now 1) }
{
    match text.get(1) {
        Some(second) => is_space(*second),
        None => false,
    }
}

/// `..`
pub(crate) fn dot_dot(text: &[u8]) -> Option<Token>
    ensures { result ≡ spec.dot_dot text.now }
{
    if !text.starts_with(b"..") {
        return None;
    }
    Some(token(TokenKind::DotDot, 2))
}

/// A token of one byte: white space, a sign, or what is no other token.
#[inline(always)]
pub(crate) fn single(b: u8) -> Token
    requires { b < 128 }
    ensures { result ≡ spec.single b }
{
    token(SINGLE_KINDS[b as usize], 1)
}

const U: TokenKind = TokenKind::Unknown;

const S: TokenKind = TokenKind::Whitespace;

/// The kinds of tokens of one byte.
static SINGLE_KINDS: [TokenKind; 128] = [
    U,
    U,
    U,
    U,
    U,
    U,
    U,
    U,
    U,
    S,
    S,
    S,
    S,
    S,
    U,
    U,
    U,
    U,
    U,
    U,
    U,
    U,
    U,
    U,
    U,
    U,
    U,
    U,
    U,
    U,
    U,
    U,
    S,
    Bang,
    U,
    Pound,
    U,
    Percent,
    And,
    U,
    OpenParen,
    CloseParen,
    Star,
    Plus,
    Comma,
    Minus,
    Dot,
    Slash,
    U,
    U,
    U,
    U,
    U,
    U,
    U,
    U,
    U,
    U,
    Colon,
    Semi,
    Lt,
    Eq,
    Gt,
    Question,
    At,
    U,
    U,
    U,
    U,
    U,
    U,
    U,
    U,
    U,
    U,
    U,
    U,
    U,
    U,
    U,
    U,
    U,
    U,
    U,
    U,
    U,
    U,
    U,
    U,
    U,
    U,
    OpenBracket,
    U,
    CloseBracket,
    Caret,
    U,
    Backtick,
    U,
    U,
    U,
    U,
    U,
    U,
    U,
    U,
    U,
    U,
    U,
    U,
    U,
    U,
    U,
    U,
    U,
    U,
    U,
    U,
    U,
    U,
    U,
    U,
    U,
    U,
    OpenCurly,
    Or,
    CloseCurly,
    Tilde,
    U,
];
