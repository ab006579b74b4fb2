//! Strings that can't go on with the one before them.
ghost use Rattle.std.specs.Prelude.{◌≡◌, IfOk};
ghost use Rattle.std.specs.List.{list_any};
ghost use Rattle.squawk_tokens.specs.AcceptedTokens.{AreAcceptedTokens};
ghost use Rattle.sql_lexer.specs.Bytes.{is_line_end};
ghost use Rattle.sql_grammar.specs.StrayStrings.{is_block_comment, is_plain, is_quoted, is_space, is_trivia, stray_strings};
ghost use Rattle.sql_grammar.specs.StringStates.{after_comment, after_token, after_trivia, is_apart, is_on_line};

use squawk_tokens::{LiteralKind, Token, TokenKind};
use std::alloc::{AllocError, Global};

/// What stands before a token, as far as strings go.
#[derive(Clone, Copy)]
enum Before {
    /// No string.
    NoString,
    /// A string on the same line.
    SameLine,
    /// A string on a line before.
    LineBefore,
    /// A string, and a comment in `/*` and `*/`, after which no string goes on.
    Comment,
}

/// Tells of each token that isn't trivia whether it is a string that stands on the line of the string before it, or after
/// a comment in `/*` and `*/`, so that it doesn't go on with it.
///
/// By PostgreSQL's documentation, section 4.1.2.1 "String Constants", a string goes on after white space with a newline.
pub fn stray_strings(alloc: Global, text: &str, tokens: &[Token]) -> Result<Vec<bool>, AllocError>
    requires { AreAcceptedTokens text.now tokens.now }
    ensures { IfOk result (λ strays. strays.items ≡ stray_strings text.now tokens.now) }
{
    let mut strays = Vec::with_capacity(alloc, tokens.len())?;
    let mut before = Before::NoString;
    let mut at = 0;
    for token in tokens {
        let end = at + token.len as usize;
        if is_trivia(&token.kind) {
            before = before.after_trivia(&token.kind, &text.as_bytes()[at..end]);
        } else {
            strays.push(is_plain(&token.kind) && before.is_apart())?;
            before = Before::after_token(&token.kind);
        }
        at = end;
    }
    Ok(strays)
}

impl Before {
    /// What stands before the token after trivia of this kind.
    fn after_trivia(self, kind: &TokenKind, text: &[u8]) -> Before
        ensures { result ≡ after_trivia self kind.now text.now }
    {
        if is_block_comment(kind) {
            self.after_comment()
        } else if self.is_on_line() && is_space(kind) && has_line_end(text) {
            Before::LineBefore
        } else {
            self
        }
    }

    /// What stands before the token after another of this kind.
    fn after_token(kind: &TokenKind) -> Before
        ensures { result ≡ after_token kind.now }
    {
        if is_quoted(kind) {
            Before::SameLine
        } else {
            Before::NoString
        }
    }

    /// Whether it is a string on the same line.
    fn is_on_line(self) -> bool
        ensures { result ≡ is_on_line self }
    {
        matches!(self, Before::SameLine)
    }

    /// What stands before the token after a comment in `/*` and `*/`.
    fn after_comment(self) -> Before
        ensures { result ≡ after_comment self }
    {
        match self {
            Before::NoString => Before::NoString,
            _ => Before::Comment,
        }
    }

    /// Whether a string can't go on with what stands before.
    fn is_apart(self) -> bool
        ensures { result ≡ is_apart self }
    {
        matches!(self, Before::SameLine | Before::Comment)
    }
}

fn is_trivia(kind: &TokenKind) -> bool
    ensures { result ≡ is_trivia kind.now }
{
    matches!(
        *kind,
        TokenKind::Whitespace | TokenKind::LineComment | TokenKind::BlockComment { .. }
    )
}

fn is_space(kind: &TokenKind) -> bool
    ensures { result ≡ is_space kind.now }
{
    matches!(*kind, TokenKind::Whitespace)
}

fn is_block_comment(kind: &TokenKind) -> bool
    ensures { result ≡ is_block_comment kind.now }
{
    matches!(*kind, TokenKind::BlockComment { .. })
}

/// Whether a token is a string in quotes.
fn is_quoted(kind: &TokenKind) -> bool
    ensures { result ≡ is_quoted kind.now }
{
    matches!(
        *kind,
        TokenKind::Literal {
            kind: LiteralKind::Str { .. }
                | LiteralKind::NationalStr { .. }
                | LiteralKind::ByteStr { .. }
                | LiteralKind::BitStr { .. }
                | LiteralKind::EscStr { .. }
                | LiteralKind::UnicodeEscStr { .. },
        }
    )
}

/// Whether it is one without a prefix.
fn is_plain(kind: &TokenKind) -> bool
    ensures { result ≡ is_plain kind.now }
{
    matches!(
        *kind,
        TokenKind::Literal {
            kind: LiteralKind::Str { .. },
        }
    )
}

/// Whether a line ends in some bytes.
fn has_line_end(bytes: &[u8]) -> bool
    ensures { result ≡ list_any is_line_end bytes.now }
{
    for b in bytes {
        if matches!(*b, b'\n' | b'\r') {
            return true;
        }
    }
    false
}
