//! The words of a text of rules.
ghost use Rattle.std.specs.Prelude.{◌≡◌, ◌≤◌, false, get_or, length, true, IfOk, IsCharBoundary};
ghost use Rattle.std.specs.Char.{is_ascii_lowercase};
ghost use Rattle.std.specs.List.{list_any};
ghost use Rattle.squawk_tokens.specs.AcceptedTokens.{AreAcceptedTokens, IsGoodToken};
ghost use Rattle.rule_text.specs.Words.{AreWords, IsWordOf, Unquoted, case_of, first_sort, is_first, is_quoted, is_trivia, name_sort, sort_of};

use rule_parts::Name;
use squawk_tokens::{LiteralKind, Token, TokenKind};
use std::alloc::{AllocError, Global};

/// What a word is.
#[derive(Clone, Copy, Debug, PartialEq, Eq)]
pub(crate) enum Sort {
    /// The name of a rule, in front of a line.
    Rule,
    /// `class`, in front of a line.
    ClassOf,
    /// `words`, in front of a line.
    WordsOf,
    /// `guard`, in front of a line.
    GuardOf,
    /// `left`
    Left,
    /// `right`
    Right,
    /// `none`
    Neither,
    /// A name that begins with a small letter: of a rule.
    Call,
    /// A name with capital and small letters: of a class.
    Class,
    /// A name in capitals, or a spelling in quotes.
    Kind,
    /// `"a message"`
    Message,
    /// `_`
    Operand,
    /// `=`
    Equals,
    /// `>`
    Greater,
    /// `|`
    Or,
    /// `/`
    Slash,
    /// `@`
    At,
    /// `&`
    And,
    /// `~`
    Tilde,
    /// `?`
    Question,
    /// `*`
    Star,
    /// `+`
    Plus,
    /// `-`
    Minus,
    /// `%`
    Percent,
    /// `(`
    OpenParen,
    /// `)`
    CloseParen,
    /// `{`
    OpenBrace,
    /// `}`
    CloseBrace,
    /// Any other token.
    Other,
    /// The end of the text.
    End,
}

/// A word.
#[derive(Clone, Copy, Debug, PartialEq, Eq)]
pub(crate) struct Word<'t> {
    pub(crate) sort: Sort,
    pub(crate) name: Name<'t>,
}

/// The words of a text with these tokens: those that are neither white space nor comments.
pub(crate) fn words_of<'t>(
    alloc: Global,
    text: &'t str,
    tokens: &[Token],
) -> Result<Vec<Word<'t>>, AllocError>
    requires { AreAcceptedTokens text.now tokens.now }
    ensures { IfOk result (λ words. AreWords text.now tokens.now (length tokens.now) words.items) }
{
    let mut words = Vec::new(alloc);
    let mut at = 0usize;
    for token in tokens {
        if !is_trivia(&token.kind) {
            words.push(word_at(text, token, at))?;
        }
        at += token.len as usize;
    }
    Ok(words)
}

fn is_trivia(kind: &TokenKind) -> bool
    ensures { result ≡ is_trivia kind.now }
{
    matches!(
        kind,
        TokenKind::Whitespace | TokenKind::LineComment | TokenKind::BlockComment { .. }
    )
}

/// The word that a token is which begins at a byte.
fn word_at<'t>(text: &'t str, token: &Token, at: usize) -> Word<'t>
    requires begins { IsCharBoundary text.now at }
    requires good { IsGoodToken text.now at token.now }
    ensures { IsWordOf text.now at token.now result }
{
    let spelled = &text[at..at + token.len as usize];
    Word {
        sort: sort_of(&token.kind, spelled, is_first(text.as_bytes(), at)),
        name: Name {
            text: content(&token.kind, spelled),
            at,
        },
    }
}

/// Whether a byte is the first one of a line.
fn is_first(text: &[u8], at: usize) -> bool
    requires { at ≤ length text.now }
    ensures { result ≡ is_first text.now at }
{
    at == 0 || text[at - 1] == b'\n'
}

/// The text of a token, without the quotes around it.
fn content<'t>(kind: &TokenKind, text: &'t str) -> &'t str
    ensures plain { is_quoted kind.now ≡ false → result.now ≡ text.now }
    ensures quoted { is_quoted kind.now ≡ true → Unquoted text.now result.now }
{
    match kind {
        TokenKind::QuotedIdent { .. } | TokenKind::Literal { .. } => unquoted(text),
        _ => text,
    }
}

/// A text without its first and last byte, where these are whole characters.
fn unquoted(text: &str) -> &str
    ensures { Unquoted text.now result.now }
{
    match text.get(1..text.len().saturating_sub(1)) {
        Some(inside) => inside,
        None => text,
    }
}

fn sort_of(kind: &TokenKind, text: &str, is_first: bool) -> Sort
    ensures { result ≡ sort_of kind.now text.now is_first }
{
    match kind {
        TokenKind::Ident => name_sort(text, is_first),
        TokenKind::QuotedIdent {
            terminated: true,
            uescape: false,
        } => Sort::Message,
        TokenKind::Literal {
            kind: LiteralKind::Str { terminated: true },
        } => Sort::Kind,
        TokenKind::Eq => Sort::Equals,
        TokenKind::Gt => Sort::Greater,
        TokenKind::Or => Sort::Or,
        TokenKind::Slash => Sort::Slash,
        TokenKind::At => Sort::At,
        TokenKind::And => Sort::And,
        TokenKind::Tilde => Sort::Tilde,
        TokenKind::Question => Sort::Question,
        TokenKind::Star => Sort::Star,
        TokenKind::Plus => Sort::Plus,
        TokenKind::Minus => Sort::Minus,
        TokenKind::Percent => Sort::Percent,
        TokenKind::OpenParen => Sort::OpenParen,
        TokenKind::CloseParen => Sort::CloseParen,
        TokenKind::OpenCurly => Sort::OpenBrace,
        TokenKind::CloseCurly => Sort::CloseBrace,
        _ => Sort::Other,
    }
}

/// What a name is, and whether it is in front of a line.
fn name_sort(name: &str, is_first: bool) -> Sort
    ensures { result ≡ name_sort name.now is_first }
{
    if name == "_" {
        Sort::Operand
    } else if name == "left" {
        Sort::Left
    } else if name == "right" {
        Sort::Right
    } else if name == "none" {
        Sort::Neither
    } else if is_first {
        first_sort(name)
    } else {
        case_of(name.as_bytes())
    }
}

/// What a name is in front of a line.
fn first_sort(name: &str) -> Sort
    ensures { result ≡ first_sort name.now }
{
    if name == "class" {
        Sort::ClassOf
    } else if name == "words" {
        Sort::WordsOf
    } else if name == "guard" {
        Sort::GuardOf
    } else if begins_small(name.as_bytes()) {
        Sort::Rule
    } else {
        case_of(name.as_bytes())
    }
}

/// What a name names, by the case of its letters.
fn case_of(name: &[u8]) -> Sort
    ensures { result ≡ case_of name.now }
{
    if begins_small(name) {
        Sort::Call
    } else if has_small(name) {
        Sort::Class
    } else {
        Sort::Kind
    }
}

/// Whether a name has a small letter, and whether it begins with one.
fn has_small(name: &[u8]) -> bool
    ensures { result ≡ list_any is_ascii_lowercase name.now }
{
    name.iter().any(|byte| byte.is_ascii_lowercase())
}

fn begins_small(name: &[u8]) -> bool
    ensures { result ≡ is_ascii_lowercase (get_or name.now 0 0) }
{
    match name.first() {
        Some(byte) => byte.is_ascii_lowercase(),
        None => false,
    }
}
