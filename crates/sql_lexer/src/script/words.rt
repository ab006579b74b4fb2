//! The words that tell where a statement ends and whether data follow it.
ghost use Rattle.std.specs.Prelude.{◌≡◌, ◌<◌, ◌^◌, length, IsUtf8};
ghost use Rattle.sql_lexer.specs.ScriptWords as spec;

use crate::script::copy_commands::is_copy_command;
use crate::statements::Word;
use squawk_tokens::TokenKind;

/// What a token with this text is.
#[inline(always)]
pub(crate) fn word_of(kind: TokenKind, text: &[u8]) -> Word
    requires utf8 { IsUtf8 text.now }
    requires short { length text.now < 2 ^ 32 }
    ensures { result ≡ spec.word_of kind text.now }
{
    match kind {
        TokenKind::PsqlCommand { ends_query: false } if is_copy_command(text) => Word::CopyCommand,
        _ => plain_word(kind, text),
    }
}

/// The same, but any command that ends no query is like another.
#[inline(always)]
pub(crate) fn plain_word(kind: TokenKind, text: &[u8]) -> Word
    ensures { result ≡ spec.plain_word kind text.now }
{
    match kind {
        TokenKind::Whitespace | TokenKind::LineComment | TokenKind::BlockComment { .. } => {
            Word::Trivia
        }
        TokenKind::Ident => name_of(text),
        TokenKind::PsqlCommand { ends_query: true } => Word::QueryEnd,
        TokenKind::PsqlCommand { ends_query: false } => Word::Command,
        TokenKind::Semi => Word::Semicolon,
        TokenKind::OpenParen | TokenKind::OpenBracket => Word::Open,
        TokenKind::CloseParen | TokenKind::CloseBracket => Word::Close,
        TokenKind::Dot => Word::Dot,
        _ => Word::Other,
    }
}

/// What a name is.
#[inline(never)]
fn name_of(text: &[u8]) -> Word
    ensures { result ≡ spec.word_in spec.names text.now }
{
    if text.eq_ignore_ascii_case(b"as") {
        Word::As
    } else if text.eq_ignore_ascii_case(b"or") {
        Word::Or
    } else if text.eq_ignore_ascii_case(b"end") {
        Word::End
    } else if text.eq_ignore_ascii_case(b"copy") {
        Word::Copy
    } else if text.eq_ignore_ascii_case(b"from") {
        Word::From
    } else if text.eq_ignore_ascii_case(b"rule") {
        Word::Rule
    } else if text.eq_ignore_ascii_case(b"case") {
        Word::Case
    } else if text.eq_ignore_ascii_case(b"stdin") {
        Word::Stdin
    } else if text.eq_ignore_ascii_case(b"begin") {
        Word::Begin
    } else if text.eq_ignore_ascii_case(b"stdout") {
        Word::Stdin
    } else if text.eq_ignore_ascii_case(b"create") {
        Word::Create
    } else if text.eq_ignore_ascii_case(b"atomic") {
        Word::Atomic
    } else if text.eq_ignore_ascii_case(b"replace") {
        Word::Replace
    } else if text.eq_ignore_ascii_case(b"function") {
        Word::Function
    } else if text.eq_ignore_ascii_case(b"procedure") {
        Word::Procedure
    } else {
        Word::Other
    }
}
