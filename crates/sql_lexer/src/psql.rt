//! Commands of `psql`.
ghost use Rattle.std.specs.Prelude.{◌≡◌, ◌+◌, ◌<◌, ◌≤◌, ◌^◌, drop, length};
ghost use Rattle.std.specs.List.{prefix_len};
ghost use Rattle.sql_lexer.specs.Psql as spec;

use crate::bytes::{is_line_end, is_space};
use crate::comments::line_len;
use crate::signs::token;
use squawk_tokens::{Token, TokenKind};

/// What a byte of a command's arguments stands in.
#[derive(Clone, Copy)]
enum Quote {
    /// No quotes.
    Outside,
    Single,
    /// Single quotes, after a backslash.
    Escaped,
    Double,
    Back,
}

/// A backslash, the command's word, and its arguments.
pub(crate) fn psql_command(text: &[u8]) -> Option<Token>
    requires { length text.now < 2 ^ 32 }
    ensures { result ≡ spec.psql_command text.now }
{
    if text.len() < 2 || text[0] != b'\\' || !is_command_start(text[1]) {
        return None;
    }
    let kind = TokenKind::PsqlCommand {
        ends_query: ends_query(&text[1..]),
    };
    Some(token(kind, command_len(text)))
}

fn is_command_start(b: u8) -> bool
    ensures { result ≡ spec.is_command_start b }
{
    b.is_ascii_alphabetic() || matches!(b, b'!' | b'?' | b'.')
}

/// Whether the word in front is one that ends a query.
fn ends_query(text: &[u8]) -> bool
    ensures { result ≡ spec.ends_query text.now }
{
    matches!(
        &text[..word_len(text)],
        b"g" | b"gx" | b"gexec" | b"gset" | b"gdesc" | b"crosstabview" | b"watch"
    )
}

/// Whether the argument of the command in front is the rest of the line.
fn takes_line(text: &[u8]) -> bool
    ensures { result ≡ spec.takes_line text.now }
{
    let end = word_len(text);
    let word = &text[..end];
    takes_any_line(word) || (writes(word) && is_pipe(&text[end..])) || is_copy(word)
}

fn takes_any_line(word: &[u8]) -> bool
    ensures { result ≡ spec.takes_any_line word.now }
{
    matches!(
        word,
        b"!" | b"ef" | b"ev" | b"h" | b"help" | b"sf" | b"sf+" | b"sv" | b"sv+"
    )
}

/// Whether a command with the word writes to a file or a pipe.
fn writes(word: &[u8]) -> bool
    ensures { result ≡ spec.writes word.now }
{
    matches!(word, b"g" | b"gx" | b"o" | b"out" | b"w" | b"write")
}

pub(crate) fn is_copy(word: &[u8]) -> bool
    ensures { result ≡ spec.is_copy word.now }
{
    word.eq_ignore_ascii_case(b"copy")
}

/// Whether arguments begin with `|`.
fn is_pipe(arguments: &[u8]) -> bool
    ensures { result ≡ spec.is_pipe arguments.now }
{
    arguments[blanks_len(arguments)..].starts_with(b"|")
}

fn blanks_len(text: &[u8]) -> usize
    ensures len { result ≡ prefix_len spec.is_blank text.now }
    ensures within { result ≤ length text.now }
{
    text.iter().take_while(|b| is_blank(**b)).count()
}

fn is_blank(b: u8) -> bool
    ensures { result ≡ spec.is_blank b }
{
    is_space(b) && !is_line_end(b)
}

pub(crate) fn word_len(text: &[u8]) -> usize
    ensures len { result ≡ prefix_len spec.is_word_part text.now }
    ensures within { result ≤ length text.now }
{
    text.iter().take_while(|b| is_word_part(**b)).count()
}

fn is_word_part(b: u8) -> bool
    ensures { result ≡ spec.is_word_part b }
{
    !is_space(b) && b != b'\\'
}

/// How many bytes the command in front has, with its backslash.
#[tactic(auto, unfolding(crate::specs::Psql::command_len))]
fn command_len(text: &[u8]) -> usize
    requires { 0 < length text.now }
    ensures len { result ≡ spec.command_len text.now }
    ensures within { result ≤ length text.now }
{
    if takes_line(&text[1..]) {
        return line_len(text);
    }
    let at = 1 + word_len(&text[1..]);
    at + arguments_len(&text[at..])
}

/// How many bytes the arguments in front have, with the two backslashes that may end them.
fn arguments_len(text: &[u8]) -> usize
    ensures len { result ≡ spec.arguments_len text.now }
    ensures within { result ≤ length text.now }
{
    let end = arguments_end(text);
    if text[end..].starts_with(b"\\\\") {
        end + 2
    } else {
        end
    }
}

/// Where the line ends, or a backslash stands outside of quotes.
fn arguments_end(text: &[u8]) -> usize
    ensures end { result ≡ spec.arguments_end Quote.Outside text.now }
    ensures within { result ≤ length text.now }
{
    let mut quote = Quote::Outside;
    let mut at = 0;
    while at < text.len() {
        if ends_arguments(quote, text[at]) {
            return at;
        }
        quote = quote_after(quote, text[at]);
        at += 1;
    }
    at
}

fn ends_arguments(quote: Quote, b: u8) -> bool
    ensures { result ≡ spec.ends_arguments quote b }
{
    is_line_end(b) || (b == b'\\' && matches!(quote, Quote::Outside))
}

/// What the next byte stands in.
fn quote_after(quote: Quote, b: u8) -> Quote
    ensures { result ≡ spec.quote_after quote b }
{
    match (quote, b) {
        (Quote::Outside, b'\'') => Quote::Single,
        (Quote::Outside, b'"') => Quote::Double,
        (Quote::Outside, b'`') => Quote::Back,
        (Quote::Single, b'\\') => Quote::Escaped,
        (Quote::Escaped, _) => Quote::Single,
        (Quote::Single, b'\'') | (Quote::Double, b'"') | (Quote::Back, b'`') => Quote::Outside,
        _ => quote,
    }
}
