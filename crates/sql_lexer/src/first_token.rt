//! The token that begins a text.
ghost use Rattle.std.specs.Prelude.{◌≡◌, ◌<◌, ◌^◌, length, slice_index, IsTrue};
ghost use Rattle.sql_lexer.specs.Bytes as bytes;
ghost use Rattle.sql_lexer.specs.Pushes.{Pushes};
ghost use Rattle.sql_lexer.specs.Tokens as spec;

use crate::bytes::{is_name_start, is_space, stands_alone};
use crate::comments::{block_comment, line_comment};
use crate::dollar_quotes::dollar_quote;
use crate::identifiers::{long_name, short_name};
use crate::numbers::{number, parameter, point_number};
use crate::psql::psql_command;
use crate::signs::{dot_dot, is_space_second, single, whitespace};
use crate::strings::{quoted_identifier, string};
use squawk_tokens::Token;
use std::alloc::AllocError;

/// Adds the token by the first rule that fits, and gives it. The first byte tells which rules may fit.
///
/// Most tokens are names, a single byte of white space and bytes that stand alone. They are added on paths of
/// their own, where most of the token is a constant, with few jumps: which token comes next can't be foretold.
#[inline(always)]
pub(crate) fn push_first(tokens: &mut Vec<Token>, text: &[u8]) -> Result<Token, AllocError>
    requires some { 0 < length text.now }
    requires short { length text.now < 2 ^ 32 }
    ensures { Pushes tokens.old.items (spec.first_token text.now) tokens.new.items result }
{
    let b = text[0];
    if is_name_start(b) {
        return match long_name(text) {
            Some(name) => push(tokens, name),
            None => push(tokens, short_name(text)),
        };
    }
    let space = is_space(b);
    if space & is_space_second(text) {
        return push(tokens, whitespace(text));
    }
    if space | stands_alone(b) {
        return push(tokens, single(b));
    }
    push(tokens, one_of_several(text))
}

/// The token that begins a text, for calls that are rare.
pub(crate) fn token_in_front(text: &[u8]) -> Token
    requires some { 0 < length text.now }
    requires short { length text.now < 2 ^ 32 }
    ensures { result ≡ spec.first_token text.now }
{
    let b = text[0];
    if is_name_start(b) {
        return match long_name(text) {
            Some(name) => name,
            None => short_name(text),
        };
    }
    let space = is_space(b);
    if space & is_space_second(text) {
        return whitespace(text);
    }
    if space | stands_alone(b) {
        return single(b);
    }
    one_of_several(text)
}

/// Adds a token, and gives it.
#[inline(always)]
pub(crate) fn push(tokens: &mut Vec<Token>, token: Token) -> Result<Token, AllocError>
    ensures { Pushes tokens.old.items token tokens.new.items result }
{
    tokens.push(token)?;
    Ok(token)
}

/// The token where the first byte begins several.
fn one_of_several(text: &[u8]) -> Token
    requires several { IsTrue (bytes.begins_several (slice_index text.now 0)) }
    requires short { length text.now < 2 ^ 32 }
    ensures { result ≡ spec.first_token text.now }
{
    let b = text[0];
    if b.is_ascii_digit() {
        return number(text);
    }
    match b {
        b'"' => quoted_identifier(text),
        b'-' => line_comment(text).unwrap_or(single(b)),
        b'/' => block_comment(text).unwrap_or(single(b)),
        b'\\' => psql_command(text).unwrap_or(single(b)),
        b'$' => parameter(text)
            .or_else(|| dollar_quote(text))
            .unwrap_or(single(b)),
        b'.' => point_number(text)
            .or_else(|| dot_dot(text))
            .unwrap_or(single(b)),
        // A single quote.
        _ => string(text),
    }
}
