//! Dollar-quoted string constants.
ghost use Rattle.std.specs.Prelude.{◌≡◌, ◌+◌, ◌<◌, ◌≤◌, ◌^◌, length, slice_index, IfSome, IsSome};
ghost use Rattle.std.specs.List.{prefix_len};
ghost use Rattle.sql_lexer.specs.Bytes as bytes;
ghost use Rattle.sql_lexer.specs.DollarQuotes as spec;

use crate::bytes::{is_name_start, is_tag_part};
use crate::signs::token;
use squawk_tokens::{LiteralKind, Token, TokenKind};

const DOLLAR: u8 = b'$';

/// `$tag$text$tag$`
pub(crate) fn dollar_quote(text: &[u8]) -> Option<Token>
    requires { length text.now < 2 ^ 32 }
    ensures { result ≡ spec.dollar_quote text.now }
{
    let len = tag_len(text)?;
    Some(match first_end(&text[..len], &text[len..]) {
        Some(end) => {
            let kind = LiteralKind::DollarQuotedString { terminated: true };
            token(TokenKind::Literal { kind }, len + end)
        }
        None => {
            let kind = LiteralKind::DollarQuotedString { terminated: false };
            token(TokenKind::Literal { kind }, text.len())
        }
    })
}

/// How many bytes the tag in front has with its dollar signs, if there is one.
fn tag_len(text: &[u8]) -> Option<usize>
    ensures len { result ≡ spec.tag_len text.now }
    ensures within { IfSome result (λ len. (0 < len) × (len ≤ length text.now)) }
    ensures dollar { IsSome result → slice_index text.now 0 ≡ DOLLAR }
{
    let (first, rest) = text.split_first()?;
    let len = name_len(rest);
    if *first == DOLLAR && len < rest.len() && rest[len] == DOLLAR {
        return Some(len + 2);
    }
    None
}

/// How many bytes the name of a tag has.
fn name_len(text: &[u8]) -> usize
    ensures len { result ≡ spec.name_len text.now }
    ensures within { result ≤ length text.now }
{
    match text.first() {
        Some(first) if is_name_start(*first) => tag_part_len(text),
        _ => 0,
    }
}

fn tag_part_len(text: &[u8]) -> usize
    ensures len { result ≡ prefix_len bytes.is_tag_part text.now }
    ensures within { result ≤ length text.now }
{
    text.iter().take_while(|b| is_tag_part(**b)).count()
}

/// Where the first occurrence of a tag ends.
///
/// A tag has a dollar sign at its ends alone, so a comparison that begins at one ends at the next one at
/// the latest: each byte is looked at three times at most.
#[tactic(auto, using(crate::proofs::TagEnds::tag_passes, crate::proofs::TagEnds::tag_needs_dollar))]
fn first_end(tag: &[u8], text: &[u8]) -> Option<usize>
    requires { slice_index tag.now 0 ≡ DOLLAR }
    ensures end { result ≡ spec.first_end tag.now text.now }
    ensures within { IfSome result (λ end. end ≤ length text.now) }
{
    for at in 0..text.len() {
        if text[at] == DOLLAR && text[at..].starts_with(tag) {
            return Some(at + tag.len());
        }
    }
    None
}
