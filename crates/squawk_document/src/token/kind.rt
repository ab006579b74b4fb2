//! Reads the kinds of raw tokens, from their spellings and fields.
ghost use Rattle.std.specs.Prelude.{map};
ghost use Rattle.serde_json.specs.View.{view};
ghost use Rattle.squawk_document.specs.Values.{GivesExactly};
ghost use Rattle.squawk_document.specs.TokenShapes.{spelled_kind, kind_of_one, kind_of_three, kind_of_two, operator_sign, plain_kind, punctuation, quoted_literal};

use crate::document_error::DocumentError;
use crate::token::field::{base, offset};
use crate::value::{boolean, u32_of};
use serde_json::Value;
use squawk_tokens::{LiteralKind, TokenKind};

/// Reads a kind from its spelling and all its fields.
pub fn kind(spelling: &str, fields: &[Value]) -> Result<TokenKind, DocumentError>
    ensures { GivesExactly (λ k. k) result (spelled_kind spelling.now (map view fields.now)) }
{
    match fields {
        [] => plain_kind(spelling),
        [a] => kind_of_one(spelling, a),
        [a, b] => kind_of_two(spelling, a, b),
        [a, b, c] => kind_of_three(spelling, a, b, c),
        _ => Err(DocumentError::Shape),
    }
}

/// A kind without fields.
fn plain_kind(spelling: &str) -> Result<TokenKind, DocumentError>
    ensures { GivesExactly (λ k. k) result (plain_kind spelling.now) }
{
    match spelling {
        "unknown" => Ok(TokenKind::Unknown),
        "line_comment" => Ok(TokenKind::LineComment),
        "whitespace" => Ok(TokenKind::Whitespace),
        "ident" => Ok(TokenKind::Ident),
        "eof" => Ok(TokenKind::Eof),
        _ => punctuation(spelling),
    }
}

/// A sign that separates or encloses, or a sign of operators.
fn punctuation(spelling: &str) -> Result<TokenKind, DocumentError>
    ensures { GivesExactly (λ k. k) result (punctuation spelling.now) }
{
    match spelling {
        "semi" => Ok(TokenKind::Semi),
        "comma" => Ok(TokenKind::Comma),
        "dot" => Ok(TokenKind::Dot),
        "dot_dot" => Ok(TokenKind::DotDot),
        "open_paren" => Ok(TokenKind::OpenParen),
        "close_paren" => Ok(TokenKind::CloseParen),
        "open_bracket" => Ok(TokenKind::OpenBracket),
        "close_bracket" => Ok(TokenKind::CloseBracket),
        "open_curly" => Ok(TokenKind::OpenCurly),
        "close_curly" => Ok(TokenKind::CloseCurly),
        "colon" => Ok(TokenKind::Colon),
        _ => operator_sign(spelling),
    }
}

/// A sign that operators consist of.
fn operator_sign(spelling: &str) -> Result<TokenKind, DocumentError>
    ensures { GivesExactly (λ k. k) result (operator_sign spelling.now) }
{
    match spelling {
        "at" => Ok(TokenKind::At),
        "pound" => Ok(TokenKind::Pound),
        "tilde" => Ok(TokenKind::Tilde),
        "question" => Ok(TokenKind::Question),
        "eq" => Ok(TokenKind::Eq),
        "bang" => Ok(TokenKind::Bang),
        "lt" => Ok(TokenKind::Lt),
        "gt" => Ok(TokenKind::Gt),
        "minus" => Ok(TokenKind::Minus),
        "and" => Ok(TokenKind::And),
        "or" => Ok(TokenKind::Or),
        "plus" => Ok(TokenKind::Plus),
        "star" => Ok(TokenKind::Star),
        "slash" => Ok(TokenKind::Slash),
        "caret" => Ok(TokenKind::Caret),
        "percent" => Ok(TokenKind::Percent),
        "backtick" => Ok(TokenKind::Backtick),
        _ => Err(DocumentError::Shape),
    }
}

/// A kind with one field.
fn kind_of_one(spelling: &str, a: &Value) -> Result<TokenKind, DocumentError>
    ensures { GivesExactly (λ k. k) result (kind_of_one spelling.now (view a.now)) }
{
    match spelling {
        "block_comment" => Ok(TokenKind::BlockComment {
            terminated: boolean(a)?,
        }),
        "psql_command" => Ok(TokenKind::PsqlCommand {
            ends_query: boolean(a)?,
        }),
        "positional_param" => Ok(TokenKind::PositionalParam {
            trailing_junk_start: u32_of(a)?,
        }),
        _ => Ok(TokenKind::Literal {
            kind: quoted_literal(spelling, boolean(a)?)?,
        }),
    }
}

/// A literal whose only field is whether it is terminated.
fn quoted_literal(spelling: &str, terminated: bool) -> Result<LiteralKind, DocumentError>
    ensures { GivesExactly (λ k. k) result (quoted_literal spelling.now terminated) }
{
    match spelling {
        "str" => Ok(LiteralKind::Str { terminated }),
        "national_str" => Ok(LiteralKind::NationalStr { terminated }),
        "byte_str" => Ok(LiteralKind::ByteStr { terminated }),
        "bit_str" => Ok(LiteralKind::BitStr { terminated }),
        "dollar_quoted_string" => Ok(LiteralKind::DollarQuotedString { terminated }),
        "unicode_esc_str" => Ok(LiteralKind::UnicodeEscStr { terminated }),
        "esc_str" => Ok(LiteralKind::EscStr { terminated }),
        _ => Err(DocumentError::Shape),
    }
}

/// A kind with two fields.
fn kind_of_two(spelling: &str, a: &Value, b: &Value) -> Result<TokenKind, DocumentError>
    ensures { GivesExactly (λ k. k) result (kind_of_two spelling.now (view a.now) (view b.now)) }
{
    match spelling {
        "quoted_ident" => Ok(TokenKind::QuotedIdent {
            terminated: boolean(a)?,
            uescape: boolean(b)?,
        }),
        "numeric" => Ok(TokenKind::Literal {
            kind: LiteralKind::Numeric {
                empty_exponent_start: offset(a)?,
                trailing_junk_start: u32_of(b)?,
            },
        }),
        _ => Err(DocumentError::Shape),
    }
}

/// The only kind with three fields.
fn kind_of_three(
    spelling: &str,
    a: &Value,
    b: &Value,
    c: &Value,
) -> Result<TokenKind, DocumentError>
    ensures { GivesExactly (λ k. k) result (kind_of_three spelling.now (view a.now) (view b.now) (view c.now)) }
{
    match spelling {
        "int" => Ok(TokenKind::Literal {
            kind: LiteralKind::Int {
                empty_int: boolean(a)?,
                base: base(b)?,
                trailing_junk_start: u32_of(c)?,
            },
        }),
        _ => Err(DocumentError::Shape),
    }
}
