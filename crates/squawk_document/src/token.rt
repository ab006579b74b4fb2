//! Reads the raw tokens of a document.
ghost use Rattle.std.specs.Prelude.{◌≡◌, map, IfOk, IfErr};
ghost use Rattle.serde_json.specs.View.{view};
ghost use Rattle.squawk_document.specs.declared.document_error.DocumentError.TheVariants.{Shape};
ghost use Rattle.squawk_document.specs.Values.{Gives, GivesExactly};
ghost use Rattle.squawk_document.specs.TokenShapes.{spelled_token, token_in, tokens_in};
ghost use Rattle.squawk_document.specs.WrittenTokens.{IsNoToken, IsNoTokens, written_token, written_tokens};

mod field;
mod kind;

use crate::document_error::DocumentError;
use crate::token::kind::kind;
use crate::value::{items, string, u32_of};
use serde_json::Value;
use squawk_tokens::Token;
use std::alloc::Global;

/// Reads raw tokens: an array of them.
pub fn tokens(alloc: Global, value: &Value) -> Result<Vec<Token>, DocumentError>
    ensures reads { Gives (λ v. v.items) result (tokens_in (view value.now)) }
    ensures written { IfOk result (λ v. view value.now ≡ written_tokens v.items) }
    ensures unwritten { IfErr result (λ e. e ≡ Shape → IsNoTokens (view value.now)) }
{
    let items = items(value)?;
    let mut tokens = Vec::with_capacity(alloc, items.len())?;
    for item in items {
        tokens.push_reserved(token(item)?);
    }
    Ok(tokens)
}

/// Reads a raw token: an array of its spelling, its length and its fields.
pub fn token(value: &Value) -> Result<Token, DocumentError>
    ensures reads { GivesExactly (λ t. t) result (token_in (view value.now)) }
    ensures written { IfOk result (λ t. view value.now ≡ written_token t) }
    ensures unwritten { IfErr result (λ _. IsNoToken (view value.now)) }
{
    spelled_token(items(value)?)
}

/// Reads a raw token from its spelling, its length in bytes and its fields.
fn spelled_token(items: &[Value]) -> Result<Token, DocumentError>
    ensures { GivesExactly (λ t. t) result (spelled_token (map view items.now)) }
{
    match items {
        [spelling, len, fields @ ..] => {
            let spelling = string(spelling)?;
            let len = u32_of(len)?;
            let kind = kind(spelling, fields)?;
            Ok(Token { kind, len })
        }
        _ => Err(DocumentError::Shape),
    }
}
