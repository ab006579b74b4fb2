//! Reads fields of raw tokens.
ghost use Rattle.serde_json.specs.View.{view};
ghost use Rattle.squawk_document.specs.Values.{GivesExactly};
ghost use Rattle.squawk_document.specs.TokenShapes.{base_in, offset_in};

use crate::document_error::DocumentError;
use crate::value::u32_of;
use serde_json::Value;
use squawk_tokens::Base;

/// Reads a byte offset, or null as `None`.
pub fn offset(value: &Value) -> Result<Option<u32>, DocumentError>
    ensures { GivesExactly (λ n. n) result (offset_in (view value.now)) }
{
    if value.is_null() {
        Ok(None)
    } else {
        Ok(Some(u32_of(value)?))
    }
}

/// Reads the base of an integer: 2, 8, 10 or 16.
pub fn base(value: &Value) -> Result<Base, DocumentError>
    ensures { GivesExactly (λ b. b) result (base_in (view value.now)) }
{
    match u32_of(value)? {
        2 => Ok(Base::Binary),
        8 => Ok(Base::Octal),
        10 => Ok(Base::Decimal),
        16 => Ok(Base::Hexadecimal),
        _ => Err(DocumentError::Shape),
    }
}
