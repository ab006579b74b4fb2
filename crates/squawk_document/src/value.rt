//! Reads of JSON values. All but [`parse`] return only the error `Shape`.
ghost use Rattle.std.specs.Prelude.{◌≡◌, ℕ, map};
ghost use Rattle.serde_json.specs.View.{view};
ghost use Rattle.squawk_document.specs.Values.{Gives, GivesExactly, bool_in, has_members, item_at, items_in, member_in, number_in, pair_in, string_in, u32_in, json_value, with_len};

use crate::document_error::DocumentError;
use serde_json::Value;
use std::alloc::Global;

/// Parses bytes as JSON.
pub fn parse(alloc: Global, input: &[u8]) -> Result<Value, DocumentError>
    ensures { Gives (λ v. view v) result (json_value input.now) }
{
    match Value::from_slice(alloc, input) {
        Ok(value) => Ok(value),
        Err(e) if e.is_memory() => Err(DocumentError::OutOfMemory),
        Err(_) => Err(DocumentError::Json),
    }
}

/// Reads an object with `n` members. Returns the value.
pub fn with_members(value: &Value, n: usize) -> Result<&Value, DocumentError>
    ensures { GivesExactly (λ v. view v.now) result (has_members n (view value.now)) }
{
    let members = value.as_object().ok_or(DocumentError::Shape)?;
    if members.len() != n {
        return Err(DocumentError::Shape);
    }
    Ok(value)
}

/// Reads the member of an object with this key.
pub fn member<'v>(value: &'v Value, key: &str) -> Result<&'v Value, DocumentError>
    ensures { GivesExactly (λ v. view v.now) result (member_in key.now (view value.now)) }
{
    value.get(key).ok_or(DocumentError::Shape)
}

/// Reads the items of an array.
pub fn items(value: &Value) -> Result<&[Value], DocumentError>
    ensures { GivesExactly (λ vs. map view vs.now) result (items_in (view value.now)) }
{
    let items = value.as_array().ok_or(DocumentError::Shape)?;
    Ok(items.as_slice())
}

/// Checks that there are `n` items.
pub fn with_len(items: &[Value], n: usize) -> Result<&[Value], DocumentError>
    ensures { GivesExactly (λ vs. map view vs.now) result (with_len n (map view items.now)) }
{
    if items.len() != n {
        return Err(DocumentError::Shape);
    }
    Ok(items)
}

/// Reads item `i`.
pub fn item(items: &[Value], i: usize) -> Result<&Value, DocumentError>
    ensures { GivesExactly (λ v. view v.now) result (item_at (map view items.now) i) }
{
    items.get(i).ok_or(DocumentError::Shape)
}

/// Reads the items of an array of two.
pub fn pair(value: &Value) -> Result<(&Value, &Value), DocumentError>
    ensures { GivesExactly (λ p. (view p.0.now, view p.1.now)) result (pair_in (view value.now)) }
{
    let items = with_len(items(value)?, 2)?;
    let first = item(items, 0)?;
    let second = item(items, 1)?;
    Ok((first, second))
}

/// Reads a whole number from `low` to `high`.
pub fn number(value: &Value, low: u64, high: u64) -> Result<u64, DocumentError>
    ensures { GivesExactly (λ n. n) result (number_in low high (view value.now)) }
{
    match value.as_u64() {
        Some(n) if (low..=high).contains(&n) => Ok(n),
        _ => Err(DocumentError::Shape),
    }
}

/// Reads a whole number of 32 bits.
pub fn u32_of(value: &Value) -> Result<u32, DocumentError>
    ensures { GivesExactly (λ n. n) result (u32_in (view value.now)) }
{
    let n = number(value, 0, u64::from(u32::MAX))?;
    Ok(n as u32)
}

/// Reads a string.
pub fn string(value: &Value) -> Result<&str, DocumentError>
    ensures { GivesExactly (λ s. s.now) result (string_in (view value.now)) }
{
    value.as_str().ok_or(DocumentError::Shape)
}

/// Reads `true` or `false`.
pub fn boolean(value: &Value) -> Result<bool, DocumentError>
    ensures { GivesExactly (λ b. b) result (bool_in (view value.now)) }
{
    value.as_bool().ok_or(DocumentError::Shape)
}
