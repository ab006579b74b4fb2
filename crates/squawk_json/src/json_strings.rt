//! Texts as JSON strings.
ghost use Rattle.std.specs.Prelude.{◌≡◌, ◌++◌, ◌↔◌, string_bytes, All, IfOk, IsTrue, OnOk};
ghost use Rattle.std.specs.Str.{chars};
ghost use Rattle.squawk_json.specs.JsonStrings.{IsPlain, json_of, json_string};

use serde_json::Value;
use std::alloc::{AllocError, Global};
use std::fmt::Write;

/// Puts a text behind others, as a JSON string.
pub fn push_json(alloc: Global, lines: &mut String, text: &str) -> Result<(), AllocError>
    ensures bytes { OnOk result (string_bytes lines.new ≡ string_bytes lines.old ++ json_string text.now) }
    ensures chars { OnOk result (string_bytes lines.new ≡ string_bytes lines.old ++ json_of (chars text.now)) }
{
    if needs_no_escape(text) {
        write!(lines, "\"{text}\"")
    } else {
        lines.push_str(json_text(alloc, text)?.as_str())
    }
}

/// The text as a JSON string.
pub fn json_text(alloc: Global, text: &str) -> Result<String, AllocError>
    ensures bytes { IfOk result (λ s. string_bytes s ≡ json_string text.now) }
    ensures chars { IfOk result (λ s. string_bytes s ≡ json_of (chars text.now)) }
{
    let value = Value::from(String::from_str(alloc, text)?);
    value.to_string(alloc)
}

/// Whether a text stands in a JSON string as it is.
pub fn needs_no_escape(text: &str) -> bool
    ensures { IsTrue result ↔ All IsPlain text.now }
{
    text.bytes().all(|b| b >= b' ' && b != b'"' && b != b'\\')
}
