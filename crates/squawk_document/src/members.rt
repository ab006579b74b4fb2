//! Reads the members of a document.
ghost use Rattle.serde_json.specs.View.{view};
ghost use Rattle.squawk_document.specs.DocumentParts.{member_data, members_in};
ghost use Rattle.squawk_document.specs.Values.{GivesExactly, string_in};

use crate::document_error::DocumentError;
use crate::value;
use serde_json::Value;

/// The members of a document.
#[derive(Clone, Copy)]
pub struct DocumentMembers<'v> {
    pub text: &'v Value,
    pub tokens: &'v Value,
    pub words: &'v Value,
    pub vocabulary: &'v Value,
    pub entry: &'v Value,
    pub calls: &'v Value,
}

/// Reads the members of a document: an object with these six and no other.
pub fn members(document: &Value) -> Result<DocumentMembers<'_>, DocumentError>
    ensures { GivesExactly member_data result (members_in (view document.now)) }
{
    let object = value::with_members(document, 6)?;
    let text = value::member(object, "text")?;
    let tokens = value::member(object, "tokens")?;
    let words = value::member(object, "words")?;
    let vocabulary = value::member(object, "vocabulary")?;
    let entry = value::member(object, "entry")?;
    let calls = value::member(object, "calls")?;
    Ok(DocumentMembers {
        text,
        tokens,
        words,
        vocabulary,
        entry,
        calls,
    })
}

/// Reads the text of a document.
pub fn text(value: &Value) -> Result<&str, DocumentError>
    ensures { GivesExactly (λ s. s.now) result (string_in (view value.now)) }
{
    value::string(value)
}
