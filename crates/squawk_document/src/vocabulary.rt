//! Reads the vocabulary of a document.
ghost use Rattle.std.specs.Prelude.{◌≡◌, IfOk};
ghost use Rattle.serde_json.specs.View.{view};
ghost use Rattle.squawk_kinds.specs.Kinds.{IsKeyword};
ghost use Rattle.squawk_keywords.specs.KeywordAnswers.{classes_of, no_classes};
ghost use Rattle.squawk_keywords.specs.KeywordPairs.{AreKeywords, pairs_of};
ghost use Rattle.squawk_document.specs.KeywordAnswers.{answers};
ghost use Rattle.squawk_document.specs.KeywordPairs.{answered, keyword_in, keyword_kind_in, keyword_list_in, vocabulary_in};
ghost use Rattle.squawk_document.specs.Values.{Gives, GivesExactly};

use crate::document_error::DocumentError;
use crate::value;
use serde_json::Value;
use squawk_keywords::Keywords;
use squawk_kinds::SyntaxKind;
use std::alloc::Global;

/// The least kind that a keyword can have.
const LEAST: u64 = SyntaxKind::ERROR.0 as u64;

/// The greatest kind that a keyword can have.
const GREATEST: u64 = SyntaxKind::WHITESPACE.0 as u64 - 1;

/// Reads the kind of a keyword: a token kind other than the end, an open marker, a comment or white
/// space.
fn keyword_kind(value: &Value) -> Result<u16, DocumentError>
    ensures kind { GivesExactly (λ kind. kind) result (keyword_kind_in (view value.now)) }
    ensures keyword { IfOk result IsKeyword }
{
    let kind = value::number(value, LEAST, GREATEST)? as u16;
    if kind == u16::from(SyntaxKind::COMMENT) {
        return Err(DocumentError::Shape);
    }
    Ok(kind)
}

/// Reads a word and its kind.
fn keyword(value: &Value) -> Result<(&str, u16), DocumentError>
    ensures pair { GivesExactly (λ pair. (pair.0.now, pair.1)) result (keyword_in (view value.now)) }
    ensures keyword { IfOk result (λ pair. IsKeyword pair.1) }
{
    let (word, kind) = value::pair(value)?;
    let word = value::string(word)?;
    let kind = keyword_kind(kind)?;
    Ok((word, kind))
}

/// Reads an array of words with their kinds.
fn keyword_list<'v>(
    alloc: Global,
    value: &'v Value,
) -> Result<Vec<(&'v str, SyntaxKind)>, DocumentError>
    ensures pairs { Gives (λ pairs. pairs_of pairs.items) result (keyword_list_in (view value.now)) }
    ensures keywords { IfOk result (λ pairs. AreKeywords (pairs_of pairs.items)) }
{
    let items = value::items(value)?;
    let mut pairs = Vec::with_capacity(alloc, items.len())?;
    for item in items {
        let (word, kind) = keyword(item)?;
        pairs.push_reserved((word, SyntaxKind::from(kind)));
    }
    Ok(pairs)
}

/// Reads a vocabulary: an object with these two members and no other.
///
/// Words are compared byte for byte.
pub fn vocabulary<'v>(alloc: Global, value: &'v Value) -> Result<Keywords<'v>, DocumentError>
    ensures answers { Gives answers result (answered (vocabulary_in (view value.now))) }
    ensures classes { IfOk result (λ v. classes_of v ≡ no_classes) }
{
    let object = value::with_members(value, 2)?;
    let keywords = value::member(object, "keywords")?;
    let contextual = value::member(object, "contextual")?;
    let keywords = keyword_list(alloc, keywords)?;
    let contextual = keyword_list(alloc, contextual)?;
    let vocabulary = Keywords::new(alloc, &keywords, &contextual)?;
    Ok(vocabulary)
}
