//! The grammar of a document.
ghost use Rattle.serde_json.specs.View.{view};
ghost use Rattle.squawk_document.specs.DocumentGrammars.{calls_from, grammar_in, no_calls_in, grammar_content};
ghost use Rattle.squawk_document.specs.Values.{Gives, GivesExactly};

use crate::calls::calls;
use crate::document_error::DocumentError;
use crate::value;
use serde_json::Value;
use squawk_parser::EntryPoint;
use squawk_script::Call;
use std::alloc::Global;

/// The grammar of a document.
#[derive(Drop)]
pub enum DocumentGrammar {
    /// These calls, from this entry point.
    Calls { entry: EntryPoint, calls: Vec<Call> },
    /// The small grammar, of operands with operators between them.
    Tiny,
}

/// Reads the grammar that `entry` names. The calls are those of a script: the small grammar has none.
pub fn grammar(
    alloc: Global,
    entry: &Value,
    calls: &Value,
) -> Result<DocumentGrammar, DocumentError>
    ensures { Gives grammar_content result (grammar_in (view entry.now) (view calls.now)) }
{
    match value::string(entry)? {
        "sql" => calls_from(alloc, EntryPoint::SourceFile, calls),
        "plpgsql" => calls_from(alloc, EntryPoint::Plpgsql, calls),
        "tiny" => without_calls(calls),
        _ => Err(DocumentError::Shape),
    }
}

/// Reads calls from an entry point.
fn calls_from(
    alloc: Global,
    entry: EntryPoint,
    list: &Value,
) -> Result<DocumentGrammar, DocumentError>
    ensures { Gives grammar_content result (calls_from entry (view list.now)) }
{
    let calls = calls(alloc, list)?;
    Ok(DocumentGrammar::Calls { entry, calls })
}

/// Reads the small grammar, whose list of calls is empty.
fn without_calls(list: &Value) -> Result<DocumentGrammar, DocumentError>
    ensures { GivesExactly grammar_content result (no_calls_in (view list.now)) }
{
    value::with_len(value::items(list)?, 0)?;
    Ok(DocumentGrammar::Tiny)
}
