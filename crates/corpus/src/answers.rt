//! What must come of documents.
//!
//! | line | what it wants |
//! |---|---|
//! | `enter 700`, `all`, .. | a line of the answer: a case has all of them, as the program writes them |
//! | `status 3 bad token 0` | that there is no answer, and the program's status and its line |

use crate::documents::documents_of;
use crate::report::{Report, line_of};
use crate::sections::Case;
use crate::trouble::{Trouble, malformed};
use row_fixtures::sent::sent_over_table;
use squawk_answer::{Fault, run};
use squawk_document::{Document, DocumentGrammar, value};
use squawk_parser::{EntryPoint, LexedStr, Words};
use squawk_script::Script;
use std::alloc::{AllocError, Global};
use tiny_grammar::Tiny;

/// Runs the documents of a case, which stands in a file with these, and tells what doesn't hold. Each of
/// them counts, so that a value which is lost is seen.
pub fn judge_documents(
    alloc: Global,
    cases: &[Case<'_>],
    case: &Case<'_>,
    report: &mut Report,
) -> Result<(), Trouble> {
    if case.wanted.is_empty() {
        return Err(malformed(case.line, "nothing is wanted of this case"));
    }
    let wanted = wanted_of(alloc, case)?;
    for document in &documents_of(alloc, cases, case)? {
        report.begin();
        judge_document(alloc, case, document.as_str(), wanted.as_str(), report)?;
        report.end();
    }
    Ok(())
}

/// The lines that are wanted, each with its newline.
fn wanted_of(alloc: Global, case: &Case<'_>) -> Result<String, AllocError> {
    let mut lines = String::new(alloc);
    for entry in &case.wanted {
        lines.push_str(line_of(alloc, entry.word, entry.value.as_str())?.as_str())?;
        lines.push('\n')?;
    }
    Ok(lines)
}

/// Compares what comes of a document with what is wanted.
fn judge_document(
    alloc: Global,
    case: &Case<'_>,
    document: &str,
    wanted: &str,
    report: &mut Report,
) -> Result<(), Trouble> {
    let came = came(alloc, document)?;
    if came.as_str() != wanted {
        let wanted = indented(alloc, wanted)?;
        let came = format!(in alloc; "{}of {document}", came.as_str())?;
        let came = indented(alloc, came.as_str())?;
        report.compare(case, case.line, wanted.as_str(), came.as_str())?;
    }
    Ok(())
}

/// The lines as a report has them.
fn indented(alloc: Global, lines: &str) -> Result<String, AllocError> {
    lines.replace(alloc, "\n", "\n    ")
}

/// What a run over the document writes, or its status and its line, for which it writes nothing.
fn came(alloc: Global, document: &str) -> Result<String, Trouble> {
    let mut written = Vec::new(alloc);
    match ended(alloc, document, &mut written) {
        Ok(()) => Ok(answer_of(alloc, document, &written)?),
        Err(fault) if fault.is_out_of_memory() => Err(Trouble::OutOfMemory),
        Err(fault) if written.is_empty() => {
            Ok(format!(in alloc; "status {} {fault}\n", fault.status())?)
        }
        Err(fault) => Ok(format!(in alloc; "{fault}, and something was written\n")?),
    }
}

/// What a run ends in. It has no clause, so that its proof is all that carries those of `run`.
fn ended(alloc: Global, document: &str, written: &mut Vec<u8>) -> Result<(), Fault> {
    run(alloc, &mut document.as_bytes(), written)
}

/// The answer that was written.
fn answer_of(alloc: Global, document: &str, written: &[u8]) -> Result<String, AllocError> {
    match (str::from_utf8(written), is_given(alloc, document)) {
        (Ok(answer), Ok(true)) => String::from_str(alloc, answer),
        (Ok(answer), _) => format!(in alloc; "{answer}and other steps one by one\n"),
        (Err(_), _) => String::from_str(alloc, "an answer that is no text\n"),
    }
}

/// Whether the steps of a document are the same sent to a list and given one by one.
fn is_given(alloc: Global, document: &str) -> Result<bool, Fault> {
    let value = value::parse(alloc, document.as_bytes())?;
    let Document {
        text,
        tokens,
        operator_first,
        names,
        vocabulary,
        grammar,
    } = Document::from_value(alloc, &value)?;
    let table = LexedStr::new(alloc, text, &tokens, &vocabulary)?;
    let output = match grammar {
        DocumentGrammar::Calls { entry, calls } => {
            let words = Words {
                operator_first,
                names: &names,
            };
            let script = Script::new(alloc, calls, words)?;
            entry.parse(alloc, &table.to_input(alloc, &vocabulary)?, &script)?
        }
        DocumentGrammar::Tiny => {
            Tiny::new().parse(alloc, &table, &vocabulary, EntryPoint::SourceFile)?
        }
    };
    match sent_over_table(alloc, &table, &output)? {
        Some(sent) => Ok(sent.is_given),
        None => Ok(false),
    }
}
