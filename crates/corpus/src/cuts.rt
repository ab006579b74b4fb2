//! Whether the tokenizers of SQL and of scripts cut a text into the raw tokens that a case gives.

use crate::given::Given;
use crate::report::Report;
use crate::trouble::{Trouble, malformed};
use sql_lexer::{TokenizeError, tokenize, tokenize_script};
use squawk_parser::Token;

/// Compares the given tokens with those that the text is cut into, if the case wants it.
pub fn judge_cut(
    given: &Given<'_>,
    text: &str,
    tokens: &[Token],
    report: &mut Report,
) -> Result<(), Trouble> {
    let case = given.case;
    if case.wants("cut") {
        compare(given, text, tokens, tokenize(given.alloc, text), report)?;
    }
    if case.wants("script") {
        compare(
            given,
            text,
            tokens,
            tokenize_script(given.alloc, text),
            report,
        )?;
    }
    Ok(())
}

fn compare(
    given: &Given<'_>,
    text: &str,
    tokens: &[Token],
    cut: Result<Vec<Token>, TokenizeError>,
    report: &mut Report,
) -> Result<(), Trouble> {
    let case = given.case;
    match cut {
        Ok(cut) => {
            let wanted = format!(in given.alloc; "{text} {tokens:?}")?;
            let came = format!(in given.alloc; "{text} {:?}", cut.as_slice())?;
            Ok(report.compare(case, case.line, wanted.as_str(), came.as_str())?)
        }
        Err(TokenizeError::OutOfMemory) => Err(Trouble::OutOfMemory),
        Err(TokenizeError::TextTooLong) => Err(malformed(case.line, "the text is too long")),
    }
}
