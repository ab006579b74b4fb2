//! What must come out of a case.
//!
//! | line | what it wants |
//! |---|---|
//! | `lex 0..2 "empty .."` | a lexical error, as the program prints it; `lex none`: a case names them all |
//! | `cut` | that the tokenizer of SQL cuts the text into these raw tokens |
//! | `script` | that the tokenizer of scripts does |
//! | `raw IDENT 44` | the syntax kinds of the raw tokens, by their names or else their numbers |
//! | `table IDENT@0..1'a' 1` | the same with their places and texts, and the end of the text |
//! | `range 0 2 \|a b\|` | the text of the raw tokens from one to before another |
//! | `input IDENT/RAISE_KW+ .. EOF/EOF EOF/EOF` | the kinds and contextual kinds that a parser sees, `+` where a token is joint with the next; the end, and what lies far behind it |
//! | `refused bad call 3` | that the raw tokens, the calls or the parse are refused, for this reason |
//! | `tree ROOT(a _) ...` | what is sent (`row_fixtures::lines`), to a list and one by one |
//! | `shown ROOT@0..1` | a line of the tree that is shown; `shown none`: a case names them all |
//! | `unfit` | that the output doesn't fit the text |
//! | `over \|x y\| ROOT(x) ...` | what is sent of it over another text, or `over \|x y\| unfit` |
//! | `steps ROOT(IDENT)` | the steps of the output, which have no texts |
//! | `recorded 2 + 1` | so many recorded events, and no lower limit of them or of errors that is enough |
//! | `turns 3 + 1` | in so many turns |
//! | `within 2 - too many events` | what comes within a limit of events and one of errors, `-` being that of a parse that is given none, or `recorded 3` |
//! | `look ..`, `stands ..` | what a parser sees at the first token (`crate::looks`) |

use crate::came::{Parsed, Seen, came};
use crate::cuts::judge_cut;
use crate::given::{Doing, Given};
use crate::lexical::{error_lines, wanted_lines};
use crate::parses::{CaseGrammar, calling, eating, tiny};
use crate::report::{Report, line_of};
use crate::sections::{Case, Entry};
use crate::sent::{shown, shown_over};
use crate::trouble::{Trouble, malformed};
use row_fixtures::lexer::tokens_of;
use row_fixtures::lines;
use squawk_parser::{LexedStr, Output, TableError, Token, check_tokens};
use std::alloc::{AllocError, Global};
use std::fmt::Display;

/// Runs a case, and tells what doesn't hold.
pub fn judge(alloc: Global, case: &Case<'_>, report: &mut Report) -> Result<(), Trouble> {
    report.begin();
    let given = Given::new(alloc, case)?;
    let is_called = !given.doings.is_empty();
    if case.wanted.is_empty() || is_called && case.wanted.iter().all(|entry| entry.word == "lex") {
        return Err(malformed(case.line, "nothing is wanted of this case"));
    }
    for source in &given.sources {
        let text = source.text.as_str();
        match &source.tokens {
            Some(tokens) => judge_text(&given, text, tokens, report)?,
            None => judge_text(&given, text, &tokens_of(alloc, text)?, report)?,
        }
    }
    report.end();
    Ok(())
}

/// Runs a case over one of its texts.
fn judge_text(
    given: &Given<'_>,
    text: &str,
    tokens: &[Token],
    report: &mut Report,
) -> Result<(), Trouble> {
    judge_cut(given, text, tokens, report)?;
    let check = check_tokens(text, tokens);
    match LexedStr::new(given.alloc, text, tokens, &given.vocabulary()) {
        Ok(table) if check == Ok(()) => judge_table(given, &table, report),
        Err(TableError::OutOfMemory) => Err(Trouble::OutOfMemory),
        Err(error) if check == Err(error) => Ok(judge_refusal(given, &error, report)?),
        _ => Err(malformed(given.case.line, "check_tokens has another answer")),
    }
}

/// Compares each wanted line with the refusal, but for those of lexical errors. There must be one.
fn judge_refusal<E: Display>(
    given: &Given<'_>,
    error: &E,
    report: &mut Report,
) -> Result<(), AllocError> {
    let case = given.case;
    let came = format!(in given.alloc; "refused {error}")?;
    let mut is_wanted = false;
    for entry in &case.wanted {
        if entry.word != "lex" {
            is_wanted = true;
            compare(given, entry, came.as_str(), report)?;
        }
    }
    if is_wanted {
        return Ok(());
    }
    report.compare(case, case.line, "no refusal", came.as_str())
}

fn compare(
    given: &Given<'_>,
    entry: &Entry<'_>,
    came: &str,
    report: &mut Report,
) -> Result<(), AllocError> {
    let wanted = line_of(given.alloc, entry.word, entry.value.as_str())?;
    report.compare(given.case, entry.line, wanted.as_str(), came)
}

/// Compares the lines of a word that a case wants with those that came.
fn compare_all(
    given: &Given<'_>,
    word: &str,
    came: &str,
    report: &mut Report,
) -> Result<(), AllocError> {
    let case = given.case;
    let wanted = wanted_lines(given.alloc, &case.wanted, word)?;
    report.compare(case, case.line, wanted.as_str(), came)
}

/// Whether the line is no word of its own: one of those that are compared together, or judged with the text.
fn is_of_all(entry: &Entry<'_>) -> bool {
    matches!(entry.word, "lex" | "shown" | "cut" | "script")
}

/// Runs a case whose raw tokens are good.
fn judge_table(
    given: &Given<'_>,
    table: &LexedStr<'_>,
    report: &mut Report,
) -> Result<(), Trouble> {
    let came = error_lines(given.alloc, table)?;
    compare_all(given, "lex", came.as_str(), report)?;
    let input = table.to_input(given.alloc, &given.vocabulary())?;
    let seen = Seen {
        given: &*given,
        table: &*table,
        input: &input,
    };
    if given.doings.is_empty() {
        return judge_lines(&seen, None, report);
    }
    for doing in &given.doings {
        judge_doing(&seen, doing, report)?;
    }
    Ok(())
}

/// Runs what is called.
fn judge_doing(seen: &Seen<'_>, doing: &Doing, report: &mut Report) -> Result<(), Trouble> {
    let given = seen.given;
    match doing {
        Doing::Calls(calls) => match calling(given, calls.as_str())? {
            Ok(grammar) => judge_grammar(seen, &grammar, report),
            Err(error) => Ok(judge_refusal(given, &error.as_str(), report)?),
        },
        Doing::EatWith(kind) => judge_grammar(seen, &eating(given, *kind), report),
        Doing::Tiny => judge_grammar(seen, &tiny(given), report),
        Doing::Empty => judge_output(seen, None, &Output::empty(given.alloc), report),
        Doing::Sent => judge_sent(given, report),
    }
}

/// Runs the grammar of a case.
fn judge_grammar(
    seen: &Seen<'_>,
    grammar: &CaseGrammar<'_>,
    report: &mut Report,
) -> Result<(), Trouble> {
    match grammar.parse(seen.given.alloc, seen.input, None)? {
        Ok(output) => judge_output(seen, Some(grammar), &output, report),
        Err(error) => Ok(judge_refusal(seen.given, &error, report)?),
    }
}

/// Compares the output of a case.
fn judge_output(
    seen: &Seen<'_>,
    grammar: Option<&CaseGrammar<'_>>,
    output: &Output,
    report: &mut Report,
) -> Result<(), Trouble> {
    let given = seen.given;
    if given.case.wants("shown") {
        let text = shown_over(given.alloc, seen.table, output, &given.names)?;
        compare_all(given, "shown", text.as_str(), report)?;
    }
    judge_lines(seen, Some(Parsed { grammar, output }), report)
}

/// Compares the steps that a case gives.
fn judge_sent(given: &Given<'_>, report: &mut Report) -> Result<(), Trouble> {
    let alloc = given.alloc;
    if given.case.wants("shown") {
        let text = shown(alloc, &given.sent, &given.names)?;
        compare_all(given, "shown", text.as_str(), report)?;
    }
    let line = lines::line_of(alloc, &given.sent)?;
    let came = line_of(alloc, "tree", line.as_str())?;
    for entry in &given.case.wanted {
        if !is_of_all(entry) {
            compare(given, entry, came.as_str(), report)?;
        }
    }
    Ok(())
}

/// Compares each line that a case wants with the one that came.
fn judge_lines(
    seen: &Seen<'_>,
    parsed: Option<Parsed<'_>>,
    report: &mut Report,
) -> Result<(), Trouble> {
    for entry in &seen.given.case.wanted {
        if is_of_all(entry) {
            continue;
        }
        let line = came(seen, parsed, entry)?;
        compare(seen.given, entry, line.as_str(), report)?;
    }
    Ok(())
}
