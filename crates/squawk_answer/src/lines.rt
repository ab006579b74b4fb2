//! The lines of lexical errors and of steps.
ghost use Rattle.std.specs.Prelude.{◌≡◌, ◌++◌, option_map, string_bytes, IfOk, OnOk};
ghost use Rattle.std.specs.Str.{chars};
ghost use Rattle.squawk_table.specs.SinkViews.{owned_step_of};
ghost use Rattle.squawk_table.specs.declared.shortcuts.str_step.OwnedStep.TheVariants.{Token};
ghost use Rattle.squawk_answer.specs.Lines.{hint_part, last_line, lex_line, lex_lines, step_line, step_lines};

use squawk_json::{json_text, needs_no_escape, push_json};
use squawk_table::{LexError, LexErrors, StrStep, StrSteps};
use std::alloc::{AllocError, Global};
use std::fmt::Write;

/// A line for each step, then one that says whether all tokens were eaten.
pub fn step_lines(alloc: Global, mut steps: StrSteps<'_>) -> Result<String, AllocError>
    ensures { IfOk result (λ s. string_bytes s ≡ step_lines steps.entry.steps ++ last_line steps.entry.eaten_all) }
{
    let mut text = String::new(alloc);
    while let Some(step) = steps.next() {
        push_step_line(alloc, &mut text, step)?;
    }
    text.push_str(if steps.eaten_all() { "all\n" } else { "rest\n" })?;
    Ok(text)
}

/// Appends the line of a step.
pub fn push_step_line(
    alloc: Global,
    lines: &mut String,
    step: StrStep<'_>,
) -> Result<(), AllocError>
    ensures { OnOk result (string_bytes lines.new ≡ string_bytes lines.old ++ step_line (owned_step_of step.entry)) }
{
    match step {
        StrStep::Token { kind, text } => push_token_line(alloc, lines, u16::from(kind), text),
        StrStep::Enter { kind } => {
            let kind = u16::from(kind);
            writeln!(lines, "enter {kind}")
        }
        StrStep::Exit => writeln!(lines, "exit"),
        StrStep::Error { msg, pos } => {
            write!(lines, "error {pos} ")?;
            push_json(alloc, lines, msg)?;
            lines.push('\n')
        }
    }
}

/// Appends the line of a token.
///
/// Most texts need no escape in a JSON string, so no copy is made of them.
fn push_token_line(
    alloc: Global,
    lines: &mut String,
    kind: u16,
    text: &str,
) -> Result<(), AllocError>
    ensures { OnOk result (string_bytes lines.new ≡ string_bytes lines.old ++ step_line (Token kind (chars text.now))) }
{
    if needs_no_escape(text) {
        writeln!(lines, "token {kind} \"{text}\"")
    } else {
        let text = json_text(alloc, text)?;
        writeln!(lines, "token {kind} {text}")
    }
}

/// A line for each lexical error.
pub fn error_lines(alloc: Global, errors: LexErrors<'_>) -> Result<String, AllocError>
    ensures { IfOk result (λ s. string_bytes s ≡ lex_lines errors.entry) }
{
    let mut text = String::new(alloc);
    for error in errors {
        push_error_line(alloc, &mut text, error)?;
    }
    Ok(text)
}

/// Appends the line of a lexical error.
fn push_error_line(alloc: Global, lines: &mut String, error: &LexError) -> Result<(), AllocError>
    ensures { OnOk result (string_bytes lines.new ≡ string_bytes lines.old ++ lex_line error.now) }
{
    let range = error.range();
    let start = range.start;
    let end = range.end;
    write!(lines, "lex {start}..{end} ")?;
    push_json(alloc, lines, error.message())?;
    push_hint(alloc, lines, error.hint())?;
    lines.push('\n')
}

/// Appends the hint, if there is one.
fn push_hint(alloc: Global, lines: &mut String, hint: Option<&str>) -> Result<(), AllocError>
    ensures { OnOk result (string_bytes lines.new ≡ string_bytes lines.old ++ hint_part (option_map (λ hint. hint.now) hint.entry)) }
{
    match hint {
        Some(hint) => {
            lines.push(' ')?;
            push_json(alloc, lines, hint)
        }
        None => Ok(()),
    }
}
