//! Errors as compilers show them.
ghost use Rattle.std.specs.Prelude.{◌≡◌, ◌++◌, IfOk, OnOk, option_map, string_bytes};
ghost use Rattle.sql_report.specs.ErrorLines.{error_texts, heading, hint_part, mark, shown_error};
ghost use Rattle.sql_report.specs.Findings.{told};
ghost use Rattle.sql_report.specs.Places.{shown_before, shown_behind};

use crate::finding_list::{Finding, findings};
use crate::line_column::{LineColumn, is_continuation};
use crate::place::Place;
use squawk_output::Output;
use squawk_table::LexedStr;
use std::alloc::{AllocError, Global};
use std::fmt::Write;

/// The errors of a script as compilers show them, part by part, each with its line and a mark under it:
///
/// ```text
/// a.sql:1:8: expected )
/// select (a;
///          ^
/// ```
///
/// Lines and columns count from 1, columns in characters. Of the line the 100 bytes before the place and
/// the 100 after it are shown, and the rest of characters that these cut. Errors in the order of their
/// places take one walk over their window.
#[derive(Drop)]
pub struct ErrorLines<'n> {
    alloc: Global,
    name: &'n str,
    /// The lines that aren't handed out: one who prints them empties this.
    pub lines: Vec<u8>,
    /// How many errors are shown; at most `usize::MAX` are counted.
    pub count: usize,
}

impl<'n> ErrorLines<'n> {
    ghost use Rattle.std.specs.Prelude.{◌≡◌, ◌++◌, ◌+◌, ◌-◌, ◌^◌, [], ◌∷◌, List, ℕ, All, OnOk, length, map, min};
    ghost use Rattle.squawk_table.specs.Sent.{sent_list};
    ghost use Rattle.squawk_table.specs.Shape.{Fits};
    ghost use Rattle.squawk_table.specs.declared.shortcuts.str_step.OwnedStep.{OwnedStep};
    ghost use Rattle.squawk_table.specs.declared.shortcuts.str_step.OwnedStep.TheVariants.{Enter, Exit};
    ghost use Rattle.squawk_tokens.specs.LexicalErrors.{LexicalError, shifted};
    ghost use Rattle.sql_grammar.specs.Parts.{moved_by};
    ghost use Rattle.sql_grammar.specs.ReadParts.{AreBefore};
    ghost use Rattle.sql_report.specs.ErrorLines.{HasShown, error_texts, moved_finding};
    ghost use Rattle.sql_report.specs.Places.{IsPartOfWindow, IsSameWindow, IsWindowOf, SeesLine};

    /// No errors of a script that is called by this name.
    pub fn new(alloc: Global, name: &'n str) -> ErrorLines<'n>
        ensures name { result.name.now ≡ name.entry.now }
        ensures none { (script : List ℕ) → HasShown script [] [] [] result }
        ensures empty { result.lines.items ≡ [] }
    {
        ErrorLines {
            alloc,
            name,
            lines: Vec::new(alloc),
            count: 0,
        }
    }

    /// Adds the errors of the next part, which begins at a byte of the window: its lexical errors and those of its parse, in the
    /// order of their places. At one byte the lexical errors come first.
    ///
    /// All that is shown of their lines has to stand in the window: 100 bytes before the part, unless the window begins the script,
    /// and a line feed after it, unless the window ends the script.
    pub fn part(
        &mut self,
        place: &mut Place<'_>,
        table: &LexedStr<'_>,
        output: &Output,
        start: usize,
    ) -> Result<(), AllocError>
        requires fits { Fits table.now output.now.steps }
        ensures name { self.new.name ≡ self.old.name }
        ensures window { IsSameWindow place.old place.new }
        // Where errors before it stand before its start, the errors of all are shown in their order.
        ensures shows { OnOk result ((script passed rest given : List ℕ) (at : ℕ) (errors : List LexicalError) (done inner : List OwnedStep) (kind : ℕ)
            → IsPartOfWindow script passed rest place.old at start (length table.now.text)
            → sent_list table.now output.now.steps ≡ Enter kind ∷ inner ++ Exit ∷ [] → AreBefore at errors done → HasShown script given errors done self.old
            → HasShown script given (errors ++ map (shifted at) table.now.errors) (done ++ map (moved_by at) inner) self.new) }
    {
        let findings = findings(self.alloc, table, output)?;
        self.extend(place, &findings, start)?;
        Ok(())
    }

    /// Adds errors whose places count from a byte of the window.
    fn extend(
        &mut self,
        place: &mut Place<'_>,
        findings: &[Finding<'_>],
        start: usize,
    ) -> Result<(), AllocError>
        ensures name { self.new.name ≡ self.old.name }
        ensures window { IsSameWindow place.old place.new }
        ensures lines { OnOk result ((script passed rest : List ℕ) → IsWindowOf script passed rest place.old
            → All (λ finding. SeesLine passed rest place.old.window (start + finding.at)) findings.now
            → self.new.lines.items ≡ self.old.lines.items ++ error_texts self.old.name.now script (map (moved_finding (length passed + start)) findings.now)) }
        ensures count { OnOk result ((n : ℕ) → self.old.count ≡ min n (2 ^ 64 - 1) → self.new.count ≡ min (n + length findings.now) (2 ^ 64 - 1)) }
    {
        for finding in findings {
            place.go_on(start, finding.at);
            let at = place.line_column();
            push_error(self.alloc, &mut self.lines, self.name, place, at, *finding)?;
            self.count = self.count.saturating_add(1);
        }
        Ok(())
    }
}

/// The lines of errors, in the same form.
pub fn error_lines(
    alloc: Global,
    name: &str,
    text: &str,
    findings: &[Finding<'_>],
) -> Result<Vec<u8>, AllocError>
    ensures { IfOk result (λ lines. lines.items ≡ error_texts name.now text.now findings.now) }
{
    let mut shown = ErrorLines::new(alloc, name);
    let mut place = Place::whole(text);
    shown.extend(&mut place, findings, 0)?;
    Ok(shown.lines)
}

/// Puts an error that is shown at a place of this line and column after others.
fn push_error(
    alloc: Global,
    lines: &mut Vec<u8>,
    name: &str,
    place: &Place<'_>,
    at: LineColumn,
    finding: Finding<'_>,
) -> Result<(), AllocError>
    ensures { OnOk result (lines.new.items
        ≡ lines.old.items ++ shown_error name.now at.line at.column (shown_before place.now.window place.now.at) (shown_behind place.now.window place.now.at) (told finding.entry)) }
{
    let heading = heading(alloc, name, at, finding)?;
    lines.extend_from_slice(heading.as_bytes())?;
    let before = place.before();
    lines.extend_from_slice(before)?;
    lines.extend_from_slice(place.behind())?;
    lines.push(b'\n')?;
    push_mark(lines, before)
}

/// Where an error stands, and what it says.
fn heading(
    alloc: Global,
    name: &str,
    at: LineColumn,
    finding: Finding<'_>,
) -> Result<String, AllocError>
    ensures { IfOk result (λ text. string_bytes text ≡ heading name.now at.line at.column (told finding.entry)) }
{
    let LineColumn { line, column } = at;
    let message = finding.message;
    let mut text = format!(in alloc; "{name}:{line}:{column}: {message}")?;
    push_hint(&mut text, finding.hint)?;
    text.push('\n')?;
    Ok(text)
}

/// Puts what is wanted after a message, if it is said.
fn push_hint(text: &mut String, hint: Option<&str>) -> Result<(), AllocError>
    ensures { OnOk result (string_bytes text.new ≡ string_bytes text.old ++ hint_part (option_map (λ hint. hint.now) hint.entry)) }
{
    match hint {
        Some(hint) => write!(text, " ({hint})"),
        None => Ok(()),
    }
}

/// Puts a mark under what stands after these bytes.
fn push_mark(lines: &mut Vec<u8>, before: &[u8]) -> Result<(), AllocError>
    ensures { OnOk result (lines.new.items ≡ lines.old.items ++ mark before.now) }
{
    for byte in before {
        if !is_continuation(*byte) {
            lines.push(if *byte == b'\t' { b'\t' } else { b' ' })?;
        }
    }
    lines.extend_from_slice(b"^\n")
}
