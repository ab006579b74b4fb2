//! The statements of a text: the nodes directly in its root.
ghost use Rattle.std.specs.Prelude.{◌≡◌, ◌+◌, ◌++◌, ◌<◌, ◌≤◌, ◌^◌, ℕ, All, List, [], ◌∷◌, IfOk, OnOk, encode_utf8_all, length, map, string_bytes};
ghost use Rattle.std.specs.Str.{chars};
ghost use Rattle.squawk_table.specs.Sent.{bytes_of, sent_list};
ghost use Rattle.squawk_table.specs.Shape.{Fits};
ghost use Rattle.squawk_table.specs.SinkViews.{owned_step_of};
ghost use Rattle.squawk_table.specs.declared.shortcuts.str_step.OwnedStep.{OwnedStep};
ghost use Rattle.squawk_table.specs.declared.shortcuts.str_step.OwnedStep.TheVariants.{Enter, Exit};
ghost use Rattle.squawk_tree.specs.TreeText.{bytes_in};
ghost use Rattle.sql_grammar.specs.Parts.{moved_by};
ghost use Rattle.sql_grammar.specs.ReadParts.{ErrorsBelow};
ghost use Rattle.sql_report.specs.OpenNodes.{closed, front_nodes, statements_left};
ghost use Rattle.sql_report.specs.Statements.{HasStatements, moved_statement, statement_line, statements_of};

use crate::line_column::LineColumn;
use crate::place::Place;
use squawk_kinds::{KindNames, SyntaxKind};
use squawk_output::Output;
use squawk_table::{LexedStr, StrStep, StrSteps};
use squawk_tree::write_name;
use std::alloc::{AllocError, Global};
use std::fmt::Write;

/// A statement, from its first byte up to the one behind it.
#[derive(Clone, Copy, Debug, PartialEq, Eq)]
pub struct Statement {
    pub kind: SyntaxKind,
    pub start: usize,
    pub end: usize,
}

/// A node that isn't left yet, with its first byte.
#[derive(Clone, Copy)]
pub(crate) struct OpenNode {
    kind: SyntaxKind,
    start: usize,
}

/// The statements of a parse.
pub fn statements(
    alloc: Global,
    table: &LexedStr<'_>,
    output: &Output,
) -> Result<Vec<Statement>, AllocError>
    requires { Fits table.now output.now.steps }
    ensures all { IfOk result (λ all. all.items ≡ statements_of (sent_list table.now output.now.steps)) }
    // They stand in the text.
    ensures within { IfOk result (λ all. All (λ s. (s.start ≤ length table.now.text) × (s.end ≤ length table.now.text)) all.items) }
    // Those of a part are the next ones of the script.
    ensures part { IfOk result (λ all. (done inner : List OwnedStep) (ended : List Statement) (kind : ℕ)
        → sent_list table.now output.now.steps ≡ Enter kind ∷ inner ++ Exit ∷ [] → HasStatements done ended
        → HasStatements (done ++ map (moved_by (bytes_of done)) inner) (ended ++ map (moved_statement (bytes_of done)) all.items)) }
{
    statements_in(alloc, steps_of(table, output))
}

/// The steps of an output. So few bytes stand in them that each place fits `usize`.
pub(crate) fn steps_of<'s>(table: &'s LexedStr<'s>, output: &'s Output) -> StrSteps<'s>
    requires { Fits table.now output.now.steps }
    ensures steps { result.steps ≡ sent_list table.now output.now.steps }
    ensures within { bytes_of result.steps ≤ length table.now.text }
    ensures placed { ErrorsBelow (length table.now.text + 1) result.steps }
    ensures few { bytes_of result.steps < 2 ^ 64 }
{
    let _text_len = table.text_start(table.len());
    table.str_steps(output)
}

/// The statements in these steps.
fn statements_in(alloc: Global, steps: StrSteps<'_>) -> Result<Vec<Statement>, AllocError>
    requires { bytes_of steps.steps < 2 ^ 64 }
    ensures { IfOk result (λ all. all.items ≡ statements_of steps.entry.steps) }
{
    let mut statements = Vec::new(alloc);
    let mut nodes = Vec::new(alloc);
    let mut at = 0;
    for step in steps {
        take_step(&mut statements, &mut nodes, at, &step)?;
        at += bytes_in(&step);
    }
    Ok(statements)
}

/// Takes a step that stands at a byte.
#[tactic(auto, using(crate::proofs::OpenNodeLemmas::left_token, crate::proofs::OpenNodeLemmas::left_enter, crate::proofs::OpenNodeLemmas::left_exit, crate::proofs::OpenNodeLemmas::left_error))]
pub(crate) fn take_step(
    statements: &mut Vec<Statement>,
    nodes: &mut Vec<OpenNode>,
    at: usize,
    step: &StrStep<'_>,
) -> Result<(), AllocError>
    ensures { OnOk result ((steps : List OwnedStep)
        → statements.new.items ++ statements_left nodes.new.items (at + bytes_in (owned_step_of step.now)) steps
        ≡ statements.old.items ++ statements_left nodes.old.items at (owned_step_of step.now ∷ steps)) }
{
    match *step {
        StrStep::Enter { kind } => {
            nodes.push(OpenNode { kind, start: at })?;
            Ok(())
        }
        StrStep::Exit => {
            push_closed(statements, nodes, at)?;
            Ok(())
        }
        StrStep::Token { .. } | StrStep::Error { .. } => Ok(()),
    }
}

/// How many bytes of the text a step takes.
pub(crate) fn bytes_in(step: &StrStep<'_>) -> usize
    ensures { result ≡ bytes_in (owned_step_of step.now) }
{
    match *step {
        StrStep::Token { text, .. } => byte_len(text),
        StrStep::Enter { .. } | StrStep::Exit | StrStep::Error { .. } => 0,
    }
}

/// How many bytes a text has.
pub(crate) fn byte_len(text: &str) -> usize
    ensures { result ≡ length (encode_utf8_all (chars text.now)) }
{
    text.len()
}

/// Closes the innermost node, which is a statement if it stands directly in the root.
#[tactic(auto, using(crate::proofs::OpenNodeLemmas::front_nodes_last, crate::proofs::OpenNodeLemmas::closed_more, crate::proofs::OpenNodeLemmas::closed_statement))]
fn push_closed(
    statements: &mut Vec<Statement>,
    nodes: &mut Vec<OpenNode>,
    end: usize,
) -> Result<(), AllocError>
    ensures statements { OnOk result (statements.new.items ≡ statements.old.items ++ closed nodes.old.items end) }
    ensures nodes { OnOk result (nodes.new.items ≡ front_nodes nodes.old.items) }
{
    if let Some(OpenNode { kind, start }) = nodes.pop() {
        if nodes.len() == 1 {
            statements.push(Statement { kind, start, end })?;
        }
    }
    Ok(())
}

/// A line for each statement of a script, part by part: its bytes, the line and the column of the first, and its kind by name.
///
/// ```text
/// 0..9 1:1 QUERY
/// ```
#[derive(Drop)]
pub struct StatementLines<'n, 's> {
    names: KindNames<'n, 's>,
    /// The lines.
    pub lines: String,
}

impl<'n, 's> StatementLines<'n, 's> {
    ghost use Rattle.std.specs.Prelude.{◌≡◌, ◌+◌, ◌++◌, ◌<◌, ◌≤◌, ◌^◌, [], List, ℕ, All, OnOk, length, map, string_bytes};
    ghost use Rattle.sql_report.specs.Places.{IsSameWindow, IsWindowOf};
    ghost use Rattle.sql_report.specs.Statements.{moved_statement, statement_lines};

    /// No lines. Kinds have these names.
    pub fn new(alloc: Global, names: &'n [(SyntaxKind, &'s str)]) -> StatementLines<'n, 's>
        ensures names { result.names ≡ map (λ pair. (pair.0, pair.1.now)) names.now }
        ensures none { string_bytes result.lines ≡ [] }
    {
        StatementLines {
            names: KindNames::new(alloc, names),
            lines: String::new(alloc),
        }
    }

    /// Adds the lines of a part's statements, whose places count from its start: the part begins at a byte of the window and
    /// at one of the script.
    pub fn part(
        &mut self,
        place: &mut Place<'_>,
        in_window: usize,
        start: usize,
        statements: &[Statement],
    ) -> Result<(), AllocError>
        ensures names { self.new.names ≡ self.old.names }
        ensures window { IsSameWindow place.old place.new }
        ensures lines { OnOk result ((script passed rest : List ℕ) → IsWindowOf script passed rest place.old → start ≡ length passed + in_window
            → All (λ s. (in_window + s.start ≤ length place.old.window) × (start + s.end < 2 ^ 64)) statements.now
            → string_bytes self.new.lines ≡ string_bytes self.old.lines ++ statement_lines script self.old.names (map (moved_statement start) statements.now)) }
    {
        for statement in statements {
            place.go_on(in_window, statement.start);
            push_statement(
                &mut self.lines,
                &mut self.names,
                place.line_column(),
                moved(*statement, start),
            )?;
        }
        Ok(())
    }
}

/// The statement in a script, where its part begins at this byte.
fn moved(statement: Statement, start: usize) -> Statement
    ensures { start + statement.start < 2 ^ 64 → start + statement.end < 2 ^ 64 → result ≡ moved_statement start statement }
{
    Statement {
        kind: statement.kind,
        start: start.saturating_add(statement.start),
        end: start.saturating_add(statement.end),
    }
}

/// Puts the line of a statement after others.
fn push_statement(
    lines: &mut String,
    names: &mut KindNames<'_, '_>,
    at: LineColumn,
    statement: Statement,
) -> Result<(), AllocError>
    ensures line { OnOk result (string_bytes lines.new ≡ string_bytes lines.old ++ statement_line at.line at.column names.old statement) }
    ensures same { names.new ≡ names.old }
{
    let LineColumn { line, column } = at;
    let Statement { kind, start, end } = statement;
    write!(lines, "{start}..{end} {line}:{column} ")?;
    write_name(lines, names, kind)?;
    lines.push('\n')
}
