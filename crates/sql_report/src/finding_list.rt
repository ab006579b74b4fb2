//! What is wrong with a text.
ghost use Rattle.std.specs.Prelude.{◌≡◌, ◌≤◌, ◌++◌, All, IfOk, OnOk, encode_utf8_all, length, map};
ghost use Rattle.std.specs.List.{flat_map};
ghost use Rattle.std.specs.Str.{chars};
ghost use Rattle.squawk_table.specs.Sent.{sent_list};
ghost use Rattle.squawk_table.specs.Shape.{Fits};
ghost use Rattle.squawk_table.specs.SinkViews.{owned_step_of};
ghost use Rattle.sql_report.specs.Findings.{AreInOrder, all_told, told, told_in, told_lexical};

use squawk_output::Output;
use squawk_table::{LexError, LexedStr, StrStep};
use std::alloc::{AllocError, Global};

/// An error at a byte of a text.
#[derive(Clone, Copy, Debug, PartialEq, Eq)]
pub struct Finding<'s> {
    pub at: usize,
    pub message: &'s str,
    /// What is wanted, where the error says so.
    pub hint: Option<&'s str>,
}

/// The lexical errors of a table and those of a parse, in the order of their places. At one byte the lexical errors come first.
pub(crate) fn findings<'s>(
    alloc: Global,
    table: &'s LexedStr<'s>,
    output: &'s Output,
) -> Result<Vec<Finding<'s>>, AllocError>
    requires { Fits table.now output.now.steps }
    ensures order { IfOk result (λ all. AreInOrder (all_told table.now.errors (sent_list table.now output.now.steps)) all.items) }
    ensures within { IfOk result (λ all. All (λ finding. finding.at ≤ length table.now.text) all.items) }
{
    let mut all = lexical_findings(alloc, table)?;
    let _raw_count = table.len();
    // Where none is recorded, nothing need be sent.
    if output.error_count() > 0 {
        push_sent(&mut all, table, output)?;
    }
    in_order(all)
}

/// Puts the errors among the steps that are sent for an output behind others.
fn push_sent<'s>(
    all: &mut Vec<Finding<'s>>,
    table: &'s LexedStr<'s>,
    output: &'s Output,
) -> Result<(), AllocError>
    requires { Fits table.now output.now.steps }
    ensures { OnOk result (map told all.new.items ≡ map told all.old.items ++ flat_map told_in (sent_list table.now output.now.steps)) }
{
    for step in table.str_steps(output) {
        push_finding(all, &step)?;
    }
    Ok(())
}

/// The lexical errors of a table, each where it starts.
fn lexical_findings<'s>(
    alloc: Global,
    table: &'s LexedStr<'s>,
) -> Result<Vec<Finding<'s>>, AllocError>
    ensures { IfOk result (λ all. map told all.items ≡ map told_lexical table.now.errors) }
{
    let mut all = Vec::new(alloc);
    for error in table.errors() {
        all.push(lexical(error))?;
    }
    Ok(all)
}

/// A lexical error.
fn lexical(error: &LexError) -> Finding<'_>
    ensures { told result ≡ told_lexical error.now }
{
    Finding {
        at: error.range().start as usize,
        message: error.message(),
        hint: error.hint(),
    }
}

/// An error of the grammar.
fn of_grammar(message: &str, at: usize) -> Finding<'_>
    ensures { told result ≡ record { at = at; message = encode_utf8_all (chars message.entry.now); hint = None } }
{
    Finding {
        at,
        message,
        hint: None,
    }
}

/// Puts the error that a step is behind others, if it is one.
fn push_finding<'s>(all: &mut Vec<Finding<'s>>, step: &StrStep<'s>) -> Result<(), AllocError>
    ensures { OnOk result (map told all.new.items ≡ map told all.old.items ++ told_in (owned_step_of step.now)) }
{
    if let StrStep::Error { msg, pos } = *step {
        all.push(of_grammar(msg, pos))?;
    }
    Ok(())
}

/// Errors in the order of their places. Those at one byte stay in their order.
fn in_order(mut all: Vec<Finding<'_>>) -> Result<Vec<Finding<'_>>, AllocError>
    ensures { IfOk result (λ sorted. AreInOrder (map told all.entry.items) sorted.items) }
{
    all.sort_by_key(|finding| finding.at)?;
    Ok(all)
}
