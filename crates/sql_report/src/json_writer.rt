//! The objects of a tree, written in one pass over its steps.
ghost use Rattle.std.specs.Prelude.{◌≡◌, ◌+◌, [], ◌++◌, ◌<◌, ◌^◌, false, OnOk, encode_utf8_all, length, string_bytes};
ghost use Rattle.std.specs.Str.{chars};
ghost use Rattle.squawk_json.specs.JsonStrings.{json_string};
ghost use Rattle.squawk_kinds.specs.KindNames.{kind_name};
ghost use Rattle.squawk_table.specs.SinkViews.{owned_step_of};
ghost use Rattle.squawk_table.specs.declared.shortcuts.str_step.OwnedStep.TheVariants.{Token, Enter, Exit, Error};
ghost use Rattle.squawk_tree.specs.TreeText.{bytes_in};
ghost use Rattle.sql_report.specs.JsonLines.{begun, behind, closing, comma, ending_inside, error_object, in_statement, node_closed, node_opened, opening, token_object, with_comma, with_error, written};
ghost use Rattle.sql_report.specs.OpenJson.{nodes_of, standing};

use crate::statement_list::byte_len;
use squawk_json::push_json;
use squawk_kinds::{KindNames, SyntaxKind};
use squawk_table::StrStep;
use std::alloc::{AllocError, Global};
use std::fmt::Write;

/// The lines so far, and the nodes that are open.
#[derive(Drop)]
pub(crate) struct JsonWriter {
    alloc: Global,
    pub(crate) lines: String,
    /// The errors of each open node so far, joined, those of the innermost last.
    errors: Vec<String>,
    /// Whether a child stands before in the innermost node.
    has_child: bool,
}

impl JsonWriter {
    /// Nothing, before the first step.
    pub(crate) fn new(alloc: Global) -> JsonWriter
        ensures lines { string_bytes result.lines ≡ [] }
        ensures first { standing result 0 ≡ record { nodes = []; has_child = false; at = 0 } }
    {
        JsonWriter {
            alloc,
            lines: String::new(alloc),
            errors: Vec::new(alloc),
            has_child: false,
        }
    }

    /// Takes a step that stands at a byte.
    pub(crate) fn step(
        &mut self,
        names: &mut KindNames<'_, '_>,
        at: usize,
        step: &StrStep<'_>,
    ) -> Result<(), AllocError>
        requires { at + bytes_in (owned_step_of step.now) < 2 ^ 64 }
        ensures written { OnOk result (string_bytes self.new.lines
            ≡ string_bytes self.old.lines ++ written names.old (standing self.old at) (owned_step_of step.now)) }
        ensures behind { OnOk result (standing self.new (at + bytes_in (owned_step_of step.now))
            ≡ behind (standing self.old at) (owned_step_of step.now)) }
        ensures same { names.new ≡ names.old }
    {
        match *step {
            StrStep::Token { kind, text } => self.token(names, at, kind, text),
            StrStep::Enter { kind } => self.enter(names, at, kind),
            StrStep::Exit => self.exit(at),
            StrStep::Error { msg, pos } => self.error(msg, pos),
        }
    }

    /// Takes a token.
    fn token(
        &mut self,
        names: &mut KindNames<'_, '_>,
        at: usize,
        kind: SyntaxKind,
        text: &str,
    ) -> Result<(), AllocError>
        requires { at + length (encode_utf8_all (chars text.now)) < 2 ^ 64 }
        ensures written { OnOk result (string_bytes self.new.lines
            ≡ string_bytes self.old.lines ++ written names.old (standing self.old at) (Token kind (chars text.now))) }
        ensures behind { OnOk result (standing self.new (at + length (encode_utf8_all (chars text.now)))
            ≡ behind (standing self.old at) (Token kind (chars text.now))) }
        ensures same { names.new ≡ names.old }
    {
        self.push_token(names, kind, at, at + byte_len(text))?;
        self.has_child = true;
        Ok(())
    }

    /// Takes the beginning of a node.
    fn enter(
        &mut self,
        names: &mut KindNames<'_, '_>,
        at: usize,
        kind: SyntaxKind,
    ) -> Result<(), AllocError>
        ensures written { OnOk result (string_bytes self.new.lines
            ≡ string_bytes self.old.lines ++ written names.old (standing self.old at) (Enter kind)) }
        ensures behind { OnOk result (standing self.new at ≡ behind (standing self.old at) (Enter kind)) }
        ensures same { names.new ≡ names.old }
    {
        self.push_opening(names, at, kind)?;
        self.errors.push(String::new(self.alloc))?;
        self.has_child = false;
        Ok(())
    }

    /// Takes the end of a node.
    fn exit(&mut self, at: usize) -> Result<(), AllocError>
        ensures written { OnOk result (string_bytes self.new.lines
            ≡ string_bytes self.old.lines ++ closing (nodes_of self.old.errors.items) at) }
        ensures behind { OnOk result (standing self.new at ≡ behind (standing self.old at) Exit) }
    {
        self.has_child = true;
        match self.errors.pop() {
            Some(errors) => push_closed(&mut self.lines, self.errors.len(), at, &errors),
            None => Ok(()),
        }
    }

    /// Takes an error.
    fn error(&mut self, msg: &str, pos: usize) -> Result<(), AllocError>
        ensures nodes { OnOk result (nodes_of self.new.errors.items
            ≡ with_error (nodes_of self.old.errors.items) (error_object (chars msg.now) pos)) }
        ensures others { self.new ≡ record self.old { errors = self.new.errors } }
    {
        match self.errors.pop() {
            Some(mut errors) => {
                push_error(self.alloc, &mut errors, msg, pos)?;
                self.errors.push(errors)?;
                Ok(())
            }
            None => Ok(()),
        }
    }

    /// Puts a token from a byte to another behind the lines, if it stands in a statement.
    fn push_token(
        &mut self,
        names: &mut KindNames<'_, '_>,
        kind: SyntaxKind,
        start: usize,
        end: usize,
    ) -> Result<(), AllocError>
        ensures written { OnOk result (string_bytes self.new.lines ≡ string_bytes self.old.lines
            ++ in_statement (nodes_of self.old.errors.items) (comma self.old.has_child ++ token_object names.old kind start end)) }
        ensures others { self.new ≡ record self.old { lines = self.new.lines } }
        ensures same { names.new ≡ names.old }
    {
        if self.errors.len() < 2 {
            return Ok(());
        }
        self.push_comma()?;
        push_begun(self.alloc, &mut self.lines, names, kind, start)?;
        write!(self.lines, ",\"end\":{end}}}")
    }

    /// Puts the beginning of a node behind the lines, if it isn't the root.
    fn push_opening(
        &mut self,
        names: &mut KindNames<'_, '_>,
        start: usize,
        kind: SyntaxKind,
    ) -> Result<(), AllocError>
        ensures written { OnOk result (string_bytes self.new.lines ≡ string_bytes self.old.lines
            ++ opening (nodes_of self.old.errors.items) self.old.has_child (node_opened names.old kind start)) }
        ensures others { self.new ≡ record self.old { lines = self.new.lines } }
        ensures same { names.new ≡ names.old }
    {
        if self.errors.is_empty() {
            return Ok(());
        }
        self.push_comma()?;
        push_begun(self.alloc, &mut self.lines, names, kind, start)?;
        self.lines.push_str(",\"children\":[")
    }

    /// Puts a comma behind the lines, where a child stands before in a node of a statement.
    fn push_comma(&mut self) -> Result<(), AllocError>
        ensures written { OnOk result (string_bytes self.new.lines ≡ string_bytes self.old.lines
            ++ in_statement (nodes_of self.old.errors.items) (comma self.old.has_child)) }
        ensures others { self.new ≡ record self.old { lines = self.new.lines } }
    {
        if self.has_child && self.errors.len() > 1 {
            self.lines.push(',')
        } else {
            Ok(())
        }
    }
}

/// Puts the beginning of an object of a node or a token behind others.
fn push_begun(
    alloc: Global,
    lines: &mut String,
    names: &mut KindNames<'_, '_>,
    kind: SyntaxKind,
    start: usize,
) -> Result<(), AllocError>
    ensures begun { OnOk result (string_bytes lines.new ≡ string_bytes lines.old ++ begun names.old kind start) }
    ensures same { names.new ≡ names.old }
{
    lines.push_str("{\"kind\":")?;
    push_kind(alloc, lines, names, kind)?;
    write!(lines, ",\"start\":{start}")
}

/// Puts the name of a kind behind others, as a JSON string.
fn push_kind(
    alloc: Global,
    lines: &mut String,
    names: &mut KindNames<'_, '_>,
    kind: SyntaxKind,
) -> Result<(), AllocError>
    ensures name { OnOk result (string_bytes lines.new ≡ string_bytes lines.old ++ json_string (kind_name names.old kind)) }
    ensures same { names.new ≡ names.old }
{
    if let Some(name) = names.name(kind) {
        return push_json(alloc, lines, name);
    }
    let number = u16::from(kind);
    let number = format!(in alloc; "{number}")?;
    push_json(alloc, lines, &number)
}

/// Puts the end of a node inside of so many others behind lines, with its errors.
fn push_closed(lines: &mut String, outer: usize, end: usize, errors: &str) -> Result<(), AllocError>
    ensures { OnOk result (string_bytes lines.new ≡ string_bytes lines.old ++ ending_inside outer (node_closed end errors.now)) }
{
    if outer == 0 {
        return Ok(());
    }
    write!(lines, "],\"end\":{end},\"errors\":[{errors}]}}")?;
    if outer == 1 { lines.push('\n') } else { Ok(()) }
}

/// Puts an error behind others, with a comma between them.
fn push_error(alloc: Global, errors: &mut String, msg: &str, pos: usize) -> Result<(), AllocError>
    ensures { OnOk result (string_bytes errors.new ≡ with_comma (string_bytes errors.old) ++ error_object (chars msg.now) pos) }
{
    push_error_comma(errors)?;
    errors.push_str("{\"message\":")?;
    push_json(alloc, errors, msg)?;
    write!(errors, ",\"at\":{pos}}}")
}

/// Puts a comma behind errors, if there are any.
fn push_error_comma(errors: &mut String) -> Result<(), AllocError>
    ensures { OnOk result (string_bytes errors.new ≡ with_comma (string_bytes errors.old)) }
{
    if errors.is_empty() {
        Ok(())
    } else {
        errors.push(',')
    }
}
