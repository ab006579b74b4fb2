//! Errors as numbers.
ghost use Rattle.std.specs.Prelude.{◌≡◌, ◌≤◌, ◌++◌, ◌∷◌, [], option_map, encode_utf8_all, IfOk, OnOk, length};
ghost use Rattle.std.specs.Str.{chars};
ghost use Rattle.squawk_table.specs.Sent.{sent_list};
ghost use Rattle.squawk_table.specs.Shape.{Fits};
ghost use Rattle.squawk_table.specs.declared.shortcuts.str_step.OwnedStep.{OwnedStep};
ghost use Rattle.squawk_tokens.specs.LexicalErrors.{LexicalError};
ghost use Rattle.caliperdock_c.specs.Errors.{all_errors, error_in, error_text, error_texts, numbered_error, numbered_errors};
ghost use Rattle.caliperdock_c.specs.Steps.{AreLow};
ghost use Rattle.std.specs.List.{flat_map};

use squawk_parser::{LexedStr, Output, StrStep, StrSteps};
use std::alloc::{AllocError, Global};

/// An error: its bytes of the source, and those of its message and of its hint among the texts. The
/// hint begins where the message ends; a hint of no bytes is none.
#[repr(C)]
#[derive(Clone, Copy)]
pub struct CError {
    pub start: u32,
    pub end: u32,
    pub message_start: u64,
    pub message_end: u64,
    pub hint_end: u64,
}

/// Errors as numbers, and the bytes of their texts.
#[derive(Drop)]
pub struct ErrorList {
    pub numbers: Vec<CError>,
    pub texts: Vec<u8>,
    /// How many are errors of steps; they come first.
    pub of_steps: usize,
}

impl ErrorList {
    /// The errors of the steps that are sent for an output, and behind them the lexical errors.
    pub fn new(
        alloc: Global,
        table: &LexedStr<'_>,
        output: &Output,
    ) -> Result<ErrorList, AllocError>
        requires fits { Fits table.now output.now.steps }
        requires short { length table.now.text ≤ 4294967295 }
        ensures numbers { IfOk result (λ list. list.numbers.items ≡ numbered_errors 0 (all_errors (sent_list table.now output.now.steps) table.now.errors)) }
        ensures texts { IfOk result (λ list. list.texts.items ≡ error_texts (all_errors (sent_list table.now output.now.steps) table.now.errors)) }
        ensures of_steps { IfOk result (λ list. list.of_steps ≡ length (flat_map error_in (sent_list table.now output.now.steps))) }
    {
        let mut list = ErrorList {
            numbers: Vec::new(alloc),
            texts: Vec::new(alloc),
            of_steps: 0,
        };
        list.push_sent(table, output)?;
        list.of_steps = list.numbers.len();
        list.push_lexical(table)?;
        Ok(list)
    }

    /// Puts the errors among the steps that are sent for an output at the end.
    fn push_sent(&mut self, table: &LexedStr<'_>, output: &Output) -> Result<(), AllocError>
        requires fits { Fits table.now output.now.steps }
        requires short { length table.now.text ≤ 4294967295 }
        ensures numbers { OnOk result (self.new.numbers.items ≡ self.old.numbers.items ++ numbered_errors (length self.old.texts.items) (flat_map error_in (sent_list table.now output.now.steps))) }
        ensures texts { OnOk result (self.new.texts.items ≡ self.old.texts.items ++ error_texts (flat_map error_in (sent_list table.now output.now.steps))) }
    {
        let _raw_count = table.len();
        // Where none is recorded, nothing need be sent.
        if output.error_count() == 0 {
            return Ok(());
        }
        self.push_steps(table.str_steps(output))
    }

    /// Puts the errors among steps at the end.
    fn push_steps(&mut self, steps: StrSteps<'_>) -> Result<(), AllocError>
        requires { AreLow steps.steps }
        ensures numbers { OnOk result (self.new.numbers.items ≡ self.old.numbers.items ++ numbered_errors (length self.old.texts.items) (flat_map error_in steps.entry.steps)) }
        ensures texts { OnOk result (self.new.texts.items ≡ self.old.texts.items ++ error_texts (flat_map error_in steps.entry.steps)) }
    {
        for step in steps {
            if let StrStep::Error { msg, pos } = step {
                let at = pos as u32;
                self.push(at, at, msg, None)?;
            }
        }
        Ok(())
    }

    /// Puts the lexical errors of a table at the end.
    fn push_lexical(&mut self, table: &LexedStr<'_>) -> Result<(), AllocError>
        ensures numbers { OnOk result (self.new.numbers.items ≡ self.old.numbers.items ++ numbered_errors (length self.old.texts.items) table.now.errors) }
        ensures texts { OnOk result (self.new.texts.items ≡ self.old.texts.items ++ error_texts table.now.errors) }
        ensures of_steps { self.new.of_steps ≡ self.old.of_steps }
    {
        for error in table.errors() {
            let range = error.range();
            self.push(range.start, range.end, error.message(), error.hint())?;
        }
        Ok(())
    }

    /// Puts an error at the end.
    fn push(
        &mut self,
        start: u32,
        end: u32,
        message: &str,
        hint: Option<&str>,
    ) -> Result<(), AllocError>
        ensures numbers { OnOk result ((e : LexicalError) → e ≡ record { start = start; end = end; message = message.now; hint = option_map (λ hint. hint.now) hint.entry }
            → self.new.numbers.items ≡ self.old.numbers.items ++ numbered_error (length self.old.texts.items) e ∷ []) }
        ensures texts { OnOk result ((e : LexicalError) → e ≡ record { start = start; end = end; message = message.now; hint = option_map (λ hint. hint.now) hint.entry }
            → self.new.texts.items ≡ self.old.texts.items ++ error_text e) }
        ensures of_steps { self.new.of_steps ≡ self.old.of_steps }
        ensures utf8 { OnOk result (encode_utf8_all (chars message.entry.now) ≡ message.entry.now) }
    {
        let message_start = self.texts.len();
        self.texts.extend_from_slice(message.as_bytes())?;
        let message_end = self.texts.len();
        if let Some(hint) = hint {
            self.texts.extend_from_slice(hint.as_bytes())?;
        }
        let number = CError {
            start,
            end,
            message_start: message_start as u64,
            message_end: message_end as u64,
            hint_end: self.texts.len() as u64,
        };
        self.numbers.push(number)?;
        Ok(())
    }
}
