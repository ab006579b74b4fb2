//! A number that all results go into.

use squawk_parser::{LexedStr, StepSink, StrStep, SyntaxKind};
use std::alloc::AllocError;

/// A number that all results go into, in their order.
#[derive(Drop)]
pub struct Digest {
    pub number: u64,
    /// How many steps were taken.
    pub steps: u64,
}

fn of(kind: SyntaxKind) -> u64 {
    u64::from(u16::from(kind))
}

/// The length of a text, its first byte and its last one.
#[inline(always)]
fn of_text(text: &str) -> u64 {
    let bytes = text.as_bytes();
    match bytes {
        [] => 0,
        [first, ..] => {
            let last = bytes[bytes.len() - 1];
            (bytes.len() as u64).wrapping_mul(65536)
                ^ u64::from(*first).wrapping_mul(256)
                ^ u64::from(last)
        }
    }
}

impl Digest {
    pub fn new() -> Digest {
        Digest {
            number: 1,
            steps: 0,
        }
    }

    /// Adds a number.
    #[inline(always)]
    pub fn add(&mut self, number: u64) {
        self.number = (self.number ^ number).wrapping_mul(0x9e37_79b9_7f4a_7c15);
        self.number ^= self.number >> 29;
    }

    /// Adds the bytes of a text.
    pub fn add_bytes(&mut self, bytes: &[u8]) {
        let mut rest = bytes;
        while let Some((word, others)) = rest.split_first_chunk::<8>() {
            self.add(u64::from_le_bytes(*word));
            rest = others;
        }
        for byte in rest {
            self.add(u64::from(*byte));
        }
        self.add(bytes.len() as u64);
    }

    /// Adds a step.
    #[inline(always)]
    pub fn add_step(&mut self, step: StrStep<'_>) {
        match step {
            StrStep::Token { kind, text } => self.add_token(kind, text),
            StrStep::Enter { kind } => self.add_other(2 ^ (of(kind) << 3)),
            StrStep::Exit => self.add_other(3),
            StrStep::Error { msg, pos } => self.add_error(msg, pos),
        }
    }

    #[inline(always)]
    fn add_token(&mut self, kind: SyntaxKind, text: &str) {
        self.add_other(1 ^ (of(kind) << 3) ^ of_text(text).rotate_left(20));
    }

    #[inline(always)]
    fn add_error(&mut self, msg: &str, pos: usize) {
        self.add_other(4 ^ (pos as u64).rotate_left(3) ^ of_text(msg).rotate_left(20));
    }

    /// Adds the number of a step.
    #[inline(always)]
    fn add_other(&mut self, number: u64) {
        self.steps = self.steps.wrapping_add(1);
        self.add(number);
    }

    /// Adds the lexical errors of a table.
    pub fn add_errors(&mut self, table: &LexedStr<'_>) {
        for error in table.errors() {
            let range = error.range();
            self.add(u64::from(range.start));
            self.add(u64::from(range.end));
            self.add(of_text(error.message()));
            self.add(error.hint().map_or(0, of_text));
        }
    }
}

impl StepSink for Digest {
    type Refusal = AllocError;

    ghost stands_after = { λ _ _. Unit {0} };

    ghost refuses = { λ _ _ _. Unit {0} };

    #[inline(always)]
    fn step(&mut self, step: StrStep<'_>) -> Result<(), AllocError> {
        // Taken apart, since the check doesn't cover a step that is handed on whole.
        match step {
            StrStep::Token { kind, text } => self.add_token(kind, text),
            StrStep::Enter { kind } => self.add_other(2 ^ (of(kind) << 3)),
            StrStep::Exit => self.add_other(3),
            StrStep::Error { msg, pos } => self.add_error(msg, pos),
        }
        Ok(())
    }
}
