//! The steps of an output as it keeps them, a word of 32 bits each. What is inlined runs for each step.
ghost use Rattle.std.specs.Prelude.{◌≡◌, ◌<◌, IfSome, IsNone};
ghost use Rattle.squawk_output.specs.StepViews.{step_of};
ghost use Rattle.squawk_output.specs.StoredSteps.{FitsWord, HasText, IsNoError, IsWord, enters_of, leaves_of, odd_word, packed, unpacked, with_text};

use crate::output::step::Step;
use crate::output::text::Text;
use squawk_kinds::SyntaxKind;

const TOKEN: u32 = 0x01;

/// Only this tag has bit 4, which [`enters`] reads.
const ENTER: u32 = 0x11;

/// Only this tag has bit 5, which [`leaves`] reads.
const EXIT: u32 = 0x21;

/// A step as it is kept: an error has a number in place of its text.
#[derive(Clone, Copy, Debug)]
pub(crate) enum StoredStep {
    Token {
        kind: SyntaxKind,
        n_input_tokens: u8,
    },
    Enter {
        kind: SyntaxKind,
    },
    Exit,
    /// The errors of an output are numbered from 0.
    Error {
        number: u32,
    },
}

impl StoredStep {
    /// The step as a word.
    ///
    /// An even word is twice an error's number. An odd one has [`TOKEN`], [`ENTER`] or [`EXIT`] in its
    /// lowest eight bits; above them eight with the number of input tokens, and sixteen with the kind.
    #[inline(always)]
    pub(crate) fn pack(self) -> u32
        requires { FitsWord self }
        ensures word { result ≡ packed self }
        ensures undone { unpacked result ≡ self }
    {
        match self {
            StoredStep::Token {
                kind,
                n_input_tokens,
            } => odd_word(kind, n_input_tokens, TOKEN),
            StoredStep::Enter { kind } => odd_word(kind, 0, ENTER),
            StoredStep::Exit => EXIT,
            StoredStep::Error { number } => number * 2,
        }
    }

    /// The step of a word.
    #[inline(always)]
    pub(crate) fn unpack(word: u32) -> StoredStep
        ensures { result ≡ unpacked word }
    {
        let kind = SyntaxKind::from((word >> 16) as u16);
        if word % 64 == TOKEN {
            return StoredStep::Token {
                kind,
                n_input_tokens: ((word >> 8) % 256) as u8,
            };
        }
        match word % 2 {
            0 => StoredStep::Error { number: word / 2 },
            _ if (word >> 4) % 2 == 1 => StoredStep::Enter { kind },
            _ => StoredStep::Exit,
        }
    }

    /// The number of the error, if the word is an error's.
    #[inline(always)]
    pub(crate) fn as_error(word: u32) -> Option<u32>
        ensures error { IfSome result (λ number. unpacked word ≡ StoredStep.Error number) }
        ensures none { IsNone result → IsNoError (unpacked word) }
    {
        if word % 2 == 0 { Some(word / 2) } else { None }
    }

    /// The step; an error with its text, which is one of these.
    #[inline(always)]
    pub(crate) fn lend(self, errors: &[Text]) -> Step<'_>
        requires { HasText errors.now self }
        ensures { step_of result ≡ with_text errors.now self }
    {
        match self {
            StoredStep::Token {
                kind,
                n_input_tokens,
            } => Step::Token {
                kind,
                n_input_tokens,
            },
            StoredStep::Enter { kind } => Step::Enter { kind },
            StoredStep::Exit => Step::Exit,
            StoredStep::Error { number } => Step::Error {
                msg: errors[number as usize].as_str(),
            },
        }
    }
}

/// The number of nodes that the step of a word enters.
#[inline(always)]
pub(crate) fn enters(word: u32) -> u32
    requires word { IsWord word }
    requires no_error { IsNoError (unpacked word) }
    ensures { result ≡ enters_of (unpacked word) }
{
    (word >> 4) % 2
}

/// The number of nodes that the step of a word leaves.
#[inline(always)]
pub(crate) fn leaves(word: u32) -> u32
    requires word { IsWord word }
    requires no_error { IsNoError (unpacked word) }
    ensures { result ≡ leaves_of (unpacked word) }
{
    (word >> 5) % 2
}

/// The word of a step other than an error.
#[inline(always)]
fn odd_word(kind: SyntaxKind, n_input_tokens: u8, tag: u32) -> u32
    requires { tag < 256 }
    ensures { result ≡ odd_word kind n_input_tokens tag }
{
    (u32::from(u16::from(kind)) << 16) + (u32::from(n_input_tokens) << 8) + tag
}
