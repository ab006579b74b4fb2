//! The raw tokens of a text.
ghost use Rattle.std.specs.Prelude.{◌≡◌, ◌≤◌, [], length, IfOk, IfErr, OnOk};
ghost use Rattle.squawk_tokens.specs.AcceptedTokens.{AreAcceptedTokens};
ghost use Rattle.sql_lexer.specs.Tokens.{tokens_of, RefusesText};

use crate::first_token::push_first;
use squawk_tokens::Token;
use std::alloc::{AllocError, AllocFailed, Global};
use std::error::Error;
use std::fmt;

/// The longest text in bytes: places in it have 32 bits.
pub(crate) const LONGEST_TEXT: usize = u32::MAX as usize;

/// Room is made at first for one raw token in so many bytes.
const BYTES_PER_TOKEN: usize = 5;

/// Why there are no tokens.
#[derive(Clone, Copy, Debug, PartialEq, Eq)]
pub enum TokenizeError {
    /// The text has more than `u32::MAX` bytes.
    TextTooLong,
    /// Memory was refused. The text is short enough.
    OutOfMemory,
}

impl fmt::Display for TokenizeError {
    ghost use Rattle.std.specs.Prelude.{Some};
    ghost use Rattle.sql_lexer.specs.ErrorLines.{tokenize_error_line};

    ghost output = { λ error. Some (tokenize_error_line error) };

    fn fmt<W: fmt::Write>(&self, f: &mut fmt::Formatter<W>) -> fmt::Result {
        match *self {
            TokenizeError::TextTooLong => write!(f, "text too long"),
            TokenizeError::OutOfMemory => write!(f, "memory"),
        }
    }
}

impl Error for TokenizeError {}

impl From<AllocError> for TokenizeError {
    ghost use Rattle.sql_lexer.specs.declared.tokenizer.TokenizeError.TheVariants.{OutOfMemory};

    ghost from_gives = { λ _ error. error ≡ OutOfMemory };

    fn from(_error: AllocError) -> TokenizeError {
        TokenizeError::OutOfMemory
    }
}

impl<T: Drop> From<AllocFailed<T>> for TokenizeError {
    ghost use Rattle.sql_lexer.specs.declared.tokenizer.TokenizeError.TheVariants.{OutOfMemory};

    ghost from_gives = { λ _ error. error ≡ OutOfMemory };

    fn from(_error: AllocFailed<T>) -> TokenizeError {
        TokenizeError::OutOfMemory
    }
}

/// The raw tokens of a text, whatever it is: from the left, each by the first that fits of the rules of
/// PostgreSQL's documentation, section 4.1 "Lexical Structure". Their lengths add up to the text.
///
/// What isn't closed runs to the end of the text, and its token says so. What is no other token is
/// `Unknown`, one character long. A text of more than `u32::MAX` bytes is refused before memory is
/// asked for.
///
/// It takes time proportional to the text's length, and no memory but the list's.
#[tactic(auto, using(crate::proofs::TextTokens::has_cut_none, crate::proofs::TextTokens::has_cut_all, crate::proofs::TextTokens::tokens_accepted))]
pub fn tokenize(alloc: Global, text: &str) -> Result<Vec<Token>, TokenizeError>
    ensures tokens { IfOk result (λ tokens. tokens.items ≡ tokens_of text.now) }
    // So `check_tokens` accepts them, and a table can be made of them.
    ensures accepted { IfOk result (λ tokens. AreAcceptedTokens text.now tokens.items) }
    ensures refused { IfErr result (RefusesText text.now) }
{
    let mut tokens = room_for(alloc, text)?;
    let bytes = text.as_bytes();
    let mut at = 0;
    while at < bytes.len() {
        let token = push_first(&mut tokens, &bytes[at..])?;
        at += token.len as usize;
    }
    give_back(&mut tokens);
    Ok(tokens)
}

/// No tokens, with room for about as many as the text has. A text that is too long is refused before memory is
/// asked for.
pub(crate) fn room_for(alloc: Global, text: &str) -> Result<Vec<Token>, TokenizeError>
    ensures none { IfOk result (λ tokens. tokens.items ≡ []) }
    ensures short { OnOk result (length text.now ≤ 4294967295) }
    ensures refused { IfErr result (RefusesText text.now) }
{
    if text.len() > LONGEST_TEXT {
        return Err(TokenizeError::TextTooLong);
    }
    Ok(Vec::with_capacity(alloc, text.len() / BYTES_PER_TOKEN + 1)?)
}

/// Gives back the room of a list that uses less than half of it.
pub(crate) fn give_back(tokens: &mut Vec<Token>)
    ensures { tokens.new.items ≡ tokens.old.items }
{
    if tokens.len() < tokens.capacity() / 2 {
        tokens.shrink_to_fit();
    }
}
