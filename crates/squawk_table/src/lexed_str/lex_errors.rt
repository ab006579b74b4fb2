//! The lexical errors of a table, one after another.
ghost use Rattle.std.specs.Prelude.{◌≡◌};

use squawk_tokens::LexError;
use std::marker::Model;

/// The errors that are left of a table, as an iterator.
#[derive(Drop)]
pub struct LexErrors<'a> {
    errors: &'a [LexError],
}

impl<'a> Model for LexErrors<'a> {
    ghost use Rattle.std.specs.Prelude.{List};
    ghost use Rattle.squawk_tokens.specs.LexicalErrors.{LexicalError};

    ghost Value = { List LexicalError };

    ghost view = { λ e. e.errors.now };
}

impl<'a> LexErrors<'a> {
    pub(super) fn new(errors: &'a [LexError]) -> LexErrors<'a>
        ensures { result ≡ errors.now }
    {
        LexErrors { errors }
    }
}

impl<'a> Iterator for LexErrors<'a> {
    ghost use Rattle.std.specs.Prelude.{◌≡◌, length, Some, IfSome};
    ghost use Rattle.std.specs.Iterator.{YieldsFirstRef, UpTo, item_count};
    ghost use Rattle.std.specs.Iterator.SizeHint.{IsWithinCount};

    type Item = &'a LexError;

    ghost next_gives = { YieldsFirstRef (λ s. s) };

    ghost remaining = { item_count (λ s. s) };

    fn next(&mut self) -> Option<&'a LexError> {
        let (first, rest) = self.errors.split_first()?;
        self.errors = rest;
        Some(first)
    }

    fn size_hint(&self) -> (usize, Option<usize>)
        ensures lower { IsWithinCount result.0 (item_count (λ s. s) self.now) }
        ensures upper { IfSome result.1 (UpTo (item_count (λ s. s) self.now)) }
        ensures exact { (result.0 ≡ length self.now) × (result.1 ≡ Some (length self.now)) }
    {
        let left = self.errors.len();
        (left, Some(left))
    }
}
