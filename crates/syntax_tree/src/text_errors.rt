//! All errors of a tree, the lexical ones too.
ghost use Rattle.std.specs.Prelude.{◌≡◌, ◌++◌, IfOk, OnOk, map, option_map};
ghost use Rattle.squawk_tree.specs.Forest.{Forest};
ghost use Rattle.syntax_tree.specs.Layout.{IsTree};
ghost use Rattle.syntax_tree.specs.TextErrors.{AreByPlace, OfGrammar, hint_of, meant, message_of, place_of};

use crate::errors::{Errors, SyntaxError};
use crate::tree::SyntaxTree;
use squawk_tokens::LexError;
use std::alloc::{AllocError, Global};

/// An error of a text.
#[derive(Clone, Copy)]
pub enum TextError<'t> {
    /// A raw token is wrong. It has the bytes that this is about.
    Lexical(&'t LexError),
    /// The grammar found it.
    Grammar(SyntaxError<'t>),
}

impl<'t> TextError<'t> {
    /// How many bytes of the text stand before it.
    pub fn pos(self) -> usize
        ensures { result ≡ place_of self.entry }
    {
        match self {
            TextError::Lexical(error) => error.range().start as usize,
            TextError::Grammar(error) => error.pos(),
        }
    }

    /// What it says.
    pub fn message(self) -> &'t str
        ensures { result.now ≡ message_of self.entry }
    {
        match self {
            TextError::Lexical(error) => error.message(),
            TextError::Grammar(error) => error.message(),
        }
    }

    /// What to write instead, if it says so.
    pub fn hint(self) -> Option<&'t str>
        ensures { option_map (λ hint. hint.now) result ≡ hint_of self.entry }
    {
        match self {
            TextError::Lexical(error) => error.hint(),
            TextError::Grammar(_) => None,
        }
    }
}

impl<'s> SyntaxTree<'s> {
    /// The lexical errors of the text that was parsed, in its order.
    pub fn lexical_errors(&self) -> &[LexError]
        ensures { result.now ≡ self.now.lexical }
    {
        &self.lexical
    }

    /// All errors in the order of their places. At one byte the lexical errors come first.
    pub fn errors_by_place<'t>(&'t self, alloc: Global) -> Result<Vec<TextError<'t>>, AllocError>
        ensures { IfOk result (λ all. (tree : Forest) → IsTree self.now tree → AreByPlace self.now tree all.items) }
    {
        let mut all = Vec::new(alloc);
        for error in self.lexical_errors() {
            all.push(TextError::Lexical(error))?;
        }
        push_errors(&mut all, self.errors())?;
        all.sort_by_key(|error| error.pos())?;
        Ok(all)
    }
}

/// Puts errors of the grammar behind others.
fn push_errors<'t>(all: &mut Vec<TextError<'t>>, errors: Errors<'t>) -> Result<(), AllocError>
    ensures { OnOk result (map meant all.new.items ≡ map meant all.old.items ++ map OfGrammar errors.entry) }
{
    for error in errors {
        all.push(TextError::Grammar(error))?;
    }
    Ok(())
}
