//! A document: a text that is edited.

use crate::edit_error::EditError;
use crate::keep::Keep;
use crate::piece::Piece;
use crate::recut::{first_piece, is_boundary, pull, recut};
use crate::sql::Sql;
use sql_lexer::ScriptPlace;
use std::alloc::{AllocError, Global};
use std::marker::Model;
use std::ops::Range;

/// The greatest length of a text, in bytes.
const LONGEST_TEXT: usize = 4_294_967_295;

/// A script of SQL that is edited. It holds its parts, and of each what a [`Keep`] makes of it.
#[derive(Drop)]
pub struct Document<K: Keep + Drop> {
    alloc: Global,
    sql: Sql,
    keep: K,
    pieces: Vec<Piece<K::Kept>>,
    len: usize,
}

impl<K: Keep + Drop> Model for Document<K> {
    ghost use Rattle.std.specs.Prelude.{List};
    ghost use Rattle.sql_document.specs.Held.{IsHeld};
    ghost use Rattle.sql_document.specs.declared.piece.Piece.{Piece};

    ghost Value = { K × List (Piece K.Kept) };

    ghost view = { λ d. (d.keep, d.pieces.items) };

    ghost invariant = { λ d. IsHeld (K.keeps d.keep) d.sql.vocabulary d.sql.rules d.pieces.items d.len };
}

impl<K: Keep + Drop> Document<K> {
    ghost use Rattle.std.specs.Prelude.{◌≡◌, ◌<◌, ◌≤◌, List, Err, None, length, IfErr, IfOk, IfSome, OnErr, OnOk, string_bytes};
    ghost use Rattle.sql_document.specs.EditErrors.{RefusesEdit, RefusesText};
    ghost use Rattle.sql_document.specs.Pieces.{IsDocument, IsRange, edited, text_of};
    ghost use Rattle.sql_document.specs.Recuts.{IsTouched};

    /// Parses a text. One of more than `u32::MAX` bytes is refused.
    pub fn new(alloc: Global, text: &str, keep: K) -> Result<Document<K>, EditError>
        ensures keep { IfOk result (λ document. document.0 ≡ keep) }
        ensures document { IfOk result (λ document. IsDocument (K.keeps document.0) text.now document.1) }
        ensures long { 4294967295 < length text.now → result ≡ Err EditError.TextTooLong }
        ensures refused { IfErr result (RefusesText text.now) }
    {
        if text.len() > LONGEST_TEXT {
            return Err(EditError::TextTooLong);
        }
        let sql = Sql::new(alloc)?;
        let string = String::from_str(alloc, text)?;
        let none = Vec::new(alloc);
        let (pieces, _) = recut(alloc, &sql, &keep, &none, 0, string, ScriptPlace::Front)?;
        Ok(Document {
            alloc,
            sql,
            keep,
            pieces,
            len: text.len(),
        })
    }

    /// Puts a text in the place of some bytes. What doesn't depend on them stays. After an error all is as before.
    pub fn edit(&mut self, range: Range<usize>, replacement: &str) -> Result<(), EditError>
        ensures document { OnOk result (IsDocument (K.keeps self.new.0) (edited range.start range.end replacement.now (text_of self.old.1)) self.new.1) }
        ensures keep { self.new.0 ≡ self.old.0 }
        ensures stays { OnErr result (self.new ≡ self.old) }
        ensures outside { ¬ (IsRange range.start range.end (text_of self.old.1)) → result ≡ Err EditError.NoRange }
        ensures long { IsRange range.start range.end (text_of self.old.1) → 4294967295 < length (edited range.start range.end replacement.now (text_of self.old.1))
            → result ≡ Err EditError.TextTooLong }
        ensures refused { IfErr result (RefusesEdit range.start range.end replacement.now (text_of self.old.1)) }
    {
        let Some((first, start)) = self.find(&range) else {
            return Err(EditError::NoRange);
        };
        let len = self.len - (range.end - range.start) + replacement.len();
        if len > LONGEST_TEXT {
            return Err(EditError::TextTooLong);
        }
        self.replace(first, start, range, replacement)
    }

    /// The index of the first piece that an edit of a range touches, and where the piece begins; none if it is no range of the text.
    fn find(&self, range: &Range<usize>) -> Option<(usize, usize)>
        ensures none { result ≡ None → ¬ (IsRange range.now.start range.now.end (text_of self.now.1)) }
        ensures range { IfSome result (λ _. IsRange range.now.start range.now.end (text_of self.now.1)) }
        ensures touched { IfSome result (λ found. IsTouched self.now.1 range.now.start found.0 found.1) }
    {
        if range.start > range.end || range.end > self.len {
            return None;
        }
        let (first, start) = first_piece(&self.pieces, range.start);
        let pieces = &self.pieces[first..];
        let (low, high) = (range.start - start, range.end - start);
        if !is_boundary(pieces, low) || !is_boundary(pieces, high) {
            return None;
        }
        Some((first, start))
    }

    /// Puts a text in the place of some bytes, of which the first stands in a piece that begins at `start`.
    fn replace(
        &mut self,
        first: usize,
        start: usize,
        range: Range<usize>,
        replacement: &str,
    ) -> Result<(), EditError>
        requires touched { IsTouched self.old.1 range.start first start }
        requires range { IsRange range.start range.end (text_of self.old.1) }
        requires short { length (edited range.start range.end replacement.now (text_of self.old.1)) ≤ 4294967295 }
        ensures document { OnOk result (IsDocument (K.keeps self.new.0) (edited range.start range.end replacement.now (text_of self.old.1)) self.new.1) }
        ensures keep { self.new.0 ≡ self.old.0 }
        ensures stays { OnErr result (self.new ≡ self.old) }
        ensures refused { IfErr result (RefusesText (edited range.start range.end replacement.now (text_of self.old.1))) }
    {
        let (low, high) = (range.start - start, range.end - start);
        let mut text = String::new(self.alloc);
        let last = pull(&self.pieces, first, high, &mut text)?;
        text.replace_range(low..high, replacement)?;
        let place = self.pieces[first].place;
        let (new, end) = recut(
            self.alloc,
            &self.sql,
            &self.keep,
            &self.pieces,
            last,
            text,
            place,
        )?;
        self.pieces.splice(first..end, new)?;
        self.len = self.len - (high - low) + replacement.len();
        Ok(())
    }

    /// All of the text.
    pub fn text(&self) -> Result<String, AllocError>
        ensures { IfOk result (λ text. string_bytes text ≡ text_of self.now.1) }
    {
        let mut text = String::with_capacity(self.alloc, self.len)?;
        for piece in &self.pieces {
            text.push_str(&piece.text)?;
        }
        Ok(text)
    }

    /// Its pieces, one after another.
    pub fn pieces(&self) -> &[Piece<K::Kept>]
        ensures { result.now ≡ self.now.1 }
    {
        &self.pieces
    }
}
