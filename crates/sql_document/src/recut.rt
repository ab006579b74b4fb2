//! Pieces that are cut anew, up to old ones.
ghost use Rattle.std.specs.Prelude.{◌≡◌, ◌++◌, ◌≤◌, ◌<◌, ◌-◌, ◌⊎◌, false, ℕ, [], List, Some, None, drop, length, take, Decides, IfErr, IfOk, IfSome, IsCharBoundary, IsTrue, string_bytes};
ghost use Rattle.sql_grammar.specs.ReadParts.{begun_with};
ghost use Rattle.sql_grammar.specs.declared.script_parts.Progress.TheVariants.{Inside};
ghost use Rattle.sql_document.specs.EditErrors.{RefusesText};
ghost use Rattle.sql_document.specs.Pieces.{AreChain, Finds, IsPiece, text_of};
ghost use Rattle.sql_document.specs.Recuts.{AreTails, Grows, IsBefore, IsMet, StandBefore};

use crate::cut::next_piece;
use crate::edit_error::EditError;
use crate::keep::Keep;
use crate::piece::Piece;
use crate::sql::Sql;
use sql_lexer::ScriptPlace;
use std::alloc::{AllocError, Global};

/// How many bytes of a text are read for a piece, if it isn't a longer statement.
const SIZE: usize = 512;

/// The end of the first character that ends so many bytes after the start or later.
fn char_end(text: &str, at: usize) -> usize
    requires { at ≤ length text.now }
    ensures { IsCharBoundary text.now result }
{
    let mut end = at;
    while !text.is_char_boundary(end) {
        end += 1;
    }
    end
}

/// Cuts a piece of a front of a text, of which some is left, if a statement ends in one.
fn piece_inside<K: Keep + Drop>(
    alloc: Global,
    sql: &Sql,
    keep: &K,
    text: &str,
    place: ScriptPlace,
) -> Result<Option<(Piece<K::Kept>, Option<ScriptPlace>)>, EditError>
    ensures cut { IfOk result (λ found. IfSome found (λ both. Finds place text.now both.0 both.1
        × ((rest : List ℕ) → IsPiece (K.keeps keep.now) sql.now.vocabulary sql.now.rules both.0 both.1 (text.now ++ rest)))) }
    ensures refused { IfErr result (RefusesText text.now) }
{
    let mut size = SIZE;
    while size < text.len() {
        let front = &text[..char_end(text, size)];
        if let Some(found) = next_piece(alloc, sql, keep, front, place, false, usize::MAX)? {
            return Ok(Some(found));
        }
        size = size.saturating_mul(2);
    }
    Ok(None)
}

/// Adds the text of the next old piece, and of others as long as the text is shorter than that. Returns the index after the
/// last of them.
pub(crate) fn pull<T: Drop>(
    old: &[Piece<T>],
    from: usize,
    until: usize,
    text: &mut String,
) -> Result<usize, AllocError>
    requires { from < length old.now }
    ensures grows { IfOk result (λ last. Grows old.now (string_bytes text.old) (string_bytes text.new) from last) }
    ensures some { IfOk result (λ last. from < last) }
    ensures reaches { IfOk result (λ last. (until ≤ length (string_bytes text.new)) ⊎ (last ≡ length old.now)) }
{
    let mut last = from;
    while last == from || (last < old.len() && text.len() < until) {
        text.push_str(&old[last].text)?;
        last += 1;
    }
    Ok(last)
}

/// Cuts the next piece of a text, after which old ones stand from `from` on; where a statement goes on, their texts are added.
/// Returns the index after those that are read, and the piece with the place after it, if one ends in the text.
fn cut_next<K: Keep + Drop>(
    alloc: Global,
    sql: &Sql,
    keep: &K,
    old: &[Piece<K::Kept>],
    from: usize,
    until: usize,
    text: &mut String,
    at: usize,
    place: ScriptPlace,
) -> Result<(usize, Option<(Piece<K::Kept>, Option<ScriptPlace>)>), EditError>
    requires boundary { IsCharBoundary (string_bytes text.old) at }
    requires within { from ≤ length old.now }
    requires some { begun_with place ≡ Inside → at < length (string_bytes text.old) }
    ensures grows { IfOk result (λ both. Grows old.now (string_bytes text.old) (string_bytes text.new) from both.0) }
    ensures cut { IfOk result (λ both. IfSome both.1 (λ found. IsPiece (K.keeps keep.now) sql.now.vocabulary sql.now.rules found.0 found.1
        (drop at (string_bytes text.new) ++ text_of (drop both.0 old.now)))) }
    ensures finds { IfOk result (λ both. IfSome both.1 (λ found. Finds place (drop at (string_bytes text.new)) found.0 found.1)) }
    ensures none { IfOk result (λ both. both.1 ≡ None → from < both.0) }
    ensures refused { IfErr result (RefusesText (string_bytes text.old ++ text_of (drop from old.now))) }
{
    if let Some(found) = piece_inside(alloc, sql, keep, &text[at..], place)? {
        return Ok((from, Some(found)));
    }
    if from == old.len() {
        let found = next_piece(alloc, sql, keep, &text[at..], place, true, usize::MAX)?;
        return Ok((from, found));
    }
    let bound = text.len() - at;
    let last = pull(old, from, until, text)?;
    let found = next_piece(alloc, sql, keep, &text[at..], place, false, bound)?;
    Ok((last, found))
}

/// Whether so many bytes are those of an old piece, which stands at this place.
fn is_met<T: Drop>(piece: &Piece<T>, left: usize, place: ScriptPlace) -> bool
    ensures { IsTrue result → IsMet piece.now left place }
{
    piece.text.len() == left && is_same(piece.place, place)
}

/// Whether two places are the same.
fn is_same(one: ScriptPlace, other: ScriptPlace) -> bool
    ensures { IsTrue result → one ≡ other }
{
    match (one, other) {
        (ScriptPlace::Front, ScriptPlace::Front) => true,
        (ScriptPlace::Inside { waiting }, ScriptPlace::Inside { waiting: others }) => {
            waiting == others
        }
        _ => false,
    }
}

/// Cuts a text anew that stands at a place, and after it old pieces from `from` on. Returns the new pieces, and the index of
/// the first old one that goes on after them.
pub(crate) fn recut<K: Keep + Drop>(
    alloc: Global,
    sql: &Sql,
    keep: &K,
    old: &[Piece<K::Kept>],
    from: usize,
    mut text: String,
    mut place: ScriptPlace,
) -> Result<(Vec<Piece<K::Kept>>, usize), EditError>
    requires within { from ≤ length old.now }
    requires tails { AreTails (K.keeps keep.now) sql.now.vocabulary sql.now.rules old.now from }
    requires some { begun_with place ≡ Inside → 0 < length (string_bytes text) }
    ensures within { IfOk result (λ both. (from ≤ both.1) × (both.1 ≤ length old.now)) }
    ensures chain { IfOk result (λ both. AreChain (K.keeps keep.now) sql.now.vocabulary sql.now.rules (Some place) (both.0.items ++ drop both.1 old.now) None
        (string_bytes text ++ text_of (drop from old.now)) []) }
    ensures refused { IfErr result (RefusesText (string_bytes text ++ text_of (drop from old.now))) }
{
    let mut new = Vec::new(alloc);
    let mut last = from;
    let mut at = 0;
    let mut until = 0;
    loop {
        let (read, found) = cut_next(alloc, sql, keep, old, last, until, &mut text, at, place)?;
        last = read;
        let Some((piece, after)) = found else {
            until = text.len().saturating_mul(2);
            continue;
        };
        until = 0;
        at += piece.text.len();
        new.push(piece)?;
        let Some(next) = after else {
            return Ok((new, old.len()));
        };
        place = next;
        if from < last && is_met(&old[last - 1], text.len() - at, place) {
            return Ok((new, last - 1));
        }
    }
}

/// Whether a place is one between two characters of the text of pieces.
pub(crate) fn is_boundary<T: Drop>(pieces: &[Piece<T>], place: usize) -> bool
    ensures { Decides result (IsCharBoundary (text_of pieces.now) place) }
{
    let mut left = place;
    for piece in pieces {
        if left < piece.text.len() {
            return piece.text.is_char_boundary(left);
        }
        left -= piece.text.len();
    }
    left == 0
}

/// Where the first piece begins that depends on what stands at a place, or the last piece, and its index.
pub(crate) fn first_piece<T: Drop>(pieces: &[Piece<T>], place: usize) -> (usize, usize)
    requires { 0 < length pieces.now }
    ensures within { result.0 < length pieces.now }
    ensures start { result.1 ≡ length (text_of (take result.0 pieces.now)) }
    ensures before { StandBefore 0 (take result.0 pieces.now) place }
{
    let mut index = 0;
    let mut start = 0;
    while index + 1 < pieces.len() {
        let piece = &pieces[index];
        if !is_before(piece, start, place) {
            break;
        }
        start += piece.text.len();
        index += 1;
    }
    (index, start)
}

/// Whether a piece that begins at `start` doesn't depend on what stands at a place.
fn is_before<T: Drop>(piece: &Piece<T>, start: usize, place: usize) -> bool
    ensures { IsTrue result → IsBefore start piece.now place }
{
    match piece.seen {
        Some(seen) => {
            let end = start.saturating_add(piece.text.len());
            end.saturating_add(seen) < place
        }
        None => false,
    }
}
