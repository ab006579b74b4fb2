//! The next piece of a script.
ghost use Rattle.std.specs.Prelude.{◌≡◌, ◌++◌, ◌≤◌, ◌-◌, true, false, [], ℕ, List, Some, None, length, IfErr, IfOk, IfSome, if◌then◌else◌};
ghost use Rattle.sql_lexer.specs.ScriptLexing.{place_of, script_place};
ghost use Rattle.sql_grammar.specs.ReadParts.{begun_with};
ghost use Rattle.sql_grammar.specs.WholeLines.{AreWholeLines};
ghost use Rattle.sql_grammar.specs.declared.script_parts.Progress.TheVariants.{Inside};
ghost use Rattle.sql_document.specs.EditErrors.{RefusesText};
ghost use Rattle.sql_document.specs.Pieces.{Finds, IsPiece};

use crate::edit_error::EditError;
use crate::keep::Keep;
use crate::piece::Piece;
use crate::sql::Sql;
use sql_grammar::{ScriptParts, whole_lines};
use sql_lexer::ScriptPlace;
use std::alloc::Global;

/// Cuts the next piece of a script that goes on at a place with a text, of `least` bytes or more; of the last text all.
/// Returns it with the place after it, or none where no statement ends in the text.
pub(crate) fn next_piece<K: Keep + Drop>(
    alloc: Global,
    sql: &Sql,
    keep: &K,
    text: &str,
    place: ScriptPlace,
    is_last: bool,
    least: usize,
) -> Result<Option<(Piece<K::Kept>, Option<ScriptPlace>)>, EditError>
    ensures cut { IfOk result (λ found. IfSome found (λ both. (rest : List ℕ) → (is_last ≡ true → rest ≡ [])
        → IsPiece (K.keeps keep.now) sql.now.vocabulary sql.now.rules both.0 both.1 (text.now ++ rest))) }
    ensures finds { IfOk result (λ found. IfSome found (λ both. Finds place text.now both.0 both.1)) }
    ensures none { IfOk result (λ found. found ≡ None → is_last ≡ true → (length text.now ≡ 0) × (begun_with place ≡ Inside)) }
    ensures refused { IfErr result (RefusesText text.now) }
{
    let mut parts = ScriptParts::new(alloc, text, place, is_last)?;
    let Some(part) = parts.next_part(wanted(least, is_last), &sql.vocabulary, &sql.rules)? else {
        return Ok(None);
    };
    let end = part.table.text_start(part.table.len());
    let piece = Piece {
        text: String::from_str(alloc, &text[..end])?,
        place,
        seen: seen(text, end, is_last),
        kept: keep.keep(&part)?,
    };
    Ok(Some((piece, place_after(&parts, is_last))))
}

/// How many bytes a part is to have at least: of the last text all.
fn wanted(least: usize, is_last: bool) -> usize
    ensures { result ≡ (if is_last then 18446744073709551615 else least) }
{
    if is_last { usize::MAX } else { least }
}

/// How many bytes after a part of this end are read of a text, if others follow.
#[tactic(auto, using(crate::proofs::Cuts::lines_len))]
fn seen(text: &str, end: usize, is_last: bool) -> Option<usize>
    requires { is_last ≡ false → (lines : List ℕ) → AreWholeLines text.now lines → end ≤ length lines }
    ensures last { is_last ≡ true → result ≡ None }
    ensures others { is_last ≡ false → (lines : List ℕ) → AreWholeLines text.now lines → result ≡ Some (length lines - end) }
{
    if is_last {
        return None;
    }
    Some(whole_lines(text.as_bytes()).len() - end)
}

/// Where the script goes on after what is read, if it does.
fn place_after(parts: &ScriptParts<'_>, is_last: bool) -> Option<ScriptPlace>
    ensures is { result ≡ (if is_last then None else script_place parts.now.lexer.place) }
    ensures goes_on { IfSome result (λ place. place_of place ≡ parts.now.lexer.place) }
{
    if is_last {
        return None;
    }
    parts.place()
}
