//! A text of SQL without blanks at the ends of lines.
ghost use Rattle.std.specs.Prelude.{◌≡◌, ◌∷◌, ◌++◌, List, IfErr, IfOk, OnOk};
ghost use Rattle.squawk_tree.specs.Forest.{Forest};
ghost use Rattle.sql_syntax.specs.SqlErrors.{RefusesSql};
ghost use Rattle.sql_syntax.specs.SqlTrees.{sql_given};
ghost use Rattle.syntax_tree.specs.Layout.{IsTree};
ghost use Rattle.syntax_tree.specs.Views.{IsTreeOf};
ghost use Rattle.sql_trim.specs.Formatted.{IsTrimmed, Piece, formatted, pieces_of, piece_at, white};

use crate::trim::push_trimmed;
use sql_syntax::{SqlError, parse_sql};
use squawk_parser::{SyntaxKind, Vocabulary};
use std::alloc::{AllocError, Global};
use syntax_tree::{SyntaxElement, SyntaxTree};

/// A text of SQL without blanks at the ends of lines, but those inside of comments, strings, names and data of COPY.
pub fn format<V: Vocabulary>(alloc: Global, words: &V, text: &str) -> Result<Vec<u8>, SqlError>
    ensures formatted { let g = sql_given (V.keyword words.now) (V.contextual_keyword words.now) text.now in
        IfOk result (λ out. IsTrimmed g out.items) }
    ensures refused { let g = sql_given (V.keyword words.now) (V.contextual_keyword words.now) text.now in
        IfErr result (RefusesSql g) }
{
    let tree = parse_sql(alloc, text, words)?;
    Ok(formatted(alloc, &tree)?)
}

/// The text of a tree without blanks at the ends of lines.
pub fn formatted(alloc: Global, tree: &SyntaxTree<'_>) -> Result<Vec<u8>, AllocError>
    ensures { IfOk result (λ out. (forest : Forest) → IsTree tree.now forest → out.items ≡ formatted (pieces_of forest)) }
{
    let mut out = Vec::new(alloc);
    // White space that isn't put yet: what stands after it says what is left of it.
    let mut white_space = Vec::new(alloc);
    for element in tree.root().descendants_with_tokens() {
        if element.is_token() {
            push_token(&mut out, &mut white_space, element)?;
        }
    }
    push_trimmed(&mut out, &white_space, true)?;
    Ok(out)
}

/// Puts a token after a text and white space: white space is kept back, and any other token stands after what is left
/// of that.
fn push_token(
    out: &mut Vec<u8>,
    white_space: &mut Vec<u8>,
    token: SyntaxElement<'_>,
) -> Result<(), AllocError>
    ensures { OnOk result ((forest : Forest) → IsTreeOf token.entry forest → (behind : List Piece) →
        out.new.items ++ formatted (white white_space.new.items ∷ behind)
        ≡ out.old.items ++ formatted (white white_space.old.items ∷ piece_at forest token.entry.at ∷ behind)) }
{
    let text = token.text().as_bytes();
    if token.kind() == SyntaxKind::WHITESPACE {
        return white_space.extend_from_slice(text);
    }
    push_trimmed(out, white_space, false)?;
    white_space.clear();
    out.extend_from_slice(text)
}
