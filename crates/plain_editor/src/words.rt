//! What grammars tell about kinds.
ghost use Rattle.squawk_parser.specs.Words.{HasNoEnd, words_of};

use row_fixtures::words::words_with;
use squawk_parser::{SyntaxKind, TokenSet, Words, token_set};

/// A name of `,`, and two of `;`.
pub const NAMES: [(SyntaxKind, &str); 3] = [
    (SyntaxKind::COMMA, "COMMA"),
    (SyntaxKind::SEMICOLON, "SEMICOLON"),
    (SyntaxKind::SEMICOLON, "another"),
];

/// Most signs of the texts.
const SIGNS: TokenSet = token_set![
    SyntaxKind::EQ,
    SyntaxKind::L_ANGLE,
    SyntaxKind::R_ANGLE,
    SyntaxKind::MINUS,
    SyntaxKind::PLUS,
    SyntaxKind::STAR,
    SyntaxKind::AT,
    SyntaxKind::BANG,
];

const COLON: TokenSet = token_set![SyntaxKind::COLON];

/// Words of three kinds: without operators, with those of most signs of the texts, and also of `:`.
pub fn words<'t>(number: usize, names: &'t [(SyntaxKind, &'t str)]) -> Words<'t>
    ensures { HasNoEnd (words_of result) }
{
    let operator_first = match number {
        0 => TokenSet::EMPTY,
        1 => SIGNS,
        _ => SIGNS.union(COLON),
    };
    words_with(operator_first, names)
}
