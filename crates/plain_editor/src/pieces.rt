//! What texts are made of: words that stand for one raw token each, and phrases of them.

use row_fixtures::keywords::KEYWORDS;
use row_fixtures::tokens::{int, literal};
use squawk_parser::{Base, LiteralKind, SyntaxKind, TokenKind};
use std::alloc::{AllocError, Global};

/// A raw token of a text.
#[derive(Drop)]
pub struct Piece {
    pub text: String,
    pub raw: TokenKind,
    pub kind: SyntaxKind,
}

impl Piece {
    pub fn new(alloc: Global, text: &str) -> Result<Piece, AllocError> {
        let (raw, kind) = kinds_of(text);
        let text = String::from_str(alloc, text)?;
        Ok(Piece { text, raw, kind })
    }
}

/// The kinds of a word. One that is no sign, literal or trivia is an identifier or a keyword.
pub fn kinds_of(text: &str) -> (TokenKind, SyntaxKind) {
    match text {
        ";" => (TokenKind::Semi, SyntaxKind::SEMICOLON),
        ":" => (TokenKind::Colon, SyntaxKind::COLON),
        "=" => (TokenKind::Eq, SyntaxKind::EQ),
        "!" => (TokenKind::Bang, SyntaxKind::BANG),
        "<" => (TokenKind::Lt, SyntaxKind::L_ANGLE),
        ">" => (TokenKind::Gt, SyntaxKind::R_ANGLE),
        "-" => (TokenKind::Minus, SyntaxKind::MINUS),
        "+" => (TokenKind::Plus, SyntaxKind::PLUS),
        "*" => (TokenKind::Star, SyntaxKind::STAR),
        "@" => (TokenKind::At, SyntaxKind::AT),
        "§" => (TokenKind::Unknown, SyntaxKind::ERROR),
        "7" => (int(Base::Decimal, 1), SyntaxKind::INT_NUMBER),
        "0b2" => (int(Base::Binary, 3), SyntaxKind::INT_NUMBER),
        "'é'" => (
            literal(LiteralKind::Str { terminated: true }),
            SyntaxKind::STRING,
        ),
        "'u" => (
            literal(LiteralKind::Str { terminated: false }),
            SyntaxKind::STRING,
        ),
        " " | "\n" | "\u{feff}" => (TokenKind::Whitespace, SyntaxKind::WHITESPACE),
        "--c\n" => (TokenKind::LineComment, SyntaxKind::COMMENT),
        "/*é*/" => (
            TokenKind::BlockComment { terminated: true },
            SyntaxKind::COMMENT,
        ),
        "/*u" => (
            TokenKind::BlockComment { terminated: false },
            SyntaxKind::COMMENT,
        ),
        _ => (TokenKind::Ident, keyword_or_identifier(text)),
    }
}

fn keyword_or_identifier(text: &str) -> SyntaxKind {
    KEYWORDS
        .keywords
        .iter()
        .find(|(word, _)| *word == text)
        .map_or(SyntaxKind::IDENT, |(_, number)| SyntaxKind::from(*number))
}

/// Trivia to put between words.
pub const TRIVIA: [&str; 6] = [" ", "\n", "\u{feff}", "--c\n", "/*é*/", "/*u"];

/// Words with their kinds.
macro_rules! phrases {
    ($($words:literal $kind:ident),*) => { [$(($words, SyntaxKind::$kind)),*] };
}

/// Words with a space between two, and the kind that mostly eats them.
#[rattlefmt::skip]
pub const PHRASES: [(&str, SyntaxKind); 43] = phrases![
    "a" IDENT, "é" IDENT, "7" INT_NUMBER, "0b2" INT_NUMBER, "'é'" STRING, "'u" STRING, "§" ERROR, ";" SEMICOLON,
    "is" IS_KW, ": =" COLON_EQ, ": :" COLON_COLON, ": : =" COLON_COLON, "! =" NEQ, "< >" NEQB, "< =" LTEQ,
    "= >" FAT_ARROW, "< <" LESS_LESS, "> >" GREATER_GREATER, "> =" GTEQ, "- > >" LONG_ARROW, "- > > =" LONG_ARROW,
    "< = -" LTEQ, "> = @" GTEQ, "+" CUSTOM_OP, "* - +" CUSTOM_OP, "@ - +" CUSTOM_OP, "= < ! -" CUSTOM_OP,
    "= - + < > * = - + < > * = - + < > * = - + < > * = - + < > * = - + -" CUSTOM_OP,
    "= - + < > * = - + < > * = - + < ! < - < - < - < - < - < - < - < - <" CUSTOM_OP,
    "similar to" SIMILAR_TO, "not similar to" NOT_SIMILAR_TO, "at time zone" AT_TIME_ZONE, "at local" AT_LOCAL,
    "is not" IS_NOT, "is distinct from" IS_DISTINCT_FROM, "is not distinct from" IS_NOT_DISTINCT_FROM,
    "not like" NOT_LIKE, "not ilike" NOT_ILIKE, "not in" NOT_IN, "is normalized" IS_NORMALIZED,
    "is nfkd normalized" IS_NORMALIZED, "is not normalized" IS_NOT_NORMALIZED,
    "is not nfc normalized" IS_NOT_NORMALIZED
];
