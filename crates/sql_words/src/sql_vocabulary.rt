//! The vocabulary of PostgreSQL's keywords.
ghost use Rattle.std.specs.Prelude.{◌≡◌, IfOk};
ghost use Rattle.squawk_keywords.specs.KeywordPairs.{pairs_of};
ghost use Rattle.squawk_keywords.specs.ReadyWords.{AreReady};
ghost use Rattle.sql_words.specs.SqlKinds.{contextual_kinds, keyword_kinds};
ghost use Rattle.sql_words.specs.SqlVocabulary.{AreClasses, KnowsKeywords};

use crate::contextual::contextual_keywords;
use crate::keywords::keyword_pairs;
use crate::tables::{contextual_rows, contextual_slots, keyword_rows, keyword_slots, kind_sets};
use squawk_keywords::{Classes, Keywords, ReadyWords};
use squawk_kinds::{SyntaxKind, TokenSet, token_set};
use std::alloc::{AllocError, Global};

/// The signs that the names of operators are made of, and the operators that have a kind.
const OPERATORS: TokenSet = token_set![
    SyntaxKind::PLUS,
    SyntaxKind::MINUS,
    SyntaxKind::STAR,
    SyntaxKind::SLASH,
    SyntaxKind::L_ANGLE,
    SyntaxKind::R_ANGLE,
    SyntaxKind::EQ,
    SyntaxKind::TILDE,
    SyntaxKind::BANG,
    SyntaxKind::AT,
    SyntaxKind::POUND,
    SyntaxKind::PERCENT,
    SyntaxKind::CARET,
    SyntaxKind::AMP,
    SyntaxKind::PIPE,
    SyntaxKind::BACKTICK,
    SyntaxKind::QUESTION,
    SyntaxKind::NEQ,
    SyntaxKind::NEQB,
    SyntaxKind::LTEQ,
    SyntaxKind::GTEQ,
    SyntaxKind::LESS_LESS,
    SyntaxKind::GREATER_GREATER,
    SyntaxKind::LONG_ARROW,
];

/// The other signs.
const PUNCTUATION: TokenSet = token_set![
    SyntaxKind::SEMICOLON,
    SyntaxKind::COMMA,
    SyntaxKind::DOT,
    SyntaxKind::DOT_DOT,
    SyntaxKind::L_PAREN,
    SyntaxKind::R_PAREN,
    SyntaxKind::L_BRACK,
    SyntaxKind::R_BRACK,
    SyntaxKind::L_CURLY,
    SyntaxKind::R_CURLY,
    SyntaxKind::COLON,
    SyntaxKind::COLON_EQ,
    SyntaxKind::FAT_ARROW,
];

/// The keywords of PostgreSQL 15 as a vocabulary, and contextual ones. A text is one of them in whatever case its letters
/// are.
///
/// A column's name may begin with the keywords that PostgreSQL's grammar calls `col_name_keyword`, and a
/// type or a function may be named as its `type_func_name_keyword`.
pub fn vocabulary(alloc: Global) -> Result<Keywords<'static>, AllocError>
    ensures { IfOk result KnowsKeywords }
{
    let keywords = Keywords::ready(alloc, &keyword_tables(), &contextual_tables())?;
    Ok(keywords.with_classes(classes()))
}

/// The keywords with their tables.
fn keyword_tables() -> ReadyWords<'static>
    ensures ready { AreReady result }
    ensures pairs { pairs_of result.words.now ≡ keyword_kinds }
{
    ReadyWords {
        words: keyword_pairs(),
        set: kind_sets::KEYWORDS,
        slots: &keyword_slots::SLOTS,
        kept: &keyword_rows::ROWS,
    }
}

/// The contextual keywords with their tables.
fn contextual_tables() -> ReadyWords<'static>
    ensures ready { AreReady result }
    ensures pairs { pairs_of result.words.now ≡ contextual_kinds }
{
    ReadyWords {
        words: contextual_keywords(),
        set: kind_sets::CONTEXTUAL,
        slots: &contextual_slots::SLOTS,
        kept: &contextual_rows::ROWS,
    }
}

/// The kinds of tokens in each class.
fn classes() -> Classes
    ensures { AreClasses result }
{
    Classes {
        operators: OPERATORS,
        punctuation: PUNCTUATION,
        reserved_keywords: kind_sets::RESERVED,
        col_name_keyword_first: kind_sets::COL_NAME,
        type_func_name_keywords: kind_sets::TYPE_FUNC_NAME,
    }
}
