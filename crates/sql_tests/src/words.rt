//! Words and kinds that were looked up by hand in PostgreSQL's documentation, appendix C, "SQL Key Words".

use sql_words::{SqlKind, names, vocabulary};
use squawk_kinds::{
    KindNames, SyntaxKind, Vocabulary, is_col_name_keyword, is_reserved_keyword,
    is_type_func_name_keyword,
};
use std::process::Abort;
use std::test::Fail;

/// Texts, with the numbers of their kinds, or 0 for none. The first of the other words is numbered 200.
const TEXTS: [(&str, u16); 10] = [
    ("abort", 200),
    ("Absolute", 201),
    ("FROM", 83),
    ("zOnE", 68),
    ("yes", 637),
    ("current_catalog", 280),
    ("json", 0),
    ("selec", 0),
    ("select ", 0),
    ("", 0),
];

/// Words, and whether they are reserved, may name a column, or may name a type or a function, as far as
/// they have a category for that.
const CLASSES: [(&str, bool, bool, bool); 4] = [
    ("select", true, false, false),
    ("between", false, true, false),
    ("left", false, false, true),
    ("abort", false, false, false),
];

#[test]
fn keywords_have_kinds_in_whatever_case(rt: HostRuntime) -> Result<(), Fail> {
    let keywords = vocabulary(rt.alloc())?;
    for (text, number) in TEXTS {
        let kind = keywords.from_keyword(text).map_or(0, |kind| kind.0);
        assert_eq!(rt; kind, number, "{text}");
    }
    Ok(())
}

#[test]
fn keywords_are_in_the_class_of_their_category(rt: HostRuntime) -> Result<(), Fail> {
    let keywords = vocabulary(rt.alloc())?;
    for (word, is_reserved, is_col_name, is_type_func_name) in CLASSES {
        let kind = keywords.from_keyword(word).unwrap_or(SyntaxKind::EOF);
        assert_eq!(rt; is_reserved_keyword(kind, &keywords), is_reserved, "{word}");
        assert_eq!(rt; is_col_name_keyword(kind, &keywords), is_col_name, "{word}");
        assert_eq!(rt;
            is_type_func_name_keyword(kind, &keywords),
            is_type_func_name,
            "{word}"
        );
    }
    assert!(rt; SyntaxKind::PIPE.is_operator(&keywords));
    assert!(rt; SyntaxKind::COLON_EQ.is_punctuation(&keywords));
    Ok(())
}

/// Contextual words, counted from 88 in the order of the table; keywords and other words are none.
const CONTEXTUAL: [(&str, u16); 7] = [
    ("absent", 88),
    ("JSON_TABLE", 107),
    ("superuser", 131),
    ("Virtual", 134),
    ("value", 0),
    ("json_tables", 0),
    ("", 0),
];

#[test]
fn contextual_words_are_no_keywords(rt: HostRuntime) -> Result<(), Fail> {
    let keywords = vocabulary(rt.alloc())?;
    for (word, kind) in CONTEXTUAL {
        let found = keywords.from_contextual_keyword(word);
        assert_eq!(rt; found.map_or(0, |kind| kind.0), kind, "{word}");
        assert!(rt;
            kind == 0 || keywords.from_keyword(word).is_none(),
            "{word}"
        );
    }
    Ok(())
}

#[test]
fn kinds_are_called_as_their_constants(rt: HostRuntime) -> Result<(), Fail> {
    let names = names(rt.alloc())?;
    let mut names = KindNames::new(rt.alloc(), &names);
    assert_eq!(rt; names.name(SqlKind::SELECT_KW), Some("SELECT_KW"));
    assert_eq!(rt; names.name(SyntaxKind::FROM_KW), Some("FROM_KW"));
    assert_eq!(rt; names.name(SyntaxKind::SEMICOLON), Some("SEMICOLON"));
    assert_eq!(rt; names.name(SqlKind::SOURCE_FILE), Some("SOURCE_FILE"));
    assert_eq!(rt;
        names.name(SqlKind::RETURNING_CLAUSE),
        Some("RETURNING_CLAUSE")
    );
    assert_eq!(rt; names.name(SyntaxKind(638)), None);
    assert_eq!(rt; names.name(SyntaxKind(771)), None);
    Ok(())
}
