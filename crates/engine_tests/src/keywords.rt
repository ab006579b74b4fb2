//! Look-ups that were worked out by hand, and in long lists.
//!
//! The tests of texts and of sets also pass if one allocation fails: so each vocabulary is made at most twice. Without
//! memory for its slots it answers the same.

use squawk_keywords::{Classes, Keywords, KeywordsError};
use squawk_kinds::{SyntaxKind, TokenSet, Vocabulary};
use std::alloc::AllocError;
use std::process::Abort;
use std::test::Fail;

const SELECT: SyntaxKind = SyntaxKind(200);

const KEYWORDS: [(&str, SyntaxKind); 7] = [
    ("select", SELECT),
    ("From", SyntaxKind(201)),
    ("é", SyntaxKind(202)),
    ("SELECT", SyntaxKind(203)),
    ("from", SyntaxKind(204)),
    ("current_timestamp", SyntaxKind(205)),
    ("current_timestomp", SyntaxKind(206)),
];

const CONTEXTUAL: [(&str, SyntaxKind); 2] = [("over", SyntaxKind(300)), ("from", SyntaxKind(301))];

/// Texts, and the numbers of their kinds as a keyword and as a contextual one, or 0 for none: first byte
/// for byte, then without regard to case.
const TEXTS: [(&str, u16, u16, u16, u16); 14] = [
    ("select", 200, 0, 200, 0),
    ("SELECT", 203, 0, 200, 0),
    ("Select", 0, 0, 200, 0),
    ("from", 204, 301, 201, 301),
    ("From", 201, 0, 201, 301),
    ("FROM", 0, 0, 201, 301),
    ("é", 202, 0, 202, 0),
    ("É", 0, 0, 0, 0),
    ("oVeR", 0, 0, 0, 300),
    ("Current_Timestamp", 0, 0, 205, 0),
    ("current_timestomp", 206, 0, 206, 0),
    ("selec", 0, 0, 0, 0),
    ("", 0, 0, 0, 0),
    ("over ", 0, 0, 0, 0),
];

/// The number of a kind that was found, or 0.
fn number(found: Option<SyntaxKind>) -> u16 {
    found.map_or(0, |kind| kind.0)
}

/// The vocabulary of two lists.
fn made<'k>(
    rt: &(impl Abort + AllocGlobal),
    ignores_case: bool,
    keywords: &[(&'k str, SyntaxKind)],
    contextual: &[(&'k str, SyntaxKind)],
) -> Keywords<'k> {
    for _ in 0..2 {
        let made = if ignores_case {
            Keywords::ignoring_case(rt.alloc(), keywords, contextual)
        } else {
            Keywords::new(rt.alloc(), keywords, contextual)
        };
        match made {
            Ok(made) => return made,
            Err(error) => assert_eq!(rt; error, KeywordsError::OutOfMemory),
        }
    }
    panic!(rt; "memory is wanting twice")
}

#[test]
fn texts_are_words_with_and_without_regard_to_case(rt: HostRuntime) {
    let exact = made(&rt, false, &KEYWORDS, &CONTEXTUAL);
    let ignoring = made(&rt, true, &KEYWORDS, &CONTEXTUAL);
    for (text, keyword, contextual, keyword_ignoring, contextual_ignoring) in TEXTS {
        assert_eq!(rt; number(exact.from_keyword(text)), keyword, "{text}");
        assert_eq!(rt;
            number(exact.from_contextual_keyword(text)),
            contextual,
            "{text}"
        );
        assert_eq!(rt;
            number(ignoring.from_keyword(text)),
            keyword_ignoring,
            "{text}"
        );
        assert_eq!(rt;
            number(ignoring.from_contextual_keyword(text)),
            contextual_ignoring,
            "{text}"
        );
    }
}

#[test]
fn sets_are_of_the_kinds_of_their_lists(rt: HostRuntime) {
    let classes = Classes {
        operators: TokenSet::new(&[SyntaxKind::PLUS]),
        punctuation: TokenSet::new(&[SyntaxKind::COMMA]),
        reserved_keywords: TokenSet::new(&[SELECT]),
        col_name_keyword_first: TokenSet::new(&[SyntaxKind(201)]),
        type_func_name_keywords: TokenSet::new(&[SyntaxKind(202)]),
    };
    let keywords = made(&rt, false, &KEYWORDS, &CONTEXTUAL);
    assert!(rt; keywords.operators() == TokenSet::EMPTY);
    let keywords = keywords.with_classes(classes);
    for kind in 0..700 {
        let kind = SyntaxKind(kind);
        assert_eq!(rt;
            keywords.all_keywords().contains(kind),
            kind.0 >= 200 && kind.0 <= 206
        );
        assert_eq!(rt;
            keywords.contextual_keywords().contains(kind),
            kind.0 == 300 || kind.0 == 301
        );
    }
    assert!(rt; keywords.operators() == classes.operators);
    assert!(rt; keywords.punctuation() == classes.punctuation);
    assert!(rt; keywords.reserved_keywords() == classes.reserved_keywords);
    assert!(rt; keywords.col_name_keyword_first() == classes.col_name_keyword_first);
    assert!(rt; keywords.type_func_name_keywords() == classes.type_func_name_keywords);
    assert_eq!(rt; number(keywords.from_keyword("select")), 200);
}

/// The line of the error of these lists.
fn refusal(
    rt: &(impl Abort + AllocGlobal),
    keywords: &[(&str, SyntaxKind)],
    contextual: &[(&str, SyntaxKind)],
) -> Result<String, Fail> {
    match Keywords::new(rt.alloc(), keywords, contextual) {
        Ok(_) => panic!(rt; "the lists are refused"),
        Err(error) => Ok(format!(in rt.alloc(); "{error}")?),
    }
}

#[test]
fn first_kind_that_is_no_keywords_is_refused(rt: HostRuntime) -> Result<(), Fail> {
    let list = &[
        ("a", SELECT),
        ("b", SyntaxKind(640)),
        ("c", SyntaxKind::EOF),
    ];
    for kind in [
        SyntaxKind::EOF,
        SyntaxKind::TOMBSTONE,
        SyntaxKind::COMMENT,
        SyntaxKind::WHITESPACE,
        SyntaxKind(640),
        SyntaxKind(u16::MAX),
    ] {
        let line = refusal(&rt, &KEYWORDS, &[("a", SELECT), ("b", kind)])?;
        assert_eq!(rt; line.as_str(), "kind of contextual keyword 1");
    }
    assert_eq!(rt; refusal(&rt, list, list)?.as_str(), "kind of keyword 1");
    Ok(())
}

/// The kind of the first of these words that equals a text, by a search from the first on.
fn first_kind(words: &[(&str, SyntaxKind)], ignores_case: bool, text: &str) -> Option<SyntaxKind> {
    for (word, kind) in words {
        if *word == text || (ignores_case && word.eq_ignore_ascii_case(text)) {
            return Some(*kind);
        }
    }
    None
}

/// This many words of several buckets and lengths, some of them twice, and some in two cases.
fn words(rt: &impl AllocGlobal, count: u32) -> Result<Vec<String>, Fail> {
    let mut words = Vec::new(rt.alloc());
    for i in 0..count {
        let word = match i % 4 {
            0 => format!(in rt.alloc(); "{}", i % 97)?,
            1 => format!(in rt.alloc(); "Word_{i}")?,
            2 => format!(in rt.alloc(); "word_{}", i - 1)?,
            _ => format!(in rt.alloc(); "a_word_that_is_long_{i}")?,
        };
        words.push(word)?;
    }
    Ok(words)
}

/// These words with kinds that differ from one to the next.
fn pairs_of<'w>(
    rt: &impl AllocGlobal,
    words: &'w [String],
) -> Result<Vec<(&'w str, SyntaxKind)>, AllocError> {
    let mut pairs = Vec::with_capacity(rt.alloc(), words.len())?;
    for word in words {
        let kind = SyntaxKind(200 + (pairs.len() % 400) as u16);
        pairs.push_reserved((word.as_str(), kind));
    }
    Ok(pairs)
}

/// Asserts that a text has the kind of the first word that equals it.
fn assert_first(
    rt: &impl Abort,
    keywords: &Keywords<'_>,
    pairs: &[(&str, SyntaxKind)],
    ignores_case: bool,
    text: &str,
) {
    let first = first_kind(pairs, ignores_case, text);
    assert_eq!(rt; keywords.from_keyword(text), first, "{text}");
}

/// Asserts that of each of these words, as it is and in upper case.
fn assert_list(
    rt: &(impl Abort + AllocGlobal),
    words: &[String],
    ignores_case: bool,
) -> Result<(), AllocError> {
    let pairs = pairs_of(rt, words)?;
    let keywords = made(rt, ignores_case, &pairs, &[]);
    for word in words {
        let upper = word.to_ascii_uppercase(rt.alloc())?;
        assert_first(rt, &keywords, &pairs, ignores_case, word.as_str());
        assert_first(rt, &keywords, &pairs, ignores_case, upper.as_str());
    }
    Ok(())
}

#[test]
fn long_lists_are_looked_up_as_from_the_first_word_on(rt: HostRuntime) -> Result<(), Fail> {
    let words = words(&rt, 400)?;
    assert_list(&rt, &words, false)?;
    assert_list(&rt, &words, true)?;
    Ok(())
}
