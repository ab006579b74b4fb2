//! What a document's vocabulary tells of words and kinds, of which no line of an answer shows more than the keywords.

use squawk_document::{Document, value};
use squawk_parser::{SyntaxKind, TokenSet, Vocabulary};
use std::process::Abort;
use std::test::Fail;

const DOCUMENT: &str =
    r#"{"text":"","tokens":[],"words":{"operator_first":[20],"names":[]},"vocabulary":{
"keywords":[["select",200],["from",201],["\u00e9",202],["a",5],["b",6],["a",7],["a",64],["b",638]],
"contextual":[["over",300],["from",301],["a",9],["a",5],["c",2]]},"entry":"sql","calls":[]}"#;

/// Words, and the numbers of their kinds as a keyword and as a contextual one, or 0 for none.
const WORDS: [(&str, u16, u16); 15] = [
    ("select", 200, 0),
    ("from", 201, 301),
    ("é", 202, 0),
    ("over", 0, 300),
    // The first pair of a word counts.
    ("a", 5, 9),
    ("b", 6, 0),
    ("c", 0, 2),
    ("Select", 0, 0),
    ("SELECT", 0, 0),
    ("É", 0, 0),
    ("selec", 0, 0),
    ("selects", 0, 0),
    (" select", 0, 0),
    ("group", 0, 0),
    ("", 0, 0),
];

/// The number of a kind that was found, or 0.
fn number(found: Option<SyntaxKind>) -> u16 {
    match found {
        Some(kind) => u16::from(kind),
        None => 0,
    }
}

/// Of the kinds of tokens the set has these and no others.
fn assert_kinds(rt: &impl Abort, case: &str, set: TokenSet, kinds: &[u16]) {
    for kind in 0..700 {
        let has = set.contains(SyntaxKind::from(kind));
        assert_eq!(rt; has, kinds.contains(&kind), "{case} {kind}");
    }
}

#[test]
fn words_are_looked_up_in_their_list(rt: HostRuntime) -> Result<(), Fail> {
    let value = value::parse(rt.alloc(), DOCUMENT.as_bytes())?;
    let read = Document::from_value(rt.alloc(), &value)?.vocabulary;
    for (word, keyword, contextual) in WORDS {
        assert_eq!(rt; number(read.from_keyword(word)), keyword, "{word}");
        let found = number(read.from_contextual_keyword(word));
        assert_eq!(rt; found, contextual, "{word}");
    }
    Ok(())
}

#[test]
fn sets_have_the_kinds_of_their_list(rt: HostRuntime) -> Result<(), Fail> {
    let value = value::parse(rt.alloc(), DOCUMENT.as_bytes())?;
    let read = Document::from_value(rt.alloc(), &value)?.vocabulary;
    let keywords = [5, 6, 7, 64, 200, 201, 202, 638];
    assert_kinds(&rt, "keywords", read.all_keywords(), &keywords);
    let contextual = [2, 5, 9, 300, 301];
    assert_kinds(&rt, "contextual", read.contextual_keywords(), &contextual);
    assert_kinds(&rt, "operators", read.operators(), &[]);
    assert_kinds(&rt, "punctuation", read.punctuation(), &[]);
    assert_kinds(&rt, "reserved", read.reserved_keywords(), &[]);
    assert_kinds(&rt, "columns", read.col_name_keyword_first(), &[]);
    assert_kinds(&rt, "types", read.type_func_name_keywords(), &[]);
    Ok(())
}
