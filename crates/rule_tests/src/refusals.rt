//! Rules that are refused, with the parts that are at fault.
use crate::memory::rules;
use crate::names::{CLASSES, NODES, TOKENS};
use rule_tables::{KeywordNames, Rules, RulesError};
use rule_text::read;
use squawk_kinds::{NoKeywords, SyntaxKind, TokenSet};
use std::alloc::Global;
use std::test::Fail;

/// Why rules are refused, if they are.
fn refused(alloc: Global, text: &str) -> Result<Option<RulesError>, Fail> {
    let parts = read(alloc, text)?;
    let names = KeywordNames {
        words: &NoKeywords,
        tokens: &TOKENS,
        nodes: &NODES,
        classes: &CLASSES,
        operators: TokenSet::EMPTY,
    };
    Ok(Rules::new(alloc, &parts, &names).err())
}

const IDENT: u16 = SyntaxKind::IDENT.0;

const COMMA: u16 = SyntaxKind::COMMA.0;

const OPEN: u16 = SyntaxKind::L_PAREN.0;

const CLOSE: u16 = SyntaxKind::R_PAREN.0;

const INT: u16 = SyntaxKind::INT_NUMBER.0;

const COLON_COLON: u16 = SyntaxKind::COLON_COLON.0;

const END: u16 = SyntaxKind::EOF.0;

/// Texts of rules, and why they are refused.
static REFUSALS: [(&str, Option<RulesError>); 33] = [
    ("file = IDENT? ';'", None),
    ("file = item", Some(RulesError::Undefined { part: 1 })),
    ("file = Word", Some(RulesError::Undefined { part: 1 })),
    // A class may name those before it, and those that the caller gives.
    ("class One = literal\nclass Two = One\nfile = Two", None),
    (
        "class Two = One\nclass One = IDENT\nfile = Two",
        Some(RulesError::Undefined { part: 1 }),
    ),
    (
        "class One = other\nfile = One",
        Some(RulesError::Undefined { part: 1 }),
    ),
    (
        "file = IDENT\nfile = IDENT",
        Some(RulesError::Doubled { part: 2 }),
    ),
    ("file = OTHER", Some(RulesError::UnknownKind { part: 1 })),
    (
        "file = IDENT => OTHER",
        Some(RulesError::UnknownKind { part: 3 }),
    ),
    (
        "file = {IDENT % OTHER}",
        Some(RulesError::UnknownKind { part: 1 }),
    ),
    // The first fault is told: of a name, and only without one of those that of a kind.
    ("file = OTHER item", Some(RulesError::Undefined { part: 2 })),
    (
        "file = item\nfile = IDENT",
        Some(RulesError::Undefined { part: 1 }),
    ),
    (
        "file = IDENT OTHER OTHER",
        Some(RulesError::UnknownKind { part: 2 }),
    ),
    // One more token decides whether there are one or two names; none decides which of two names is left out.
    ("file = IDENT? IDENT", None),
    (
        "file = IDENT? IDENT?",
        Some(RulesError::Undecided {
            part: 1,
            kinds: [IDENT, END, END, END],
        }),
    ),
    // Tokens that stand together are told as one.
    (
        "file = '::'? INT? '::'?",
        Some(RulesError::Undecided {
            part: 1,
            kinds: [COLON_COLON, END, END, END],
        }),
    ),
    // Commas and names are in the list or after it.
    (
        "file = {IDENT} ',' IDENT ',' IDENT ','",
        Some(RulesError::Undecided {
            part: 1,
            kinds: [COMMA, IDENT, COMMA, IDENT],
        }),
    ),
    // Only the fifth token tells one alternative from the other.
    (
        "file = '(' ')' INT ')' ')' | '(' ')' INT ')' ';'",
        Some(RulesError::Undecided {
            part: 2,
            kinds: [OPEN, CLOSE, INT, CLOSE],
        }),
    ),
    // The first arm of an ordered choice is gone, and what is greedy.
    ("file = IDENT / IDENT", None),
    ("file = IDENT?+ IDENT?", None),
    // A look decides for its own alternative.
    ("file = &(IDENT ';') IDENT | IDENT", None),
    (
        "file = IDENT | &(IDENT ';') IDENT",
        Some(RulesError::Undecided {
            part: 2,
            kinds: [IDENT, END, END, END],
        }),
    ),
    (
        "file = &(INT Word) IDENT | INT",
        Some(RulesError::Undefined { part: 5 }),
    ),
    (
        "file = &(INT OTHER) IDENT | INT",
        Some(RulesError::UnknownKind { part: 5 }),
    ),
    // A rule that begins with itself, also after what may be left out, and after a token.
    (
        "file = file IDENT",
        Some(RulesError::LeftRecursive { part: 1 }),
    ),
    (
        "file = INT? other\nother = file ';'",
        Some(RulesError::LeftRecursive { part: 3 }),
    ),
    ("file = '(' file ')' | IDENT", None),
    // What is repeated has a token at least.
    ("file = (IDENT?)*", Some(RulesError::Empty { part: 1 })),
    ("file = {IDENT*}", Some(RulesError::Empty { part: 1 })),
    // A rule that isn't called from the first one.
    (
        "file = IDENT\nother = INT",
        Some(RulesError::Unreached { part: 2 }),
    ),
    (
        "file = IDENT\nother = INT third\nthird = '(' other ')'",
        Some(RulesError::Unreached { part: 2 }),
    ),
    // Names come first, then what never ends, then what tokens don't decide.
    (
        "file = IDENT? IDENT? file2\nfile2 = (INT?)*",
        Some(RulesError::Empty { part: 7 }),
    ),
    (
        "file = (INT?)* other",
        Some(RulesError::Undefined { part: 4 }),
    ),
];

#[test]
fn refuses(rt: HostRuntime) -> Result<(), Fail> {
    for (text, wanted) in &REFUSALS {
        let found = refused(rt.alloc(), text)?;
        assert_eq!(rt; found, *wanted, "{text}");
    }
    Ok(())
}

/// Texts of rules, and what is printed of their errors.
const PRINTED: [(&str, &str); 5] = [
    ("file = item", "1:8: no rule has this name"),
    (
        "file = IDENT? IDENT?",
        "1:8: four tokens don't decide between two ways: IDENT, the end",
    ),
    (
        "file =\n  '(' {IDENT} ',' IDENT ',' IDENT ','",
        "2:8: four tokens don't decide between two ways: ',', IDENT, ',', IDENT",
    ),
    (
        "file = '::'? INT? '::'?",
        "1:8: four tokens don't decide between two ways: '::', the end",
    ),
    // A kind that no token in the text has is called by its class.
    (
        "class Number = literal\nfile = Number? Number?",
        "2:8: four tokens don't decide between two ways: literal, the end",
    ),
];

#[test]
fn prints_places_and_tokens(rt: HostRuntime) -> Result<(), Fail> {
    for (text, wanted) in &PRINTED {
        match rules(rt.alloc(), text) {
            Ok(_rules) => return Err(Fail::from("rules with a fault")),
            Err(error) => {
                let line = format!(in rt.alloc(); "{error}")?;
                assert_eq!(rt; line.as_str(), *wanted);
            }
        }
    }
    Ok(())
}
