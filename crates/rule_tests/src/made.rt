//! What is asked of rules, and how deep their calls may stand in one another.
use crate::memory::{line, rules};
use squawk_kinds::{SyntaxKind, TokenSet, token_set};
use std::test::Fail;

const ITEMS: &str = "file = item* ';'\nitem = IDENT ('.' INT)?";

const ITEM: TokenSet = token_set![SyntaxKind::IDENT];

const ITEM_OR_END: TokenSet = token_set![SyntaxKind::IDENT, SyntaxKind::SEMICOLON];

const ANY: TokenSet = token_set![SyntaxKind::IDENT, SyntaxKind::SEMICOLON, SyntaxKind::DOT];

const SEMICOLON: TokenSet = token_set![SyntaxKind::SEMICOLON];

const END: TokenSet = token_set![SyntaxKind::EOF];

/// Parts of the rules, and the kinds that may come there, and after them.
const NEXT: [(usize, TokenSet, TokenSet); 8] = [
    // The rule of a file, the items, and the semicolon.
    (0, ITEM_OR_END, END),
    (1, ITEM_OR_END, SEMICOLON),
    (3, SEMICOLON, END),
    // The rule of an item, its name, what may be left out, and the first token of that.
    (4, ITEM, ITEM_OR_END),
    (5, ITEM, ANY),
    (6, ANY, ITEM_OR_END),
    (
        7,
        token_set![SyntaxKind::DOT],
        token_set![SyntaxKind::INT_NUMBER],
    ),
    // No part.
    (9, TokenSet::EMPTY, TokenSet::EMPTY),
];

#[test]
fn tells_what_may_come(rt: HostRuntime) -> Result<(), Fail> {
    let rules = rules(rt.alloc(), ITEMS)?;
    for (part, at, after) in &NEXT {
        let found = rules.kinds_at(rt.alloc(), *part)?;
        assert!(rt; found == *at, "at {part}");
        let found = rules.kinds_after(rt.alloc(), *part)?;
        assert!(rt; found == *after, "after {part}");
    }
    Ok(())
}

const LISTS: &str = "file = list => FILE\nlist = '(' list ')' => LIST | IDENT => NAME";

#[test]
fn calls_are_nested_to_the_limit(rt: HostRuntime) -> Result<(), Fail> {
    let deep = rules(rt.alloc(), LISTS)?.with_depth(3);
    let found = line(rt.alloc(), &deep, "((a))")?;
    assert_eq!(rt; found.as_str(), "FILE{LIST{(LIST{(NAME{a})})}}");
    let flat = deep.with_depth(2);
    let found = line(rt.alloc(), &flat, "((a))")?;
    assert_eq!(rt;
        found.as_str(),
        "FILE{LIST{(LIST{(ERROR{!nested too deep!a})})}}"
    );
    Ok(())
}
