//! The elements at offsets and at ranges.

use super::{EMPTY, ROOT, built, put, sum};
use squawk_parser::StrStep;
use std::alloc::{AllocError, Global};
use std::fmt::Write;
use std::ops::Range;
use std::test::Fail;
use syntax_tree::{SyntaxTree, TokenAtOffset};

/// Writes the tokens that touch an offset.
fn put_touching(text: &mut String, tree: &SyntaxTree<'_>, offset: usize) -> Result<(), AllocError> {
    match tree.token_at_offset(offset) {
        TokenAtOffset::None => put(text, None),
        TokenAtOffset::Single(token) => put(text, Some(token)),
        TokenAtOffset::Between(left, right) => {
            put(text, Some(left))?;
            put(text, Some(right))
        }
    }
}

/// A tree without text.
fn blank(alloc: Global) -> Result<SyntaxTree<'static>, Fail> {
    let steps = [
        StrStep::Enter { kind: ROOT },
        StrStep::Enter { kind: EMPTY },
        StrStep::Exit,
        StrStep::Exit,
    ];
    built(alloc, "", &steps)
}

#[test]
fn tokens_touch_offsets(rt: HostRuntime) -> Result<(), Fail> {
    let tree = sum(rt.alloc())?;
    let mut text = String::new(rt.alloc());
    for offset in 0..8 {
        put_touching(&mut text, &tree, offset)?;
        write!(text, "\n")?;
    }
    let wanted = " NAME 0..1
 NAME 0..1 PLUS 1..2
 PLUS 1..2 NAME 2..4
 NAME 2..4
 NAME 2..4 SPACE 4..5
 SPACE 4..5 NAME 5..6
 NAME 5..6
 -
";
    assert_eq!(rt; text.as_str(), wanted);
    Ok(())
}

#[test]
fn empty_text_has_no_token(rt: HostRuntime) -> Result<(), Fail> {
    let tree = blank(rt.alloc())?;
    let mut text = String::new(rt.alloc());
    for offset in 0..2 {
        put_touching(&mut text, &tree, offset)?;
        put(&mut text, tree.covering_element(0..offset))?;
    }
    assert_eq!(rt; text.as_str(), " - EMPTY 0..0 - -");
    Ok(())
}

/// Ranges of the text, or not.
const RANGES: [(usize, usize); 12] = [
    (2, 4),
    (1, 4),
    (1, 3),
    (0, 2),
    (0, 6),
    (0, 0),
    (1, 1),
    (4, 4),
    (6, 6),
    (5, 7),
    (7, 7),
    (2, 1),
];

#[test]
fn ranges_are_covered_by_the_innermost_element(rt: HostRuntime) -> Result<(), Fail> {
    let tree = sum(rt.alloc())?;
    let mut text = String::new(rt.alloc());
    for range in RANGES {
        let (start, end) = range;
        put(&mut text, tree.covering_element(Range { start, end }))?;
        write!(text, "\n")?;
    }
    let wanted = " NAME 2..4
 SUM 1..4
 SUM 1..4
 ROOT 0..6
 ROOT 0..6
 NAME 0..1
 PLUS 1..2
 SPACE 4..5
 NAME 5..6
 -
 -
 -
";
    assert_eq!(rt; text.as_str(), wanted);
    Ok(())
}
