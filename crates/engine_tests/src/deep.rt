//! A tree that is deeper than any stack.

use row_fixtures::keywords::NO_KEYWORDS;
use row_fixtures::tokens::word;
use row_fixtures::words::no_words;
use squawk_parser::{EntryPoint, SyntaxKind};
use squawk_script::{Call, Script};
use std::alloc::{AllocError, Global};
use std::test::Fail;
use syntax_tree::{SyntaxElement, SyntaxTree, parse_tree};

/// How many nodes the token stands in.
const DEPTH: u32 = 1_000_000;

/// A token in a node, and nodes that each precede the last one.
fn chain(alloc: Global) -> Result<Vec<Call>, AllocError> {
    let kind = SyntaxKind(700);
    let mut calls = Vec::new(alloc);
    calls.push(Call::Start)?;
    calls.push(Call::BumpAny)?;
    calls.push(Call::Complete { marker: 0, kind })?;
    for marker in 1..DEPTH {
        calls.push(Call::Precede { node: marker - 1 })?;
        calls.push(Call::Complete { marker, kind })?;
    }
    Ok(calls)
}

fn nodes_in(tree: &SyntaxTree<'_>) -> usize {
    let mut count = 0_usize;
    for _node in tree.root().descendants() {
        count = count.wrapping_add(1);
    }
    count
}

fn steps_in(tree: &SyntaxTree<'_>) -> usize {
    let mut count = 0_usize;
    for _step in tree.steps() {
        count = count.wrapping_add(1);
    }
    count
}

fn ancestors_of(element: SyntaxElement<'_>) -> usize {
    let mut count = 0_usize;
    for _element in element.ancestors() {
        count = count.wrapping_add(1);
    }
    count
}

#[test]
fn preceded_nodes_are_a_deep_tree(rt: HostRuntime) -> Result<(), Fail> {
    let script = Script::new(rt.alloc(), chain(rt.alloc())?, no_words())?;
    let entry = EntryPoint::SourceFile;
    let tree = parse_tree(rt.alloc(), "a", &[word(1)], &NO_KEYWORDS, &script, entry)?;
    assert_eq!(rt; nodes_in(&tree), 1_000_000);
    // Each node is entered and left.
    assert_eq!(rt; steps_in(&tree), 2_000_001);
    let Some(token) = tree.root().first_token() else {
        return Err(Fail::from("no token"));
    };
    // The token itself is one of them.
    assert_eq!(rt; ancestors_of(token), 1_000_001);
    Ok(())
}
