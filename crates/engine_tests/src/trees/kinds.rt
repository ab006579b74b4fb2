//! The elements of one kind in a node.

use super::{EMPTY, NAME, PLUS, ROOT, SUM, put, sum};
use std::fmt::Write;
use std::test::Fail;

#[test]
fn first_children_are_of_kinds(rt: HostRuntime) -> Result<(), Fail> {
    let tree = sum(rt.alloc())?;
    let mut text = String::new(rt.alloc());
    for node in tree.root().descendants() {
        for kind in [SUM, EMPTY, NAME] {
            put(&mut text, node.first_child_by_kind(kind))?;
        }
        write!(text, "\n")?;
    }
    let wanted = " SUM 1..4 - -
 - EMPTY 1..1 -
 - - -
 - - -
";
    assert_eq!(rt; text.as_str(), wanted);
    Ok(())
}

#[test]
fn first_tokens_are_of_kinds(rt: HostRuntime) -> Result<(), Fail> {
    let tree = sum(rt.alloc())?;
    let mut text = String::new(rt.alloc());
    for node in tree.root().descendants() {
        for kind in [NAME, PLUS, EMPTY] {
            put(&mut text, node.first_token_by_kind(kind))?;
        }
        write!(text, "\n")?;
    }
    let wanted = " NAME 0..1 - -
 NAME 2..4 PLUS 1..2 -
 - - -
 - - -
";
    assert_eq!(rt; text.as_str(), wanted);
    Ok(())
}

#[test]
fn descendants_are_of_kinds(rt: HostRuntime) -> Result<(), Fail> {
    let tree = sum(rt.alloc())?;
    let mut text = String::new(rt.alloc());
    for element in tree.root().descendants_with_tokens() {
        for kind in [ROOT, SUM, EMPTY, NAME] {
            for node in element.descendants_by_kind(kind) {
                put(&mut text, Some(node))?;
            }
            write!(text, ",")?;
        }
        write!(text, "\n")?;
    }
    let wanted = " ROOT 0..6, SUM 1..4, EMPTY 1..1 EMPTY 4..4,,
,,,,
, SUM 1..4, EMPTY 1..1 EMPTY 4..4,,
,, EMPTY 1..1,,
,,,,
,,,,
,, EMPTY 4..4,,
,,,,
,,,,
";
    assert_eq!(rt; text.as_str(), wanted);
    Ok(())
}
