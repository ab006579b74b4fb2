//! What stands in an element, around it and beside it.

use super::{put, sum};
use std::fmt::Write;
use std::test::Fail;

#[test]
fn elements_have_kinds_and_texts(rt: HostRuntime) -> Result<(), Fail> {
    let tree = sum(rt.alloc())?;
    let mut text = String::new(rt.alloc());
    for element in tree.root().descendants_with_tokens() {
        put(&mut text, Some(element))?;
        let sort = if element.is_token() { "token" } else { "node" };
        write!(text, " {sort} [{}]\n", element.text())?;
    }
    let wanted = " ROOT 0..6 node [a+é b]
 NAME 0..1 token [a]
 SUM 1..4 node [+é]
 EMPTY 1..1 node []
 PLUS 1..2 token [+]
 NAME 2..4 token [é]
 EMPTY 4..4 node []
 SPACE 4..5 token [ ]
 NAME 5..6 token [b]
";
    assert_eq!(rt; text.as_str(), wanted);
    Ok(())
}

#[test]
fn elements_stand_in_nodes(rt: HostRuntime) -> Result<(), Fail> {
    let tree = sum(rt.alloc())?;
    let mut text = String::new(rt.alloc());
    for element in tree.root().descendants_with_tokens() {
        put(&mut text, element.parent())?;
        write!(text, ":")?;
        for ancestor in element.ancestors() {
            put(&mut text, Some(ancestor))?;
        }
        write!(text, "\n")?;
    }
    let wanted = " -: ROOT 0..6
 ROOT 0..6: NAME 0..1 ROOT 0..6
 ROOT 0..6: SUM 1..4 ROOT 0..6
 SUM 1..4: EMPTY 1..1 SUM 1..4 ROOT 0..6
 SUM 1..4: PLUS 1..2 SUM 1..4 ROOT 0..6
 SUM 1..4: NAME 2..4 SUM 1..4 ROOT 0..6
 SUM 1..4: EMPTY 4..4 SUM 1..4 ROOT 0..6
 ROOT 0..6: SPACE 4..5 ROOT 0..6
 ROOT 0..6: NAME 5..6 ROOT 0..6
";
    assert_eq!(rt; text.as_str(), wanted);
    Ok(())
}

#[test]
fn children_stand_in_order(rt: HostRuntime) -> Result<(), Fail> {
    let tree = sum(rt.alloc())?;
    let mut text = String::new(rt.alloc());
    for node in tree.root().descendants() {
        for child in node.children_with_tokens() {
            put(&mut text, Some(child))?;
        }
        write!(text, ",")?;
        for child in node.children() {
            put(&mut text, Some(child))?;
        }
        write!(text, "\n")?;
    }
    let wanted = " NAME 0..1 SUM 1..4 SPACE 4..5 NAME 5..6, SUM 1..4
 EMPTY 1..1 PLUS 1..2 NAME 2..4 EMPTY 4..4, EMPTY 1..1 EMPTY 4..4
,
,
";
    assert_eq!(rt; text.as_str(), wanted);
    Ok(())
}

#[test]
fn first_and_last_children(rt: HostRuntime) -> Result<(), Fail> {
    let tree = sum(rt.alloc())?;
    let mut text = String::new(rt.alloc());
    for element in tree.root().descendants_with_tokens() {
        put(&mut text, element.first_child_or_token())?;
        put(&mut text, element.last_child_or_token())?;
        put(&mut text, element.first_child())?;
        put(&mut text, element.last_child())?;
        write!(text, "\n")?;
    }
    let wanted = " NAME 0..1 NAME 5..6 SUM 1..4 SUM 1..4
 - - - -
 EMPTY 1..1 EMPTY 4..4 EMPTY 1..1 EMPTY 4..4
 - - - -
 - - - -
 - - - -
 - - - -
 - - - -
 - - - -
";
    assert_eq!(rt; text.as_str(), wanted);
    Ok(())
}

#[test]
fn siblings_stand_beside_each_other(rt: HostRuntime) -> Result<(), Fail> {
    let tree = sum(rt.alloc())?;
    let mut text = String::new(rt.alloc());
    for element in tree.root().descendants_with_tokens() {
        put(&mut text, element.prev_sibling_or_token())?;
        put(&mut text, element.prev_sibling())?;
        write!(text, ",")?;
        put(&mut text, element.next_sibling_or_token())?;
        put(&mut text, element.next_sibling())?;
        write!(text, "\n")?;
    }
    let wanted = " - -, - -
 - -, SUM 1..4 SUM 1..4
 NAME 0..1 -, SPACE 4..5 -
 - -, PLUS 1..2 EMPTY 4..4
 EMPTY 1..1 EMPTY 1..1, NAME 2..4 EMPTY 4..4
 PLUS 1..2 EMPTY 1..1, EMPTY 4..4 EMPTY 4..4
 NAME 2..4 EMPTY 1..1, - -
 SUM 1..4 SUM 1..4, NAME 5..6 -
 SPACE 4..5 SUM 1..4, - -
";
    assert_eq!(rt; text.as_str(), wanted);
    Ok(())
}

#[test]
fn tokens_stand_in_elements_and_around_them(rt: HostRuntime) -> Result<(), Fail> {
    let tree = sum(rt.alloc())?;
    let mut text = String::new(rt.alloc());
    for element in tree.root().descendants_with_tokens() {
        put(&mut text, element.first_token())?;
        put(&mut text, element.last_token())?;
        write!(text, ",")?;
        put(&mut text, element.prev_token())?;
        put(&mut text, element.next_token())?;
        write!(text, "\n")?;
    }
    let wanted = " NAME 0..1 NAME 5..6, - -
 NAME 0..1 NAME 0..1, - PLUS 1..2
 PLUS 1..2 NAME 2..4, NAME 0..1 SPACE 4..5
 - -, NAME 0..1 PLUS 1..2
 PLUS 1..2 PLUS 1..2, NAME 0..1 NAME 2..4
 NAME 2..4 NAME 2..4, PLUS 1..2 SPACE 4..5
 - -, NAME 2..4 SPACE 4..5
 SPACE 4..5 SPACE 4..5, NAME 2..4 NAME 5..6
 NAME 5..6 NAME 5..6, SPACE 4..5 -
";
    assert_eq!(rt; text.as_str(), wanted);
    Ok(())
}
