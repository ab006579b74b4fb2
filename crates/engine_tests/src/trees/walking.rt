//! Steps, events and errors.

use super::{name, put, sum};
use squawk_parser::StrStep;
use std::alloc::AllocError;
use std::fmt::Write;
use std::test::Fail;
use syntax_tree::WalkEvent;

#[test]
fn walk_is_what_the_builder_took(rt: HostRuntime) -> Result<(), Fail> {
    let tree = sum(rt.alloc())?;
    let mut text = String::new(rt.alloc());
    for step in tree.steps() {
        match step {
            StrStep::Enter { kind } => write!(text, "{}( ", name(kind))?,
            StrStep::Token { kind, text: part } => write!(text, "{}'{part}' ", name(kind))?,
            StrStep::Error { msg, pos } => write!(text, "{msg}@{pos} ")?,
            StrStep::Exit => write!(text, ") ")?,
        }
    }
    let wanted = "early@0 ROOT( NAME'a' before@1 SUM( begins@1 EMPTY( ) PLUS'+' NAME'é' \
                  EMPTY( missing@4 ) ends@4 ) after@4 SPACE' ' NAME'b' late@6 ) behind@6 ";
    assert_eq!(rt; text.as_str(), wanted);
    Ok(())
}

#[test]
fn errors_stand_in_nodes(rt: HostRuntime) -> Result<(), Fail> {
    let tree = sum(rt.alloc())?;
    let mut text = String::new(rt.alloc());
    for error in tree.errors() {
        write!(text, "{}@{}", error.message(), error.pos())?;
        put(&mut text, error.node())?;
        write!(text, "\n")?;
    }
    let wanted = "early@0 -
before@1 ROOT 0..6
begins@1 SUM 1..4
missing@4 EMPTY 4..4
ends@4 SUM 1..4
after@4 ROOT 0..6
late@6 ROOT 0..6
behind@6 -
";
    assert_eq!(rt; text.as_str(), wanted);
    Ok(())
}

#[test]
fn errors_in_an_element(rt: HostRuntime) -> Result<(), Fail> {
    let tree = sum(rt.alloc())?;
    let mut text = String::new(rt.alloc());
    for element in tree.root().descendants_with_tokens() {
        put(&mut text, Some(element))?;
        for error in element.errors_in() {
            write!(text, " {}", error.message())?;
        }
        write!(text, "\n")?;
    }
    let wanted = " ROOT 0..6 before begins missing ends after late
 NAME 0..1
 SUM 1..4 begins missing ends
 EMPTY 1..1
 PLUS 1..2
 NAME 2..4
 EMPTY 4..4 missing
 SPACE 4..5
 NAME 5..6
";
    assert_eq!(rt; text.as_str(), wanted);
    Ok(())
}

#[test]
fn events_of_a_node(rt: HostRuntime) -> Result<(), Fail> {
    let tree = sum(rt.alloc())?;
    let mut text = String::new(rt.alloc());
    for node in tree.root().children() {
        for event in node.preorder_with_tokens() {
            put_event(&mut text, event)?;
        }
    }
    write!(text, "\n")?;
    for event in tree.root().preorder() {
        put_event(&mut text, event)?;
    }
    let wanted = " +SUM +EMPTY -EMPTY +PLUS -PLUS +NAME -NAME +EMPTY -EMPTY -SUM
 +ROOT +SUM +EMPTY -EMPTY +EMPTY -EMPTY -SUM -ROOT";
    assert_eq!(rt; text.as_str(), wanted);
    Ok(())
}

/// Writes an event as ` +KIND` or ` -KIND`.
fn put_event(text: &mut String, event: WalkEvent<'_>) -> Result<(), AllocError> {
    let sign = match event {
        WalkEvent::Enter(_entered) => "+",
        WalkEvent::Leave(_left) => "-",
    };
    let kind = name(event.element().kind());
    write!(text, " {sign}{kind}")
}
