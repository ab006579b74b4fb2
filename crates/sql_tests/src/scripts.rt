//! Scripts that are cut a statement at a time.

use sql_lexer::{ScriptLexer, ScriptPlace};
use std::alloc::Global;
use std::test::Fail;

/// How many raw tokens each statement of a text has, with what stands before it.
fn lens(alloc: Global, text: &str) -> Result<Vec<usize>, Fail> {
    let mut lexer = ScriptLexer::new(text, ScriptPlace::Front)?;
    let mut tokens = Vec::new(alloc);
    let mut lens = Vec::new(alloc);
    while !lexer.is_at_end() {
        tokens.clear();
        lexer.next_statement(&mut tokens)?;
        lens.push(tokens.len())?;
    }
    Ok(lens)
}

#[test]
fn statement_ends_with_its_semicolon(rt: HostRuntime) -> Result<(), Fail> {
    let lens = lens(rt.alloc(), "select 1; -- c\nselect 2")?;
    assert_eq!(rt; lens.as_slice(), [4, 6].as_slice());
    Ok(())
}

#[test]
fn semicolon_of_a_rule_ends_nothing(rt: HostRuntime) -> Result<(), Fail> {
    let text = "create rule r as on select to t do (a; b);;";
    let lens = lens(rt.alloc(), text)?;
    assert_eq!(rt; lens.as_slice(), [25, 1].as_slice());
    Ok(())
}

#[test]
fn line_of_data_is_a_statement(rt: HostRuntime) -> Result<(), Fail> {
    let lens = lens(rt.alloc(), "copy t from stdin;\n1\n\\.\nselect 1")?;
    assert_eq!(rt; lens.as_slice(), [8, 2, 2, 4].as_slice());
    Ok(())
}
