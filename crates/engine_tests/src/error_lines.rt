//! What refusals print, and the texts of steps.

use squawk_parser::{ParseError, TableError, Text};
use squawk_script::ScriptError;
use std::alloc::{AllocError, Global};
use std::fmt::Display;
use std::process::Abort;
use std::test::Fail;

/// Ends the test unless the text is the wanted one.
///
/// What owns a text lends it here: an assertion where a value is to be dropped takes the check long.
fn assert_text(rt: &impl Abort, text: &str, wanted: &str) {
    assert_eq!(rt; text, wanted);
}

/// Ends the test unless the refusal prints this line.
fn assert_line<E: Display>(
    rt: &(impl Abort + AllocGlobal),
    error: &E,
    line: &str,
) -> Result<(), Fail> {
    let printed = format!(in rt.alloc(); "{error}")?;
    assert_text(rt, printed.as_str(), line);
    Ok(())
}

#[test]
fn refused_table_prints_its_line(rt: HostRuntime) -> Result<(), Fail> {
    assert_line(&rt, &TableError::TextTooLong, "text too long")?;
    assert_line(&rt, &TableError::BadToken { index: 12 }, "bad token 12")?;
    assert_line(&rt, &TableError::TextLeft { at: 0 }, "text left at 0")?;
    assert_line(&rt, &TableError::OutOfMemory, "memory")
}

#[test]
fn refused_calls_print_their_line(rt: HostRuntime) -> Result<(), Fail> {
    let unspent = ScriptError::Unspent { marker: 4294967295 };
    assert_line(&rt, &ScriptError::BadCall { index: 3 }, "bad call 3")?;
    assert_line(&rt, &unspent, "unspent 4294967295")?;
    assert_line(&rt, &ScriptError::OutOfMemory, "memory")
}

#[test]
fn refused_parse_prints_its_line(rt: HostRuntime) -> Result<(), Fail> {
    assert_line(&rt, &ParseError::OutOfMemory, "memory")?;
    assert_line(&rt, &ParseError::TooManyEvents, "too many events")?;
    assert_line(&rt, &ParseError::TooManyErrors, "too many errors")
}

fn text_of(alloc: Global, text: &str) -> Result<Text, AllocError> {
    Ok(Text::new(String::from_str(alloc, text)?))
}

/// Ends the test unless the two texts are equal, or aren't.
fn assert_equal(
    rt: &(impl Abort + AllocGlobal),
    text: &str,
    other: &str,
    are_equal: bool,
) -> Result<(), Fail> {
    let are = text_of(rt.alloc(), text)? == text_of(rt.alloc(), other)?;
    assert_eq!(rt; are, are_equal, "{text:?} and {other:?}");
    Ok(())
}

#[test]
fn texts_are_equal_where_their_characters_are(rt: HostRuntime) -> Result<(), Fail> {
    assert_equal(&rt, "é", "\u{e9}", true)?;
    assert_equal(&rt, "é", "és", false)?;
    let text = text_of(rt.alloc(), "é")?;
    assert_text(&rt, text.as_str(), "é");
    Ok(())
}
