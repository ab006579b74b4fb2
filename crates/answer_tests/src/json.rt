//! Bytes that no file of cases can have: documents that break off, other signs round and in them, and deep and long
//! ones.

use crate::asserts::{assert_ends, assert_fault};
use crate::documents::{NAME, NAME_LINES};
use squawk_answer::Fault;
use squawk_document::DocumentError;
use std::alloc::{AllocError, Global};
use std::process::Abort;
use std::test::Fail;

/// So many of an item more.
fn push_items(text: &mut String, item: &str, times: usize) -> Result<(), AllocError> {
    for _ in 0..times {
        text.push_str(item)?;
    }
    Ok(())
}

/// A list in a list and so on, this many, between these.
fn nested(alloc: Global, front: &str, lists: usize, back: &str) -> Result<String, AllocError> {
    let mut text = String::from_str(alloc, front)?;
    push_items(&mut text, "[", lists)?;
    push_items(&mut text, "]", lists)?;
    text.push_str(back)?;
    Ok(text)
}

/// So many lists, and one less as a member, have this fault.
fn assert_nested(rt: &(impl Abort + AllocGlobal), lists: u8, fault: Fault) -> Result<(), Fail> {
    let lists = usize::from(lists);
    let document = nested(rt.alloc(), "", lists, "")?;
    assert_fault(rt, document.as_bytes(), &lists, fault);
    let document = nested(rt.alloc(), r#"{"text":"#, lists.saturating_sub(1), "}")?;
    assert_fault(rt, document.as_bytes(), &lists, fault);
    Ok(())
}

#[test]
fn nesting_of_127_is_read_and_one_of_128_is_no_json(rt: HostRuntime) -> Result<(), Fail> {
    assert_nested(&rt, 127, Fault::Document(DocumentError::Shape))?;
    assert_nested(&rt, 128, Fault::Document(DocumentError::Json))
}

/// The document of a name with this in front of it and that behind it has this fault or its answer.
fn assert_framed(
    rt: &(impl Abort + AllocGlobal),
    front: &str,
    back: &str,
    wanted: (Result<(), Fault>, &str),
) -> Result<(), Fail> {
    let document = format!(in rt.alloc(); "{front}{NAME}{back}")?;
    assert_ends(rt, document.as_bytes(), &(front, back), wanted);
    Ok(())
}

#[test]
fn white_space_may_stand_round_a_document(rt: HostRuntime) -> Result<(), Fail> {
    assert_framed(&rt, " \t\r\n", "\n\r\t ", (Ok(()), NAME_LINES))
}

#[test]
fn other_signs_round_a_document_are_no_json(rt: HostRuntime) -> Result<(), Fail> {
    for sign in ["\0", "\u{a0}", "\u{feff}"] {
        assert_framed(
            &rt,
            "",
            sign,
            (Err(Fault::Document(DocumentError::Json)), ""),
        )?;
        assert_framed(
            &rt,
            sign,
            "",
            (Err(Fault::Document(DocumentError::Json)), ""),
        )?;
    }
    Ok(())
}

#[test]
fn white_space_alone_and_a_string_with_a_newline_are_no_json(rt: HostRuntime) {
    for document in ["", " \t\r\n", "{\"text\":\"\n\"}"] {
        assert_fault(
            &rt,
            document.as_bytes(),
            &document,
            Fault::Document(DocumentError::Json),
        );
    }
}

/// How many names a long document has.
const NAMES: usize = 5000;

/// A document of so many names and a sign behind them.
fn long_document(alloc: Global) -> Result<String, AllocError> {
    let mut text = String::from_str(alloc, "{\"text\":\"")?;
    push_items(&mut text, "x", NAMES)?;
    text.push_str(";\",\"tokens\":[")?;
    push_items(&mut text, "[\"ident\",1], ", NAMES)?;
    text.push_str("[\"semi\",1]],\"calls\":[[\"start\"], ")?;
    push_items(&mut text, "[\"bump_any\"], ", NAMES)?;
    text.push_str(
        r#"["bump_any"],["complete",0,700]],"entry":"sql",
"words":{"operator_first":[],"names":[]},"vocabulary":{"keywords":[],"contextual":[]}}"#,
    )?;
    Ok(text)
}

#[test]
fn thousands_of_tokens_and_calls_have_their_lines(rt: HostRuntime) -> Result<(), Fail> {
    let document = long_document(rt.alloc())?;
    let mut lines = String::from_str(rt.alloc(), "enter 700\n")?;
    push_items(&mut lines, "token 3 \"x\"\n", NAMES)?;
    lines.push_str("token 5 \";\"\nexit\nall\n")?;
    assert_ends(&rt, document.as_bytes(), &NAMES, (Ok(()), &lines));
    Ok(())
}

/// The document of a name is broken by a byte that is no text at this place.
fn assert_no_text(rt: &(impl Abort + AllocGlobal), place: usize) -> Result<(), Fail> {
    let mut bytes = NAME.as_bytes().to_vec(rt.alloc())?;
    *bytes.get_mut(place).ok_or("no such place")? = 0xff;
    assert_fault(rt, &bytes, &place, Fault::Document(DocumentError::Json));
    Ok(())
}

#[test]
fn each_beginning_of_a_document_is_no_json(rt: HostRuntime) {
    for place in 0..NAME.len() {
        assert_fault(
            &rt,
            &NAME.as_bytes()[..place],
            &place,
            Fault::Document(DocumentError::Json),
        );
    }
}

#[test]
fn byte_that_is_no_text_is_no_json_at_any_place(rt: HostRuntime) -> Result<(), Fail> {
    for place in 0..NAME.len() {
        assert_no_text(&rt, place)?;
    }
    Ok(())
}

#[test]
fn bytes_that_are_no_utf_8_are_no_json(rt: HostRuntime) {
    for input in [
        b"\xff".as_slice(),
        b"\"\xc3\"".as_slice(),
        b"\"\xc0\x80\"".as_slice(),
        b"\"\xed\xa0\x80\"".as_slice(),
        b"\"\xf4\x90\x80\x80\"".as_slice(),
        b"{\"\xa9\":null}".as_slice(),
    ] {
        assert_fault(&rt, input, &input, Fault::Document(DocumentError::Json));
    }
}
