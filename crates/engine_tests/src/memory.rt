//! What asks for memory: it answers what is wanted, or its want of memory, and asked once more what is wanted.
//!
//! These tests also pass where one allocation is refused: so each is asked for at most twice.

mod accepted;
mod names;

use crate::cases::{
    Case, EXPECTED_NAME, EXPECTED_NUMBER, EXTENDED_IN_FRONT, EXTENDED_TO_THE_OLDEST_FIRST,
    EXTENDED_TWICE, SELECT, SKIPPED_TOKEN, STATEMENT,
};
use row_fixtures::call_list::{CallListError, calls_of};
use row_fixtures::lexer::tokens_of;
use row_fixtures::lines::{is_beginning, line_of, whole_line_of};
use row_fixtures::tokens::{literal, space, token};
use row_fixtures::words::words_with;
use squawk_parser::{
    EntryPoint, Input, LexError, LexedStr, LiteralKind, Output, OwnedStep, ParseError, StepList,
    StepSink, StrStep, SyntaxKind, TableError, Token, TokenSet,
};
use squawk_script::{Call, Script, ScriptError};
use squawk_tree::TreeText;
use std::alloc::AllocError;
use std::process::Abort;

/// The raw tokens of a text of simple tokens.
fn tokens(rt: &(impl Abort + AllocGlobal), text: &str) -> Vec<Token> {
    for _ in 0..2 {
        if let Ok(tokens) = tokens_of(rt.alloc(), text) {
            return tokens;
        }
    }
    panic!(rt; "memory is wanting twice")
}

/// The table of a text.
fn table<'a>(rt: &(impl Abort + AllocGlobal), text: &'a str, tokens: &[Token]) -> LexedStr<'a> {
    for _ in 0..2 {
        match LexedStr::new(rt.alloc(), text, tokens, &SELECT) {
            Ok(table) => return table,
            Err(error) => assert_eq!(rt; error, TableError::OutOfMemory),
        }
    }
    panic!(rt; "memory is wanting twice")
}

/// The input of a table, which is as it was where memory was wanting.
fn input(rt: &(impl Abort + AllocGlobal), table: &LexedStr<'_>) -> Input {
    for _ in 0..2 {
        if let Ok(input) = table.to_input(rt.alloc(), &SELECT) {
            return input;
        }
    }
    panic!(rt; "memory is wanting twice")
}

/// The calls of a text.
fn calls(rt: &(impl Abort + AllocGlobal), text: &str) -> Vec<Call> {
    for _ in 0..2 {
        match calls_of(rt.alloc(), text) {
            Ok(calls) => return calls,
            Err(error) => assert_eq!(rt; error, CallListError::OutOfMemory),
        }
    }
    panic!(rt; "memory is wanting twice")
}

/// The script of the calls of a text, with these names. A refusal drops the calls.
fn script<'t>(
    rt: &(impl Abort + AllocGlobal),
    text: &str,
    names: &'t [(SyntaxKind, &'t str)],
) -> Script<'t> {
    for _ in 0..2 {
        let words = words_with(TokenSet::EMPTY, names);
        match Script::new(rt.alloc(), calls(rt, text), words) {
            Ok(script) => return script,
            Err(error) => assert_eq!(rt; error, ScriptError::OutOfMemory),
        }
    }
    panic!(rt; "memory is wanting twice")
}

/// The output of a script, which is as it was where memory was wanting.
fn output(rt: &(impl Abort + AllocGlobal), input: &Input, script: &Script<'_>) -> Output {
    for _ in 0..2 {
        match EntryPoint::SourceFile.parse(rt.alloc(), input, script) {
            Ok(output) => return output,
            Err(error) => assert_eq!(rt; error, ParseError::OutOfMemory),
        }
    }
    panic!(rt; "memory is wanting twice")
}

/// Ends the test unless a list that is sent the output has the line, or refuses a step and has those before
/// it. Tells whether it has all.
fn is_sent(
    rt: &(impl Abort + AllocGlobal),
    table: &LexedStr<'_>,
    output: &Output,
    wanted: &str,
) -> bool {
    assert!(rt; table.fits(output), "{wanted}");
    let mut list = StepList::new(rt.alloc());
    match table.intersperse_trivia(output, &mut list) {
        Ok(is_whole) => match whole_line_of(rt.alloc(), list.steps(), is_whole) {
            Ok(line) => {
                assert_text(rt, line.as_str(), wanted);
                true
            }
            Err(_) => false,
        },
        Err(_) => {
            assert_begun(rt, list.steps(), wanted);
            false
        }
    }
}

/// Ends the test unless the text is the wanted one.
///
/// What owns a text lends it here: an assertion where a value is to be dropped takes the check long.
fn assert_text(rt: &impl Abort, text: &str, wanted: &str) {
    assert_eq!(rt; text, wanted);
}

/// Ends the test unless the line begins with the steps, or memory is wanting.
fn assert_begun(rt: &(impl Abort + AllocGlobal), steps: &[OwnedStep], wanted: &str) {
    if let Ok(line) = line_of(rt.alloc(), steps) {
        assert_beginning(rt, line.as_str(), wanted);
    }
}

fn assert_beginning(rt: &impl Abort, line: &str, wanted: &str) {
    assert!(rt; is_beginning(line, wanted), "{line}");
}

/// Ends the test unless the script of the calls has the line, sent to one of two lists.
fn assert_case(rt: &(impl Abort + AllocGlobal), case: Case, names: &[(SyntaxKind, &str)]) {
    let table = table(rt, case.text, &tokens(rt, case.text));
    let input = input(rt, &table);
    let output = output(rt, &input, &script(rt, case.calls, names));
    let is_first = is_sent(rt, &table, &output, case.line);
    let is_second = is_sent(rt, &table, &output, case.line);
    assert!(rt; is_first || is_second, "{}", case.line);
}

#[test]
fn node_that_is_extended_twice_is_whole(rt: HostRuntime) {
    assert_case(&rt, EXTENDED_TWICE, &[]);
}

#[test]
fn node_that_is_extended_to_the_oldest_first_is_whole(rt: HostRuntime) {
    assert_case(&rt, EXTENDED_TO_THE_OLDEST_FIRST, &[]);
}

#[test]
fn extended_node_in_front_of_another_is_whole(rt: HostRuntime) {
    assert_case(&rt, EXTENDED_IN_FRONT, &[]);
}

#[test]
fn skipped_token_is_whole(rt: HostRuntime) {
    assert_case(&rt, SKIPPED_TOKEN, &[]);
}

#[test]
fn expected_number_is_whole(rt: HostRuntime) {
    assert_case(&rt, EXPECTED_NUMBER, &[]);
}

#[test]
fn expected_name_is_whole(rt: HostRuntime) {
    assert_case(&rt, EXPECTED_NAME, &[(SyntaxKind::SEMICOLON, "SEMICOLON")]);
}

#[test]
fn statement_is_whole(rt: HostRuntime) {
    assert_case(&rt, STATEMENT, &[]);
}

/// Where an error is wanted, its message, and its hint.
type Wanted = (u32, u32, &'static str, Option<&'static str>);

/// The hint at an escape that begins with `\u`.
const FOUR_DIGITS: Option<&str> = Some(r"expected 4 hex digits, like `\uXXXX`");

const INCOMPLETE: &str = "incomplete unicode escape";

fn assert_error(rt: &impl Abort, error: Option<&LexError>, wanted: Wanted) {
    let Some(error) = error else {
        panic!(rt; "the error at {} is missing", wanted.0);
    };
    let range = error.range();
    let came = (range.start, range.end, error.message(), error.hint());
    assert_eq!(rt; came, wanted);
}

/// Ends the test unless the table of a text has the wanted errors and no others.
fn assert_errors(rt: &(impl Abort + AllocGlobal), text: &str, tokens: &[Token], wanted: &[Wanted]) {
    let table = table(rt, text, tokens);
    let mut errors = table.errors();
    for error in wanted {
        assert_error(rt, errors.next(), *error);
    }
    assert!(rt; errors.next().is_none(), "{text:?} has more errors");
}

/// A terminated `E'text'` of so many bytes.
fn escapes(len: u32) -> Token {
    token(literal(LiteralKind::EscStr { terminated: true }), len)
}

#[test]
fn errors_of_three_strings_are_whole(rt: HostRuntime) {
    let bits = token(literal(LiteralKind::BitStr { terminated: true }), 6);
    let bytes = token(literal(LiteralKind::ByteStr { terminated: true }), 5);
    let tokens = [bits, space(1), bytes, space(1), escapes(7)];
    let wanted = [
        (4, 5, "\"2\" is not a valid binary digit", None),
        (10, 11, "\"G\" is not a valid hexadecimal digit", None),
        (15, 19, INCOMPLETE, FOUR_DIGITS),
    ];
    assert_errors(&rt, r"B'102' X'1G' E'\u00'", &tokens, &wanted);
}

#[test]
fn error_of_a_continued_string_is_whole(rt: HostRuntime) {
    let string = token(literal(LiteralKind::Str { terminated: true }), 5);
    let tokens = [escapes(5), space(1), string];
    let wanted = [(7, 10, INCOMPLETE, FOUR_DIGITS)];
    assert_errors(&rt, "E'ok'\n'\\u0'", &tokens, &wanted);
}

/// Hands the token of a word to a sink.
fn take_word<S: StepSink<Refusal = AllocError>>(sink: &mut S, text: &str) -> bool {
    let kind = SyntaxKind::IDENT;
    sink.step(StrStep::Token { kind, text }).is_ok()
}

/// Ends the test unless the steps have the line.
fn assert_line(rt: &(impl Abort + AllocGlobal), steps: &[OwnedStep], wanted: &str) {
    for _ in 0..2 {
        if let Ok(line) = line_of(rt.alloc(), steps) {
            assert_text(rt, line.as_str(), wanted);
            return;
        }
    }
    panic!(rt; "memory is wanting twice")
}

#[test]
fn refused_step_leaves_a_list_as_it_was(rt: HostRuntime) {
    let mut list = StepList::new(rt.alloc());
    for (text, line_before) in [("a", ""), ("b", "a"), ("message", "a b")] {
        if !take_word(&mut list, text) {
            assert_line(&rt, list.steps(), line_before);
            assert!(rt; take_word(&mut list, text));
        }
    }
    assert_line(&rt, list.steps(), "a b message");
}

/// Ends the test unless the tree has the text with these names.
fn assert_tree(
    rt: &(impl Abort + AllocGlobal),
    tree: &TreeText,
    names: &[(SyntaxKind, &str)],
    wanted: &str,
) {
    for _ in 0..2 {
        if let Ok(text) = tree.finish(rt.alloc(), names) {
            assert_text(rt, text.as_str(), wanted);
            return;
        }
    }
    panic!(rt; "memory is wanting twice")
}

#[test]
fn refused_step_leaves_a_tree_as_it_was(rt: HostRuntime) {
    let names = [(SyntaxKind::IDENT, "IDENT")];
    let mut tree = TreeText::new(rt.alloc());
    for (text, text_before) in [("a", ""), ("bc", "IDENT@0..1 \"a\"\n")] {
        if !take_word(&mut tree, text) {
            assert_tree(&rt, &tree, &names, text_before);
            assert!(rt; take_word(&mut tree, text));
        }
    }
    assert_tree(&rt, &tree, &names, "IDENT@0..1 \"a\"\nIDENT@1..3 \"bc\"\n");
}
