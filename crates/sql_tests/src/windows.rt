//! Lines of a script of which a window is at hand.

use sql_grammar::{Detail, parse_table};
use sql_lexer::tokenize_script;
use sql_report::{ErrorLines, LineColumn, Place, Statement, StatementLines};
use sql_words::vocabulary;
use squawk_kinds::SyntaxKind;
use squawk_table::LexedStr;
use std::alloc::{AllocError, Global};
use std::test::Fail;

/// Two statements in a line of 122 bytes, and one more. The first has a string of 50 characters of two bytes, from byte 8 to 108, and
/// ends at 110.
fn script(alloc: Global) -> Result<String, AllocError> {
    let many = "é".repeat(alloc, 50)?;
    format!(in alloc; "select '{many}'; select 1x;\nselect 2y;\n")
}

/// A place at the beginning of a window from a byte of a script to another.
fn window(script: &str, from: usize, to: usize) -> Place<'_> {
    let bytes = script.as_bytes();
    let mut before = LineColumn::start();
    before.pass(bytes.get(..from).unwrap_or(b""));
    Place::new(bytes.get(from..to).unwrap_or(b""), before)
}

/// The errors of a part of a script, from a byte to another, in such a window.
fn errors(
    alloc: Global,
    script: &str,
    (from, to): (usize, usize),
    (start, end): (usize, usize),
) -> Result<Vec<u8>, Fail> {
    let text = script.get(start..end).unwrap_or("");
    let tokens = tokenize_script(alloc, text)?;
    let words = vocabulary(alloc)?;
    let table = LexedStr::new(alloc, text, &tokens, &words)?;
    let output = parse_table(alloc, &table, &words, Detail::Tokens)?;
    let mut place = window(script, from, to);
    let mut lines = ErrorLines::new(alloc, "x");
    lines.part(&mut place, &table, &output, start.saturating_sub(from))?;
    Ok(lines.lines)
}

#[test]
fn place_goes_on_from_what_is_passed(rt: HostRuntime) -> Result<(), Fail> {
    // The window begins with the second byte of the é, which is the second character of the second line.
    let mut place = window("ab\ncé\td\n\ne", 5, 11);
    assert_eq!(rt; place.line_column(), LineColumn { line: 2, column: 3 });
    place.go_to(2);
    assert_eq!(rt; place.line_column(), LineColumn { line: 2, column: 4 });
    assert_eq!(rt; place.before(), b"\t".as_slice());
    assert_eq!(rt; place.behind(), b"d".as_slice());
    place.go_on(3, 2);
    assert_eq!(rt; place.line_column(), LineColumn { line: 4, column: 1 });
    place.go_to(usize::MAX);
    assert_eq!(rt; place.line_column(), LineColumn { line: 4, column: 2 });
    place.go_to(1);
    assert_eq!(rt; place.line_column(), LineColumn { line: 2, column: 3 });
    Ok(())
}

#[test]
fn errors_of_a_long_line_are_shown_in_a_window(rt: HostRuntime) -> Result<(), Fail> {
    let alloc = rt.alloc();
    let text = script(alloc)?;
    // The x is byte 119. Of the 100 bytes before it the first ends a character, so 44 of them stand there whole.
    let many = "é".repeat(alloc, 44)?;
    let spaces = " ".repeat(alloc, 55)?;
    let wanted = format!(in alloc;
        "x:1:70: trailing junk after numeric literal\n{many}'; select 1x;\n{spaces}^\n"
    )?;
    // A window begins at a character, inside of one, or with the script; it ends with the line, or with the script.
    for from in [10, 9, 0] {
        for to in [122, text.len()] {
            let lines = errors(alloc, text.as_str(), (from, to), (110, 121))?;
            assert_eq!(rt; lines.as_slice(), wanted.as_bytes());
        }
    }
    Ok(())
}

#[test]
fn errors_of_a_later_line_are_shown_in_a_window(rt: HostRuntime) -> Result<(), Fail> {
    let alloc = rt.alloc();
    let text = script(alloc)?;
    let wanted = "x:2:9: trailing junk after numeric literal\nselect 2y;\n        ^\n";
    for from in [22, 21] {
        let lines = errors(alloc, text.as_str(), (from, 133), (122, 132))?;
        assert_eq!(rt; lines.as_slice(), wanted.as_bytes());
    }
    Ok(())
}

#[test]
fn statements_have_lines_in_a_window(rt: HostRuntime) -> Result<(), Fail> {
    let alloc = rt.alloc();
    let text = script(alloc)?;
    let kind = SyntaxKind(701);
    let names = [(kind, "QUERY")];
    let statement = |start, end| Statement { kind, start, end };
    let mut lines = StatementLines::new(alloc, &names);
    let first = [statement(0, 110)];
    lines.part(&mut window(text.as_str(), 0, 110), 0, 0, &first)?;
    let others = [statement(0, 10), statement(11, 21)];
    lines.part(&mut window(text.as_str(), 107, 133), 4, 111, &others)?;
    let wanted = "0..110 1:1 QUERY\n111..121 1:62 QUERY\n122..132 2:1 QUERY\n";
    assert_eq!(rt; lines.lines.as_str(), wanted);
    Ok(())
}
