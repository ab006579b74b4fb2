//! What is told of texts.

mod printing;

use crate::inputs::has_headings;
use crate::options::Listing;
use crate::printer::Printer;
use crate::report::{Report, tell_text};
use crate::sql::Sql;
use std::alloc::Global;
use std::io;
use std::test::Fail;

/// A text, and what is told of it.
struct Case {
    text: &'static str,
    statements: &'static str,
    errors: &'static str,
}

static CASES: [Case; 6] = [
    Case {
        text: "",
        statements: "",
        errors: "",
    },
    // Columns count characters.
    Case {
        text: "select 1;\n\n  select 'ä', 2",
        statements: "0..9 1:1 QUERY\n13..27 3:3 QUERY\n",
        errors: "",
    },
    // A tab stands under a tab.
    Case {
        text: "select\t'ä', f(2;\n",
        statements: "0..17 1:1 QUERY\n",
        errors: "x:1:16: expected )\nselect\t'ä', f(2;\n      \t        ^\n",
    },
    // Lexical errors and those of the grammar stand in the order of their places.
    Case {
        text: "select f(1x;",
        statements: "0..12 1:1 QUERY\n",
        errors: "x:1:11: trailing junk after numeric literal\nselect f(1x;\n          ^\n\
                 x:1:12: expected )\nselect f(1x;\n           ^\n",
    },
    // A quote in data of COPY opens no string.
    Case {
        text: "copy t from stdin;\nit's\n\\.\nselect 1",
        statements: "0..18 1:1 COPY\n19..23 2:1 PSQL_COMMAND\n24..26 3:1 PSQL_COMMAND\n27..35 4:1 QUERY\n",
        errors: "",
    },
    // A byte order mark is white space.
    Case {
        text: "\u{feff}select 1",
        statements: "3..11 1:2 QUERY\n",
        errors: "",
    },
];

/// What is printed of a text that is called "x", and what is counted.
fn tell(
    alloc: Global,
    sql: &Sql,
    listing: Listing,
    text: &str,
) -> io::Result<(Printer<Vec<u8>, Vec<u8>>, Report)> {
    let mut printer = Printer::new(Vec::<u8>::new(alloc), Vec::<u8>::new(alloc));
    let report = tell_text(alloc, sql, listing, "x", text.as_bytes(), &mut printer)?;
    Ok((printer, report))
}

#[test]
fn tells_cases(rt: HostRuntime) -> Result<(), Fail> {
    let alloc = rt.alloc();
    let sql = Sql::new(alloc)?;
    for case in &CASES {
        let (printed, _) = tell(alloc, &sql, Listing::Statements, case.text)?;
        assert_eq!(rt; printed.out.as_slice(), case.statements.as_bytes());
        assert_eq!(rt; printed.errors.as_slice(), case.errors.as_bytes());
    }
    Ok(())
}

#[test]
fn lists_raw_tokens(rt: HostRuntime) -> Result<(), Fail> {
    let alloc = rt.alloc();
    let sql = Sql::new(alloc)?;
    let (printed, _) = tell(alloc, &sql, Listing::Tokens, "select $1")?;
    let wanted = "Ident 0..6\nWhitespace 6..7\nPositionalParam 7..9\n";
    assert_eq!(rt; printed.out.as_slice(), wanted.as_bytes());
    Ok(())
}

/// Starts and ends count bytes. An error stands in the innermost node that is open, and what stands between
/// statements is left out.
const JSON: &str = "{\"kind\":\"LOAD\",\"start\":0,\"children\":[\
    {\"kind\":\"LOAD_KW\",\"start\":0,\"end\":4},{\"kind\":\"WHITESPACE\",\"start\":4,\"end\":5},\
    {\"kind\":\"LITERAL\",\"start\":5,\"children\":[\
    {\"kind\":\"STRING\",\"start\":5,\"end\":9}],\"end\":9,\"errors\":[]},\
    {\"kind\":\"SEMICOLON\",\"start\":9,\"end\":10}],\"end\":10,\"errors\":[]}\n\
    {\"kind\":\"MOVE\",\"start\":11,\"children\":[\
    {\"kind\":\"MOVE_KW\",\"start\":11,\"end\":15},{\"kind\":\"WHITESPACE\",\"start\":15,\"end\":16},\
    {\"kind\":\"NAME_REF\",\"start\":16,\"children\":[\
    {\"kind\":\"IDENT\",\"start\":16,\"end\":17}],\"end\":17,\"errors\":[]},\
    {\"kind\":\"WHITESPACE\",\"start\":17,\"end\":18},\
    {\"kind\":\"ERROR\",\"start\":18,\"children\":[{\"kind\":\"IDENT\",\"start\":18,\"end\":19}],\"end\":19,\
    \"errors\":[{\"message\":\"unexpected token\",\"at\":18}]},\
    {\"kind\":\"SEMICOLON\",\"start\":19,\"end\":20}],\"end\":20,\"errors\":[]}\n";

#[test]
fn lists_statements_as_json(rt: HostRuntime) -> Result<(), Fail> {
    let alloc = rt.alloc();
    let sql = Sql::new(alloc)?;
    let text = "load 'ä';\nmove a b;";
    let (printed, report) = tell(alloc, &sql, Listing::Json, text)?;
    assert_eq!(rt; printed.out.as_slice(), JSON.as_bytes());
    assert_eq!(rt; (report.statement_count, report.error_count), (2, 1));
    Ok(())
}

#[test]
fn has_no_headings_in_json(rt: HostRuntime) -> Result<(), Fail> {
    assert_eq!(rt; has_headings(Listing::Json, 2), false);
    assert_eq!(rt; has_headings(Listing::Quiet, 2), false);
    assert_eq!(rt; has_headings(Listing::Statements, 2), true);
    assert_eq!(rt; has_headings(Listing::Statements, 1), false);
    Ok(())
}

#[test]
fn lists_nothing_where_it_is_quiet(rt: HostRuntime) -> Result<(), Fail> {
    let alloc = rt.alloc();
    let sql = Sql::new(alloc)?;
    let (printed, report) = tell(alloc, &sql, Listing::Quiet, "select (1")?;
    assert_eq!(rt; printed.out.as_slice(), b"".as_slice());
    assert_eq!(rt; report.error_count, 1);
    Ok(())
}
