//! What is found in texts and files.

mod adding;
mod changing;
mod column_types;
mod statements;

use crate::lint::{Linter, push_broken_rules};
use sql_syntax::{FileError, Reporter, SqlError, Texts, findings, parse_sql, print_files, status};
use sql_words::vocabulary;
use std::alloc::{AllocError, Global};
use std::fmt::Write;
use std::io::{self, ErrorKind};
use std::process::Abort;
use std::test::Fail;

/// The lines of a text that is called `x`.
fn lines(alloc: Global, text: &str) -> Result<Vec<u8>, SqlError> {
    let words = vocabulary(alloc)?;
    Linter { words: &words }.report(alloc, "x", text)
}

/// What is found in a text: for each finding the name of the rule, or what an error says, and the word at its place.
fn found(alloc: Global, text: &str) -> Result<String, Fail> {
    let words = vocabulary(alloc)?;
    let tree = parse_sql(alloc, text, &words)?;
    let mut all = findings(alloc, &tree)?;
    push_broken_rules(&mut all, &tree)?;
    let mut out = String::new(alloc);
    for finding in &all {
        let rule = finding.message.split(':').next().unwrap_or("");
        let rest = text.get(finding.at..).unwrap_or("");
        let word = rest.split(' ').next().unwrap_or("");
        write!(out, "{rule} at {word}\n")?;
    }
    Ok(out)
}

/// Asserts of texts what is found in them.
fn assert_found(rt: &(impl Abort + AllocGlobal), cases: &[(&str, &str)]) -> Result<(), Fail> {
    for case in cases {
        let (text, wanted) = *case;
        assert_eq!(rt; found(rt.alloc(), text)?.as_str(), wanted, "{text}");
    }
    Ok(())
}

/// Asserts of texts that nothing is found in them.
fn assert_clean(rt: &(impl Abort + AllocGlobal), texts: &[&str]) -> Result<(), Fail> {
    for text in texts {
        assert_eq!(rt; found(rt.alloc(), text)?.as_str(), "", "{text}");
    }
    Ok(())
}

/// Texts, and what is found.
static BROKEN: [(&str, &str); 6] = [
    (
        "drop table a;",
        "x:1:1: prefer-robust-stmts: DROP without IF EXISTS\ndrop table a;\n^\n",
    ),
    (
        "create index a on t (b);",
        "x:1:1: require-concurrent-index-creation: CREATE INDEX without CONCURRENTLY\ncreate index a on t (b);\n^\n",
    ),
    (
        "CREATE UNIQUE INDEX a ON t (b)",
        "x:1:1: require-concurrent-index-creation: CREATE INDEX without CONCURRENTLY\nCREATE UNIQUE INDEX a ON t (b)\n^\n",
    ),
    // Lexical errors and those of the grammar stand in the order of their places, before what the rules find.
    (
        "select (1x; drop table a",
        "x:1:10: trailing junk after numeric literal\nselect (1x; drop table a\n         ^\n\
         x:1:11: expected ) or a comma\nselect (1x; drop table a\n          ^\n\
         x:1:13: prefer-robust-stmts: DROP without IF EXISTS\nselect (1x; drop table a\n            ^\n",
    ),
    (
        "drop table a; select (1",
        "x:1:24: expected ) or a comma\ndrop table a; select (1\n                       ^\n\
         x:1:1: prefer-robust-stmts: DROP without IF EXISTS\ndrop table a; select (1\n^\n",
    ),
    // A finding stands at its statement's first byte, not at trivia before it.
    (
        "/* é */ drop table a; create index b on t (c)",
        "x:1:9: prefer-robust-stmts: DROP without IF EXISTS\n/* é */ drop table a; create index b on t (c)\n        ^\n\
         x:1:23: require-concurrent-index-creation: CREATE INDEX without CONCURRENTLY\n/* é */ drop table a; create index b on t (c)\n                      ^\n",
    ),
];

#[test]
fn finds_each(rt: HostRuntime) -> Result<(), Fail> {
    for case in &BROKEN {
        let (text, wanted) = *case;
        assert_eq!(rt; lines(rt.alloc(), text)?.as_slice(), wanted.as_bytes());
    }
    Ok(())
}

/// Files with their texts.
#[derive(Drop)]
struct Fixed {
    alloc: Global,
    files: &'static [(&'static str, &'static str)],
}

impl Texts for Fixed {
    ghost gives = { λ _ _ _. Unit {0} };

    fn read(&self, name: &str) -> io::Result<String> {
        for (file, text) in self.files {
            if *file == name {
                return Ok(String::from_str(self.alloc, text)?);
            }
        }
        Err(io::Error::from(ErrorKind::NotFound))
    }
}

static FILES: [(&str, &str); 3] = [("a", "select 1"), ("b", "drop view c"), ("c", "")];

/// Names of files, what is printed, the text of the error if there is one, and the status.
static RUNS: [(&[&str], &str, &str, u8); 3] = [
    (&["a", "c"], "", "", 0),
    (
        &["a", "b", "c"],
        "b:1:1: prefer-robust-stmts: DROP without IF EXISTS\ndrop view c\n^\n",
        "",
        1,
    ),
    (
        &["b", "d", "b"],
        "b:1:1: prefer-robust-stmts: DROP without IF EXISTS\ndrop view c\n^\n",
        "d: entity not found",
        3,
    ),
];

/// The text of an error; none where there is none.
fn message(alloc: Global, is_clean: &Result<bool, FileError<'_>>) -> Result<String, AllocError> {
    match is_clean {
        Ok(_) => Ok(String::new(alloc)),
        Err(error) => format!(in alloc; "{error}"),
    }
}

#[test]
fn goes_over_files(rt: HostRuntime) -> Result<(), Fail> {
    let alloc = rt.alloc();
    let words = vocabulary(alloc)?;
    let texts = Fixed {
        alloc,
        files: &FILES,
    };
    for run in &RUNS {
        let (names, wanted, wanted_error, wanted_status) = *run;
        let mut files: Vec<String> = Vec::new(alloc);
        for name in names {
            files.push(String::from_str(alloc, name)?)?;
        }
        let mut out: Vec<u8> = Vec::new(alloc);
        let is_clean = print_files(alloc, &texts, &Linter { words: &words }, &files, &mut out);
        assert_eq!(rt; status(&is_clean), wanted_status);
        assert_eq!(rt; message(alloc, &is_clean)?.as_str(), wanted_error);
        assert_eq!(rt; out.as_slice(), wanted.as_bytes());
    }
    Ok(())
}
