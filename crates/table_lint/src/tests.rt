//! Tests of the linter.
use crate::lint::report;
use std::test::Fail;

/// Texts, and the lines that are told after their trees.
static CASES: [(&str, &str); 5] = [
    ("", ""),
    ("create table t (id integer primary key);", ""),
    ("create table t (a text, primary key (a));", ""),
    ("create table t (a text);", "table t has no primary key\n"),
    (
        "create table a (); create table b (c text not null unique);",
        "table a has no primary key\ntable b has no primary key\n",
    ),
];

#[test]
fn names_tables_without_a_key(rt: HostRuntime) -> Result<(), Fail> {
    for (text, wanted) in &CASES {
        let told = report(rt.alloc(), text)?;
        assert!(rt; told.as_str().ends_with(wanted), "{text}: {told}");
        let is_told = told.as_str().contains("has no");
        assert_eq!(rt; is_told, *wanted != "", "{text}: {told}");
    }
    Ok(())
}
