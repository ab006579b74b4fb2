//! Files: statements by rules, among commands of psql and statements that no rule begins.

use crate::trees::assert_trees;
use std::test::Fail;

/// Texts, and what is in their files.
static CASES: [(&str, &str); 10] = [
    ("", ""),
    (";;", "STATEMENT{;}STATEMENT{;}"),
    (
        "vacuum t; checkpoint",
        "VACUUM{vacuum RELATION{PATH{NAME_REF{t}}};} CHECKPOINT{checkpoint}",
    ),
    // One that no rule begins.
    (
        "selec 1; checkpoint",
        "STATEMENT{ERROR{!expected a statement!selec 1};} CHECKPOINT{checkpoint}",
    ),
    (
        "checkpoint a;checkpoint",
        "CHECKPOINT{checkpoint ERROR{!unexpected token!a};}CHECKPOINT{checkpoint}",
    ),
    // Commands of psql.
    (
        "\\d t;\ncheckpoint",
        "PSQL_COMMAND{\\d t;}\nCHECKPOINT{checkpoint}",
    ),
    (
        "checkpoint \\g b\n\\x",
        "CHECKPOINT{checkpoint \\g b}\nPSQL_COMMAND{\\x}",
    ),
    ("\\g\n;", "PSQL_COMMAND{\\g}\nSTATEMENT{;}"),
    // Variables of psql, which aren't those of slices.
    (
        "select :a, :'b', c[:d]",
        "QUERY{SELECT{select TARGET_LIST{TARGET{PARAM_REF{:a}}, TARGET{PARAM_REF{:'b'}}, TARGET{SLICE_EXPR{NAME_REF{c}[:NAME_REF{d}]}}}}}",
    ),
    // What may come where it is missing.
    (
        "select (1; checkpoint",
        "QUERY{SELECT{select TARGET_LIST{TARGET{ERROR{(LITERAL{1!expected ) or a comma!}}}}};} CHECKPOINT{checkpoint}",
    ),
];

#[test]
fn files_have_statements(rt: HostRuntime) -> Result<(), Fail> {
    assert_trees(&rt, &CASES)
}
