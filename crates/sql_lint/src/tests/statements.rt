//! The rules on statements.

use super::{assert_clean, assert_found};
use std::test::Fail;

/// Texts that break prefer-robust-stmts.
static DROPS: [(&str, &str); 2] = [
    ("drop table a", "prefer-robust-stmts at drop\n"),
    (
        "select 1; drop view exists",
        "prefer-robust-stmts at drop\n",
    ),
];

/// Texts that don't.
static DROPS_KEPT: [&str; 4] = [
    "drop table if exists a",
    "drop table if -- b\n/* c */ exists a",
    "select 'drop table a'",
    "alter table t alter a drop default",
];

#[test]
fn drops(rt: HostRuntime) -> Result<(), Fail> {
    assert_found(&rt, &DROPS)?;
    assert_clean(&rt, &DROPS_KEPT)
}

/// Texts that break require-concurrent-index-creation.
static INDEXES: [(&str, &str); 2] = [
    (
        "create index a on t (b)",
        "require-concurrent-index-creation at create\n",
    ),
    (
        "begin; CREATE UNIQUE INDEX ON t (b); commit",
        "require-concurrent-index-creation at CREATE\n",
    ),
];

/// Texts that don't.
static INDEXES_KEPT: [&str; 4] = [
    "create index concurrently a on t (b)",
    "create unique index concurrently on t (b)",
    "create schema s create table t (a text) create index i on t (a)",
    "create table t (a text primary key)",
];

#[test]
fn indexes(rt: HostRuntime) -> Result<(), Fail> {
    assert_found(&rt, &INDEXES)?;
    assert_clean(&rt, &INDEXES_KEPT)
}
