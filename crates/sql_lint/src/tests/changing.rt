//! The rules of ALTER TABLE on what changes.

use super::{assert_clean, assert_found};
use std::test::Fail;

/// Texts that break changing-column-type.
static TYPES_CHANGE: [(&str, &str); 2] = [
    (
        "alter table t alter a type text",
        "changing-column-type at type\n",
    ),
    (
        "alter table t alter column a set data type bigint using a::bigint",
        "changing-column-type at set\n",
    ),
];

/// Texts that don't.
static TYPES_CHANGE_KEPT: [&str; 3] = [
    "alter table t alter a set default 1",
    "alter foreign table t alter a type text",
    "alter type t alter attribute a type text",
];

#[test]
fn types_change(rt: HostRuntime) -> Result<(), Fail> {
    assert_found(&rt, &TYPES_CHANGE)?;
    assert_clean(&rt, &TYPES_CHANGE_KEPT)
}

/// Texts that break ban-drop-column.
static COLUMNS_ARE_DROPPED: [(&str, &str); 2] = [
    ("alter table t drop a", "ban-drop-column at drop\n"),
    (
        "alter table t drop column if exists a cascade, drop b",
        "ban-drop-column at drop\nban-drop-column at drop\n",
    ),
];

/// Texts that don't.
static COLUMNS_ARE_DROPPED_KEPT: [&str; 3] = [
    "alter table t drop constraint a",
    "alter table t alter a drop default",
    "alter foreign table t drop a",
];

#[test]
fn columns_are_dropped(rt: HostRuntime) -> Result<(), Fail> {
    assert_found(&rt, &COLUMNS_ARE_DROPPED)?;
    assert_clean(&rt, &COLUMNS_ARE_DROPPED_KEPT)
}

/// Texts that break ban-drop-not-null.
static COLUMNS_GET_NULL: [(&str, &str); 2] = [
    (
        "alter table t alter a drop not null",
        "ban-drop-not-null at drop\n",
    ),
    (
        "alter table only t add b text, alter column a drop not null",
        "ban-drop-not-null at drop\n",
    ),
];

/// Texts that don't.
static COLUMNS_GET_NULL_KEPT: [&str; 2] = [
    "alter table t alter a drop identity",
    "alter domain d drop not null",
];

#[test]
fn columns_get_null(rt: HostRuntime) -> Result<(), Fail> {
    assert_found(&rt, &COLUMNS_GET_NULL)?;
    assert_clean(&rt, &COLUMNS_GET_NULL_KEPT)
}

/// Texts that break renaming-column.
static COLUMNS_ARE_RENAMED: [(&str, &str); 2] = [
    ("alter table t rename a to b", "renaming-column at rename\n"),
    (
        "alter table t rename column a to b",
        "renaming-column at rename\n",
    ),
];

/// Texts that don't.
static COLUMNS_ARE_RENAMED_KEPT: [&str; 2] = [
    "alter table t rename constraint a to b",
    "alter view v rename a to b",
];

#[test]
fn columns_are_renamed(rt: HostRuntime) -> Result<(), Fail> {
    assert_found(&rt, &COLUMNS_ARE_RENAMED)?;
    assert_clean(&rt, &COLUMNS_ARE_RENAMED_KEPT)
}

/// Texts that break renaming-table.
static TABLES_ARE_RENAMED: [(&str, &str); 2] = [
    ("alter table t rename to u", "renaming-table at rename\n"),
    (
        "alter table if exists only t rename to u",
        "renaming-table at rename\n",
    ),
];

/// Texts that don't.
static TABLES_ARE_RENAMED_KEPT: [&str; 3] = [
    "alter view v rename to w",
    "alter index i rename to j",
    "alter table t set schema s",
];

#[test]
fn tables_are_renamed(rt: HostRuntime) -> Result<(), Fail> {
    assert_found(&rt, &TABLES_ARE_RENAMED)?;
    assert_clean(&rt, &TABLES_ARE_RENAMED_KEPT)
}
