//! The rules on the types of columns.

use super::{assert_clean, assert_found};
use std::test::Fail;

/// Texts that break prefer-text-field.
static LENGTHS: [(&str, &str); 3] = [
    (
        "create table t (a varchar(3), b character varying (3))",
        "prefer-text-field at a\nprefer-text-field at b\n",
    ),
    ("alter table t add a char(3)", "prefer-text-field at a\n"),
    (
        "alter table t alter a type nchar(3)",
        "changing-column-type at type\nprefer-text-field at type\n",
    ),
];

/// Texts that don't.
static LENGTHS_KEPT: [&str; 5] = [
    "create table t (a varchar, b char, c text)",
    "create table t (a numeric(3), b bit(3), c time(3))",
    "create table t (a text default 'b'::varchar(3))",
    "create type t as (a varchar(3))",
    "select a from f() as t(a varchar(3))",
];

#[test]
fn lengths(rt: HostRuntime) -> Result<(), Fail> {
    assert_found(&rt, &LENGTHS)?;
    assert_clean(&rt, &LENGTHS_KEPT)
}

/// Texts that break prefer-bigint-over-int.
static SMALL_INTEGERS: [(&str, &str); 4] = [
    (
        "create table t (a int, b bigint, c integer)",
        "prefer-bigint-over-int at a\nprefer-bigint-over-int at c\n",
    ),
    (
        "create table t (a INT4, b Serial, c serial4)",
        "prefer-bigint-over-int at a\nprefer-bigint-over-int at b\nprefer-bigint-over-int at c\n",
    ),
    (
        "alter table t add column a int[]",
        "prefer-bigint-over-int at a\n",
    ),
    (
        "alter table t alter a type int",
        "changing-column-type at type\nprefer-bigint-over-int at type\n",
    ),
];

/// Texts that don't.
static SMALL_INTEGERS_KEPT: [&str; 3] = [
    "create table t (a int8, b bigserial, c smallint, d serial8)",
    "create table t (a interval, b text default 1::int, c pg_catalog.int8)",
    "create function f(a int) returns int language sql return 1",
];

#[test]
fn small_integers(rt: HostRuntime) -> Result<(), Fail> {
    assert_found(&rt, &SMALL_INTEGERS)?;
    assert_clean(&rt, &SMALL_INTEGERS_KEPT)
}

/// Texts that break prefer-timestamptz.
static TIMES_WITHOUT_ZONES: [(&str, &str); 2] = [
    (
        "create table t (a timestamp, b timestamp(3) without time zone)",
        "prefer-timestamptz at a\nprefer-timestamptz at b\n",
    ),
    ("alter table t add a TIMESTAMP", "prefer-timestamptz at a\n"),
];

/// Texts that don't.
static TIMES_WITHOUT_ZONES_KEPT: [&str; 2] = [
    "create table t (a timestamptz, b timestamp with time zone, c timestamp(3) with time zone)",
    "create table t (a time, b date, c text default '2000-01-01'::timestamp)",
];

#[test]
fn times_without_zones(rt: HostRuntime) -> Result<(), Fail> {
    assert_found(&rt, &TIMES_WITHOUT_ZONES)?;
    assert_clean(&rt, &TIMES_WITHOUT_ZONES_KEPT)
}
