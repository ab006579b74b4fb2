//! The rules of ALTER TABLE on what is added.

use super::{assert_clean, assert_found};
use std::test::Fail;

/// Texts that break adding-field-with-default.
static DEFAULTS: [(&str, &str); 3] = [
    (
        "alter table t add a uuid default gen_random_uuid()",
        "adding-field-with-default at default\n",
    ),
    (
        "alter table t add column a bigint default 1 + length('b')",
        "adding-field-with-default at default\n",
    ),
    (
        "alter table t add a bigint generated always as (b * 2) stored",
        "adding-field-with-default at generated\n",
    ),
];

/// Texts that don't.
static DEFAULTS_KEPT: [&str; 6] = [
    "alter table t add a timestamptz default NOW()",
    "alter table t add a timestamptz default current_timestamp",
    "alter table t add a text default 'f()'",
    "alter table t alter a set default f()",
    "alter foreign table t add a uuid default f()",
    "create table t (a uuid default f())",
];

#[test]
fn defaults(rt: HostRuntime) -> Result<(), Fail> {
    assert_found(&rt, &DEFAULTS)?;
    assert_clean(&rt, &DEFAULTS_KEPT)
}

/// Texts that break adding-not-nullable-field.
static NULLABLE_FIELDS: [(&str, &str); 2] = [
    (
        "alter table t add a text not null",
        "adding-not-nullable-field at a\n",
    ),
    (
        "alter table t alter a set not null",
        "adding-not-nullable-field at set\n",
    ),
];

/// Texts that don't.
static NULLABLE_FIELDS_KEPT: [&str; 4] = [
    "alter table t add a text not null default ''",
    "alter table t add a bigint not null generated always as identity",
    "alter table t add a text null",
    "create table t (a text not null)",
];

#[test]
fn nullable_fields(rt: HostRuntime) -> Result<(), Fail> {
    assert_found(&rt, &NULLABLE_FIELDS)?;
    assert_clean(&rt, &NULLABLE_FIELDS_KEPT)
}

/// Texts that break constraint-missing-not-valid.
static CONSTRAINTS: [(&str, &str); 3] = [
    (
        "alter table t add check (a > 0)",
        "constraint-missing-not-valid at add\n",
    ),
    (
        "alter table t add constraint c foreign key (a) references u",
        "constraint-missing-not-valid at add\nadding-foreign-key-constraint at constraint\n",
    ),
    (
        "alter table t add check (a > 0) not valid, add constraint c check (b > 0)",
        "constraint-missing-not-valid at add\n",
    ),
];

/// Texts that don't.
static CONSTRAINTS_KEPT: [&str; 5] = [
    "alter table t add check (a > 0) not valid",
    "alter table t add constraint c foreign key (a) references u (b) not valid",
    "alter table t add a bigint check (a > 0)",
    "alter table t add exclude (a with =)",
    "create table t (a bigint, check (a > 0))",
];

#[test]
fn constraints(rt: HostRuntime) -> Result<(), Fail> {
    assert_found(&rt, &CONSTRAINTS)?;
    assert_clean(&rt, &CONSTRAINTS_KEPT)
}

/// Texts that break adding-foreign-key-constraint.
static FOREIGN_KEYS: [(&str, &str); 2] = [
    (
        "alter table t add a bigint references u",
        "adding-foreign-key-constraint at references\n",
    ),
    (
        "alter table t add foreign key (a) references u (b) deferrable",
        "constraint-missing-not-valid at add\nadding-foreign-key-constraint at foreign\n",
    ),
];

/// Texts that don't.
static FOREIGN_KEYS_KEPT: [&str; 3] = [
    "alter table t add foreign key (a) references u deferrable not valid",
    "create table t (a bigint references u)",
    "create table t (foreign key (a) references u)",
];

#[test]
fn foreign_keys(rt: HostRuntime) -> Result<(), Fail> {
    assert_found(&rt, &FOREIGN_KEYS)?;
    assert_clean(&rt, &FOREIGN_KEYS_KEPT)
}

/// Texts that break disallowed-unique-constraint.
static UNIQUE_CONSTRAINTS: [(&str, &str); 3] = [
    (
        "alter table t add unique (a)",
        "disallowed-unique-constraint at unique\n",
    ),
    (
        "alter table t add a text unique",
        "disallowed-unique-constraint at unique\n",
    ),
    (
        "alter table t add constraint c unique (a) using index tablespace b",
        "disallowed-unique-constraint at constraint\n",
    ),
];

/// Texts that don't.
static UNIQUE_CONSTRAINTS_KEPT: [&str; 3] = [
    "alter table t add constraint c unique using index i",
    "create table t (a text unique)",
    "create table t (a text, unique (a))",
];

#[test]
fn unique_constraints(rt: HostRuntime) -> Result<(), Fail> {
    assert_found(&rt, &UNIQUE_CONSTRAINTS)?;
    assert_clean(&rt, &UNIQUE_CONSTRAINTS_KEPT)
}

/// Texts that break adding-serial-primary-key-field.
static PRIMARY_KEYS: [(&str, &str); 3] = [
    (
        "alter table t add primary key (a)",
        "adding-serial-primary-key-field at primary\n",
    ),
    (
        "alter table t add a bigserial primary key",
        "adding-serial-primary-key-field at primary\n",
    ),
    (
        "alter table t add a bigint primary key using index tablespace b",
        "adding-serial-primary-key-field at primary\n",
    ),
];

/// Texts that don't.
static PRIMARY_KEYS_KEPT: [&str; 3] = [
    "alter table t add constraint c primary key using index i",
    "create table t (a bigserial primary key)",
    "create table t (a bigint, primary key (a))",
];

#[test]
fn primary_keys(rt: HostRuntime) -> Result<(), Fail> {
    assert_found(&rt, &PRIMARY_KEYS)?;
    assert_clean(&rt, &PRIMARY_KEYS_KEPT)
}
