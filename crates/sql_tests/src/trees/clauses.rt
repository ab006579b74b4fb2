//! Words that are names in some places and begin clauses in others.

use crate::trees::assert_trees;
use std::test::Fail;

/// Texts, and what is in their files.
static CASES: [(&str, &str); 12] = [
    (
        "create table p partition of t for values from (1) to (2)",
        "CREATE_TABLE{create table PATH{NAME{p}} partition of PATH{NAME_REF{t}} PARTITION_BOUND{for values from (LITERAL{1}) to (LITERAL{2})}}",
    ),
    (
        "create policy p on t for select using (a)",
        "CREATE_POLICY{create policy NAME{p} on PATH{NAME_REF{t}} for select POLICY_USING{using (NAME_REF{a})}}",
    ),
    (
        "revoke grant option for select on t from u",
        "REVOKE{revoke grant option for PRIVILEGE_LIST{PRIVILEGE{select}} on GRANT_TARGET{PATH{NAME_REF{t}}} from ROLE_REF{u}}",
    ),
    (
        "select t.from, 1 as where from t",
        "QUERY{SELECT{select TARGET_LIST{TARGET{FIELD_EXPR{NAME_REF{t}.NAME_REF{from}}}, TARGET{LITERAL{1} as NAME{where}}} FROM_CLAUSE{from FROM_TABLE{PATH{NAME_REF{t}}}}}}",
    ),
    (
        "explain with x as (select 1) select 2",
        "EXPLAIN{explain QUERY{WITH_CLAUSE{with WITH_TABLE{NAME{x} as (QUERY{SELECT{select TARGET_LIST{TARGET{LITERAL{1}}}}})}} SELECT{select TARGET_LIST{TARGET{LITERAL{2}}}}}}",
    ),
    (
        "select a from b join c using (x) join d on true, e",
        "QUERY{SELECT{select TARGET_LIST{TARGET{NAME_REF{a}}} FROM_CLAUSE{from JOIN_EXPR{JOIN_EXPR{FROM_TABLE{PATH{NAME_REF{b}}} join FROM_TABLE{PATH{NAME_REF{c}}} JOIN_USING{using COLUMN_LIST{(NAME_REF{x})}}} join FROM_TABLE{PATH{NAME_REF{d}}} JOIN_ON{on LITERAL{true}}}, FROM_TABLE{PATH{NAME_REF{e}}}}}}",
    ),
    (
        "select * from rows from (f(1))",
        "QUERY{SELECT{select TARGET_LIST{TARGET{*}} FROM_CLAUSE{from TABLE_FUNCTION{rows from (TABLE_FUNCTION{CALL_EXPR{PATH{NAME_REF{f}}ARG_LIST{(LITERAL{1})}}})}}}}",
    ),
    (
        "select a order by x using <",
        "QUERY{SELECT{select TARGET_LIST{TARGET{NAME_REF{a}}}} ORDER_BY_CLAUSE{order by SORT_ITEM{NAME_REF{x} using <}}}",
    ),
    (
        "select collation for ('x')",
        "QUERY{SELECT{select TARGET_LIST{TARGET{CALL_EXPR{collation for (LITERAL{'x'})}}}}}",
    ),
    (
        "create rule r as on insert to t do instead insert into u values (1)",
        "CREATE_RULE{create rule NAME{r} as on insert to PATH{NAME_REF{t}} do instead INSERT{insert into PATH{NAME_REF{u}} QUERY{VALUES_CLAUSE{values ROW_VALUES{(LITERAL{1})}}}}}",
    ),
    (
        "with x as (select 1) insert into t select 2",
        "INSERT{WITH_CLAUSE{with WITH_TABLE{NAME{x} as (QUERY{SELECT{select TARGET_LIST{TARGET{LITERAL{1}}}}})}} insert into PATH{NAME_REF{t}} QUERY{SELECT{select TARGET_LIST{TARGET{LITERAL{2}}}}}}",
    ),
    // A column that is called `name` doesn't look like a keyword.
    (
        "create table t (name text)",
        "CREATE_TABLE{create table PATH{NAME{t}} (COLUMN_DEF{NAME{name} TYPE{NAME_REF{text}}})}",
    ),
];

#[test]
fn names_are_no_clauses(rt: HostRuntime) -> Result<(), Fail> {
    assert_trees(&rt, &CASES)
}
