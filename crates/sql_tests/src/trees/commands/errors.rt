//! Statements that are unknown, misspelt or broken, and the errors that are told.

use crate::trees::assert_trees;
use std::test::Fail;

/// Texts, and what is in their files.
static CASES: [(&str, &str); 34] = [
    // Statements that no rule begins.
    (
        "foo bar; )",
        "STATEMENT{ERROR{!expected a statement!foo bar};} STATEMENT{ERROR{!expected a statement!)}}",
    ),
    // Separators.
    (
        "select title price cost from book",
        "QUERY{SELECT{select TARGET_LIST{TARGET{NAME_REF{title} NAME{price}!expected a comma!} TARGET{NAME_REF{cost}}} FROM_CLAUSE{from FROM_TABLE{PATH{NAME_REF{book}}}}}}",
    ),
    (
        "select title, from book",
        "QUERY{SELECT{select TARGET_LIST{TARGET{NAME_REF{title}},!expected an expression!} FROM_CLAUSE{from FROM_TABLE{PATH{NAME_REF{book}}}}}}",
    ),
    (
        "values (1),",
        "QUERY{VALUES_CLAUSE{values ROW_VALUES{(LITERAL{1})},!expected a row of values!}}",
    ),
    (
        "create table book (id int name text)",
        "CREATE_TABLE{create table PATH{NAME{book}} (COLUMN_DEF{NAME{id} TYPE{int}!expected a comma!} COLUMN_DEF{NAME{name} TYPE{NAME_REF{text}}})}",
    ),
    // Operands and other parts that are missing.
    (
        "select 1 +",
        "QUERY{SELECT{select TARGET_LIST{TARGET{BIN_EXPR{LITERAL{1} +!expected an expression!}}}}}",
    ),
    (
        "select 1 where a = = b",
        "QUERY{SELECT{select TARGET_LIST{TARGET{LITERAL{1}}} WHERE_CLAUSE{where BIN_EXPR{BIN_EXPR{NAME_REF{a} =!expected an expression!} = NAME_REF{b}}}}}",
    ),
    (
        "select 1 from book where",
        "QUERY{SELECT{select TARGET_LIST{TARGET{LITERAL{1}}} FROM_CLAUSE{from FROM_TABLE{PATH{NAME_REF{book}}}} WHERE_CLAUSE{where!expected an expression!}}}",
    ),
    (
        "select * from a join b",
        "QUERY{SELECT{select TARGET_LIST{TARGET{*}} FROM_CLAUSE{from JOIN_EXPR{FROM_TABLE{PATH{NAME_REF{a}}} join FROM_TABLE{PATH{NAME_REF{b}}!expected ON or USING!}}}}}",
    ),
    (
        "create table book (id int, name)",
        "CREATE_TABLE{create table PATH{NAME{book}} (COLUMN_DEF{NAME{id} TYPE{int}}, COLUMN_DEF{NAME{name!expected a type!}})}",
    ),
    ("fetch", "FETCH{fetch!expected a cursor!}"),
    // Keywords and signs that are missing.
    (
        "select case when a then 1",
        "QUERY{SELECT{select TARGET_LIST{TARGET{CASE_EXPR{case WHEN_CLAUSE{when NAME_REF{a} then LITERAL{1}!expected END!}}}}}}",
    ),
    (
        "select * from book order title",
        "QUERY{SELECT{select TARGET_LIST{TARGET{*}} FROM_CLAUSE{from FROM_TABLE{PATH{NAME_REF{book}}}}} ORDER_BY_CLAUSE{order!expected BY! SORT_ITEM{NAME_REF{title}}}}",
    ),
    (
        "insert book values (1)",
        "INSERT{insert!expected INTO! PATH{NAME_REF{book}} QUERY{VALUES_CLAUSE{values ROW_VALUES{(LITERAL{1})}}}}",
    ),
    (
        "update book set price 5 where id = 1",
        "UPDATE{update TARGET_TABLE{RELATION{PATH{NAME_REF{book}}}} SET_CLAUSE{set SET_ITEM{SET_COLUMN{NAME_REF{price}!expected =!} LITERAL{5}}} WHERE_CLAUSE{where BIN_EXPR{NAME_REF{id} = LITERAL{1}}}}",
    ),
    (
        "delete book where id = 1",
        "DELETE{delete!expected FROM! TARGET_TABLE{RELATION{PATH{NAME_REF{book}}}} WHERE_CLAUSE{where BIN_EXPR{NAME_REF{id} = LITERAL{1}}}}",
    ),
    (
        "merge into a using b on c",
        "MERGE{merge into TARGET_TABLE{RELATION{PATH{NAME_REF{a}}}} using FROM_TABLE{PATH{NAME_REF{b}}} on NAME_REF{c!expected WHEN!}}",
    ),
    (
        "create view v select 1",
        "CREATE_VIEW{create view PATH{NAME{v}!expected AS!} QUERY{SELECT{select TARGET_LIST{TARGET{LITERAL{1}}}}}}",
    ),
    (
        "create trigger g before insert on book for each row execute f()",
        "CREATE_TRIGGER{create trigger NAME{g} before TRIGGER_EVENT{insert} on PATH{NAME_REF{book}} for each row execute!expected FUNCTION or PROCEDURE! PATH{NAME_REF{f}}ARG_LIST{()}}",
    ),
    (
        "refresh view v",
        "REFRESH{refresh!expected MATERIALIZED! view PATH{NAME_REF{v}}}",
    ),
    (
        "begin isolation serializable",
        "BEGIN{begin TRANSACTION_MODE{isolation!expected LEVEL! serializable}}",
    ),
    (
        "declare c cursor select 1",
        "DECLARE{declare NAME{c} cursor!expected FOR! QUERY{SELECT{select TARGET_LIST{TARGET{LITERAL{1}}}}}}",
    ),
    // Tokens that are skipped.
    (
        "values 1",
        "QUERY{VALUES_CLAUSE{values ERROR{!expected a row of values!1}}}",
    ),
    (
        "update book price = 1",
        "UPDATE{update TARGET_TABLE{RELATION{PATH{NAME_REF{book}}} NAME{price}} ERROR{!expected SET!= 1}}",
    ),
    (
        "alter table book add colum x int",
        "ALTER_TABLE{alter table RELATION{PATH{NAME_REF{book}}} ADD_COLUMN{add COLUMN_DEF{NAME{colum} TYPE{NAME_REF{x}}}} ERROR{!unexpected token!int}}",
    ),
    (
        "alter table book frobnicate",
        "ALTER_TABLE{alter table RELATION{PATH{NAME_REF{book}}} ERROR{!expected an action, RENAME, ATTACH or DETACH!frobnicate}}",
    ),
    (
        "alter table book alter column price typ int",
        "ALTER_TABLE{alter table RELATION{PATH{NAME_REF{book}}} ALTER_COLUMN{alter column NAME_REF{price} ERROR{!expected a column action!typ int}}}",
    ),
    (
        "create index on book title",
        "CREATE_INDEX{create index on RELATION{PATH{NAME_REF{book}}} ERROR{!expected USING or (!title}}",
    ),
    (
        "create tabl book (id int)",
        "STATEMENT{create ERROR{!expected an object!tabl book (id int)}}",
    ),
    (
        "alter tabl book rename to work",
        "STATEMENT{alter ERROR{!expected an object!tabl book rename to work}}",
    ),
    (
        "drop tabel book",
        "DROP{drop ERROR{!expected OWNED or an object!tabel book}}",
    ),
    (
        "create role clerk supper",
        "CREATE_ROLE{create role NAME{clerk} ROLE_OPTION{!expected a role option!}ERROR{supper}}",
    ),
    (
        "copy book form stdin",
        "COPY{copy PATH{NAME_REF{book}} ERROR{!expected column names, FROM or TO!form stdin}}",
    ),
    (
        "select 1)",
        "QUERY{SELECT{select TARGET_LIST{TARGET{LITERAL{1}}}}ERROR{!unexpected token!)}}",
    ),
];

#[test]
fn errors_are_told(rt: HostRuntime) -> Result<(), Fail> {
    assert_trees(&rt, &CASES)
}
