//! Statements that define, and the others.

use crate::trees::assert_trees;
use std::test::Fail;

/// Texts, and what is in their files.
static CASES: [(&str, &str); 17] = [
    (
        "create table s.t (a int not null default 1 + 2 unique, b numeric(1, 2), primary key (a, b));",
        "CREATE_TABLE{create table PATH{NAME_REF{s}.NAME{t}} (COLUMN_DEF{NAME{a} TYPE{int} NOT_NULL_CONSTRAINT{not null} DEFAULT_CONSTRAINT{default BIN_EXPR{LITERAL{1} + LITERAL{2}}} UNIQUE_CONSTRAINT{unique}}, COLUMN_DEF{NAME{b} TYPE{numericTYPE_ARGS{(LITERAL{1}, LITERAL{2})}}}, PRIMARY_KEY_CONSTRAINT{primary key COLUMN_LIST{(NAME_REF{a}, NAME_REF{b})}});}",
    ),
    (
        "create table t (a int generated always as identity, b text references u (c) on delete cascade, constraint k check (a > 0))",
        "CREATE_TABLE{create table PATH{NAME{t}} (COLUMN_DEF{NAME{a} TYPE{int} IDENTITY_CONSTRAINT{generated always as identity}}, COLUMN_DEF{NAME{b} TYPE{NAME_REF{text}} REFERENCES_CONSTRAINT{references PATH{NAME_REF{u}} COLUMN_LIST{(NAME_REF{c})} ON_DELETE{on delete cascade}}}, CHECK_CONSTRAINT{CONSTRAINT_NAME{constraint NAME{k}} check (BIN_EXPR{NAME_REF{a} > LITERAL{0}})})}",
    ),
    (
        "create temp table t as select 1 with no data",
        "CREATE_TABLE_AS{create temp table PATH{NAME{t}} as QUERY{SELECT{select TARGET_LIST{TARGET{LITERAL{1}}}}} WITH_DATA{with no data}}",
    ),
    (
        "alter table if exists t add column a int, drop b cascade, alter c set not null",
        "ALTER_TABLE{alter table if exists RELATION{PATH{NAME_REF{t}}} ADD_COLUMN{add column COLUMN_DEF{NAME{a} TYPE{int}}}, DROP_COLUMN{drop NAME_REF{b} cascade}, ALTER_COLUMN{alter NAME_REF{c} SET_NOT_NULL{set not null}}}",
    ),
    (
        "alter table t add foreign key (a) references u not valid",
        "ALTER_TABLE{alter table RELATION{PATH{NAME_REF{t}}} ADD_CONSTRAINT{add FOREIGN_KEY_CONSTRAINT{foreign key COLUMN_LIST{(NAME_REF{a})} references PATH{NAME_REF{u}} NOT_VALID{not valid}}}}",
    ),
    (
        "create unique index concurrently i on t using btree (lower(a) text_ops desc, b) where c",
        "CREATE_INDEX{create unique index concurrently NAME{i} on RELATION{PATH{NAME_REF{t}}} ACCESS_METHOD{using NAME_REF{btree}} (INDEX_ITEM{CALL_EXPR{NAME_REF{lower}ARG_LIST{(NAME_REF{a})}} OPERATOR_CLASS{NAME_REF{text_ops}} desc}, INDEX_ITEM{NAME_REF{b}}) WHERE_CLAUSE{where NAME_REF{c}}}",
    ),
    (
        "create or replace view v (a) as select 1 with check option",
        "CREATE_VIEW{create or replace view PATH{NAME{v}} COLUMN_LIST{(NAME{a})} as QUERY{SELECT{select TARGET_LIST{TARGET{LITERAL{1}}}}} with check option}",
    ),
    (
        "create sequence s start 1 no cycle",
        "CREATE_SEQUENCE{create sequence PATH{NAME{s}} SEQUENCE_OPTION{start LITERAL{1}} SEQUENCE_OPTION{no cycle}}",
    ),
    (
        "create function f(a int default 1, out b text) returns setof int language sql as 'x'",
        "CREATE_FUNCTION{create function PATH{NAME{f}}PARAM_LIST{(PARAM{NAME{a} TYPE{int} default LITERAL{1}}, PARAM{out NAME{b} TYPE{NAME_REF{text}}})} RETURNS_CLAUSE{returns TYPE{setof int}} FUNCTION_OPTION{language NAME_REF{sql}} FUNCTION_OPTION{as LITERAL{'x'}}}",
    ),
    (
        "create trigger g before insert or update of a on t for each row execute function f()",
        "CREATE_TRIGGER{create trigger NAME{g} before TRIGGER_EVENT{insert} or TRIGGER_EVENT{update of NAME_REF{a}} on PATH{NAME_REF{t}} for each row execute function PATH{NAME_REF{f}}ARG_LIST{()}}",
    ),
    (
        "create type e as enum ('a', 'b'); create domain d as int check (value > 0)",
        "CREATE_TYPE{create type PATH{NAME{e}} as enum (LITERAL{'a'}, LITERAL{'b'});} CREATE_DOMAIN{create domain PATH{NAME{d}} as TYPE{int} CHECK_CONSTRAINT{check (BIN_EXPR{NAME_REF{value} > LITERAL{0}})}}",
    ),
    (
        "grant select (a), update on table t to public, r with grant option",
        "GRANT{grant PRIVILEGE_LIST{PRIVILEGE{select COLUMN_LIST{(NAME_REF{a})}}, PRIVILEGE{update}} on GRANT_TARGET{table PATH{NAME_REF{t}}} to ROLE_REF{public}, ROLE_REF{r} with grant option}",
    ),
    (
        "drop table if exists a, s.b cascade; drop function f(int)",
        "DROP{drop table if exists PATH{NAME_REF{a}}, PATH{NAME_REF{s}.NAME_REF{b}} cascade;} DROP{drop function FUNCTION_SIGNATURE{PATH{NAME_REF{f}}PARAM_LIST{(PARAM{TYPE{int}})}}}",
    ),
    (
        "comment on column t.a is null",
        "COMMENT_ON{comment on OBJECT{column PATH{NAME_REF{t}.NAME_REF{a}}} is null}",
    ),
    (
        "copy t (a) from stdin with (format csv, header)",
        "COPY{copy PATH{NAME_REF{t}} COLUMN_LIST{(NAME_REF{a})} from stdin with OPTION_LIST{(OPTION{NAME_REF{format} csv}, OPTION{NAME_REF{header}})}}",
    ),
    (
        "explain (analyze, format json) delete from t",
        "EXPLAIN{explain OPTION_LIST{(OPTION{NAME_REF{analyze}}, OPTION{NAME_REF{format} json})} DELETE{delete from TARGET_TABLE{RELATION{PATH{NAME_REF{t}}}}}}",
    ),
    (
        "begin read only; set local a.b to 1, off; end",
        "BEGIN{begin TRANSACTION_MODE{read only};} SET{set local PATH{NAME_REF{a}.NAME_REF{b}} to LITERAL{1}, NAME_REF{off};} COMMIT{end}",
    ),
];

#[test]
fn statements_have_trees(rt: HostRuntime) -> Result<(), Fail> {
    assert_trees(&rt, &CASES)
}
