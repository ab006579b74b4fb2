//! Queries, and statements that change rows.

use crate::trees::assert_trees;
use std::test::Fail;

/// Texts, and what is in their files.
static CASES: [(&str, &str); 25] = [
    (
        "select 1;",
        "QUERY{SELECT{select TARGET_LIST{TARGET{LITERAL{1}}}};}",
    ),
    (
        "select a.b as c from s.t x where a = 1 and not b",
        "QUERY{SELECT{select TARGET_LIST{TARGET{FIELD_EXPR{NAME_REF{a}.NAME_REF{b}} as NAME{c}}} FROM_CLAUSE{from FROM_TABLE{PATH{NAME_REF{s}.NAME_REF{t}} ALIAS{NAME{x}}}} WHERE_CLAUSE{where BIN_EXPR{BIN_EXPR{NAME_REF{a} = LITERAL{1}} and PREFIX_EXPR{not NAME_REF{b}}}}}}",
    ),
    (
        "select a + b * c - d",
        "QUERY{SELECT{select TARGET_LIST{TARGET{BIN_EXPR{BIN_EXPR{NAME_REF{a} + BIN_EXPR{NAME_REF{b} * NAME_REF{c}}} - NAME_REF{d}}}}}}",
    ),
    (
        "select a || b <= c, !! d",
        "QUERY{SELECT{select TARGET_LIST{TARGET{BIN_EXPR{BIN_EXPR{NAME_REF{a} CUSTOM_OP{||} NAME_REF{b}} <= NAME_REF{c}}}, TARGET{PREFIX_EXPR{CUSTOM_OP{!!} NAME_REF{d}}}}}}",
    ),
    (
        "select count(*) filter (where x) over w n",
        "QUERY{SELECT{select TARGET_LIST{TARGET{CALL_EXPR{NAME_REF{count}ARG_LIST{(*)} FILTER_CLAUSE{filter (WHERE_CLAUSE{where NAME_REF{x}})} OVER_CLAUSE{over NAME_REF{w}}} NAME{n}}}}}",
    ),
    (
        "select x::int[], 'a' collate \"C\"",
        "QUERY{SELECT{select TARGET_LIST{TARGET{CAST_EXPR{NAME_REF{x}COLON_COLON{::}TYPE{int[]}}}, TARGET{COLLATE_EXPR{LITERAL{'a'} collate PATH{NAME_REF{\"C\"}}}}}}}",
    ),
    (
        "select date 'd', double precision '1', interval '1' day",
        "QUERY{SELECT{select TARGET_LIST{TARGET{CAST_EXPR{NAME_REF{date} LITERAL{'d'}}}, TARGET{CAST_EXPR{TYPE{double precision} LITERAL{'1'}}}, TARGET{CAST_EXPR{interval LITERAL{'1'} day}}}}}",
    ),
    (
        "select case when a then 1 else 2 end",
        "QUERY{SELECT{select TARGET_LIST{TARGET{CASE_EXPR{case WHEN_CLAUSE{when NAME_REF{a} then LITERAL{1}} ELSE_CLAUSE{else LITERAL{2}} end}}}}}",
    ),
    (
        "select a between 1 and 2, b in (3, 4), c not like 'x', d is not null",
        "QUERY{SELECT{select TARGET_LIST{TARGET{BETWEEN_EXPR{NAME_REF{a} between LITERAL{1} and LITERAL{2}}}, TARGET{IN_EXPR{NAME_REF{b} in ROW_VALUES{(LITERAL{3}, LITERAL{4})}}}, TARGET{LIKE_EXPR{NAME_REF{c} not like LITERAL{'x'}}}, TARGET{IS_EXPR{NAME_REF{d} is not null}}}}}",
    ),
    (
        "select exists (select 1), ((select 2)), row(1), (a, b), t.*",
        "QUERY{SELECT{select TARGET_LIST{TARGET{EXISTS_EXPR{exists (QUERY{SELECT{select TARGET_LIST{TARGET{LITERAL{1}}}}})}}, TARGET{SUBQUERY{(QUERY{PAREN_QUERY{(QUERY{SELECT{select TARGET_LIST{TARGET{LITERAL{2}}}}})}})}}, TARGET{ROW_EXPR{row(LITERAL{1})}}, TARGET{ROW_EXPR{(NAME_REF{a}, NAME_REF{b})}}, TARGET{FIELD_EXPR{NAME_REF{t}.*}}}}}",
    ),
    (
        "select ((a) + 1)[2], f(b => 3, variadic c)",
        "QUERY{SELECT{select TARGET_LIST{TARGET{INDEX_EXPR{PAREN_EXPR{(BIN_EXPR{PAREN_EXPR{(NAME_REF{a})} + LITERAL{1}})}[LITERAL{2}]}}, TARGET{CALL_EXPR{NAME_REF{f}ARG_LIST{(NAMED_ARG{NAME_REF{b} => LITERAL{3}}, variadic NAME_REF{c})}}}}}}",
    ),
    (
        "select 1 union all select 2 intersect select 3 order by 1 desc limit 5",
        "QUERY{COMPOUND_SELECT{SELECT{select TARGET_LIST{TARGET{LITERAL{1}}}} union all COMPOUND_SELECT{SELECT{select TARGET_LIST{TARGET{LITERAL{2}}}} intersect SELECT{select TARGET_LIST{TARGET{LITERAL{3}}}}}} ORDER_BY_CLAUSE{order by SORT_ITEM{LITERAL{1} desc}} LIMIT_CLAUSE{limit LITERAL{5}}}",
    ),
    (
        "with q (n) as (values (1), (2)) table q",
        "QUERY{WITH_CLAUSE{with WITH_TABLE{NAME{q} COLUMN_LIST{(NAME{n})} as (QUERY{VALUES_CLAUSE{values ROW_VALUES{(LITERAL{1})}, ROW_VALUES{(LITERAL{2})}}})}} TABLE_QUERY{table RELATION{PATH{NAME_REF{q}}}}}",
    ),
    (
        "select from a join b using (c) left join (select 1) d on true",
        "QUERY{SELECT{select FROM_CLAUSE{from JOIN_EXPR{JOIN_EXPR{FROM_TABLE{PATH{NAME_REF{a}}} join FROM_TABLE{PATH{NAME_REF{b}}} JOIN_USING{using COLUMN_LIST{(NAME_REF{c})}}} left join FROM_SUBQUERY{(QUERY{SELECT{select TARGET_LIST{TARGET{LITERAL{1}}}}}) ALIAS{NAME{d}}} JOIN_ON{on LITERAL{true}}}}}}",
    ),
    (
        "select from f(1) as g, lateral h() i",
        "QUERY{SELECT{select FROM_CLAUSE{from TABLE_FUNCTION{PATH{NAME_REF{f}}ARG_LIST{(LITERAL{1})} ALIAS{as NAME{g}}}, LATERAL_FUNCTION{lateral TABLE_FUNCTION{PATH{NAME_REF{h}}ARG_LIST{()} ALIAS{NAME{i}}}}}}}",
    ),
    (
        "select group by a, rollup (b), ()",
        "QUERY{SELECT{select GROUP_BY_CLAUSE{group by NAME_REF{a}, GROUP_CALL{rollup (NAME_REF{b})}, EMPTY_GROUP{()}}}}",
    ),
    (
        "insert into t (a, b) values (1, default) on conflict (a) do update set b = 2 returning *",
        "INSERT{insert into PATH{NAME_REF{t}} COLUMN_LIST{(SET_COLUMN{NAME_REF{a}}, SET_COLUMN{NAME_REF{b}})} QUERY{VALUES_CLAUSE{values ROW_VALUES{(LITERAL{1}, DEFAULT_EXPR{default})}}} ON_CONFLICT_CLAUSE{on conflict CONFLICT_TARGET{(INDEX_ITEM{NAME_REF{a}})} do update SET_CLAUSE{set SET_ITEM{SET_COLUMN{NAME_REF{b}} = LITERAL{2}}}} RETURNING_CLAUSE{returning TARGET_LIST{TARGET{*}}}}",
    ),
    (
        "update only t set (a, b) = (1, 2) from u where current of c",
        "UPDATE{update TARGET_TABLE{RELATION{only PATH{NAME_REF{t}}}} SET_CLAUSE{set SET_ITEM{COLUMN_LIST{(SET_COLUMN{NAME_REF{a}}, SET_COLUMN{NAME_REF{b}})} = ROW_EXPR{(LITERAL{1}, LITERAL{2})}}} FROM_CLAUSE{from FROM_TABLE{PATH{NAME_REF{u}}}} WHERE_CLAUSE{where current of NAME_REF{c}}}",
    ),
    (
        "delete from t as u using v where true",
        "DELETE{delete from TARGET_TABLE{RELATION{PATH{NAME_REF{t}}} as NAME{u}} USING_CLAUSE{using FROM_TABLE{PATH{NAME_REF{v}}}} WHERE_CLAUSE{where LITERAL{true}}}",
    ),
    (
        "merge into t using s on a when matched then delete when not matched then insert values (1)",
        "MERGE{merge into TARGET_TABLE{RELATION{PATH{NAME_REF{t}}}} using FROM_TABLE{PATH{NAME_REF{s}}} on NAME_REF{a} MERGE_WHEN{when matched then delete} MERGE_WHEN{when not matched then MERGE_INSERT{insert values ROW_VALUES{(LITERAL{1})}}}}",
    ),
    (
        "select a is null = b, c in (1) in (2)",
        "QUERY{SELECT{select TARGET_LIST{TARGET{BIN_EXPR{IS_EXPR{NAME_REF{a} is null} = NAME_REF{b}}}, TARGET{IN_EXPR{IN_EXPR{NAME_REF{c} in ROW_VALUES{(LITERAL{1})}} in ROW_VALUES{(LITERAL{2})}}}}}}",
    ),
    // Keywords as columns, and types before a string.
    (
        "select position.x, row[1], int.y, operator, time (1) '10:00'",
        "QUERY{SELECT{select TARGET_LIST{TARGET{FIELD_EXPR{NAME_REF{position}.NAME_REF{x}}}, TARGET{INDEX_EXPR{NAME_REF{row}[LITERAL{1}]}}, TARGET{FIELD_EXPR{NAME_REF{int}.NAME_REF{y}}}, TARGET{NAME_REF{operator}}, TARGET{CAST_EXPR{TYPE{time TYPE_ARGS{(LITERAL{1})}} LITERAL{'10:00'}}}}}}",
    ),
    // A string goes on in one on a further line.
    (
        "select 'a'\n'b', b'1' -- c\n'0'",
        "QUERY{SELECT{select TARGET_LIST{TARGET{LITERAL{LITERAL{'a'}\n'b'}}, TARGET{LITERAL{LITERAL{b'1'} -- c\n'0'}}}}}",
    ),
    (
        "load 'a' 'b'; load 'a'\n/**/ 'b'",
        "LOAD{load LITERAL{'a'} ERROR{!expected a line break between two strings!'b'};} LOAD{load LITERAL{'a'}\n/**/ ERROR{!expected a line break between two strings!'b'}}",
    ),
    // PostgreSQL 16 and 17: functions of JSON.
    (
        "select json_object('k' value 1 format json, 'l': 2 absent on null returning jsonb), json_query(a, '$' passing b as c with wrapper keep quotes null on empty)",
        "QUERY{SELECT{select TARGET_LIST{TARGET{CALL_EXPR{NAME_REF{json_object}ARG_LIST{(JSON_KEY_VALUE{LITERAL{'k'} value LITERAL{1}} JSON_FORMAT_CLAUSE{format json}, JSON_KEY_VALUE{LITERAL{'l'}: LITERAL{2}} JSON_NULL_CLAUSE{absent on null} JSON_RETURNING_CLAUSE{returning TYPE{NAME_REF{jsonb}}})}}}, TARGET{CALL_EXPR{NAME_REF{json_query}ARG_LIST{(NAME_REF{a}, LITERAL{'$'} JSON_PASSING_CLAUSE{passing JSON_PASSING_ARG{NAME_REF{b} as NAME{c}}} JSON_WRAPPER_BEHAVIOR_CLAUSE{with wrapper} JSON_QUOTES_CLAUSE{keep quotes} JSON_BEHAVIOR_CLAUSE{null on empty})}}}}}}",
    ),
];

#[test]
fn queries_have_trees(rt: HostRuntime) -> Result<(), Fail> {
    assert_trees(&rt, &CASES)
}
