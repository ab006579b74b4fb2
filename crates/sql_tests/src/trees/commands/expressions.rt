//! Expressions, types and calls, those of JSON and XML, too.

use crate::trees::assert_trees;
use std::test::Fail;

/// Texts, and what is in their files.
static CASES: [(&str, &str); 25] = [
    // Literals, parameters and types.
    (
        "select 1.5e3, e'x', b'01', x'ff', n'x', u&'x', $t$x$t$, null, false, $1",
        "QUERY{SELECT{select TARGET_LIST{TARGET{LITERAL{1.5e3}}, TARGET{LITERAL{e'x'}}, TARGET{LITERAL{b'01'}}, TARGET{LITERAL{x'ff'}}, TARGET{LITERAL{n'x'}}, TARGET{LITERAL{u&'x'}}, TARGET{LITERAL{$t$x$t$}}, TARGET{LITERAL{null}}, TARGET{LITERAL{false}}, TARGET{PARAM_REF{$1}}}}}",
    ),
    (
        "select time with time zone '1:00', interval(3) '1', interval '1' day to second(2), char 'x', point '1,2', shop.isbn '9'",
        "QUERY{SELECT{select TARGET_LIST{TARGET{CAST_EXPR{TYPE{time with time zone} LITERAL{'1:00'}}}, TARGET{CAST_EXPR{intervalTYPE_ARGS{(LITERAL{3})} LITERAL{'1'}}}, TARGET{CAST_EXPR{interval LITERAL{'1'} day to secondTYPE_ARGS{(LITERAL{2})}}}, TARGET{CAST_EXPR{NAME_REF{char} LITERAL{'x'}}}, TARGET{CAST_EXPR{NAME_REF{point} LITERAL{'1,2'}}}, TARGET{CAST_EXPR{FIELD_EXPR{NAME_REF{shop}.NAME_REF{isbn}} LITERAL{'9'}}}}}}",
    ),
    (
        "select cast(a as double precision), a::shop.isbn[]::bit varying(3), a::interval year to month, a::text array[3], a::time(2) without time zone, a::national character varying(8), a::float(24)",
        "QUERY{SELECT{select TARGET_LIST{TARGET{CAST_EXPR{cast(NAME_REF{a} as TYPE{double precision})}}, TARGET{CAST_EXPR{CAST_EXPR{NAME_REF{a}COLON_COLON{::}TYPE{NAME_REF{shop}.NAME_REF{isbn}[]}}COLON_COLON{::}TYPE{bit varyingTYPE_ARGS{(LITERAL{3})}}}}, TARGET{CAST_EXPR{NAME_REF{a}COLON_COLON{::}TYPE{interval year to month}}}, TARGET{CAST_EXPR{NAME_REF{a}COLON_COLON{::}TYPE{NAME_REF{text} array[LITERAL{3}]}}}, TARGET{CAST_EXPR{NAME_REF{a}COLON_COLON{::}TYPE{timeTYPE_ARGS{(LITERAL{2})} without time zone}}}, TARGET{CAST_EXPR{NAME_REF{a}COLON_COLON{::}TYPE{national character varyingTYPE_ARGS{(LITERAL{8})}}}}, TARGET{CAST_EXPR{NAME_REF{a}COLON_COLON{::}TYPE{floatTYPE_ARGS{(LITERAL{24})}}}}}}}",
    ),
    // Operators.
    (
        "select a or b and c or not a is null",
        "QUERY{SELECT{select TARGET_LIST{TARGET{BIN_EXPR{BIN_EXPR{NAME_REF{a} or BIN_EXPR{NAME_REF{b} and NAME_REF{c}}} or PREFIX_EXPR{not IS_EXPR{NAME_REF{a} is null}}}}}}}",
    ),
    (
        "select -a ^ b * c, +-1, a - -b, a / b % c",
        "QUERY{SELECT{select TARGET_LIST{TARGET{BIN_EXPR{BIN_EXPR{PREFIX_EXPR{-NAME_REF{a}} ^ NAME_REF{b}} * NAME_REF{c}}}, TARGET{PREFIX_EXPR{+PREFIX_EXPR{-LITERAL{1}}}}, TARGET{BIN_EXPR{NAME_REF{a} - PREFIX_EXPR{-NAME_REF{b}}}}, TARGET{BIN_EXPR{BIN_EXPR{NAME_REF{a} / NAME_REF{b}} % NAME_REF{c}}}}}}",
    ),
    (
        "select a operator(pg_catalog.+) b * c, operator(@@) a, a -> b + 1",
        "QUERY{SELECT{select TARGET_LIST{TARGET{BIN_EXPR{NAME_REF{a} operator(OP{NAME_REF{pg_catalog}.+}) BIN_EXPR{NAME_REF{b} * NAME_REF{c}}}}, TARGET{PREFIX_EXPR{operator(OP{CUSTOM_OP{@@}}) NAME_REF{a}}}, TARGET{BIN_EXPR{NAME_REF{a} CUSTOM_OP{->} BIN_EXPR{NAME_REF{b} + LITERAL{1}}}}}}}",
    ),
    (
        "select a <> all (table t), a >= some (b), a not ilike any (array['x'])",
        "QUERY{SELECT{select TARGET_LIST{TARGET{BIN_EXPR{NAME_REF{a} <> SOME_OF{all (QUERY{TABLE_QUERY{table RELATION{PATH{NAME_REF{t}}}}})}}}, TARGET{BIN_EXPR{NAME_REF{a} >= SOME_OF{some (NAME_REF{b})}}}, TARGET{LIKE_EXPR{NAME_REF{a} not ilike SOME_OF{any (ARRAY_EXPR{arrayARRAY_ITEMS{[LITERAL{'x'}]}})}}}}}}",
    ),
    (
        "select a isnull, a notnull, a is not distinct from b + c, a is not unknown, a is document, a is nfc normalized, a is not true",
        "QUERY{SELECT{select TARGET_LIST{TARGET{IS_EXPR{NAME_REF{a} isnull}}, TARGET{IS_EXPR{NAME_REF{a} notnull}}, TARGET{IS_EXPR{NAME_REF{a} is not distinct from BIN_EXPR{NAME_REF{b} + NAME_REF{c}}}}, TARGET{IS_EXPR{NAME_REF{a} is not unknown}}, TARGET{IS_EXPR{NAME_REF{a} is document}}, TARGET{IS_EXPR{NAME_REF{a} is nfc normalized}}, TARGET{IS_EXPR{NAME_REF{a} is not true}}}}}",
    ),
    (
        "select a not between symmetric 1 and 2 + 3 and b, a not in (table t)",
        "QUERY{SELECT{select TARGET_LIST{TARGET{BIN_EXPR{BETWEEN_EXPR{NAME_REF{a} not between symmetric LITERAL{1} and BIN_EXPR{LITERAL{2} + LITERAL{3}}} and NAME_REF{b}}}, TARGET{IN_EXPR{NAME_REF{a} not in SUBQUERY{(QUERY{TABLE_QUERY{table RELATION{PATH{NAME_REF{t}}}}})}}}}}}",
    ),
    (
        "select a like 'x' escape '!', a not similar to 'x', (a, b) overlaps row(b, c)",
        "QUERY{SELECT{select TARGET_LIST{TARGET{LIKE_EXPR{LIKE_EXPR{NAME_REF{a} like LITERAL{'x'}} escape LITERAL{'!'}}}, TARGET{LIKE_EXPR{NAME_REF{a} not similar to LITERAL{'x'}}}, TARGET{OVERLAPS_EXPR{ROW_EXPR{(NAME_REF{a}, NAME_REF{b})} overlaps ROW_EXPR{row(NAME_REF{b}, NAME_REF{c})}}}}}}",
    ),
    (
        "select a at time zone 'UTC', a collate pg_catalog.\"C\"",
        "QUERY{SELECT{select TARGET_LIST{TARGET{BIN_EXPR{NAME_REF{a} at time zone LITERAL{'UTC'}}}, TARGET{COLLATE_EXPR{NAME_REF{a} collate PATH{NAME_REF{pg_catalog}.NAME_REF{\"C\"}}}}}}}",
    ),
    // PostgreSQL 17.
    (
        "select a at local",
        "QUERY{SELECT{select TARGET_LIST{TARGET{AT_LOCAL_EXPR{NAME_REF{a} at local}}}}}",
    ),
    // Operands.
    (
        "select case a when 1 then 'x' when 2 then b end, row(), (1, a), (a)",
        "QUERY{SELECT{select TARGET_LIST{TARGET{CASE_EXPR{case NAME_REF{a} WHEN_CLAUSE{when LITERAL{1} then LITERAL{'x'}} WHEN_CLAUSE{when LITERAL{2} then NAME_REF{b}} end}}, TARGET{ROW_EXPR{row()}}, TARGET{ROW_EXPR{(LITERAL{1}, NAME_REF{a})}}, TARGET{PAREN_EXPR{(NAME_REF{a})}}}}}",
    ),
    (
        "select array[[1, 2], []], array(table t)",
        "QUERY{SELECT{select TARGET_LIST{TARGET{ARRAY_EXPR{arrayARRAY_ITEMS{[ARRAY_ITEMS{[LITERAL{1}, LITERAL{2}]}, ARRAY_ITEMS{[]}]}}}, TARGET{ARRAY_EXPR{array(QUERY{TABLE_QUERY{table RELATION{PATH{NAME_REF{t}}}}})}}}}}",
    ),
    (
        "select (a).b[1], a[1:][:b], a[:], s.t.*, $1.x",
        "QUERY{SELECT{select TARGET_LIST{TARGET{INDEX_EXPR{FIELD_EXPR{PAREN_EXPR{(NAME_REF{a})}.NAME_REF{b}}[LITERAL{1}]}}, TARGET{SLICE_EXPR{SLICE_EXPR{NAME_REF{a}[LITERAL{1}:]}[:NAME_REF{b}]}}, TARGET{SLICE_EXPR{NAME_REF{a}[:]}}, TARGET{FIELD_EXPR{FIELD_EXPR{NAME_REF{s}.NAME_REF{t}}.*}}, TARGET{FIELD_EXPR{PARAM_REF{$1}.NAME_REF{x}}}}}}",
    ),
    // Calls.
    (
        "select count(distinct a order by a desc), f(all a), f(a, variadic b), shop.tax(price := 1)",
        "QUERY{SELECT{select TARGET_LIST{TARGET{CALL_EXPR{NAME_REF{count}ARG_LIST{(distinct NAME_REF{a} ORDER_BY_CLAUSE{order by SORT_ITEM{NAME_REF{a} desc}})}}}, TARGET{CALL_EXPR{NAME_REF{f}ARG_LIST{(all NAME_REF{a})}}}, TARGET{CALL_EXPR{NAME_REF{f}ARG_LIST{(NAME_REF{a}, variadic NAME_REF{b})}}}, TARGET{CALL_EXPR{FIELD_EXPR{NAME_REF{shop}.NAME_REF{tax}}ARG_LIST{(NAMED_ARG{NAME_REF{price} := LITERAL{1}})}}}}}}",
    ),
    (
        "select mode() within group (order by a) filter (where b) over (), left(a, 2)",
        "QUERY{SELECT{select TARGET_LIST{TARGET{CALL_EXPR{NAME_REF{mode}ARG_LIST{()} WITHIN_CLAUSE{within group (ORDER_BY_CLAUSE{order by SORT_ITEM{NAME_REF{a}}})} FILTER_CLAUSE{filter (WHERE_CLAUSE{where NAME_REF{b}})} OVER_CLAUSE{over WINDOW_SPEC{()}}}}, TARGET{CALL_EXPR{NAME_REF{left}ARG_LIST{(NAME_REF{a}, LITERAL{2})}}}}}}",
    ),
    (
        "select current_date, current_timestamp(3), localtime, current_catalog, session_user, current_schema, user",
        "QUERY{SELECT{select TARGET_LIST{TARGET{CALL_EXPR{current_date}}, TARGET{CALL_EXPR{current_timestampTYPE_ARGS{(LITERAL{3})}}}, TARGET{CALL_EXPR{localtime}}, TARGET{CALL_EXPR{current_catalog}}, TARGET{CALL_EXPR{session_user}}, TARGET{NAME_REF{current_schema}}, TARGET{CALL_EXPR{user}}}}}",
    ),
    (
        "select extract(year from a), grouping(a, b), normalize(a, nfkc), overlay(a placing b from 1 for 2), position(a in b)",
        "QUERY{SELECT{select TARGET_LIST{TARGET{CALL_EXPR{extract(year from NAME_REF{a})}}, TARGET{CALL_EXPR{grouping(NAME_REF{a}, NAME_REF{b})}}, TARGET{CALL_EXPR{normalize(NAME_REF{a}, nfkc)}}, TARGET{CALL_EXPR{overlay(NAME_REF{a} placing NAME_REF{b} from LITERAL{1} for LITERAL{2})}}, TARGET{CALL_EXPR{position(NAME_REF{a} in NAME_REF{b})}}}}}",
    ),
    (
        "select substring(a from 1 for 2), substring(a, 1), trim(leading 'x' from a), trim(a), treat(a as int), nullif(a, b), greatest(a, b)",
        "QUERY{SELECT{select TARGET_LIST{TARGET{CALL_EXPR{substring(NAME_REF{a} from LITERAL{1} for LITERAL{2})}}, TARGET{CALL_EXPR{substring(NAME_REF{a}, LITERAL{1})}}, TARGET{CALL_EXPR{trim(leading LITERAL{'x'} from NAME_REF{a})}}, TARGET{CALL_EXPR{trim(NAME_REF{a})}}, TARGET{CALL_EXPR{treat(NAME_REF{a} as TYPE{int})}}, TARGET{CALL_EXPR{nullif(NAME_REF{a}, NAME_REF{b})}}, TARGET{CALL_EXPR{greatest(NAME_REF{a}, NAME_REF{b})}}}}}",
    ),
    // JSON.
    (
        "select json_build_object('id', a), a -> 'x' ->> 0, a #>> 'x', a @> jsonb '[1]', a ?| b, a['x'], jsonb_agg(a order by b)",
        "QUERY{SELECT{select TARGET_LIST{TARGET{CALL_EXPR{NAME_REF{json_build_object}ARG_LIST{(LITERAL{'id'}, NAME_REF{a})}}}, TARGET{BIN_EXPR{BIN_EXPR{NAME_REF{a} CUSTOM_OP{->} LITERAL{'x'}} CUSTOM_OP{->>} LITERAL{0}}}, TARGET{BIN_EXPR{NAME_REF{a} CUSTOM_OP{#>>} LITERAL{'x'}}}, TARGET{BIN_EXPR{NAME_REF{a} CUSTOM_OP{@>} CAST_EXPR{NAME_REF{jsonb} LITERAL{'[1]'}}}}, TARGET{BIN_EXPR{NAME_REF{a} CUSTOM_OP{?|} NAME_REF{b}}}, TARGET{INDEX_EXPR{NAME_REF{a}[LITERAL{'x'}]}}, TARGET{CALL_EXPR{NAME_REF{jsonb_agg}ARG_LIST{(NAME_REF{a} ORDER_BY_CLAUSE{order by SORT_ITEM{NAME_REF{b}}})}}}}}}",
    ),
    // XML.
    (
        "select xmlelement(name book, xmlattributes(a as id, b), c, 'x'), xmlforest(a, b as x), xmlconcat(a, b)",
        "QUERY{SELECT{select TARGET_LIST{TARGET{CALL_EXPR{xmlelement(name NAME{book}, XML_ATTRIBUTES{xmlattributes(XML_ATTRIBUTE{NAME_REF{a} as NAME{id}}, XML_ATTRIBUTE{NAME_REF{b}})}, NAME_REF{c}, LITERAL{'x'})}}, TARGET{CALL_EXPR{xmlforest(XML_ATTRIBUTE{NAME_REF{a}}, XML_ATTRIBUTE{NAME_REF{b} as NAME{x}})}}, TARGET{CALL_EXPR{xmlconcat(NAME_REF{a}, NAME_REF{b})}}}}}",
    ),
    (
        "select xmlparse(document a preserve whitespace), xmlpi(name php, 'x'), xmlroot(a, version no value, standalone yes), xmlserialize(content a as text), xmlexists('/x' passing by value a), xmlagg(a)",
        "QUERY{SELECT{select TARGET_LIST{TARGET{CALL_EXPR{xmlparse(document NAME_REF{a} preserve whitespace)}}, TARGET{CALL_EXPR{xmlpi(name NAME{php}, LITERAL{'x'})}}, TARGET{CALL_EXPR{xmlroot(NAME_REF{a}, version no value, standalone yes)}}, TARGET{CALL_EXPR{xmlserialize(content NAME_REF{a} as TYPE{NAME_REF{text}})}}, TARGET{CALL_EXPR{xmlexists(LITERAL{'/x'} XML_PASSING{passing by value NAME_REF{a}})}}, TARGET{CALL_EXPR{NAME_REF{xmlagg}ARG_LIST{(NAME_REF{a})}}}}}}",
    ),
    (
        "select * from xmltable(xmlnamespaces('http://x' as x, default 'http://y'), '/x:book' passing doc by ref columns no for ordinality, title text path '@title' not null, price numeric default 0) as b",
        "QUERY{SELECT{select TARGET_LIST{TARGET{*}} FROM_CLAUSE{from TABLE_FUNCTION{xmltable(xmlnamespaces(XML_NAMESPACE{LITERAL{'http://x'} as NAME{x}}, XML_NAMESPACE{default LITERAL{'http://y'}}), LITERAL{'/x:book'} XML_PASSING{passing NAME_REF{doc} by ref} columns XML_COLUMN{NAME{no} for ordinality}, XML_COLUMN{NAME{title} TYPE{NAME_REF{text}} path LITERAL{'@title'} not null}, XML_COLUMN{NAME{price} TYPE{numeric} default LITERAL{0}}) ALIAS{as NAME{b}}}}}}",
    ),
    (
        "select a collate \"C\"::text, a isnull = b, a notnull isnull, u&\"a!0062\" uescape '!'",
        "QUERY{SELECT{select TARGET_LIST{TARGET{CAST_EXPR{COLLATE_EXPR{NAME_REF{a} collate PATH{NAME_REF{\"C\"}}}COLON_COLON{::}TYPE{NAME_REF{text}}}}, TARGET{BIN_EXPR{IS_EXPR{NAME_REF{a} isnull} = NAME_REF{b}}}, TARGET{IS_EXPR{IS_EXPR{NAME_REF{a} notnull} isnull}}, TARGET{NAME_REF{u&\"a!0062\" uescape '!'}}}}}",
    ),
];

#[test]
fn expressions_have_trees(rt: HostRuntime) -> Result<(), Fail> {
    assert_trees(&rt, &CASES)
}
