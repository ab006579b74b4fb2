//! IS JSON, JSON_OBJECT and JSON_TABLE.

use crate::trees::assert_trees;
use std::test::Fail;

/// Texts, and what is in their files.
static CASES: [(&str, &str); 6] = [
    // PostgreSQL 16.
    (
        "select json_object('a': 1, b value 2)",
        "QUERY{SELECT{select TARGET_LIST{TARGET{CALL_EXPR{NAME_REF{json_object}ARG_LIST{(JSON_KEY_VALUE{LITERAL{'a'}: LITERAL{1}}, JSON_KEY_VALUE{NAME_REF{b} value LITERAL{2}})}}}}}}",
    ),
    (
        "select a is json, b is not json object with unique keys, c is json array d",
        "QUERY{SELECT{select TARGET_LIST{TARGET{IS_EXPR{NAME_REF{a} is json}}, TARGET{IS_EXPR{NAME_REF{b} is not json object with unique keys}}, TARGET{IS_EXPR{NAME_REF{c} is json array} NAME{d}}}}}",
    ),
    (
        "select xmlserialize(content a as text indent)",
        "QUERY{SELECT{select TARGET_LIST{TARGET{CALL_EXPR{xmlserialize(content NAME_REF{a} as TYPE{NAME_REF{text}} indent)}}}}}",
    ),
    // PostgreSQL 17.
    (
        "select * from json_table(a, '$[*]' as p columns (id for ordinality, x int path '$.x' default 1 on error, y text exists, nested path '$.z' columns (z text format json))) as j",
        "QUERY{SELECT{select TARGET_LIST{TARGET{*}} FROM_CLAUSE{from TABLE_FUNCTION{PATH{NAME_REF{json_table}}ARG_LIST{(NAME_REF{a}, LITERAL{'$[*]'} as NAME{p} JSON_TABLE_COLUMN_LIST{columns (JSON_TABLE_COLUMN{NAME{id} for ordinality}, JSON_TABLE_COLUMN{NAME{x} TYPE{int} path LITERAL{'$.x'} JSON_BEHAVIOR_CLAUSE{default LITERAL{1} on error}}, JSON_TABLE_COLUMN{NAME{y} TYPE{NAME_REF{text}} exists}, JSON_TABLE_COLUMN{nested path LITERAL{'$.z'} JSON_TABLE_COLUMN_LIST{columns (JSON_TABLE_COLUMN{NAME{z} TYPE{NAME_REF{text}} JSON_FORMAT_CLAUSE{format json}})}})})} ALIAS{as NAME{j}}}}}}",
    ),
    (
        "table t; select * from t, lateral json_table(b, '$' passing 1 as x columns (c text with conditional array wrapper omit quotes on scalar string empty array on empty) error on error)",
        "QUERY{TABLE_QUERY{table RELATION{PATH{NAME_REF{t}}}};} QUERY{SELECT{select TARGET_LIST{TARGET{*}} FROM_CLAUSE{from FROM_TABLE{PATH{NAME_REF{t}}}, LATERAL_FUNCTION{lateral TABLE_FUNCTION{PATH{NAME_REF{json_table}}ARG_LIST{(NAME_REF{b}, LITERAL{'$'} JSON_PASSING_CLAUSE{passing JSON_PASSING_ARG{LITERAL{1} as NAME{x}}} JSON_TABLE_COLUMN_LIST{columns (JSON_TABLE_COLUMN{NAME{c} TYPE{NAME_REF{text}} JSON_WRAPPER_BEHAVIOR_CLAUSE{with conditional array wrapper} JSON_QUOTES_CLAUSE{omit quotes on scalar string} JSON_BEHAVIOR_CLAUSE{empty array on empty}})} JSON_BEHAVIOR_CLAUSE{error on error})}}}}}}",
    ),
    // The words are names elsewhere.
    (
        "select json '[1]', path, error, json_object('{a,1}') from keys format",
        "QUERY{SELECT{select TARGET_LIST{TARGET{CAST_EXPR{NAME_REF{json} LITERAL{'[1]'}}}, TARGET{NAME_REF{path}}, TARGET{NAME_REF{error}}, TARGET{CALL_EXPR{NAME_REF{json_object}ARG_LIST{(LITERAL{'{a,1}'})}}}} FROM_CLAUSE{from FROM_TABLE{PATH{NAME_REF{keys}} ALIAS{NAME{format}}}}}}",
    ),
];

#[test]
fn json_has_trees(rt: HostRuntime) -> Result<(), Fail> {
    assert_trees(&rt, &CASES)
}
