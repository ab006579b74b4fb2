//! Scripts of psql: its commands, data of COPY and variables.

use crate::trees::assert_trees;
use std::test::Fail;

/// Texts, and what is in their files.
static CASES: [(&str, &str); 15] = [
    // Commands.
    (
        "\\set rate 2\n\\pset format aligned",
        "PSQL_COMMAND{\\set rate 2}\nPSQL_COMMAND{\\pset format aligned}",
    ),
    (
        "\\connect books ana\n\\i book.sql\n\\! ls -l",
        "PSQL_COMMAND{\\connect books ana}\nPSQL_COMMAND{\\i book.sql}\nPSQL_COMMAND{\\! ls -l}",
    ),
    (
        "\\copy book (title) from 'books.csv' csv\ncheckpoint;",
        "PSQL_COMMAND{\\copy book (title) from 'books.csv' csv}\nCHECKPOINT{checkpoint;}",
    ),
    (
        "\\if :late\ncheckpoint;\n\\elif true\n\\echo 'a' \"b\"\n\\endif",
        "PSQL_COMMAND{\\if :late}\nCHECKPOINT{checkpoint;}\nPSQL_COMMAND{\\elif true}\nPSQL_COMMAND{\\echo 'a' \"b\"}\nPSQL_COMMAND{\\endif}",
    ),
    // Those that end a statement.
    (
        "select 1 as a \\gset p_\nshow all \\gx",
        "QUERY{SELECT{select TARGET_LIST{TARGET{LITERAL{1} as NAME{a}}}} \\gset p_}\nSHOW{show all \\gx}",
    ),
    (
        "select 1\n\\watch 2",
        "QUERY{SELECT{select TARGET_LIST{TARGET{LITERAL{1}}}}\n\\watch 2}",
    ),
    (
        "select 'checkpoint' \\gexec\ntable book \\gdesc\ntable book \\crosstabview title year",
        "QUERY{SELECT{select TARGET_LIST{TARGET{LITERAL{'checkpoint'}}}} \\gexec}\nQUERY{TABLE_QUERY{table RELATION{PATH{NAME_REF{book}}}} \\gdesc}\nQUERY{TABLE_QUERY{table RELATION{PATH{NAME_REF{book}}}} \\crosstabview title year}",
    ),
    // Lines of data.
    (
        "copy book from stdin;\n1 'a\n2 (;\n\\.\ncheckpoint;",
        "COPY{copy PATH{NAME_REF{book}} from stdin;}\nPSQL_COMMAND{1 'a}\nPSQL_COMMAND{2 (;}\nPSQL_COMMAND{\\.}\nCHECKPOINT{checkpoint;}",
    ),
    // Variables.
    (
        "select :rate * price, :\"name\" from book where author = :'who' limit :most",
        "QUERY{SELECT{select TARGET_LIST{TARGET{BIN_EXPR{PARAM_REF{:rate} * NAME_REF{price}}}, TARGET{PARAM_REF{:\"name\"}}} FROM_CLAUSE{from FROM_TABLE{PATH{NAME_REF{book}}}} WHERE_CLAUSE{where BIN_EXPR{NAME_REF{author} = PARAM_REF{:'who'}}}} LIMIT_CLAUSE{limit PARAM_REF{:most}}}",
    ),
    (
        "insert into book values (:id, :'title'::text)",
        "INSERT{insert into PATH{NAME_REF{book}} QUERY{VALUES_CLAUSE{values ROW_VALUES{(PARAM_REF{:id}, CAST_EXPR{PARAM_REF{:'title'}COLON_COLON{::}TYPE{NAME_REF{text}}})}}}}",
    ),
    (
        "set work_mem to :'memory'",
        "SET{set PATH{NAME_REF{work_mem}} to PARAM_REF{:'memory'}}",
    ),
    (
        "select * from :schema.:\"table\"; drop table :old; create role :who;",
        "QUERY{SELECT{select TARGET_LIST{TARGET{*}} FROM_CLAUSE{from FROM_TABLE{PATH{PARAM_REF{:schema}.PARAM_REF{:\"table\"}}}}};} DROP{drop table PATH{PARAM_REF{:old}};} CREATE_ROLE{create role PARAM_REF{:who};}",
    ),
    (
        "select a[b:c] from t",
        "QUERY{SELECT{select TARGET_LIST{TARGET{SLICE_EXPR{NAME_REF{a}[NAME_REF{b}:NAME_REF{c}]}}} FROM_CLAUSE{from FROM_TABLE{PATH{NAME_REF{t}}}}}}",
    ),
    (
        "comment on table book is :'text'",
        "COMMENT_ON{comment on OBJECT{table PATH{NAME_REF{book}}} is PARAM_REF{:'text'}}",
    ),
    ("set role :who", "SET{set role PARAM_REF{:who}}"),
];

#[test]
fn scripts_have_trees(rt: HostRuntime) -> Result<(), Fail> {
    assert_trees(&rt, &CASES)
}
