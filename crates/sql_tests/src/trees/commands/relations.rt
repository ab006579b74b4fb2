//! Indexes, views, sequences and statistics.

use crate::trees::assert_trees;
use std::test::Fail;

/// Texts, and what is in their files.
static CASES: [(&str, &str); 36] = [
    (
        "create index if not exists book_title on only shop.book using gist (title collate \"C\" shop.title_ops (siglen = 32) desc nulls last, (price * 2) asc) include (author) nulls not distinct with (buffering = off) tablespace fast where price is not null",
        "CREATE_INDEX{create index if not exists NAME{book_title} on RELATION{only PATH{NAME_REF{shop}.NAME_REF{book}}} ACCESS_METHOD{using NAME_REF{gist}} (INDEX_ITEM{NAME_REF{title} COLLATE_CLAUSE{collate PATH{NAME_REF{\"C\"}}} OPERATOR_CLASS{NAME_REF{shop}.NAME_REF{title_ops} OPTION_LIST{(OPTION{NAME_REF{siglen} = LITERAL{32}})}} desc nulls last}, INDEX_ITEM{PAREN_EXPR{(BIN_EXPR{NAME_REF{price} * LITERAL{2}})} asc}) INCLUDE_CLAUSE{include (INDEX_ITEM{NAME_REF{author}})} nulls not distinct with OPTION_LIST{(OPTION{NAME_REF{buffering} = TYPE{NAME_REF{off}}})} TABLESPACE{tablespace NAME_REF{fast}} WHERE_CLAUSE{where IS_EXPR{NAME_REF{price} is not null}}}",
    ),
    (
        "create unique index on book (coalesce(isbn, ''))",
        "CREATE_INDEX{create unique index on RELATION{PATH{NAME_REF{book}}} (INDEX_ITEM{CALL_EXPR{coalesce(NAME_REF{isbn}, LITERAL{''})}})}",
    ),
    (
        "alter index if exists shop.book_title rename to by_title",
        "ALTER_INDEX{alter index if exists PATH{NAME_REF{shop}.NAME_REF{book_title}} RENAME_TO{rename to NAME{by_title}}}",
    ),
    (
        "alter index book_title set tablespace fast",
        "ALTER_INDEX{alter index PATH{NAME_REF{book_title}} SET_TABLESPACE{set TABLESPACE{tablespace NAME_REF{fast}}}}",
    ),
    (
        "alter index book_title attach partition shop.old_title",
        "ALTER_INDEX{alter index PATH{NAME_REF{book_title}} ATTACH_PARTITION{attach partition PATH{NAME_REF{shop}.NAME_REF{old_title}}}}",
    ),
    (
        "alter index book_title no depends on extension pg_trgm",
        "ALTER_INDEX{alter index PATH{NAME_REF{book_title}} DEPENDS_ON{no depends on extension NAME_REF{pg_trgm}}}",
    ),
    (
        "alter index book_title set (fillfactor = 75)",
        "ALTER_INDEX{alter index PATH{NAME_REF{book_title}} SET_OPTIONS{set OPTION_LIST{(OPTION{NAME_REF{fillfactor} = LITERAL{75}})}}}",
    ),
    (
        "alter index book_title reset (fillfactor)",
        "ALTER_INDEX{alter index PATH{NAME_REF{book_title}} RESET_OPTIONS{reset OPTION_LIST{(OPTION{NAME_REF{fillfactor}})}}}",
    ),
    (
        "alter index book_cost alter column 2 set statistics 500",
        "ALTER_INDEX{alter index PATH{NAME_REF{book_cost}} ALTER_COLUMN{alter column LITERAL{2} SET_STATISTICS{set statistics LITERAL{500}}}}",
    ),
    (
        "alter index all in tablespace fast set tablespace slow",
        "ALTER_ALL{alter index all in tablespace NAME_REF{fast} set TABLESPACE{tablespace NAME_REF{slow}}}",
    ),
    (
        "create or replace temporary view shop.cheap (title, cost) with (security_barrier = true) as table book with cascaded check option",
        "CREATE_VIEW{create or replace temporary view PATH{NAME_REF{shop}.NAME{cheap}} COLUMN_LIST{(NAME{title}, NAME{cost})} with OPTION_LIST{(OPTION{NAME_REF{security_barrier} = true})} as QUERY{TABLE_QUERY{table RELATION{PATH{NAME_REF{book}}}}} with cascaded check option}",
    ),
    (
        "create recursive view shop.parts (id) as values (1) union all select id + 1 from parts",
        "CREATE_VIEW{create recursive view PATH{NAME_REF{shop}.NAME{parts}} COLUMN_LIST{(NAME{id})} as QUERY{COMPOUND_SELECT{VALUES_CLAUSE{values ROW_VALUES{(LITERAL{1})}} union all SELECT{select TARGET_LIST{TARGET{BIN_EXPR{NAME_REF{id} + LITERAL{1}}}} FROM_CLAUSE{from FROM_TABLE{PATH{NAME_REF{parts}}}}}}}}",
    ),
    (
        "alter view if exists shop.cheap alter column cost set default 0",
        "ALTER_VIEW{alter view if exists PATH{NAME_REF{shop}.NAME_REF{cheap}} ALTER_COLUMN{alter column NAME_REF{cost} SET_DEFAULT{set default LITERAL{0}}}}",
    ),
    (
        "alter view cheap alter cost drop default",
        "ALTER_VIEW{alter view PATH{NAME_REF{cheap}} ALTER_COLUMN{alter NAME_REF{cost} DROP_DEFAULT{drop default}}}",
    ),
    (
        "alter view cheap owner to session_user",
        "ALTER_VIEW{alter view PATH{NAME_REF{cheap}} OWNER_TO{owner to ROLE_REF{session_user}}}",
    ),
    (
        "alter view cheap rename column cost to price",
        "ALTER_VIEW{alter view PATH{NAME_REF{cheap}} RENAME_COLUMN{rename column NAME_REF{cost} to NAME{price}}}",
    ),
    (
        "alter view cheap rename to cheapest",
        "ALTER_VIEW{alter view PATH{NAME_REF{cheap}} RENAME_TO{rename to NAME{cheapest}}}",
    ),
    (
        "alter view cheap set schema archive",
        "ALTER_VIEW{alter view PATH{NAME_REF{cheap}} SET_SCHEMA{set schema NAME_REF{archive}}}",
    ),
    (
        "alter view cheap set (security_invoker)",
        "ALTER_VIEW{alter view PATH{NAME_REF{cheap}} SET_OPTIONS{set OPTION_LIST{(OPTION{NAME_REF{security_invoker}})}}}",
    ),
    (
        "alter view cheap reset (check_option)",
        "ALTER_VIEW{alter view PATH{NAME_REF{cheap}} RESET_OPTIONS{reset OPTION_LIST{(OPTION{NAME_REF{check_option}})}}}",
    ),
    (
        "create materialized view if not exists shop.best (title) using heap with (fillfactor = 80) tablespace fast as values ('a') with no data",
        "CREATE_MATERIALIZED_VIEW{create materialized view if not exists PATH{NAME_REF{shop}.NAME{best}} COLUMN_LIST{(NAME{title})} ACCESS_METHOD{using NAME_REF{heap}} with OPTION_LIST{(OPTION{NAME_REF{fillfactor} = LITERAL{80}})} TABLESPACE{tablespace NAME_REF{fast}} as QUERY{VALUES_CLAUSE{values ROW_VALUES{(LITERAL{'a'})}}} WITH_DATA{with no data}}",
    ),
    (
        "alter materialized view if exists best cluster on by_title, set without cluster",
        "ALTER_MATERIALIZED_VIEW{alter materialized view if exists PATH{NAME_REF{best}} CLUSTER_ON{cluster on NAME_REF{by_title}}, SET_WITHOUT{set without cluster}}",
    ),
    (
        "alter materialized view shop.best depends on extension pg_trgm",
        "ALTER_MATERIALIZED_VIEW{alter materialized view PATH{NAME_REF{shop}.NAME_REF{best}} DEPENDS_ON{depends on extension NAME_REF{pg_trgm}}}",
    ),
    (
        "alter materialized view best rename to better",
        "ALTER_MATERIALIZED_VIEW{alter materialized view PATH{NAME_REF{best}} RENAME_TO{rename to NAME{better}}}",
    ),
    (
        "alter materialized view all in tablespace fast set tablespace slow",
        "ALTER_ALL{alter materialized view all in tablespace NAME_REF{fast} set TABLESPACE{tablespace NAME_REF{slow}}}",
    ),
    (
        "create temp sequence if not exists shop.book_id as smallint increment by -2 minvalue 1 no maxvalue start with 50 cache 20 cycle owned by shop.book.id",
        "CREATE_SEQUENCE{create temp sequence if not exists PATH{NAME_REF{shop}.NAME{book_id}} SEQUENCE_OPTION{as TYPE{smallint}} SEQUENCE_OPTION{increment by LITERAL{-2}} SEQUENCE_OPTION{minvalue LITERAL{1}} SEQUENCE_OPTION{no maxvalue} SEQUENCE_OPTION{start with LITERAL{50}} SEQUENCE_OPTION{cache LITERAL{20}} SEQUENCE_OPTION{cycle} SEQUENCE_OPTION{owned by PATH{NAME_REF{shop}.NAME_REF{book}.NAME_REF{id}}}}",
    ),
    (
        "alter sequence if exists shop.book_id restart with 7 no cycle maxvalue 99 owned by none",
        "ALTER_SEQUENCE{alter sequence if exists PATH{NAME_REF{shop}.NAME_REF{book_id}} SEQUENCE_OPTION{restart with LITERAL{7}} SEQUENCE_OPTION{no cycle} SEQUENCE_OPTION{maxvalue LITERAL{99}} SEQUENCE_OPTION{owned by PATH{NAME_REF{none}}}}",
    ),
    (
        "alter sequence book_id set unlogged",
        "ALTER_SEQUENCE{alter sequence PATH{NAME_REF{book_id}} SET_LOGGED{set unlogged}}",
    ),
    (
        "alter sequence book_id owner to ana",
        "ALTER_SEQUENCE{alter sequence PATH{NAME_REF{book_id}} OWNER_TO{owner to ROLE_REF{ana}}}",
    ),
    (
        "alter sequence book_id rename to next_book",
        "ALTER_SEQUENCE{alter sequence PATH{NAME_REF{book_id}} RENAME_TO{rename to NAME{next_book}}}",
    ),
    (
        "alter sequence book_id set schema archive",
        "ALTER_SEQUENCE{alter sequence PATH{NAME_REF{book_id}} SET_SCHEMA{set schema NAME_REF{archive}}}",
    ),
    (
        "create statistics if not exists shop.book_pair (ndistinct, mcv) on price, lower(title), (a + b) from book",
        "CREATE_STATISTICS{create statistics if not exists PATH{NAME_REF{shop}.NAME{book_pair}} (NAME_REF{ndistinct}, NAME_REF{mcv}) on NAME_REF{price}, CALL_EXPR{NAME_REF{lower}ARG_LIST{(NAME_REF{title})}}, PAREN_EXPR{(BIN_EXPR{NAME_REF{a} + NAME_REF{b}})} from FROM_TABLE{PATH{NAME_REF{book}}}}",
    ),
    (
        "alter statistics if exists shop.book_pair set statistics 400",
        "ALTER_STATISTICS{alter statistics if exists PATH{NAME_REF{shop}.NAME_REF{book_pair}} SET_STATISTICS{set statistics LITERAL{400}}}",
    ),
    (
        "alter statistics book_pair owner to ana",
        "ALTER_STATISTICS{alter statistics PATH{NAME_REF{book_pair}} OWNER_TO{owner to ROLE_REF{ana}}}",
    ),
    (
        "alter statistics book_pair rename to pair",
        "ALTER_STATISTICS{alter statistics PATH{NAME_REF{book_pair}} RENAME_TO{rename to NAME{pair}}}",
    ),
    (
        "alter statistics book_pair set schema archive",
        "ALTER_STATISTICS{alter statistics PATH{NAME_REF{book_pair}} SET_SCHEMA{set schema NAME_REF{archive}}}",
    ),
];

#[test]
fn relations_have_trees(rt: HostRuntime) -> Result<(), Fail> {
    assert_trees(&rt, &CASES)
}
