//! Publications, subscriptions, tablespaces, databases and large objects.

use crate::trees::assert_trees;
use std::test::Fail;

/// Texts, and what is in their files.
static CASES: [(&str, &str); 26] = [
    (
        "create publication new_books for table only shop.book (id, title) where (year > 2020), author, tables in schema archive with (publish = 'insert')",
        "CREATE_PUBLICATION{create publication NAME{new_books} for PUBLICATION_ITEM{table RELATION{only PATH{NAME_REF{shop}.NAME_REF{book}}} COLUMN_LIST{(NAME_REF{id}, NAME_REF{title})} where (BIN_EXPR{NAME_REF{year} > LITERAL{2020}})}, PUBLICATION_ITEM{RELATION{PATH{NAME_REF{author}}}}, PUBLICATION_ITEM{tables in schema NAME_REF{archive}} with OPTION_LIST{(OPTION{NAME_REF{publish} = LITERAL{'insert'}})}}",
    ),
    (
        "create publication everything for all tables",
        "CREATE_PUBLICATION{create publication NAME{everything} for all tables}",
    ),
    (
        "alter publication new_books add table edition, tables in schema current_schema",
        "ALTER_PUBLICATION{alter publication NAME_REF{new_books} add PUBLICATION_ITEM{table RELATION{PATH{NAME_REF{edition}}}}, PUBLICATION_ITEM{tables in schema current_schema}}",
    ),
    (
        "alter publication new_books set (publish_via_partition_root)",
        "ALTER_PUBLICATION{alter publication NAME_REF{new_books} set OPTION_LIST{(OPTION{NAME_REF{publish_via_partition_root}})}}",
    ),
    (
        "alter publication new_books drop table edition",
        "ALTER_PUBLICATION{alter publication NAME_REF{new_books} drop PUBLICATION_ITEM{table RELATION{PATH{NAME_REF{edition}}}}}",
    ),
    (
        "alter publication new_books rename to fresh",
        "ALTER_PUBLICATION{alter publication NAME_REF{new_books} RENAME_TO{rename to NAME{fresh}}}",
    ),
    (
        "create subscription from_branch connection 'host=lisbon' publication new_books, refunds with (copy_data = false, slot_name = none)",
        "CREATE_SUBSCRIPTION{create subscription NAME{from_branch} connection LITERAL{'host=lisbon'} publication NAME_REF{new_books}, NAME_REF{refunds} with OPTION_LIST{(OPTION{NAME_REF{copy_data} = false}, OPTION{NAME_REF{slot_name} = none})}}",
    ),
    (
        "alter subscription from_branch connection 'host=porto'",
        "ALTER_SUBSCRIPTION{alter subscription NAME_REF{from_branch} connection LITERAL{'host=porto'}}",
    ),
    (
        "alter subscription from_branch set publication refunds with (refresh = true)",
        "ALTER_SUBSCRIPTION{alter subscription NAME_REF{from_branch} set publication NAME_REF{refunds} with OPTION_LIST{(OPTION{NAME_REF{refresh} = true})}}",
    ),
    (
        "alter subscription from_branch add publication new_books",
        "ALTER_SUBSCRIPTION{alter subscription NAME_REF{from_branch} add publication NAME_REF{new_books}}",
    ),
    (
        "alter subscription from_branch refresh publication",
        "ALTER_SUBSCRIPTION{alter subscription NAME_REF{from_branch} refresh publication}",
    ),
    (
        "alter subscription from_branch set (binary = on)",
        "ALTER_SUBSCRIPTION{alter subscription NAME_REF{from_branch} set OPTION_LIST{(OPTION{NAME_REF{binary} = on})}}",
    ),
    (
        "alter subscription from_branch skip (lsn = '0/12A')",
        "ALTER_SUBSCRIPTION{alter subscription NAME_REF{from_branch} skip OPTION_LIST{(OPTION{NAME_REF{lsn} = LITERAL{'0/12A'}})}}",
    ),
    (
        "alter subscription from_branch enable",
        "ALTER_SUBSCRIPTION{alter subscription NAME_REF{from_branch} enable}",
    ),
    (
        "alter subscription from_branch owner to ana",
        "ALTER_SUBSCRIPTION{alter subscription NAME_REF{from_branch} OWNER_TO{owner to ROLE_REF{ana}}}",
    ),
    (
        "create tablespace fast owner ana location '/srv/fast' with (random_page_cost = 1.1)",
        "CREATE_TABLESPACE{create tablespace NAME{fast} owner ROLE_REF{ana} location LITERAL{'/srv/fast'} with OPTION_LIST{(OPTION{NAME_REF{random_page_cost} = LITERAL{1.1}})}}",
    ),
    (
        "alter tablespace fast set (seq_page_cost = 2)",
        "ALTER_TABLESPACE{alter tablespace NAME_REF{fast} set OPTION_LIST{(OPTION{NAME_REF{seq_page_cost} = LITERAL{2}})}}",
    ),
    (
        "alter tablespace fast rename to slow",
        "ALTER_TABLESPACE{alter tablespace NAME_REF{fast} RENAME_TO{rename to NAME{slow}}}",
    ),
    (
        "create database books with owner = ana encoding 'UTF8' template template0 connection limit = 50 tablespace default allow_connections true",
        "CREATE_DATABASE{create database NAME{books} with DATABASE_OPTION{owner = ana} DATABASE_OPTION{encoding LITERAL{'UTF8'}} DATABASE_OPTION{template template0} DATABASE_OPTION{connection limit = LITERAL{50}} DATABASE_OPTION{tablespace default} DATABASE_OPTION{allow_connections true}}",
    ),
    (
        "alter database books with is_template true connection limit 9",
        "ALTER_DATABASE{alter database NAME_REF{books} with DATABASE_OPTION{is_template true} DATABASE_OPTION{connection limit LITERAL{9}}}",
    ),
    (
        "alter database books set work_mem to '8MB'",
        "ALTER_DATABASE{alter database NAME_REF{books} set PATH{NAME_REF{work_mem}} to LITERAL{'8MB'}}",
    ),
    (
        "alter database books reset work_mem",
        "ALTER_DATABASE{alter database NAME_REF{books} reset PATH{NAME_REF{work_mem}}}",
    ),
    (
        "alter database books set tablespace fast",
        "ALTER_DATABASE{alter database NAME_REF{books} set TABLESPACE{tablespace NAME_REF{fast}}}",
    ),
    (
        "alter database books refresh collation version",
        "ALTER_DATABASE{alter database NAME_REF{books} refresh collation version}",
    ),
    (
        "alter database books owner to ana",
        "ALTER_DATABASE{alter database NAME_REF{books} OWNER_TO{owner to ROLE_REF{ana}}}",
    ),
    (
        "alter large object 12 owner to ana",
        "ALTER_LARGE_OBJECT{alter large object LITERAL{12} OWNER_TO{owner to ROLE_REF{ana}}}",
    ),
];

#[test]
fn databases_have_trees(rt: HostRuntime) -> Result<(), Fail> {
    assert_trees(&rt, &CASES)
}
