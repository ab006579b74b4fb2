//! COPY, EXPLAIN, VACUUM and the like; CALL, DO, TRUNCATE and IMPORT FOREIGN SCHEMA.

use crate::trees::assert_trees;
use std::test::Fail;

/// Texts, and what is in their files.
static CASES: [(&str, &str); 41] = [
    (
        "copy book to stdout (delimiter '|')",
        "COPY{copy PATH{NAME_REF{book}} to stdout OPTION_LIST{(OPTION{NAME_REF{delimiter} LITERAL{'|'}})}}",
    ),
    (
        "copy shop.book (title, price) from '/srv/books.csv' with (format csv, header true, null '', force_null (title, price)) where price > 0",
        "COPY{copy PATH{NAME_REF{shop}.NAME_REF{book}} COLUMN_LIST{(NAME_REF{title}, NAME_REF{price})} from LITERAL{'/srv/books.csv'} with OPTION_LIST{(OPTION{NAME_REF{format} csv}, OPTION{NAME_REF{header} true}, OPTION{NAME_REF{null} LITERAL{''}}, OPTION{NAME_REF{force_null} (NAME_REF{title}, NAME_REF{price})})} WHERE_CLAUSE{where BIN_EXPR{NAME_REF{price} > LITERAL{0}}}}",
    ),
    (
        "copy book to '/srv/books.csv' (format 'csv', force_quote *)",
        "COPY{copy PATH{NAME_REF{book}} to LITERAL{'/srv/books.csv'} OPTION_LIST{(OPTION{NAME_REF{format} LITERAL{'csv'}}, OPTION{NAME_REF{force_quote} *})}}",
    ),
    (
        "copy book from program 'gunzip < /srv/books.gz'",
        "COPY{copy PATH{NAME_REF{book}} from program LITERAL{'gunzip < /srv/books.gz'}}",
    ),
    (
        "copy (select title from book) to program 'gzip > /srv/books.gz'",
        "COPY{copy (QUERY{SELECT{select TARGET_LIST{TARGET{NAME_REF{title}}} FROM_CLAUSE{from FROM_TABLE{PATH{NAME_REF{book}}}}}}) to program LITERAL{'gzip > /srv/books.gz'}}",
    ),
    (
        "copy (delete from book returning *) to stdout with (format binary)",
        "COPY{copy (DELETE{delete from TARGET_TABLE{RELATION{PATH{NAME_REF{book}}}} RETURNING_CLAUSE{returning TARGET_LIST{TARGET{*}}}}) to stdout with OPTION_LIST{(OPTION{NAME_REF{format} binary})}}",
    ),
    // The forms of old versions.
    (
        "copy binary book to '/srv/books'",
        "COPY{copy binary PATH{NAME_REF{book}} to LITERAL{'/srv/books'}}",
    ),
    (
        "copy book from stdin using delimiters ';' with null as '-'",
        "COPY{copy PATH{NAME_REF{book}} from stdin using delimiters LITERAL{';'} with OPTION{null as LITERAL{'-'}}}",
    ),
    (
        "copy book to stdout csv header quote '\"' force quote title, blurb",
        "COPY{copy PATH{NAME_REF{book}} to stdout OPTION{csv} OPTION{header} OPTION{quote LITERAL{'\"'}} OPTION{force quote NAME_REF{title}, NAME_REF{blurb}}}",
    ),
    (
        "explain select title from book",
        "EXPLAIN{explain QUERY{SELECT{select TARGET_LIST{TARGET{NAME_REF{title}}} FROM_CLAUSE{from FROM_TABLE{PATH{NAME_REF{book}}}}}}}",
    ),
    (
        "explain analyze verbose update book set price = 9",
        "EXPLAIN{explain analyze verbose UPDATE{update TARGET_TABLE{RELATION{PATH{NAME_REF{book}}}} SET_CLAUSE{set SET_ITEM{SET_COLUMN{NAME_REF{price}} = LITERAL{9}}}}}",
    ),
    (
        "explain (costs off, buffers, format yaml, wal true) execute by_owner('Ana')",
        "EXPLAIN{explain OPTION_LIST{(OPTION{NAME_REF{costs} off}, OPTION{NAME_REF{buffers}}, OPTION{NAME_REF{format} yaml}, OPTION{NAME_REF{wal} true})} EXECUTE{execute NAME_REF{by_owner}(LITERAL{'Ana'})}}",
    ),
    (
        "explain create table copy_of as table book",
        "EXPLAIN{explain CREATE_TABLE_AS{create table PATH{NAME{copy_of}} as QUERY{TABLE_QUERY{table RELATION{PATH{NAME_REF{book}}}}}}}",
    ),
    (
        "explain declare all_books cursor for table book",
        "EXPLAIN{explain DECLARE{declare NAME{all_books} cursor for QUERY{TABLE_QUERY{table RELATION{PATH{NAME_REF{book}}}}}}}",
    ),
    ("vacuum", "VACUUM{vacuum}"),
    (
        "vacuum full freeze verbose analyze book (title)",
        "VACUUM{vacuum full freeze verbose analyze RELATION{PATH{NAME_REF{book}}} COLUMN_LIST{(NAME_REF{title})}}",
    ),
    (
        "vacuum (verbose, parallel 2, index_cleanup off) shop.book, author",
        "VACUUM{vacuum OPTION_LIST{(OPTION{NAME_REF{verbose}}, OPTION{NAME_REF{parallel} LITERAL{2}}, OPTION{NAME_REF{index_cleanup} off})} RELATION{PATH{NAME_REF{shop}.NAME_REF{book}}}, RELATION{PATH{NAME_REF{author}}}}",
    ),
    // PostgreSQL 18.
    (
        "vacuum only book",
        "VACUUM{vacuum RELATION{only PATH{NAME_REF{book}}}}",
    ),
    ("analyze", "ANALYZE{analyze}"),
    (
        "analyze verbose book (title, price)",
        "ANALYZE{analyze verbose RELATION{PATH{NAME_REF{book}}} COLUMN_LIST{(NAME_REF{title}, NAME_REF{price})}}",
    ),
    (
        "analyse (verbose off, skip_locked) book",
        "ANALYZE{analyse OPTION_LIST{(OPTION{NAME_REF{verbose} off}, OPTION{NAME_REF{skip_locked}})} RELATION{PATH{NAME_REF{book}}}}",
    ),
    (
        "reindex index shop.book_title",
        "REINDEX{reindex index PATH{NAME_REF{shop}.NAME_REF{book_title}}}",
    ),
    (
        "reindex (verbose, tablespace fast) table concurrently book",
        "REINDEX{reindex OPTION_LIST{(OPTION{NAME_REF{verbose}}, OPTION{NAME_REF{tablespace} fast})} table concurrently PATH{NAME_REF{book}}}",
    ),
    (
        "reindex schema shop",
        "REINDEX{reindex schema NAME_REF{shop}}",
    ),
    (
        "reindex database concurrently books",
        "REINDEX{reindex database concurrently NAME_REF{books}}",
    ),
    // PostgreSQL 16.
    ("reindex system", "REINDEX{reindex system}"),
    ("cluster", "CLUSTER{cluster}"),
    (
        "cluster verbose book using book_title",
        "CLUSTER{cluster verbose PATH{NAME_REF{book}} using NAME_REF{book_title}}",
    ),
    (
        "cluster (verbose) shop.book",
        "CLUSTER{cluster OPTION_LIST{(OPTION{NAME_REF{verbose}})} PATH{NAME_REF{shop}.NAME_REF{book}}}",
    ),
    (
        "cluster book_title on book",
        "CLUSTER{cluster NAME_REF{book_title} on PATH{NAME_REF{book}}}",
    ),
    (
        "refresh materialized view concurrently best_sellers with data",
        "REFRESH{refresh materialized view concurrently PATH{NAME_REF{best_sellers}} WITH_DATA{with data}}",
    ),
    (
        "refresh materialized view shop.best_sellers with no data",
        "REFRESH{refresh materialized view PATH{NAME_REF{shop}.NAME_REF{best_sellers}} WITH_DATA{with no data}}",
    ),
    (
        "do $$begin null; end$$",
        "DO{do LITERAL{$$begin null; end$$}}",
    ),
    (
        "do language plpgsql 'begin null; end'",
        "DO{do language NAME_REF{plpgsql} LITERAL{'begin null; end'}}",
    ),
    (
        "call shop.restock(7, number => 2)",
        "CALL{call PATH{NAME_REF{shop}.NAME_REF{restock}}ARG_LIST{(LITERAL{7}, NAMED_ARG{NAME_REF{number} => LITERAL{2}})}}",
    ),
    (
        "call restock_all()",
        "CALL{call PATH{NAME_REF{restock_all}}ARG_LIST{()}}",
    ),
    (
        "import foreign schema sales limit to (order_line, refund) from server branch into shop",
        "IMPORT_FOREIGN_SCHEMA{import foreign schema NAME_REF{sales} limit to (RELATION{PATH{NAME_REF{order_line}}}, RELATION{PATH{NAME_REF{refund}}}) from server NAME_REF{branch} into NAME_REF{shop}}",
    ),
    (
        "import foreign schema sales except (draft) from server branch into shop options (import_default 'true')",
        "IMPORT_FOREIGN_SCHEMA{import foreign schema NAME_REF{sales} except (RELATION{PATH{NAME_REF{draft}}}) from server NAME_REF{branch} into NAME_REF{shop} FOREIGN_OPTIONS{options (OPTION{NAME_REF{import_default} LITERAL{'true'}})}}",
    ),
    (
        "import foreign schema sales from server branch into shop",
        "IMPORT_FOREIGN_SCHEMA{import foreign schema NAME_REF{sales} from server NAME_REF{branch} into NAME_REF{shop}}",
    ),
    (
        "truncate draft",
        "TRUNCATE{truncate RELATION{PATH{NAME_REF{draft}}}}",
    ),
    (
        "truncate table only draft, shop.refund * restart identity cascade",
        "TRUNCATE{truncate table RELATION{only PATH{NAME_REF{draft}}}, RELATION{PATH{NAME_REF{shop}.NAME_REF{refund}} *} restart identity cascade}",
    ),
];

#[test]
fn maintenance_has_trees(rt: HostRuntime) -> Result<(), Fail> {
    assert_trees(&rt, &CASES)
}
