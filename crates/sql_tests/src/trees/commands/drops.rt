//! DROP of each kind of object.

use crate::trees::assert_trees;
use std::test::Fail;

/// Texts, and what is in their files.
static CASES: [(&str, &str); 40] = [
    (
        "drop access method if exists heap2 cascade",
        "DROP{drop access method if exists NAME_REF{heap2} cascade}",
    ),
    (
        "drop aggregate if exists shop.mean(int order by real), tally(*)",
        "DROP{drop aggregate if exists FUNCTION_SIGNATURE{PATH{NAME_REF{shop}.NAME_REF{mean}}PARAM_LIST{(PARAM{TYPE{int}} order by PARAM{TYPE{real}})}}, FUNCTION_SIGNATURE{PATH{NAME_REF{tally}}PARAM_LIST{(*)}}}",
    ),
    (
        "drop cast if exists (text as isbn) restrict",
        "DROP{drop cast if exists (TYPE{NAME_REF{text}} as TYPE{NAME_REF{isbn}}) restrict}",
    ),
    (
        "drop collation natural_order",
        "DROP{drop collation PATH{NAME_REF{natural_order}}}",
    ),
    (
        "drop conversion if exists shop.from_old",
        "DROP{drop conversion if exists PATH{NAME_REF{shop}.NAME_REF{from_old}}}",
    ),
    (
        "drop database if exists books with (force)",
        "DROP{drop database if exists NAME_REF{books} with (force)}",
    ),
    (
        "drop domain shop.isbn",
        "DROP{drop domain TYPE{NAME_REF{shop}.NAME_REF{isbn}}}",
    ),
    (
        "drop event trigger no_drops",
        "DROP{drop event trigger NAME_REF{no_drops}}",
    ),
    (
        "drop extension if exists hstore, citext cascade",
        "DROP{drop extension if exists NAME_REF{hstore}, NAME_REF{citext} cascade}",
    ),
    (
        "drop foreign data wrapper old_files",
        "DROP{drop foreign data wrapper NAME_REF{old_files}}",
    ),
    (
        "drop foreign table if exists shop.refund, order_line",
        "DROP{drop foreign table if exists PATH{NAME_REF{shop}.NAME_REF{refund}}, PATH{NAME_REF{order_line}}}",
    ),
    (
        "drop function if exists tax(price numeric, out int), net cascade",
        "DROP{drop function if exists FUNCTION_SIGNATURE{PATH{NAME_REF{tax}}PARAM_LIST{(PARAM{NAME{price} TYPE{numeric}}, PARAM{out TYPE{int}})}}, FUNCTION_SIGNATURE{PATH{NAME_REF{net}}} cascade}",
    ),
    (
        "drop index concurrently if exists shop.book_title",
        "DROP{drop index concurrently if exists PATH{NAME_REF{shop}.NAME_REF{book_title}}}",
    ),
    (
        "drop index book_title, book_price restrict",
        "DROP{drop index PATH{NAME_REF{book_title}}, PATH{NAME_REF{book_price}} restrict}",
    ),
    (
        "drop procedural language if exists plsample",
        "DROP{drop procedural language if exists NAME_REF{plsample}}",
    ),
    (
        "drop materialized view best_sellers cascade",
        "DROP{drop materialized view PATH{NAME_REF{best_sellers}} cascade}",
    ),
    (
        "drop operator if exists ^ (int, int), shop.~~~ (none, bit)",
        "DROP{drop operator if exists OPERATOR_SIGNATURE{OP{^} OPERAND_TYPES{(TYPE{int}, TYPE{int})}}, OPERATOR_SIGNATURE{OP{NAME_REF{shop}.CUSTOM_OP{~~~}} OPERAND_TYPES{(none, TYPE{bit})}}}",
    ),
    (
        "drop operator class if exists isbn_ops using btree",
        "DROP{drop operator class if exists PATH{NAME_REF{isbn_ops}} using NAME_REF{btree}}",
    ),
    (
        "drop operator family shop.isbn_ops using hash cascade",
        "DROP{drop operator family PATH{NAME_REF{shop}.NAME_REF{isbn_ops}} using NAME_REF{hash} cascade}",
    ),
    (
        "drop policy if exists own_rows on shop.book",
        "DROP{drop policy if exists NAME_REF{own_rows} on PATH{NAME_REF{shop}.NAME_REF{book}}}",
    ),
    (
        "drop procedure restock()",
        "DROP{drop procedure FUNCTION_SIGNATURE{PATH{NAME_REF{restock}}PARAM_LIST{()}}}",
    ),
    (
        "drop publication all_books, new_books",
        "DROP{drop publication NAME_REF{all_books}, NAME_REF{new_books}}",
    ),
    (
        "drop routine shop.tax",
        "DROP{drop routine FUNCTION_SIGNATURE{PATH{NAME_REF{shop}.NAME_REF{tax}}}}",
    ),
    (
        "drop rule no_insert on book restrict",
        "DROP{drop rule NAME_REF{no_insert} on PATH{NAME_REF{book}} restrict}",
    ),
    (
        "drop schema if exists shop, archive cascade",
        "DROP{drop schema if exists NAME_REF{shop}, NAME_REF{archive} cascade}",
    ),
    (
        "drop sequence shop.book_id",
        "DROP{drop sequence PATH{NAME_REF{shop}.NAME_REF{book_id}}}",
    ),
    (
        "drop server if exists branch",
        "DROP{drop server if exists NAME_REF{branch}}",
    ),
    (
        "drop statistics shop.book_pair",
        "DROP{drop statistics PATH{NAME_REF{shop}.NAME_REF{book_pair}}}",
    ),
    (
        "drop subscription if exists from_branch",
        "DROP{drop subscription if exists NAME_REF{from_branch}}",
    ),
    (
        "drop table shop.book, author",
        "DROP{drop table PATH{NAME_REF{shop}.NAME_REF{book}}, PATH{NAME_REF{author}}}",
    ),
    (
        "drop tablespace if exists fast",
        "DROP{drop tablespace if exists NAME_REF{fast}}",
    ),
    (
        "drop text search configuration shop.titles",
        "DROP{drop text search configuration PATH{NAME_REF{shop}.NAME_REF{titles}}}",
    ),
    (
        "drop text search dictionary if exists nouns",
        "DROP{drop text search dictionary if exists PATH{NAME_REF{nouns}}}",
    ),
    (
        "drop text search parser words",
        "DROP{drop text search parser PATH{NAME_REF{words}}}",
    ),
    (
        "drop text search template stems cascade",
        "DROP{drop text search template PATH{NAME_REF{stems}} cascade}",
    ),
    (
        "drop transform if exists for hstore language plpython3u",
        "DROP{drop transform if exists for TYPE{NAME_REF{hstore}} language NAME_REF{plpython3u}}",
    ),
    (
        "drop trigger stamp on book",
        "DROP{drop trigger NAME_REF{stamp} on PATH{NAME_REF{book}}}",
    ),
    (
        "drop type if exists mood, shop.money_pair cascade",
        "DROP{drop type if exists TYPE{NAME_REF{mood}}, TYPE{NAME_REF{shop}.NAME_REF{money_pair}} cascade}",
    ),
    (
        "drop user mapping if exists for ana server branch",
        "DROP{drop user mapping if exists for ROLE_REF{ana} server NAME_REF{branch}}",
    ),
    (
        "drop view if exists shop.cheap",
        "DROP{drop view if exists PATH{NAME_REF{shop}.NAME_REF{cheap}}}",
    ),
];

#[test]
fn drops_have_trees(rt: HostRuntime) -> Result<(), Fail> {
    assert_trees(&rt, &CASES)
}
