//! Queries, and statements that change rows.

use crate::trees::assert_trees;
use std::test::Fail;

/// Texts, and what is in their files.
static CASES: [(&str, &str); 31] = [
    (
        "select distinct title as name, price * 2 twice from book b order by name asc nulls first, 2 using > limit all offset 3 rows",
        "QUERY{SELECT{select distinct TARGET_LIST{TARGET{NAME_REF{title} as NAME{name}}, TARGET{BIN_EXPR{NAME_REF{price} * LITERAL{2}} NAME{twice}}} FROM_CLAUSE{from FROM_TABLE{PATH{NAME_REF{book}} ALIAS{NAME{b}}}}} ORDER_BY_CLAUSE{order by SORT_ITEM{NAME_REF{name} asc nulls first}, SORT_ITEM{LITERAL{2} using >}} LIMIT_CLAUSE{limit all} OFFSET_CLAUSE{offset LITERAL{3} rows}}",
    ),
    (
        "select distinct on (author, lower(title)) * from book",
        "QUERY{SELECT{select distinct DISTINCT_ON{on (NAME_REF{author}, CALL_EXPR{NAME_REF{lower}ARG_LIST{(NAME_REF{title})}})} TARGET_LIST{TARGET{*}} FROM_CLAUSE{from FROM_TABLE{PATH{NAME_REF{book}}}}}}",
    ),
    (
        "select all b.* from only shop.book as b (id, name) tablesample bernoulli (10) repeatable (7)",
        "QUERY{SELECT{select all TARGET_LIST{TARGET{FIELD_EXPR{NAME_REF{b}.*}}} FROM_CLAUSE{from FROM_TABLE{only PATH{NAME_REF{shop}.NAME_REF{book}} ALIAS{as NAME{b} COLUMN_LIST{(NAME{id}, NAME{name})}} TABLESAMPLE_CLAUSE{tablesample PATH{NAME_REF{bernoulli}} (LITERAL{10}) repeatable (LITERAL{7})}}}}}",
    ),
    (
        "select sum(price) from book * group by distinct author, grouping sets ((), cube (a, b), (a, c)) having count(*) > 1",
        "QUERY{SELECT{select TARGET_LIST{TARGET{CALL_EXPR{NAME_REF{sum}ARG_LIST{(NAME_REF{price})}}}} FROM_CLAUSE{from FROM_TABLE{PATH{NAME_REF{book}} *}} GROUP_BY_CLAUSE{group by distinct NAME_REF{author}, GROUPING_SETS{grouping sets (EMPTY_GROUP{()}, GROUP_CALL{cube (NAME_REF{a}, NAME_REF{b})}, ROW_EXPR{(NAME_REF{a}, NAME_REF{c})})}} HAVING_CLAUSE{having BIN_EXPR{CALL_EXPR{NAME_REF{count}ARG_LIST{(*)}} > LITERAL{1}}}}}",
    ),
    (
        "select rank() over by_author, sum(price) over (by_author order by day rows between unbounded preceding and current row exclude ties) from book window by_author as (partition by author, year order by price desc), all_books as ()",
        "QUERY{SELECT{select TARGET_LIST{TARGET{CALL_EXPR{NAME_REF{rank}ARG_LIST{()} OVER_CLAUSE{over NAME_REF{by_author}}}}, TARGET{CALL_EXPR{NAME_REF{sum}ARG_LIST{(NAME_REF{price})} OVER_CLAUSE{over WINDOW_SPEC{(NAME_REF{by_author} ORDER_BY_CLAUSE{order by SORT_ITEM{NAME_REF{day}}} FRAME_CLAUSE{rows between FRAME_BOUND{unbounded preceding} and FRAME_BOUND{current row} exclude ties})}}}}} FROM_CLAUSE{from FROM_TABLE{PATH{NAME_REF{book}}}} WINDOW_CLAUSE{window WINDOW_DEF{NAME{by_author} as WINDOW_SPEC{(PARTITION_BY{partition by NAME_REF{author}, NAME_REF{year}} ORDER_BY_CLAUSE{order by SORT_ITEM{NAME_REF{price} desc}})}}, WINDOW_DEF{NAME{all_books} as WINDOW_SPEC{()}}}}}",
    ),
    (
        "select avg(price) over (range interval '1' day preceding), last_value(price) over (groups between 1 preceding and 2 following exclude no others)",
        "QUERY{SELECT{select TARGET_LIST{TARGET{CALL_EXPR{NAME_REF{avg}ARG_LIST{(NAME_REF{price})} OVER_CLAUSE{over WINDOW_SPEC{(FRAME_CLAUSE{range FRAME_BOUND{CAST_EXPR{interval LITERAL{'1'} day} preceding}})}}}}, TARGET{CALL_EXPR{NAME_REF{last_value}ARG_LIST{(NAME_REF{price})} OVER_CLAUSE{over WINDOW_SPEC{(FRAME_CLAUSE{groups between FRAME_BOUND{LITERAL{1} preceding} and FRAME_BOUND{LITERAL{2} following} exclude no others})}}}}}}}",
    ),
    // The tables of FROM.
    (
        "select * from a cross join b natural left outer join c full join d using (x, y) as j",
        "QUERY{SELECT{select TARGET_LIST{TARGET{*}} FROM_CLAUSE{from JOIN_EXPR{JOIN_EXPR{JOIN_EXPR{FROM_TABLE{PATH{NAME_REF{a}}} cross join FROM_TABLE{PATH{NAME_REF{b}}}} natural left outer join FROM_TABLE{PATH{NAME_REF{c}}}} full join FROM_TABLE{PATH{NAME_REF{d}}} JOIN_USING{using COLUMN_LIST{(NAME_REF{x}, NAME_REF{y})} as NAME{j}}}}}}",
    ),
    (
        "select * from (a right join b inner join c on true on a.x = b.x) as j",
        "QUERY{SELECT{select TARGET_LIST{TARGET{*}} FROM_CLAUSE{from PAREN_JOIN{(JOIN_EXPR{FROM_TABLE{PATH{NAME_REF{a}}} right join JOIN_EXPR{FROM_TABLE{PATH{NAME_REF{b}}} inner join FROM_TABLE{PATH{NAME_REF{c}}} JOIN_ON{on LITERAL{true}}} JOIN_ON{on BIN_EXPR{FIELD_EXPR{NAME_REF{a}.NAME_REF{x}} = FIELD_EXPR{NAME_REF{b}.NAME_REF{x}}}}}) ALIAS{as NAME{j}}}}}}",
    ),
    (
        "select * from (values (1, 'a')) as v (id, name), lateral (select v.id) w",
        "QUERY{SELECT{select TARGET_LIST{TARGET{*}} FROM_CLAUSE{from FROM_SUBQUERY{(QUERY{VALUES_CLAUSE{values ROW_VALUES{(LITERAL{1}, LITERAL{'a'})}}}) ALIAS{as NAME{v} COLUMN_LIST{(NAME{id}, NAME{name})}}}, FROM_SUBQUERY{lateral (QUERY{SELECT{select TARGET_LIST{TARGET{FIELD_EXPR{NAME_REF{v}.NAME_REF{id}}}}}}) ALIAS{NAME{w}}}}}}",
    ),
    (
        "select * from shop.late(1) with ordinality as l (id, no), rows_of('x') as r (id int, name text collate \"C\"), rows_of() as (id int)",
        "QUERY{SELECT{select TARGET_LIST{TARGET{*}} FROM_CLAUSE{from TABLE_FUNCTION{PATH{NAME_REF{shop}.NAME_REF{late}}ARG_LIST{(LITERAL{1})} with ordinality ALIAS{as NAME{l} COLUMN_LIST{(NAME{id}, NAME{no})}}}, TABLE_FUNCTION{PATH{NAME_REF{rows_of}}ARG_LIST{(LITERAL{'x'})} ALIAS{as NAME{r} (COLUMN_DEF{NAME{id} TYPE{int}}, COLUMN_DEF{NAME{name} TYPE{NAME_REF{text}} COLLATE_CLAUSE{collate PATH{NAME_REF{\"C\"}}}})}}, TABLE_FUNCTION{PATH{NAME_REF{rows_of}}ARG_LIST{()} ALIAS{as (COLUMN_DEF{NAME{id} TYPE{int}})}}}}}",
    ),
    (
        "select * from lateral rows from (f() as (a int), g(1)) with ordinality t, coalesce(1, 2) as c, current_date",
        "QUERY{SELECT{select TARGET_LIST{TARGET{*}} FROM_CLAUSE{from LATERAL_FUNCTION{lateral TABLE_FUNCTION{rows from (TABLE_FUNCTION{CALL_EXPR{PATH{NAME_REF{f}}ARG_LIST{()}} as (COLUMN_DEF{NAME{a} TYPE{int}})}, TABLE_FUNCTION{CALL_EXPR{PATH{NAME_REF{g}}ARG_LIST{(LITERAL{1})}}}) with ordinality ALIAS{NAME{t}}}}, TABLE_FUNCTION{CALL_EXPR{coalesce(LITERAL{1}, LITERAL{2})} ALIAS{as NAME{c}}}, TABLE_FUNCTION{current_date}}}}",
    ),
    // Queries of queries.
    (
        "table a except distinct table only b union (select 1) for update of a, shop.b nowait for no key update skip locked",
        "QUERY{COMPOUND_SELECT{COMPOUND_SELECT{TABLE_QUERY{table RELATION{PATH{NAME_REF{a}}}} except distinct TABLE_QUERY{table RELATION{only PATH{NAME_REF{b}}}}} union PAREN_QUERY{(QUERY{SELECT{select TARGET_LIST{TARGET{LITERAL{1}}}}})}} LOCKING_CLAUSE{for update of PATH{NAME_REF{a}}, PATH{NAME_REF{shop}.NAME_REF{b}} nowait} LOCKING_CLAUSE{for no key update skip locked}}",
    ),
    (
        "select * from book order by 1 offset 2 fetch first 5 rows with ties for share",
        "QUERY{SELECT{select TARGET_LIST{TARGET{*}} FROM_CLAUSE{from FROM_TABLE{PATH{NAME_REF{book}}}}} ORDER_BY_CLAUSE{order by SORT_ITEM{LITERAL{1}}} OFFSET_CLAUSE{offset LITERAL{2}} FETCH_CLAUSE{fetch first LITERAL{5} rows with ties} LOCKING_CLAUSE{for share}}",
    ),
    (
        "select * from book fetch next row only for read only",
        "QUERY{SELECT{select TARGET_LIST{TARGET{*}} FROM_CLAUSE{from FROM_TABLE{PATH{NAME_REF{book}}}}} FETCH_CLAUSE{fetch next row only} LOCKING_CLAUSE{for read only}}",
    ),
    (
        "select * into temporary table shop.cheap from book",
        "QUERY{SELECT{select TARGET_LIST{TARGET{*}} INTO_CLAUSE{into temporary table PATH{NAME_REF{shop}.NAME{cheap}}} FROM_CLAUSE{from FROM_TABLE{PATH{NAME_REF{book}}}}}}",
    ),
    (
        "select * into unlogged cheap from book",
        "QUERY{SELECT{select TARGET_LIST{TARGET{*}} INTO_CLAUSE{into unlogged PATH{NAME{cheap}}} FROM_CLAUSE{from FROM_TABLE{PATH{NAME_REF{book}}}}}}",
    ),
    (
        "values (1, default), (2 + 3, null) order by 1 limit 1",
        "QUERY{VALUES_CLAUSE{values ROW_VALUES{(LITERAL{1}, DEFAULT_EXPR{default})}, ROW_VALUES{(BIN_EXPR{LITERAL{2} + LITERAL{3}}, LITERAL{null})}} ORDER_BY_CLAUSE{order by SORT_ITEM{LITERAL{1}}} LIMIT_CLAUSE{limit LITERAL{1}}}",
    ),
    (
        "table shop.book *",
        "QUERY{TABLE_QUERY{table RELATION{PATH{NAME_REF{shop}.NAME_REF{book}} *}}}",
    ),
    (
        "with recursive part (id, up) as not materialized (select 1, 0 union select id, up from part) search depth first by id, up set path cycle id set again to true default false using way, gone as materialized (delete from book returning id) select * from part, gone",
        "QUERY{WITH_CLAUSE{with recursive WITH_TABLE{NAME{part} COLUMN_LIST{(NAME{id}, NAME{up})} as not materialized (QUERY{COMPOUND_SELECT{SELECT{select TARGET_LIST{TARGET{LITERAL{1}}, TARGET{LITERAL{0}}}} union SELECT{select TARGET_LIST{TARGET{NAME_REF{id}}, TARGET{NAME_REF{up}}} FROM_CLAUSE{from FROM_TABLE{PATH{NAME_REF{part}}}}}}}) SEARCH_CLAUSE{search depth first by NAME_REF{id}, NAME_REF{up} set NAME{path}} CYCLE_CLAUSE{cycle NAME_REF{id} set NAME{again} to LITERAL{true} default LITERAL{false} using NAME{way}}}, WITH_TABLE{NAME{gone} as materialized (DELETE{delete from TARGET_TABLE{RELATION{PATH{NAME_REF{book}}}} RETURNING_CLAUSE{returning TARGET_LIST{TARGET{NAME_REF{id}}}}})}} SELECT{select TARGET_LIST{TARGET{*}} FROM_CLAUSE{from FROM_TABLE{PATH{NAME_REF{part}}}, FROM_TABLE{PATH{NAME_REF{gone}}}}}}",
    ),
    (
        "with recursive p as (select 1) search breadth first by id set o cycle id set c using w table p",
        "QUERY{WITH_CLAUSE{with recursive WITH_TABLE{NAME{p} as (QUERY{SELECT{select TARGET_LIST{TARGET{LITERAL{1}}}}}) SEARCH_CLAUSE{search breadth first by NAME_REF{id} set NAME{o}} CYCLE_CLAUSE{cycle NAME_REF{id} set NAME{c} using NAME{w}}}} TABLE_QUERY{table RELATION{PATH{NAME_REF{p}}}}}",
    ),
    // Statements that change rows.
    (
        "insert into shop.book as b (id, pair.amount, tags[1]) overriding system value select 1, 2, 3 on conflict (lower(isbn) collate \"C\" text_ops) where on_sale do update set price = excluded.price where old_one returning id as new_id",
        "INSERT{insert into PATH{NAME_REF{shop}.NAME_REF{book}} as NAME{b} COLUMN_LIST{(SET_COLUMN{NAME_REF{id}}, SET_COLUMN{NAME_REF{pair}.NAME_REF{amount}}, SET_COLUMN{NAME_REF{tags}[LITERAL{1}]})} overriding system value QUERY{SELECT{select TARGET_LIST{TARGET{LITERAL{1}}, TARGET{LITERAL{2}}, TARGET{LITERAL{3}}}}} ON_CONFLICT_CLAUSE{on conflict CONFLICT_TARGET{(INDEX_ITEM{CALL_EXPR{NAME_REF{lower}ARG_LIST{(NAME_REF{isbn})}} COLLATE_CLAUSE{collate PATH{NAME_REF{\"C\"}}} OPERATOR_CLASS{NAME_REF{text_ops}}})} WHERE_CLAUSE{where NAME_REF{on_sale}} do update SET_CLAUSE{set SET_ITEM{SET_COLUMN{NAME_REF{price}} = FIELD_EXPR{NAME_REF{excluded}.NAME_REF{price}}}} WHERE_CLAUSE{where NAME_REF{old_one}}} RETURNING_CLAUSE{returning TARGET_LIST{TARGET{NAME_REF{id} as NAME{new_id}}}}}",
    ),
    (
        "insert into book default values on conflict on constraint one_isbn do nothing",
        "INSERT{insert into PATH{NAME_REF{book}} default values ON_CONFLICT_CLAUSE{on conflict on constraint NAME_REF{one_isbn} do nothing}}",
    ),
    (
        "insert into book overriding user value table draft on conflict do nothing",
        "INSERT{insert into PATH{NAME_REF{book}} overriding user value QUERY{TABLE_QUERY{table RELATION{PATH{NAME_REF{draft}}}}} ON_CONFLICT_CLAUSE{on conflict do nothing}}",
    ),
    (
        "with n as (select 1) update shop.book * as b set price = default, (a, b) = (select 1, 2), tags[1:2] = array['x'] from author a where a.id = author returning b.*",
        "UPDATE{WITH_CLAUSE{with WITH_TABLE{NAME{n} as (QUERY{SELECT{select TARGET_LIST{TARGET{LITERAL{1}}}}})}} update TARGET_TABLE{RELATION{PATH{NAME_REF{shop}.NAME_REF{book}} *} as NAME{b}} SET_CLAUSE{set SET_ITEM{SET_COLUMN{NAME_REF{price}} = DEFAULT_EXPR{default}}, SET_ITEM{COLUMN_LIST{(SET_COLUMN{NAME_REF{a}}, SET_COLUMN{NAME_REF{b}})} = SUBQUERY{(QUERY{SELECT{select TARGET_LIST{TARGET{LITERAL{1}}, TARGET{LITERAL{2}}}}})}}, SET_ITEM{SET_COLUMN{NAME_REF{tags}[LITERAL{1}:LITERAL{2}]} = ARRAY_EXPR{arrayARRAY_ITEMS{[LITERAL{'x'}]}}}} FROM_CLAUSE{from FROM_TABLE{PATH{NAME_REF{author}} ALIAS{NAME{a}}}} WHERE_CLAUSE{where BIN_EXPR{FIELD_EXPR{NAME_REF{a}.NAME_REF{id}} = NAME_REF{author}}} RETURNING_CLAUSE{returning TARGET_LIST{TARGET{FIELD_EXPR{NAME_REF{b}.*}}}}}",
    ),
    (
        "update book b set (x) = row(1)",
        "UPDATE{update TARGET_TABLE{RELATION{PATH{NAME_REF{book}}} NAME{b}} SET_CLAUSE{set SET_ITEM{COLUMN_LIST{(SET_COLUMN{NAME_REF{x}})} = ROW_EXPR{row(LITERAL{1})}}}}",
    ),
    (
        "with n as (select 1) delete from only book b using author, n as m where exists (table n) returning *",
        "DELETE{WITH_CLAUSE{with WITH_TABLE{NAME{n} as (QUERY{SELECT{select TARGET_LIST{TARGET{LITERAL{1}}}}})}} delete from TARGET_TABLE{RELATION{only PATH{NAME_REF{book}}} NAME{b}} USING_CLAUSE{using FROM_TABLE{PATH{NAME_REF{author}}}, FROM_TABLE{PATH{NAME_REF{n}} ALIAS{as NAME{m}}}} WHERE_CLAUSE{where EXISTS_EXPR{exists (QUERY{TABLE_QUERY{table RELATION{PATH{NAME_REF{n}}}}})}} RETURNING_CLAUSE{returning TARGET_LIST{TARGET{*}}}}",
    ),
    (
        "delete from book where current of late",
        "DELETE{delete from TARGET_TABLE{RELATION{PATH{NAME_REF{book}}}} WHERE_CLAUSE{where current of NAME_REF{late}}}",
    ),
    (
        "merge into stock as s using (table delivery) as d on s.book = d.book when matched and d.number = 0 then delete when matched then update set number = d.number when not matched and fresh then insert (book) overriding user value values (d.book) when not matched then do nothing",
        "MERGE{merge into TARGET_TABLE{RELATION{PATH{NAME_REF{stock}}} as NAME{s}} using FROM_SUBQUERY{(QUERY{TABLE_QUERY{table RELATION{PATH{NAME_REF{delivery}}}}}) ALIAS{as NAME{d}}} on BIN_EXPR{FIELD_EXPR{NAME_REF{s}.NAME_REF{book}} = FIELD_EXPR{NAME_REF{d}.NAME_REF{book}}} MERGE_WHEN{when matched and BIN_EXPR{FIELD_EXPR{NAME_REF{d}.NAME_REF{number}} = LITERAL{0}} then delete} MERGE_WHEN{when matched then update SET_CLAUSE{set SET_ITEM{SET_COLUMN{NAME_REF{number}} = FIELD_EXPR{NAME_REF{d}.NAME_REF{number}}}}} MERGE_WHEN{when not matched and NAME_REF{fresh} then MERGE_INSERT{insert COLUMN_LIST{(SET_COLUMN{NAME_REF{book}})} overriding user value values ROW_VALUES{(FIELD_EXPR{NAME_REF{d}.NAME_REF{book}})}}} MERGE_WHEN{when not matched then do nothing}}",
    ),
    (
        "with n as (select 1) merge into only stock using n on true when matched then do nothing when not matched then insert default values",
        "MERGE{WITH_CLAUSE{with WITH_TABLE{NAME{n} as (QUERY{SELECT{select TARGET_LIST{TARGET{LITERAL{1}}}}})}} merge into TARGET_TABLE{RELATION{only PATH{NAME_REF{stock}}}} using FROM_TABLE{PATH{NAME_REF{n}}} on LITERAL{true} MERGE_WHEN{when matched then do nothing} MERGE_WHEN{when not matched then MERGE_INSERT{insert default values}}}",
    ),
    // PostgreSQL 17.
    (
        "merge into stock as s using (table delivery) as d on s.book = d.book when not matched by source then delete when not matched by target then insert values (1) returning merge_action()",
        "MERGE{merge into TARGET_TABLE{RELATION{PATH{NAME_REF{stock}}} as NAME{s}} using FROM_SUBQUERY{(QUERY{TABLE_QUERY{table RELATION{PATH{NAME_REF{delivery}}}}}) ALIAS{as NAME{d}}} on BIN_EXPR{FIELD_EXPR{NAME_REF{s}.NAME_REF{book}} = FIELD_EXPR{NAME_REF{d}.NAME_REF{book}}} MERGE_WHEN{when not matched by source then delete} MERGE_WHEN{when not matched by target then MERGE_INSERT{insert values ROW_VALUES{(LITERAL{1})}}} RETURNING_CLAUSE{returning TARGET_LIST{TARGET{CALL_EXPR{NAME_REF{merge_action}ARG_LIST{()}}}}}}",
    ),
    // PostgreSQL 18.
    (
        "update book set price = 1 returning with (old as o, new as n) o.price, n.price",
        "UPDATE{update TARGET_TABLE{RELATION{PATH{NAME_REF{book}}}} SET_CLAUSE{set SET_ITEM{SET_COLUMN{NAME_REF{price}} = LITERAL{1}}} RETURNING_CLAUSE{returning RETURNING_NAMES{with (ALIAS{old as NAME{o}}, ALIAS{new as NAME{n}})} TARGET_LIST{TARGET{FIELD_EXPR{NAME_REF{o}.NAME_REF{price}}}, TARGET{FIELD_EXPR{NAME_REF{n}.NAME_REF{price}}}}}}",
    ),
];

#[test]
fn queries_have_trees(rt: HostRuntime) -> Result<(), Fail> {
    assert_trees(&rt, &CASES)
}
