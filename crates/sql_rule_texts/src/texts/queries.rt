//! Queries, tables of FROM, and statements that change rows.

pub(crate) const QUERIES: &str = r#"
-- Queries, and statements that change rows.

-- A statement that may stand after EXPLAIN, PREPARE, WITH and COPY.
row_statement "a query" = with_clause? (query_body => QUERY | insert_body => INSERT | update_body => UPDATE | delete_body => DELETE | merge_body => MERGE)

query "a query" = with_clause? query_body => QUERY
query_body = select_operand order_by?+ (locking_clauses limits?+ | limits locking_clauses?+)?+
limits = limit offset?+ | offset limit?+
select_operand "a query" = select | values | TABLE relation => TABLE_QUERY | '(' query ')' => PAREN_QUERY
    left _ (UNION | EXCEPT) (ALL | DISTINCT)? _ => COMPOUND_SELECT
    left _ INTERSECT (ALL | DISTINCT)? _ => COMPOUND_SELECT

select "SELECT" = SELECT (ALL? targets?+ | DISTINCT distinct_on? targets) into? from_clause? where? group_by? having? windows? => SELECT
distinct_on = ON '(' {expression} ')' => DISTINCT_ON
targets = {target} => TARGET_LIST
target "an expression" = expression target_label? => TARGET | '*' => TARGET
target_label "an alias" = AS label | bare_label
bare_label "an alias" = BareLabel => NAME
into = INTO (TEMPORARY | TEMP | (LOCAL | GLOBAL) (TEMPORARY | TEMP) | UNLOGGED)?+ TABLE? into_path => INTO_CLAUSE
into_path "a table name" = into_name => PATH | schema_ref '.' (middle_ref '.')* label => PATH
into_name "a table name" = Name => NAME | ':' Label => PARAM_REF
from_clause = FROM {from_item} => FROM_CLAUSE
where = WHERE expression => WHERE_CLAUSE
group_by = GROUP BY (ALL | DISTINCT)? {group_item} => GROUP_BY_CLAUSE
group_item "an expression" = '(' ')' => EMPTY_GROUP / (CUBE | ROLLUP) '(' {expression} ')' => GROUP_CALL
    / GROUPING SETS '(' {group_item} ')' => GROUPING_SETS / expression
having = HAVING expression => HAVING_CLAUSE
windows = WINDOW {window} => WINDOW_CLAUSE
window "a window" = name AS window_spec => WINDOW_DEF
window_spec "a window" = '(' window_ref?+ partition? order_by? frame? ')' => WINDOW_SPEC
window_ref "a window" = WindowName => NAME_REF
partition = PARTITION BY {expression} => PARTITION_BY
frame = (RANGE | ROWS | GROUPS) (BETWEEN frame_bound AND frame_bound | frame_bound) (EXCLUDE (CURRENT ROW | GROUP | TIES | NO OTHERS))? => FRAME_CLAUSE
frame_bound "a frame bound" = UNBOUNDED (PRECEDING | FOLLOWING) => FRAME_BOUND / CURRENT ROW => FRAME_BOUND / expression (PRECEDING | FOLLOWING) => FRAME_BOUND
order_by = ORDER BY {sort_item} => ORDER_BY_CLAUSE
sort_item "an expression" = expression (USING any_sign | ASC | DESC)? nulls_order? => SORT_ITEM
nulls_order = NULLS (FIRST | LAST)

limit = LIMIT (ALL | expression) => LIMIT_CLAUSE | FETCH (FIRST | NEXT) (fetch_end / fetch_count fetch_end) => FETCH_CLAUSE
-- ROWS is a count only where ROW or ROWS stands after it.
fetch_end "ROW or ROWS" = (ROW | ROWS) (ONLY | WITH TIES)
offset = OFFSET expression (ROW | ROWS)?+ => OFFSET_CLAUSE
fetch_count "a number of rows" = ('+' | '-') (INT_NUMBER | NUMERIC_NUMBER) => LITERAL | primary
locking_clauses = locking_clause locking_clause*+ | FOR READ ONLY => LOCKING_CLAUSE
locking_clause = FOR (UPDATE | NO KEY UPDATE | SHARE | KEY SHARE) (OF {table})? (NOWAIT | SKIP LOCKED)?+ => LOCKING_CLAUSE
values = VALUES {row_values} => VALUES_CLAUSE
row_values "a row of values" = '(' {expression} ')' => ROW_VALUES

with_clause = WITH RECURSIVE?+ {with_table} => WITH_CLAUSE
with_table "a WITH query" = with_name new_columns? AS (NOT? MATERIALIZED)? '(' row_statement ')' search?+ cycle?+ => WITH_TABLE
with_name "a name" = Name => NAME
search = SEARCH (DEPTH | BREADTH) FIRST BY names SET new_column => SEARCH_CLAUSE
cycle = CYCLE names SET new_column (TO constant DEFAULT constant)? USING new_column => CYCLE_CLAUSE
constant "a constant" = primary ~(LITERAL | CAST_EXPR)

-- Tables of FROM, and joins of them. PostgreSQL 16: queries without an alias; 17: JSON_TABLE.
from_item "a table" = from_table
    left _ (CROSS JOIN from_table | NATURAL join_type? JOIN from_table | join_type? JOIN from_item join_condition) => JOIN_EXPR
join_type = (FULL | LEFT | RIGHT) OUTER? | INNER
join_condition "ON or USING" = USING columns (AS name)?+ => JOIN_USING | ON expression => JOIN_ON
from_table "a table" = paren_table
    / LATERAL ('(' query ')' alias?+ => FROM_SUBQUERY | lateral_function => LATERAL_FUNCTION)
    / ONLY (table | '(' table ')') alias?+ sample?+ => FROM_TABLE
    / keyword_function
    / special_table '*'?+ alias?+ sample?+ => FROM_TABLE
    / from_path (table_arguments ordinality?+ function_alias?+ => TABLE_FUNCTION | '*'?+ alias?+ sample?+ => FROM_TABLE)
paren_table "a table" = (@begins_query '(' query ')' alias?+ => FROM_SUBQUERY
    | '(' from_item ~(JOIN_EXPR | PAREN_JOIN) ')' alias?+ => PAREN_JOIN)
lateral_function "a function call" = keyword_function / from_path table_arguments ordinality?+ function_alias?+ => TABLE_FUNCTION
table_arguments "arguments" = '(' ('*' | (ALL | DISTINCT)? {argument} order_by? (AS name)? json_passing? (json_columns json_clause*)?)? ')' => ARG_LIST
special_table "a table name" = table_word ('.' label_ref)* => PATH
table_word "a table name" = TableWord => NAME_REF
from_path "a table name" = from_ref ('.' label_ref)* => PATH
from_ref "a table name" = FromName => NAME_REF | ':' Label => PARAM_REF
keyword_function = xml_table alias?+ => TABLE_FUNCTION
    / ROWS FROM '(' {rows_from} ')' ordinality?+ function_alias?+ => TABLE_FUNCTION
    / (special_call | keyword_call) ordinality?+ function_alias?+ => TABLE_FUNCTION
    / function_word arg_list ordinality?+ function_alias?+ => TABLE_FUNCTION
    / CurrentValue ordinality?+ function_alias?+ => TABLE_FUNCTION
rows_from "a function call" = function_call (AS '(' {function_column} ')')? => TABLE_FUNCTION
function_call "a function call" = special_call / keyword_call / CurrentValue => CALL_EXPR / function_path arg_list => CALL_EXPR
ordinality = WITH ORDINALITY
alias "an alias" = AS? name new_columns?+ => ALIAS
function_alias "an alias" = (AS? name (new_columns / '(' {function_column} ')')?+ | AS '(' {function_column} ')') => ALIAS
function_column "a column" = new_column type collate? => COLUMN_DEF
sample = TABLESAMPLE function_path '(' {expression} ')' (REPEATABLE '(' expression ')')?+ => TABLESAMPLE_CLAUSE
relation "a table name" = (ONLY (table | '(' table ')') | table '*'?+) => RELATION
target_table "a table name" = relation (AS name | not_set)?+ => TARGET_TABLE
not_set "an alias" = NotSet => NAME

-- INSERT, UPDATE, DELETE and MERGE.
insert_body = INSERT INTO table (AS name)? (DEFAULT VALUES | insert_columns?+ overriding? query) on_conflict? returning?
insert_columns "column names" = '(' {set_column} ')' => COLUMN_LIST
set_column "a column name" = column_ref ('.' (label_ref | '*') | subscript)* => SET_COLUMN
subscript = '[' (':' expression? / expression (':' expression?)?) ']'
overriding = OVERRIDING (USER | SYSTEM) VALUE
on_conflict = ON CONFLICT (conflict_target where? | ON CONSTRAINT name_ref)? DO (NOTHING | UPDATE set_clause where?) => ON_CONFLICT_CLAUSE
conflict_target = '(' {index_item} ')' => CONFLICT_TARGET
-- PostgreSQL 18: names of the old row and the new one.
returning = RETURNING returning_names? targets => RETURNING_CLAUSE
returning_names = WITH '(' {returning_name} ')' => RETURNING_NAMES
returning_name "OLD or NEW" = (OLD | NEW) AS name => ALIAS
update_body = UPDATE target_table set_clause from_clause? where_current? returning?
set_clause = SET {set_item} => SET_CLAUSE
set_item "a column name" = (set_column | insert_columns) '=' expression => SET_ITEM
where_current = WHERE (CURRENT OF name_ref / expression) => WHERE_CLAUSE
delete_body = DELETE FROM target_table using_clause? where_current? returning?
using_clause = USING {from_item} => USING_CLAUSE
merge_body = MERGE INTO target_table USING from_item ON expression merge_when+ returning?
-- PostgreSQL 17: BY SOURCE, BY TARGET and RETURNING.
merge_when = WHEN (MATCHED (AND expression)? THEN (UPDATE set_clause | DELETE | DO NOTHING)
    | NOT MATCHED (BY SourceTarget (AND expression)? THEN (merge_insert | UPDATE set_clause | DELETE | DO NOTHING)
        | (AND expression)? THEN (merge_insert | DO NOTHING))) => MERGE_WHEN
merge_insert = INSERT (DEFAULT VALUES | insert_columns? overriding? VALUES row_values) => MERGE_INSERT
"#;
