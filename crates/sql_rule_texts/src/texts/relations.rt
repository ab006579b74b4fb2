//! Indexes, views, sequences and statistics.

pub(crate) const RELATIONS: &str = r#"
-- Indexes, views, sequences, and statistics.

create_index = CREATE UNIQUE? INDEX CONCURRENTLY? ((IF NOT EXISTS)? name)? ON relation access_method? '(' {index_item} ')'
    include? nulls_distinct? (WITH options)? tablespace? where? => CREATE_INDEX
index_item "a column or an expression" = index_key collate? operator_class? (ASC | DESC)? nulls_order? => INDEX_ITEM
index_key "a column or an expression" = (primary | special) ~(NAME_REF | CALL_EXPR | CAST_EXPR | PAREN_EXPR)
operator_class "an operator class" = class_ref ('.' label_ref)* options?+ => OPERATOR_CLASS
class_ref "an operator class" = ClassName => NAME_REF
include = INCLUDE '(' {index_item} ')' => INCLUDE_CLAUSE
alter_index = ALTER INDEX (IF EXISTS table ({table_action} | rename)
    / table ({table_action} | rename | attach_index | depends)) => ALTER_INDEX
attach_index = ATTACH PARTITION table => ATTACH_PARTITION
depends = NO? DEPENDS ON EXTENSION name_ref => DEPENDS_ON
-- PostgreSQL 16: without the name of a database.
reindex = REINDEX utility_options? ((INDEX | TABLE) CONCURRENTLY?+ table | (SCHEMA | SYSTEM | DATABASE) CONCURRENTLY?+ name_ref?) => REINDEX
cluster = CLUSTER (utility_options table (USING name_ref)? | VERBOSE?+ (clustered ON table | cluster_table (USING name_ref)?)?) => CLUSTER
clustered "an index" = Name => NAME_REF
cluster_table "a table name" = cluster_ref ('.' label_ref)* => PATH
cluster_ref "a table name" = Name => NAME_REF

create_view = CREATE (OR REPLACE)? (TEMPORARY | TEMP | (LOCAL | GLOBAL) (TEMPORARY | TEMP) | UNLOGGED)? (VIEW new_path new_columns? (WITH options)? AS query (WITH (CASCADED | LOCAL)? CHECK OPTION)?
    | RECURSIVE VIEW new_path new_columns (WITH options)? AS query (WITH (CASCADED | LOCAL)? CHECK OPTION)?) => CREATE_VIEW
alter_view = ALTER VIEW (IF EXISTS)?+ table alter_relation => ALTER_VIEW
create_materialized_view = CREATE UNLOGGED? MATERIALIZED VIEW (IF NOT EXISTS)? new_path new_columns? access_method? (WITH options)? tablespace?
    AS query with_data?+ => CREATE_MATERIALIZED_VIEW
alter_materialized_view = ALTER MATERIALIZED VIEW (IF EXISTS table alter_relation / table (alter_relation | depends)) => ALTER_MATERIALIZED_VIEW
refresh = REFRESH MATERIALIZED VIEW CONCURRENTLY? table with_data? => REFRESH

create_sequence = CREATE (TEMPORARY | TEMP | (LOCAL | GLOBAL) (TEMPORARY | TEMP) | UNLOGGED)? SEQUENCE (IF NOT EXISTS)? new_path sequence_option* => CREATE_SEQUENCE
sequence_option "a sequence option" = sequence_setting => SEQUENCE_OPTION
sequence_setting "a sequence option" = AS simple_type | CACHE number | CYCLE | NO (CYCLE | MAXVALUE | MINVALUE) | INCREMENT BY? number
    | MAXVALUE number | MINVALUE number | OWNED BY path | SEQUENCE NAME path | START WITH? number | RESTART (WITH? number)?
alter_sequence = ALTER SEQUENCE (IF EXISTS)?+ table (sequence_option+ | {table_action} | rename | set_schema) => ALTER_SEQUENCE

-- PostgreSQL 16: without a name.
create_statistics = CREATE STATISTICS ((IF NOT EXISTS)? new_path)? ('(' names ')')? ON {statistics_item} FROM {from_item} => CREATE_STATISTICS
statistics_item "a column or an expression" = (primary | special) ~(NAME_REF | CALL_EXPR | CAST_EXPR | PAREN_EXPR)
alter_statistics = ALTER STATISTICS (IF EXISTS path set_statistics / path (set_statistics | rename | owner_to | set_schema)) => ALTER_STATISTICS
"#;
