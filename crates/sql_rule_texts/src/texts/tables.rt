//! CREATE TABLE, ALTER TABLE, columns, constraints and options.

pub(crate) const TABLES: &str = r#"
-- Tables.

create_table = CREATE (TEMPORARY | TEMP | (LOCAL | GLOBAL) (TEMPORARY | TEMP) | UNLOGGED)? TABLE (IF NOT EXISTS)? new_path (
    '(' {table_element}? ')' inherits? partition_by? storage => CREATE_TABLE
    / OF path typed_elements? partition_by? storage => CREATE_TABLE
    / PARTITION OF table typed_elements? partition_bound partition_by? storage => CREATE_TABLE
    / table_as_body => CREATE_TABLE_AS)
create_table_as = CREATE (TEMPORARY | TEMP | (LOCAL | GLOBAL) (TEMPORARY | TEMP) | UNLOGGED)? TABLE (IF NOT EXISTS)? new_path table_as_body => CREATE_TABLE_AS
table_as_body "AS" = new_columns? storage AS (execute | query) with_data?+
storage = access_method? (WITH options | WITHOUT OIDS)? on_commit? tablespace?
access_method = USING name_ref => ACCESS_METHOD
on_commit = ON COMMIT (DROP | DELETE ROWS | PRESERVE ROWS) => ON_COMMIT
tablespace = TABLESPACE name_ref => TABLESPACE
with_data = WITH NO? DATA => WITH_DATA
inherits = INHERITS '(' {table} ')' => INHERITS
partition_by = PARTITION BY Name '(' {partition_item} ')' => PARTITION_BY
partition_item "a column or an expression" = index_key collate? (class_ref ('.' label_ref)*)? => PARTITION_ITEM
partition_bound "FOR VALUES or DEFAULT" = FOR VALUES (WITH '(' {hash_bound} ')' | IN '(' {expression} ')'
    | FROM '(' {expression} ')' TO '(' {expression} ')') => PARTITION_BOUND | DEFAULT => PARTITION_BOUND
hash_bound "MODULUS or REMAINDER" = OptionName integer

-- Columns and constraints.
table_element "a column or a constraint" = column | like_clause | table_constraint
-- PostgreSQL 16: STORAGE.
column "a column" = column_name type column_storage? compression? foreign_options? column_constraint* => COLUMN_DEF
column_name "a column name" = Name => NAME
column_storage = STORAGE (Name | DEFAULT) => STORAGE
compression = COMPRESSION (Name | DEFAULT) => COMPRESSION
typed_elements "column options" = '(' {typed_element} ')'
typed_element "a column or a constraint" = table_constraint | column_ref (WITH OPTIONS)? column_constraint* => COLUMN_OPTIONS
like_clause = LIKE table like_option* => LIKE_CLAUSE
like_option = (INCLUDING | EXCLUDING) (COMMENTS | COMPRESSION | CONSTRAINTS | DEFAULTS | IDENTITY | GENERATED | INDEXES | STATISTICS | STORAGE | ALL) => LIKE_OPTION
constraint_name = CONSTRAINT name => CONSTRAINT_NAME

-- PostgreSQL 18: NOT NULL NO INHERIT, VIRTUAL in place of STORED, or nothing, and ENFORCED.
column_constraint "a column constraint" = constraint_name? (NOT NULL no_inherit? => NOT_NULL_CONSTRAINT
        | NULL => NULL_CONSTRAINT
        | UNIQUE nulls_distinct? index_parameters => UNIQUE_CONSTRAINT
        | PRIMARY KEY index_parameters => PRIMARY_KEY_CONSTRAINT
        | CHECK '(' expression ')' no_inherit? => CHECK_CONSTRAINT
        | DEFAULT plain_expression => DEFAULT_CONSTRAINT
        | GENERATED (ALWAYS AS (identity => IDENTITY_CONSTRAINT | '(' expression ')' (STORED | Virtual)?+ => GENERATED_CONSTRAINT)
            | BY DEFAULT AS identity => IDENTITY_CONSTRAINT)
        | references => REFERENCES_CONSTRAINT)
    | constraint_time | enforced | collate
constraint_time "a constraint" = DEFERRABLE => DEFERRABLE | NOT DEFERRABLE => NOT_DEFERRABLE | INITIALLY (DEFERRED => INITIALLY_DEFERRED | IMMEDIATE => INITIALLY_IMMEDIATE)
identity = IDENTITY ('(' sequence_option+ ')')?
nulls_distinct = NULLS NOT? DISTINCT
index_parameters = (WITH definition)? (USING INDEX TABLESPACE name_ref)?
references "REFERENCES" = REFERENCES table period_columns? (MATCH (FULL | SIMPLE | PARTIAL))? (on_update on_delete? | on_delete on_update?)?
on_update = ON UPDATE key_action => ON_UPDATE
on_delete = ON DELETE key_action columns? => ON_DELETE
key_action "an action" = NO ACTION | RESTRICT | CASCADE | SET (NULL | DEFAULT)

-- PostgreSQL 18: NOT NULL, ENFORCED, WITHOUT OVERLAPS and PERIOD.
table_constraint "a constraint" = constraint_name? (NOT NULL column_ref constraint_flag* => NOT_NULL_CONSTRAINT
        | CHECK '(' expression ')' constraint_flag* => CHECK_CONSTRAINT
        | UNIQUE (USING INDEX name_ref | nulls_distinct? key_columns) constraint_flag* => UNIQUE_CONSTRAINT
        | PRIMARY KEY (USING INDEX name_ref | key_columns) constraint_flag* => PRIMARY_KEY_CONSTRAINT
        | EXCLUDE (USING name_ref)? '(' {exclude_item} ')' include_columns? index_parameters (WHERE '(' expression ')')? constraint_flag* => EXCLUDE_CONSTRAINT
        | FOREIGN KEY period_columns references constraint_flag* => FOREIGN_KEY_CONSTRAINT)
constraint_flag "a constraint" = constraint_time | enforced | NOT VALID => NOT_VALID | no_inherit
no_inherit = NO INHERIT => NO_INHERIT
enforced = Enforced => ENFORCED | NOT Enforced => NOT_ENFORCED
period_columns "column names" = '(' {period_column} ')' => COLUMN_LIST
period_column "a column name" = &(Period Name) Period column_ref / column_ref
key_columns = key_list include_columns? index_parameters
key_list "column names" = '(' {column_ref} (WITHOUT OVERLAPS)? ')' => COLUMN_LIST
include_columns = INCLUDE columns => INCLUDE_CLAUSE
exclude_item "a column or an expression" = index_item WITH any_operator => EXCLUDE_ITEM
any_operator "an operator" = operator | OPERATOR '(' called_operator ')'
collate = COLLATE path => COLLATE_CLAUSE

-- Options: names with values.
options "options" = '(' {option} ')' => OPTION_LIST
option "an option" = label_ref ('.' label_ref)? ('=' option_value)? => OPTION
definition "options" = '(' {definition_item} ')' => OPTION_LIST
definition_item "an option" = label_ref ('=' option_value)? => OPTION
option_value "a value" = number / string / NONE / OPERATOR '(' called_operator ')' / result_type / plain_operator / Reserved
plain_operator "an operator" = sign => OP
foreign_options = OPTIONS '(' {foreign_option} ')' => FOREIGN_OPTIONS
foreign_option "an option" = label_ref string => OPTION
alter_options = OPTIONS '(' {alter_option} ')' => FOREIGN_OPTIONS
alter_option "an option" = (ADD | SET) label_ref string => OPTION / DROP label_ref => OPTION / option_name string => OPTION
option_name "an option" = Label => NAME_REF

-- ALTER TABLE. PostgreSQL 17: DEFAULT as an access method and in SET STATISTICS; 18: INHERIT in ALTER CONSTRAINT.
alter_table = ALTER TABLE (IF EXISTS)?+ relation (alter_relation | rename_constraint | attach | detach) => ALTER_TABLE
alter_relation "an action" = {table_action} | rename | rename_column | set_schema
rename = RENAME TO name => RENAME_TO
rename_column = RENAME (COLUMN name_ref TO name / name_ref TO name) => RENAME_COLUMN
rename_constraint = RENAME CONSTRAINT name_ref TO name => RENAME_CONSTRAINT
set_schema = SET SCHEMA name_ref => SET_SCHEMA
owner_to = OWNER TO role => OWNER_TO
attach = ATTACH PARTITION table partition_bound => ATTACH_PARTITION
detach = DETACH PARTITION table (CONCURRENTLY | FINALIZE)? => DETACH_PARTITION
table_action "an action" = ADD COLUMN (IF NOT EXISTS)? column => ADD_COLUMN
    / ADD IF NOT EXISTS column => ADD_COLUMN
    / ADD table_constraint => ADD_CONSTRAINT
    / ADD column => ADD_COLUMN
    / ALTER CONSTRAINT name_ref (constraint_flag | INHERIT)* => ALTER_CONSTRAINT
    / ALTER COLUMN? (name_ref column_action | integer set_statistics) => ALTER_COLUMN
    / VALIDATE CONSTRAINT name_ref => VALIDATE_CONSTRAINT
    / DROP CONSTRAINT (IF EXISTS)?+ name_ref behavior? => DROP_CONSTRAINT
    / DROP COLUMN (IF EXISTS)?+ name_ref behavior? => DROP_COLUMN
    / DROP (IF EXISTS)?+ name_ref behavior? => DROP_COLUMN
    / SET (WITHOUT (OIDS | CLUSTER) => SET_WITHOUT | (LOGGED | UNLOGGED) => SET_LOGGED | ACCESS METHOD (name_ref | DEFAULT) => SET_ACCESS_METHOD
        | tablespace => SET_TABLESPACE | options => SET_OPTIONS)
    / RESET options => RESET_OPTIONS
    / CLUSTER ON name_ref => CLUSTER_ON
    / (ENABLE | DISABLE) TRIGGER (ALL | USER | name_ref) => TRIGGER_ACTION
    / ENABLE (ALWAYS | REPLICA) (TRIGGER => TRIGGER_ACTION | RULE => RULE_ACTION) name_ref
    / (ENABLE | DISABLE) RULE name_ref => RULE_ACTION
    / (ENABLE | DISABLE | FORCE | NO FORCE) ROW LEVEL SECURITY => ROW_SECURITY
    / INHERIT table => INHERIT
    / NO INHERIT table => NO_INHERIT_TABLE
    / OF path => OF_TYPE
    / NOT OF => NOT_OF
    / owner_to
    / REPLICA IDENTITY (NOTHING | FULL | DEFAULT | USING INDEX name_ref) => REPLICA_IDENTITY
    / alter_options
-- PostgreSQL 17: SET EXPRESSION.
column_action "a column action" = SET DEFAULT expression => SET_DEFAULT
    | SET NOT NULL => SET_NOT_NULL
    | set_statistics
    | SET options => SET_OPTIONS
    | SET column_storage => SET_STORAGE
    | SET EXPRESSION AS '(' expression ')' => SET_EXPRESSION
    | SET compression => SET_COMPRESSION
    | RESET options => RESET_OPTIONS
    | DROP (DEFAULT => DROP_DEFAULT | NOT NULL => DROP_NOT_NULL | EXPRESSION (IF EXISTS)?+ => DROP_EXPRESSION | IDENTITY (IF EXISTS)?+ => DROP_IDENTITY)
    | ADD GENERATED (ALWAYS | BY DEFAULT) AS identity => ADD_IDENTITY
    | identity_option+ => ALTER_IDENTITY
    | (SET DATA)? TYPE type collate? (USING expression)? => SET_TYPE
    | alter_options
set_statistics = SET STATISTICS (signed_integer | DEFAULT) => SET_STATISTICS
identity_option = RESTART (WITH? number)? => SEQUENCE_OPTION | SET (sequence_setting | GENERATED (ALWAYS | BY DEFAULT)) => SEQUENCE_OPTION
alter_all = ALTER (TABLE | INDEX | MATERIALIZED VIEW) ALL IN TABLESPACE name_ref (OWNED BY roles)? SET tablespace NOWAIT? => ALTER_ALL
truncate = TRUNCATE TABLE? {relation} ((CONTINUE | RESTART) IDENTITY)? behavior? => TRUNCATE
"#;
