//! Sessions, transactions, cursors, COPY and maintenance.

pub(crate) const SESSIONS: &str = r#"
-- Sessions, transactions, cursors, prepared statements and maintenance.

set = SET (LOCAL | SESSION)?+ set_rest => SET
set_rest "a parameter" = TRANSACTION transaction_modes / SESSION CHARACTERISTICS AS TRANSACTION transaction_modes / set_more
set_more "a parameter" = TRANSACTION SNAPSHOT string / TIME ZONE zone / CATALOG string / SCHEMA string / NAMES (string | DEFAULT)?
    / ROLE word_or_string / SESSION AUTHORIZATION (DEFAULT / word_or_string) / XML OPTION (DOCUMENT | CONTENT)
    / new_setting (set_to ({set_value} / DEFAULT) | FROM CURRENT)
new_setting "a parameter" = new_ref ('.' setting_ref)* => PATH
set_to "TO or =" = TO | '='
new_ref "a parameter" = Name => NAME_REF
setting "a parameter" = setting_ref ('.' setting_ref)* => PATH
setting_ref "a parameter" = Name => NAME_REF
set_value "a value" = word => NAME_REF | string | number
zone "a time zone" = string | IDENT => NAME_REF | number | DEFAULT | LOCAL | interval_literal
transaction_modes "a transaction mode" = transaction_mode (','? transaction_mode)*
transaction_mode "a transaction mode" = ISOLATION LEVEL (READ (UNCOMMITTED | COMMITTED) | REPEATABLE READ | SERIALIZABLE) => TRANSACTION_MODE
    | READ (ONLY | WRITE) => TRANSACTION_MODE | NOT? DEFERRABLE => TRANSACTION_MODE
set_constraints = SET CONSTRAINTS (ALL | {table}) (DEFERRED | IMMEDIATE) => SET_CONSTRAINTS
reset = RESET reset_what => RESET
show = SHOW reset_what => SHOW
reset_what "a parameter" = TIME ZONE / TRANSACTION ISOLATION LEVEL / SESSION AUTHORIZATION / ALL / setting
alter_system = ALTER SYSTEM (SET setting set_to ({set_value} / DEFAULT) | RESET (ALL / setting)) => ALTER_SYSTEM

begin = BEGIN (WORK | TRANSACTION)? transaction_modes? => BEGIN | START TRANSACTION transaction_modes? => BEGIN
commit = COMMIT (WORK | TRANSACTION)? chain? => COMMIT | COMMIT PREPARED string => COMMIT_PREPARED
end = END (WORK | TRANSACTION)? chain? => COMMIT
rollback = ROLLBACK PREPARED string => ROLLBACK_PREPARED | ROLLBACK (WORK | TRANSACTION)? (chain | TO SAVEPOINT?+ savepoint_ref)? => ROLLBACK
    | ABORT (WORK | TRANSACTION)? chain? => ROLLBACK
chain = AND NO? CHAIN
savepoint = SAVEPOINT name => SAVEPOINT
savepoint_ref "a savepoint" = Name => NAME_REF
release = RELEASE SAVEPOINT?+ savepoint_ref => RELEASE_SAVEPOINT
prepare_transaction = PREPARE TRANSACTION string => PREPARE_TRANSACTION

declare = DECLARE name (BINARY | INSENSITIVE | ASENSITIVE | NO? SCROLL)* CURSOR ((WITH | WITHOUT) HOLD)? FOR query => DECLARE
fetch = FETCH cursor_move => FETCH
move = MOVE cursor_move => MOVE
cursor_move "a cursor" = cursor / cursor_steps (FROM | IN)?+ cursor / (FROM | IN) cursor
cursor "a cursor" = Name => NAME_REF
cursor_steps "a direction" = NEXT | PRIOR | FIRST | LAST | ALL | (ABSOLUTE | RELATIVE) signed_integer | (FORWARD | BACKWARD) (signed_integer | ALL)? | signed_integer
close = CLOSE (ALL | name_ref) => CLOSE
prepare = PREPARE name ('(' {type} ')')? AS row_statement => PREPARE
execute = EXECUTE name_ref ('(' {expression} ')')? => EXECUTE
deallocate = DEALLOCATE PREPARE?+ (ALL | prepared) => DEALLOCATE

prepared "a prepared statement" = Name => NAME_REF

discard = DISCARD (ALL | TEMP | TEMPORARY | PLANS | SEQUENCES) => DISCARD
checkpoint = CHECKPOINT => CHECKPOINT
load = LOAD string => LOAD
listen = LISTEN name_ref => LISTEN
unlisten = UNLISTEN (name_ref | '*') => UNLISTEN
notify = NOTIFY name_ref (',' string)? => NOTIFY
lock = LOCK TABLE? {relation} (IN lock_mode MODE)? NOWAIT? => LOCK
lock_mode "a lock mode" = ACCESS (SHARE | EXCLUSIVE) | ROW (SHARE | EXCLUSIVE) | SHARE (UPDATE EXCLUSIVE | ROW EXCLUSIVE)? | EXCLUSIVE

copy = COPY (BINARY?+ table columns? (FROM copy_file copy_tail where? | TO copy_file copy_tail) | '(' row_statement ')' TO copy_file WITH? copy_options) => COPY
copy_tail = (USING? DELIMITERS string)? WITH? copy_options
copy_file "a file" = PROGRAM string | string | STDIN | STDOUT
copy_options = '(' {copy_option} ')' => OPTION_LIST | old_copy_option*
copy_option "an option" = label_ref (word | string | number | '*' | '(' {word_or_boolean} ')')? => OPTION
word_or_boolean "a value" = word => NAME_REF | string
old_copy_option "an option" = (BINARY | FREEZE | DELIMITER AS? string | NULL AS? string | CSV | HEADER | QUOTE AS? string | ESCAPE AS? string
    | FORCE (QUOTE ('*' | names) | NOT NULL names | NULL names) | ENCODING string) => OPTION

explain = EXPLAIN utility_options explained => EXPLAIN / EXPLAIN (ANALYZE VERBOSE? | ANALYSE VERBOSE? | VERBOSE)? explained => EXPLAIN
explained "a statement" = row_statement | declare | create_table_as | create_materialized_view | refresh | execute
utility_options "options" = '(' {utility_option} ')' => OPTION_LIST
utility_option "an option" = utility_name (word | string | number)? => OPTION
utility_name "an option" = UtilityName => NAME_REF
vacuum = VACUUM (utility_options | FULL?+ FREEZE?+ VERBOSE?+ (ANALYZE | ANALYSE)?) {vacuum_table}? => VACUUM
-- PostgreSQL 18: ONLY.
vacuum_table "a table name" = relation columns?
analyze = (ANALYZE | ANALYSE) (utility_options | VERBOSE?+) {vacuum_table}? => ANALYZE
"#;
