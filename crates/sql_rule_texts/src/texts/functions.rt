//! Functions, aggregates, operators, casts, languages, triggers, rules and policies.

pub(crate) const FUNCTIONS: &str = r#"
-- Functions, procedures, aggregates, operators, casts and languages.

create_function = CREATE (OR REPLACE)? (FUNCTION new_function parameters returns? => CREATE_FUNCTION | PROCEDURE new_function parameters => CREATE_PROCEDURE)
    function_option* function_body?
parameters "parameters" = '(' {parameter}? ')' => PARAM_LIST
parameter_name "a name" = TypeName => NAME
parameter "a parameter" = parameter_body ((DEFAULT | '=') expression)? => PARAM
parameter_body "a parameter" = (parameter_mode (parameter_name parameter_type / parameter_type) / parameter_name parameter_mode? parameter_type / parameter_type)
parameter_mode = IN OUT?+ | OUT | INOUT | VARIADIC
returns = RETURNS (TABLE '(' {table_parameter} ')' | result_type) => RETURNS_CLAUSE
table_parameter "a column" = parameter_name parameter_type => PARAM
function_option "a function option" = AS string (',' string)? => FUNCTION_OPTION | LANGUAGE word_or_string => FUNCTION_OPTION
    | TRANSFORM {for_type} => FUNCTION_OPTION | WINDOW => FUNCTION_OPTION | common_option
for_type = FOR TYPE type
common_option "a function option" = (CALLED ON NULL INPUT | RETURNS NULL ON NULL INPUT | STRICT | IMMUTABLE | STABLE | VOLATILE
    | EXTERNAL? SECURITY (DEFINER | INVOKER) | NOT? LEAKPROOF | COST number | ROWS number | SUPPORT path | PARALLEL Name) => FUNCTION_OPTION
    | SET set_more => SET_OPTION | RESET reset_what => RESET_OPTION
function_body "a function body" = RETURN expression => FUNCTION_BODY | BEGIN ATOMIC (body_statement? ';')* END => FUNCTION_BODY
body_statement "a statement" = RETURN expression => RETURN | statement

alter_function = ALTER (FUNCTION | PROCEDURE | ROUTINE) signature (set_schema / alter_function_option+ RESTRICT? / rename / depends / owner_to) => ALTER_FUNCTION
alter_function_option = common_option
signature "a function" = function_path argument_types? => FUNCTION_SIGNATURE | ColumnWord => FUNCTION_SIGNATURE
argument_types = '(' {argument_type}? ')' => PARAM_LIST
argument_type "a parameter" = parameter_body => PARAM

create_aggregate = CREATE (OR REPLACE)? AGGREGATE new_function (old_definition / aggregate_types definition) => CREATE_AGGREGATE
aggregate_signature "an aggregate" = function_path aggregate_types => FUNCTION_SIGNATURE
aggregate_types = '(' ('*' | ORDER BY {argument_type} | {argument_type} (ORDER BY {argument_type})?) ')' => PARAM_LIST
old_definition = '(' {old_item} ')' => OPTION_LIST
old_item "an option" = old_name '=' option_value => OPTION
old_name "an option" = IDENT => NAME_REF
alter_aggregate = ALTER AGGREGATE aggregate_signature (rename | owner_to | set_schema) => ALTER_AGGREGATE

create_operator = CREATE OPERATOR operator definition => CREATE_OPERATOR
operator_signature "an operator" = operator operand_types => OPERATOR_SIGNATURE
operand_types = '(' (NONE ',' type / type ',' (NONE / type)) ')' => OPERAND_TYPES
alter_operator = ALTER OPERATOR operator_signature (owner_to | set_schema | SET '(' {operator_item} ')') => ALTER_OPERATOR
operator_item "an option" = label_ref '=' option_value => OPTION
create_operator_class = CREATE OPERATOR CLASS new_path DEFAULT? FOR TYPE type USING name_ref (FAMILY path)? AS {class_item} => CREATE_OPERATOR_CLASS
class_item "OPERATOR, FUNCTION or STORAGE" = OPERATOR integer operator operand_types? (FOR (SEARCH | ORDER BY path))? RECHECK? => CLASS_ITEM
    | FUNCTION integer ('(' {type} ')')? signature => CLASS_ITEM | STORAGE type => CLASS_ITEM
create_operator_family = CREATE OPERATOR FAMILY new_path USING name_ref => CREATE_OPERATOR_FAMILY
alter_operator_class = ALTER OPERATOR CLASS path USING name_ref (rename | owner_to | set_schema) => ALTER_OPERATOR_CLASS
alter_operator_family = ALTER OPERATOR FAMILY path USING name_ref (ADD {class_item} | DROP {class_drop} | rename | owner_to | set_schema) => ALTER_OPERATOR_FAMILY
class_drop "OPERATOR or FUNCTION" = (OPERATOR | FUNCTION) integer '(' {type} ')' => CLASS_ITEM

create_cast = CREATE CAST '(' type AS type ')' (WITH FUNCTION signature | WITHOUT FUNCTION | WITH INOUT) (AS (IMPLICIT | ASSIGNMENT))? => CREATE_CAST
create_conversion = CREATE DEFAULT? CONVERSION new_path FOR string TO string FROM path => CREATE_CONVERSION
alter_conversion = ALTER CONVERSION path (rename | owner_to | set_schema) => ALTER_CONVERSION
create_transform = CREATE (OR REPLACE)? TRANSFORM FOR type LANGUAGE name_ref '(' (FROM transform_function (',' TO transform_function)?
    | TO transform_function (',' FROM transform_function)?) ')' => CREATE_TRANSFORM
transform_function = SQL WITH FUNCTION signature
create_language = CREATE (OR REPLACE)? TRUSTED? PROCEDURAL? LANGUAGE name (HANDLER path (INLINE path)? (VALIDATOR path | NO VALIDATOR)?)? => CREATE_LANGUAGE
alter_language = ALTER PROCEDURAL? LANGUAGE name_ref (rename | owner_to) => ALTER_LANGUAGE
call = CALL function_path arg_list => CALL
do = DO do_item+ => DO
do_item "a block of code" = string | LANGUAGE word_or_string

-- Triggers, event triggers, rules and policies.
create_trigger = CREATE (OR REPLACE)? TRIGGER name (BEFORE | AFTER | INSTEAD OF) trigger_events ON table referencing?
    (FOR EACH? (ROW | STATEMENT))? trigger_when? EXECUTE (FUNCTION | PROCEDURE) function_path trigger_arguments => CREATE_TRIGGER
trigger_events "INSERT, UPDATE, DELETE or TRUNCATE" = trigger_event (OR trigger_event)*
trigger_event "INSERT, UPDATE, DELETE or TRUNCATE" = INSERT => TRIGGER_EVENT | DELETE => TRIGGER_EVENT | TRUNCATE => TRIGGER_EVENT
    | UPDATE (OF names)? => TRIGGER_EVENT
referencing = REFERENCING transition_table+ => REFERENCING_CLAUSE
transition_table "NEW or OLD" = (NEW | OLD) (TABLE | ROW) AS? name => TRANSITION_TABLE
trigger_when = WHEN '(' expression ')' => WHEN_CLAUSE
trigger_arguments = '(' trigger_argument? (',' trigger_argument)* ')' => ARG_LIST
trigger_argument "an argument" = (INT_NUMBER | NUMERIC_NUMBER) => LITERAL / string / label_ref
create_constraint_trigger = CREATE CONSTRAINT TRIGGER name AFTER trigger_events ON table (FROM table)? constraint_flag* FOR EACH ROW trigger_when?
    EXECUTE (FUNCTION | PROCEDURE) function_path trigger_arguments => CREATE_TRIGGER
alter_trigger = ALTER TRIGGER name_ref ON table (rename | depends) => ALTER_TRIGGER
create_event_trigger = CREATE EVENT TRIGGER name ON label_ref (WHEN event_filter (AND event_filter)*)? EXECUTE (FUNCTION | PROCEDURE)
    function_path '(' ')' => CREATE_EVENT_TRIGGER
event_filter "a filter" = name_ref IN '(' {string} ')' => EVENT_FILTER
alter_event_trigger = ALTER EVENT TRIGGER name_ref (ENABLE (REPLICA | ALWAYS)? | DISABLE | rename | owner_to) => ALTER_EVENT_TRIGGER
create_rule = CREATE (OR REPLACE)? RULE name AS ON (SELECT | UPDATE | DELETE | INSERT) TO table where? DO (INSTEAD | ALSO)? rule_action => CREATE_RULE
rule_action "NOTHING or a statement" = NOTHING / '(' rule_statement? (';' rule_statement?)* ')' / rule_statement
rule_statement "a statement" = row_statement | notify
alter_rule = ALTER RULE name_ref ON table rename => ALTER_RULE
create_policy = CREATE POLICY name ON table (AS PolicyKind)? (FOR (ALL | SELECT | INSERT | UPDATE | DELETE))? (TO roles)?
    policy_using? policy_check? => CREATE_POLICY
policy_using = USING '(' expression ')' => POLICY_USING
policy_check = WITH CHECK '(' expression ')' => POLICY_CHECK
alter_policy = ALTER POLICY (IF EXISTS name_ref ON table rename
    / name_ref ON table (rename | (TO roles)? policy_using? policy_check?)) => ALTER_POLICY
"#;
