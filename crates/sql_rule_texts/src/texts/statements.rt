//! Statements.

pub(crate) const STATEMENTS: &str = r#"
-- Statements.

-- One that stands by itself, without the sign that ends it.
whole "a statement" = statement | begin | end

statement "a statement" = row_statement
    | create_table | create_index | create_view | create_materialized_view | create_sequence | create_statistics
    | create_function | create_aggregate | create_operator_class | create_operator_family | create_operator | create_cast
    | create_conversion | create_transform | create_language | create_trigger | create_constraint_trigger
    | create_event_trigger | create_rule | create_policy | create_schema | create_type | create_domain | create_collation
    | create_text_search | create_extension | create_access_method | create_wrapper | create_server | create_foreign_table
    | create_user_mapping | create_publication | create_subscription | create_tablespace | create_database | create_role
    | alter_table | alter_all | alter_index | alter_view | alter_materialized_view | alter_sequence | alter_statistics
    | alter_function | alter_aggregate | alter_operator_class | alter_operator_family | alter_operator | alter_conversion
    | alter_language | alter_trigger | alter_event_trigger | alter_rule | alter_policy | alter_schema | alter_type
    | alter_domain | alter_collation | alter_text_search | alter_extension | alter_wrapper | alter_server
    | alter_foreign_table | alter_publication | alter_subscription | alter_tablespace
    | alter_database | (alter_user_mapping / alter_role) | alter_default_privileges | alter_system | alter_large_object
    | drop | reassign | import_foreign_schema | grant | revoke | comment | security_label
    | truncate | refresh | reindex | cluster | vacuum | analyze | lock | copy | call | do
    | (set_constraints / set) | reset | show | commit | rollback | savepoint | release | prepare_transaction
    | declare | fetch | move | close | prepare | execute | deallocate
    | discard | checkpoint | load | listen | unlisten | notify | explain | unknown

-- Where no word after CREATE or ALTER is known, an object is expected. PostgreSQL has no assertions.
unknown = (CREATE | ALTER) unknown_object => STATEMENT
unknown_object "an object" = ASSERTION
"#;
