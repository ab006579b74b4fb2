//! Types, schemas, extensions, foreign data, publications and databases.

pub(crate) const OBJECTS: &str = r#"
-- Types, schemas, extensions and what else is made with a name.

create_schema = CREATE SCHEMA (IF NOT EXISTS schema_name / schema_name schema_element*) => CREATE_SCHEMA
schema_name "a name" = AUTHORIZATION role | name (AUTHORIZATION role)?
schema_element "a statement" = create_table | create_index | create_sequence | create_trigger | create_constraint_trigger | grant | create_view
alter_schema = ALTER SCHEMA name_ref (rename | owner_to) => ALTER_SCHEMA

create_type = CREATE TYPE new_path (definition | AS ('(' {attribute}? ')' | ENUM '(' {string}? ')' | RANGE definition))? => CREATE_TYPE
attribute "an attribute" = new_column type collate? => COLUMN_DEF
alter_type = ALTER TYPE path ({type_action} | rename | RENAME (ATTRIBUTE name_ref TO name behavior? | VALUE string TO string)
    | ADD VALUE (IF NOT EXISTS)? string ((BEFORE | AFTER) string)? | owner_to | set_schema | SET definition) => ALTER_TYPE
type_action "an action" = ADD ATTRIBUTE attribute behavior? => TYPE_ACTION | DROP ATTRIBUTE (IF EXISTS)?+ name_ref behavior? => TYPE_ACTION
    | ALTER ATTRIBUTE name_ref (SET DATA)? TYPE type collate? behavior? => TYPE_ACTION
create_domain = CREATE DOMAIN new_path AS? type column_constraint* => CREATE_DOMAIN
alter_domain = ALTER DOMAIN path (SET DEFAULT expression | DROP DEFAULT | (SET | DROP) NOT NULL | ADD table_constraint
    | DROP CONSTRAINT (IF EXISTS)?+ name_ref behavior? | VALIDATE CONSTRAINT name_ref | rename_constraint | rename | owner_to | set_schema) => ALTER_DOMAIN
create_collation = CREATE COLLATION (IF NOT EXISTS)? new_path (definition | FROM path) => CREATE_COLLATION
alter_collation = ALTER COLLATION path (REFRESH VERSION | rename | owner_to | set_schema) => ALTER_COLLATION
create_text_search = CREATE TEXT SEARCH (PARSER | DICTIONARY | TEMPLATE | CONFIGURATION) new_path definition => CREATE_TEXT_SEARCH
alter_text_search = ALTER TEXT SEARCH ((PARSER | TEMPLATE) path (rename | set_schema)
    | DICTIONARY path (definition | rename | owner_to | set_schema)
    | CONFIGURATION path (configuration_action | rename | owner_to | set_schema)) => ALTER_TEXT_SEARCH
configuration_action = ADD MAPPING FOR names WITH {path} | DROP MAPPING (IF EXISTS)?+ FOR names
    | ALTER MAPPING (FOR names (WITH {path} | REPLACE path WITH path) | REPLACE path WITH path)

create_extension = CREATE EXTENSION (IF NOT EXISTS)? name WITH? extension_option* => CREATE_EXTENSION
extension_option = SCHEMA name_ref | VERSION word_or_string | FROM word_or_string | CASCADE
alter_extension = ALTER EXTENSION name_ref (UPDATE (TO word_or_string)? | (ADD | DROP) object | set_schema) => ALTER_EXTENSION
create_access_method = CREATE ACCESS METHOD name TYPE (INDEX | TABLE) HANDLER path => CREATE_ACCESS_METHOD

create_wrapper = CREATE FOREIGN DATA WRAPPER name wrapper_option* foreign_options? => CREATE_FOREIGN_DATA_WRAPPER
wrapper_option = HANDLER path | NO HANDLER | VALIDATOR path | NO VALIDATOR
alter_wrapper = ALTER FOREIGN DATA WRAPPER name_ref (wrapper_option+ alter_options? | alter_options | rename | owner_to) => ALTER_FOREIGN_DATA_WRAPPER
create_server = CREATE SERVER (IF NOT EXISTS)? name (TYPE string)? (VERSION (string | NULL))? FOREIGN DATA WRAPPER name_ref foreign_options? => CREATE_SERVER
alter_server = ALTER SERVER name_ref (VERSION (string | NULL) alter_options? | alter_options | rename | owner_to) => ALTER_SERVER
create_foreign_table = CREATE FOREIGN TABLE (IF NOT EXISTS)? new_path ('(' {table_element}? ')' inherits?
    | PARTITION OF table typed_elements? partition_bound) SERVER name_ref foreign_options? => CREATE_FOREIGN_TABLE
alter_foreign_table = ALTER FOREIGN TABLE (IF EXISTS)?+ relation alter_relation => ALTER_FOREIGN_TABLE
create_user_mapping = CREATE USER MAPPING (IF NOT EXISTS)? FOR mapped_user SERVER name_ref foreign_options? => CREATE_USER_MAPPING
alter_user_mapping = ALTER USER MAPPING FOR mapped_user SERVER name_ref alter_options => ALTER_USER_MAPPING
mapped_user "a role" = role | USER => ROLE_REF
import_foreign_schema = IMPORT FOREIGN SCHEMA name_ref ((LIMIT TO | EXCEPT) '(' {relation} ')')? FROM SERVER name_ref INTO name_ref foreign_options? => IMPORT_FOREIGN_SCHEMA

create_publication = CREATE PUBLICATION name (FOR (ALL TABLES | published))? (WITH definition)? => CREATE_PUBLICATION
-- A name without a word before it is what the one before is.
published = first_published (',' publication_item)*
first_published "TABLE or TABLES" = TABLE published_table => PUBLICATION_ITEM
    | TABLES IN SCHEMA (CURRENT_SCHEMA / name_ref) => PUBLICATION_ITEM
publication_item "a table" = first_published / (CURRENT_SCHEMA / published_table) => PUBLICATION_ITEM
published_table "a table name" = relation columns? (WHERE '(' expression ')')?
alter_publication = ALTER PUBLICATION name_ref (SET definition | (ADD | SET | DROP) published | rename | owner_to) => ALTER_PUBLICATION
create_subscription = CREATE SUBSCRIPTION name CONNECTION string PUBLICATION names (WITH definition)? => CREATE_SUBSCRIPTION
alter_subscription = ALTER SUBSCRIPTION name_ref (SET definition | CONNECTION string | REFRESH PUBLICATION (WITH definition)?
    | (ADD | DROP | SET) PUBLICATION names (WITH definition)? | ENABLE | DISABLE | SKIP definition | rename | owner_to) => ALTER_SUBSCRIPTION

create_tablespace = CREATE TABLESPACE name (OWNER role)? LOCATION string (WITH options)? => CREATE_TABLESPACE
alter_tablespace = ALTER TABLESPACE name_ref ((SET | RESET) options | rename | owner_to) => ALTER_TABLESPACE
create_database = CREATE DATABASE name WITH? database_option* => CREATE_DATABASE
database_option "a database option" = database_word '='?+ (word | string | number | DEFAULT) => DATABASE_OPTION
database_word "a database option" = IDENT | CONNECTION LIMIT | ENCODING | LOCATION | OWNER | TABLESPACE | TEMPLATE
alter_database = ALTER DATABASE name_ref (SET (tablespace / set_rest) | RESET reset_what | WITH? database_option+ | REFRESH COLLATION VERSION | rename | owner_to)? => ALTER_DATABASE
alter_large_object = ALTER LARGE OBJECT number owner_to => ALTER_LARGE_OBJECT
"#;
