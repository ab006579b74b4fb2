//! Roles, rights, and statements about any object.

pub(crate) const ROLES: &str = r#"
-- Roles, rights, and statements about any object.

create_role = CREATE (ROLE | USER | GROUP) new_role WITH? role_option* => CREATE_ROLE
role_option "a role option" = (PASSWORD (string | NULL) | (ENCRYPTED | UNENCRYPTED) PASSWORD string | INHERIT | CONNECTION LIMIT signed_integer
    | VALID UNTIL string | USER roles | SYSID integer | ADMIN roles | ROLE roles | IN (ROLE | GROUP) roles | RoleWord) => ROLE_OPTION
alter_role = ALTER (ROLE | USER) (role (role_settings | RENAME TO new_role | WITH? role_option*) | ALL role_settings) => ALTER_ROLE
    | ALTER GROUP role ((ADD | DROP) USER roles | RENAME TO new_role) => ALTER_ROLE
role_settings = (IN DATABASE name_ref)? (SET set_rest | RESET reset_what)

grant = GRANT (all_privileges grant_on | privileges (grant_on | TO roles member_options?+ granted_by?)) => GRANT
-- PostgreSQL 16: more than ADMIN OPTION.
member_options = WITH {member_option}
member_option "ADMIN, INHERIT or SET" = (ADMIN | INHERIT | SET) (OPTION | TRUE | FALSE) => MEMBER_OPTION
grant_on = ON grant_target TO {grantee} (WITH GRANT OPTION)?+ granted_by?
revoke = REVOKE (GRANT OPTION FOR (all_privileges | privileges) revoke_on / (ADMIN | INHERIT | SET) OPTION FOR privileges FROM roles granted_by? behavior?
    / all_privileges revoke_on / privileges (revoke_on | FROM roles granted_by? behavior?)) => REVOKE
revoke_on = ON grant_target FROM {grantee} granted_by? behavior?
granted_by = GRANTED BY role => GRANTED_BY
all_privileges = ALL PRIVILEGES? columns? => PRIVILEGE_LIST
privileges "a privilege" = {privilege} => PRIVILEGE_LIST
privilege "a privilege" = (SELECT | REFERENCES | CREATE | Name) columns? => PRIVILEGE / ALTER SYSTEM => PRIVILEGE
grant_target "an object" = FOREIGN (DATA WRAPPER | SERVER) names => GRANT_TARGET
    | (FUNCTION | PROCEDURE | ROUTINE) {signature} => GRANT_TARGET
    | (DATABASE | LANGUAGE | SCHEMA | TABLESPACE) names => GRANT_TARGET
    | LARGE OBJECT {number} => GRANT_TARGET
    | PARAMETER {setting} => GRANT_TARGET
    | (DOMAIN | TYPE) {path} => GRANT_TARGET
    | SEQUENCE {path} => GRANT_TARGET
    | ALL (TABLES | SEQUENCES | FUNCTIONS | PROCEDURES | ROUTINES) IN SCHEMA names => GRANT_TARGET
    | TABLE {path} => GRANT_TARGET
    | {granted_table} => GRANT_TARGET
granted_table "a table name" = granted_ref ('.' label_ref)* => PATH
granted_ref "a table name" = Name => NAME_REF | ':' Label => PARAM_REF
grantee "a role" = GROUP? role
alter_default_privileges = ALTER DEFAULT PRIVILEGES default_scope* (GRANT (all_privileges | privileges) ON default_target TO {grantee} (WITH GRANT OPTION)?
    | REVOKE (GRANT OPTION FOR)?+ (all_privileges | privileges) ON default_target FROM {grantee} behavior?) => ALTER_DEFAULT_PRIVILEGES
default_scope = IN SCHEMA names | FOR (ROLE | USER) roles
-- PostgreSQL 18: LARGE OBJECTS.
default_target "TABLES, SEQUENCES, FUNCTIONS, TYPES or SCHEMAS" = LARGE Objects | TABLES | FUNCTIONS | ROUTINES | SEQUENCES | TYPES | SCHEMAS

drop = DROP => DROP (OWNED BY roles behavior? => DROP_OWNED / dropped)
dropped "an object" = relation_kind (IF EXISTS)?+ {path} behavior?
    / INDEX CONCURRENTLY (IF EXISTS)?+ {path} behavior?
    / named_kind (IF EXISTS)?+ names behavior?
    / (DOMAIN | TYPE) (IF EXISTS)?+ {type} behavior?
    / (FUNCTION | PROCEDURE | ROUTINE) (IF EXISTS)?+ {signature} behavior?
    / AGGREGATE (IF EXISTS)?+ {aggregate_signature} behavior?
    / OPERATOR (CLASS | FAMILY) (IF EXISTS)?+ path USING name_ref behavior?
    / OPERATOR (IF EXISTS)?+ {operator_signature} behavior?
    / (POLICY | RULE | TRIGGER) (IF EXISTS)?+ name_ref ON path behavior?
    / CAST (IF EXISTS)?+ '(' type AS type ')' behavior?
    / TRANSFORM (IF EXISTS)?+ FOR type LANGUAGE name_ref behavior?
    / DATABASE (IF EXISTS)?+ name_ref (WITH? '(' {FORCE} ')')?
    / TABLESPACE (IF EXISTS)?+ name_ref
    / SUBSCRIPTION (IF EXISTS)?+ name_ref behavior?
    / USER MAPPING (IF EXISTS)?+ FOR mapped_user SERVER name_ref
    / (ROLE | USER | GROUP) (IF EXISTS)?+ roles
relation_kind "an object" = TABLE | SEQUENCE | VIEW | MATERIALIZED VIEW | INDEX | FOREIGN TABLE | COLLATION | CONVERSION | STATISTICS
    | TEXT SEARCH (PARSER | DICTIONARY | TEMPLATE | CONFIGURATION)
named_kind "an object" = ACCESS METHOD | EVENT TRIGGER | EXTENSION | FOREIGN DATA WRAPPER | PROCEDURAL? LANGUAGE | PUBLICATION | SCHEMA | SERVER
reassign = REASSIGN OWNED BY roles TO role => REASSIGN

comment = COMMENT ON described IS (string | NULL) => COMMENT_ON
described "an object" = (CONSTRAINT name_ref ON (DOMAIN path / described_path) | (POLICY | RULE | TRIGGER) name_ref ON path) => OBJECT | object
described_path "a name" = described_ref ('.' label_ref)* => PATH
described_ref "a name" = Name => NAME_REF
security_label = SECURITY LABEL (FOR word_or_string)? ON labelled IS (string | NULL) => SECURITY_LABEL
object "an object" = OPERATOR (CLASS | FAMILY) path USING name_ref => OBJECT
    / OPERATOR operator_signature => OBJECT
    / CAST '(' type AS type ')' => OBJECT
    / TRANSFORM FOR type LANGUAGE name_ref => OBJECT
    / labelled
labelled "an object" = relation_kind path => OBJECT / named_kind name_ref => OBJECT
    / (DATABASE | ROLE | SUBSCRIPTION | TABLESPACE) name_ref => OBJECT
    / COLUMN path => OBJECT
    / (DOMAIN | TYPE) type => OBJECT
    / (FUNCTION | PROCEDURE | ROUTINE) signature => OBJECT
    / AGGREGATE aggregate_signature => OBJECT
    / LARGE OBJECT number => OBJECT
"#;
