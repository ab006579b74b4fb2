//! The table of PostgreSQL's keywords.
ghost use Rattle.std.specs.Prelude.{◌≡◌, map};
ghost use Rattle.squawk_keywords.specs.KeywordPairs.{pairs_of};
ghost use Rattle.sql_words.specs.SqlKinds.{keyword_kinds, keyword_name, rows_in, table};

use crate::category::Category;
use crate::kinds::SqlKind;

/// A keyword.
#[derive(Clone, Copy)]
pub struct Keyword {
    /// The word in lower case.
    pub word: &'static str,
    /// The number of its kind.
    pub kind: u16,
    pub category: Category,
}

/// The keywords of PostgreSQL 15 in the order of their words, each with its kind and its category, by
/// its documentation, appendix C, "SQL Key Words": as rows, as words with kinds, or as the names of their kinds.
#[rattlefmt::skip]
macro_rules! keywords {
    (@rows $($word:literal $kind:ident $category:ident),*) => {
        [$(Keyword { word: $word, kind: SqlKind::$kind.0, category: Category::$category }),*]
    };
    (@pairs $($word:literal $kind:ident $category:ident),*) => {
        [$(($word, SqlKind::$kind.0)),*]
    };
    (@names $($word:literal $kind:ident $category:ident),*) => {
        [$(stringify!($kind)),*]
    };
    ($form:ident) => {
        keywords![@$form
            "abort" ABORT_KW Unreserved, "absolute" ABSOLUTE_KW Unreserved, "access" ACCESS_KW Unreserved,
            "action" ACTION_KW Unreserved, "add" ADD_KW Unreserved, "admin" ADMIN_KW Unreserved,
            "after" AFTER_KW Unreserved, "aggregate" AGGREGATE_KW Unreserved, "all" ALL_KW Reserved,
            "also" ALSO_KW Unreserved, "alter" ALTER_KW Unreserved, "always" ALWAYS_KW Unreserved,
            "analyse" ANALYSE_KW Reserved, "analyze" ANALYZE_KW Reserved, "and" AND_KW Reserved, "any" ANY_KW Reserved,
            "array" ARRAY_KW Reserved, "as" AS_KW Reserved, "asc" ASC_KW Reserved,
            "asensitive" ASENSITIVE_KW Unreserved, "assertion" ASSERTION_KW Unreserved,
            "assignment" ASSIGNMENT_KW Unreserved, "asymmetric" ASYMMETRIC_KW Reserved, "at" AT_KW Unreserved,
            "atomic" ATOMIC_KW Unreserved, "attach" ATTACH_KW Unreserved, "attribute" ATTRIBUTE_KW Unreserved,
            "authorization" AUTHORIZATION_KW TypeFuncName, "backward" BACKWARD_KW Unreserved,
            "before" BEFORE_KW Unreserved, "begin" BEGIN_KW Unreserved, "between" BETWEEN_KW ColName,
            "bigint" BIGINT_KW ColName, "binary" BINARY_KW TypeFuncName, "bit" BIT_KW ColName,
            "boolean" BOOLEAN_KW ColName, "both" BOTH_KW Reserved, "breadth" BREADTH_KW Unreserved,
            "by" BY_KW Unreserved, "cache" CACHE_KW Unreserved, "call" CALL_KW Unreserved,
            "called" CALLED_KW Unreserved, "cascade" CASCADE_KW Unreserved, "cascaded" CASCADED_KW Unreserved,
            "case" CASE_KW Reserved, "cast" CAST_KW Reserved, "catalog" CATALOG_KW Unreserved,
            "chain" CHAIN_KW Unreserved, "char" CHAR_KW ColName, "character" CHARACTER_KW ColName,
            "characteristics" CHARACTERISTICS_KW Unreserved, "check" CHECK_KW Reserved,
            "checkpoint" CHECKPOINT_KW Unreserved, "class" CLASS_KW Unreserved, "close" CLOSE_KW Unreserved,
            "cluster" CLUSTER_KW Unreserved, "coalesce" COALESCE_KW ColName, "collate" COLLATE_KW Reserved,
            "collation" COLLATION_KW TypeFuncName, "column" COLUMN_KW Reserved, "columns" COLUMNS_KW Unreserved,
            "comment" COMMENT_KW Unreserved, "comments" COMMENTS_KW Unreserved, "commit" COMMIT_KW Unreserved,
            "committed" COMMITTED_KW Unreserved, "compression" COMPRESSION_KW Unreserved,
            "concurrently" CONCURRENTLY_KW TypeFuncName, "configuration" CONFIGURATION_KW Unreserved,
            "conflict" CONFLICT_KW Unreserved, "connection" CONNECTION_KW Unreserved,
            "constraint" CONSTRAINT_KW Reserved, "constraints" CONSTRAINTS_KW Unreserved,
            "content" CONTENT_KW Unreserved, "continue" CONTINUE_KW Unreserved, "conversion" CONVERSION_KW Unreserved,
            "copy" COPY_KW Unreserved, "cost" COST_KW Unreserved, "create" CREATE_KW Reserved,
            "cross" CROSS_KW TypeFuncName, "csv" CSV_KW Unreserved, "cube" CUBE_KW Unreserved,
            "current" CURRENT_KW Unreserved, "current_catalog" CURRENT_CATALOG_KW Reserved,
            "current_date" CURRENT_DATE_KW Reserved, "current_role" CURRENT_ROLE_KW Reserved,
            "current_schema" CURRENT_SCHEMA_KW TypeFuncName, "current_time" CURRENT_TIME_KW Reserved,
            "current_timestamp" CURRENT_TIMESTAMP_KW Reserved, "current_user" CURRENT_USER_KW Reserved,
            "cursor" CURSOR_KW Unreserved, "cycle" CYCLE_KW Unreserved, "data" DATA_KW Unreserved,
            "database" DATABASE_KW Unreserved, "day" DAY_KW Unreserved, "deallocate" DEALLOCATE_KW Unreserved,
            "dec" DEC_KW ColName, "decimal" DECIMAL_KW ColName, "declare" DECLARE_KW Unreserved,
            "default" DEFAULT_KW Reserved, "defaults" DEFAULTS_KW Unreserved, "deferrable" DEFERRABLE_KW Reserved,
            "deferred" DEFERRED_KW Unreserved, "definer" DEFINER_KW Unreserved, "delete" DELETE_KW Unreserved,
            "delimiter" DELIMITER_KW Unreserved, "delimiters" DELIMITERS_KW Unreserved,
            "depends" DEPENDS_KW Unreserved, "depth" DEPTH_KW Unreserved, "desc" DESC_KW Reserved,
            "detach" DETACH_KW Unreserved, "dictionary" DICTIONARY_KW Unreserved, "disable" DISABLE_KW Unreserved,
            "discard" DISCARD_KW Unreserved, "distinct" DISTINCT_KW Reserved, "do" DO_KW Reserved,
            "document" DOCUMENT_KW Unreserved, "domain" DOMAIN_KW Unreserved, "double" DOUBLE_KW Unreserved,
            "drop" DROP_KW Unreserved, "each" EACH_KW Unreserved, "else" ELSE_KW Reserved,
            "enable" ENABLE_KW Unreserved, "encoding" ENCODING_KW Unreserved, "encrypted" ENCRYPTED_KW Unreserved,
            "end" END_KW Reserved, "enum" ENUM_KW Unreserved, "escape" ESCAPE_KW Unreserved,
            "event" EVENT_KW Unreserved, "except" EXCEPT_KW Reserved, "exclude" EXCLUDE_KW Unreserved,
            "excluding" EXCLUDING_KW Unreserved, "exclusive" EXCLUSIVE_KW Unreserved, "execute" EXECUTE_KW Unreserved,
            "exists" EXISTS_KW ColName, "explain" EXPLAIN_KW Unreserved, "expression" EXPRESSION_KW Unreserved,
            "extension" EXTENSION_KW Unreserved, "external" EXTERNAL_KW Unreserved, "extract" EXTRACT_KW ColName,
            "false" FALSE_KW Reserved, "family" FAMILY_KW Unreserved, "fetch" FETCH_KW Reserved,
            "filter" FILTER_KW Unreserved, "finalize" FINALIZE_KW Unreserved, "first" FIRST_KW Unreserved,
            "float" FLOAT_KW ColName, "following" FOLLOWING_KW Unreserved, "for" FOR_KW Reserved,
            "force" FORCE_KW Unreserved, "foreign" FOREIGN_KW Reserved, "forward" FORWARD_KW Unreserved,
            "freeze" FREEZE_KW TypeFuncName, "from" FROM_KW Reserved, "full" FULL_KW TypeFuncName,
            "function" FUNCTION_KW Unreserved, "functions" FUNCTIONS_KW Unreserved,
            "generated" GENERATED_KW Unreserved, "global" GLOBAL_KW Unreserved, "grant" GRANT_KW Reserved,
            "granted" GRANTED_KW Unreserved, "greatest" GREATEST_KW ColName, "group" GROUP_KW Reserved,
            "grouping" GROUPING_KW ColName, "groups" GROUPS_KW Unreserved, "handler" HANDLER_KW Unreserved,
            "having" HAVING_KW Reserved, "header" HEADER_KW Unreserved, "hold" HOLD_KW Unreserved,
            "hour" HOUR_KW Unreserved, "identity" IDENTITY_KW Unreserved, "if" IF_KW Unreserved,
            "ilike" ILIKE_KW TypeFuncName, "immediate" IMMEDIATE_KW Unreserved, "immutable" IMMUTABLE_KW Unreserved,
            "implicit" IMPLICIT_KW Unreserved, "import" IMPORT_KW Unreserved, "in" IN_KW Reserved,
            "include" INCLUDE_KW Unreserved, "including" INCLUDING_KW Unreserved, "increment" INCREMENT_KW Unreserved,
            "index" INDEX_KW Unreserved, "indexes" INDEXES_KW Unreserved, "inherit" INHERIT_KW Unreserved,
            "inherits" INHERITS_KW Unreserved, "initially" INITIALLY_KW Reserved, "inline" INLINE_KW Unreserved,
            "inner" INNER_KW TypeFuncName, "inout" INOUT_KW ColName, "input" INPUT_KW Unreserved,
            "insensitive" INSENSITIVE_KW Unreserved, "insert" INSERT_KW Unreserved, "instead" INSTEAD_KW Unreserved,
            "int" INT_KW ColName, "integer" INTEGER_KW ColName, "intersect" INTERSECT_KW Reserved,
            "interval" INTERVAL_KW ColName, "into" INTO_KW Reserved, "invoker" INVOKER_KW Unreserved,
            "is" IS_KW TypeFuncName, "isnull" ISNULL_KW TypeFuncName, "isolation" ISOLATION_KW Unreserved,
            "join" JOIN_KW TypeFuncName, "key" KEY_KW Unreserved, "label" LABEL_KW Unreserved,
            "language" LANGUAGE_KW Unreserved, "large" LARGE_KW Unreserved, "last" LAST_KW Unreserved,
            "lateral" LATERAL_KW Reserved, "leading" LEADING_KW Reserved, "leakproof" LEAKPROOF_KW Unreserved,
            "least" LEAST_KW ColName, "left" LEFT_KW TypeFuncName, "level" LEVEL_KW Unreserved,
            "like" LIKE_KW TypeFuncName, "limit" LIMIT_KW Reserved, "listen" LISTEN_KW Unreserved,
            "load" LOAD_KW Unreserved, "local" LOCAL_KW Unreserved, "localtime" LOCALTIME_KW Reserved,
            "localtimestamp" LOCALTIMESTAMP_KW Reserved, "location" LOCATION_KW Unreserved, "lock" LOCK_KW Unreserved,
            "locked" LOCKED_KW Unreserved, "logged" LOGGED_KW Unreserved, "mapping" MAPPING_KW Unreserved,
            "match" MATCH_KW Unreserved, "matched" MATCHED_KW Unreserved, "materialized" MATERIALIZED_KW Unreserved,
            "maxvalue" MAXVALUE_KW Unreserved, "merge" MERGE_KW Unreserved, "method" METHOD_KW Unreserved,
            "minute" MINUTE_KW Unreserved, "minvalue" MINVALUE_KW Unreserved, "mode" MODE_KW Unreserved,
            "month" MONTH_KW Unreserved, "move" MOVE_KW Unreserved, "name" NAME_KW Unreserved,
            "names" NAMES_KW Unreserved, "national" NATIONAL_KW ColName, "natural" NATURAL_KW TypeFuncName,
            "nchar" NCHAR_KW ColName, "new" NEW_KW Unreserved, "next" NEXT_KW Unreserved, "nfc" NFC_KW Unreserved,
            "nfd" NFD_KW Unreserved, "nfkc" NFKC_KW Unreserved, "nfkd" NFKD_KW Unreserved, "no" NO_KW Unreserved,
            "none" NONE_KW ColName, "normalize" NORMALIZE_KW ColName, "normalized" NORMALIZED_KW Unreserved,
            "not" NOT_KW Reserved, "nothing" NOTHING_KW Unreserved, "notify" NOTIFY_KW Unreserved,
            "notnull" NOTNULL_KW TypeFuncName, "nowait" NOWAIT_KW Unreserved, "null" NULL_KW Reserved,
            "nullif" NULLIF_KW ColName, "nulls" NULLS_KW Unreserved, "numeric" NUMERIC_KW ColName,
            "object" OBJECT_KW Unreserved, "of" OF_KW Unreserved, "off" OFF_KW Unreserved, "offset" OFFSET_KW Reserved,
            "oids" OIDS_KW Unreserved, "old" OLD_KW Unreserved, "on" ON_KW Reserved, "only" ONLY_KW Reserved,
            "operator" OPERATOR_KW Unreserved, "option" OPTION_KW Unreserved, "options" OPTIONS_KW Unreserved,
            "or" OR_KW Reserved, "order" ORDER_KW Reserved, "ordinality" ORDINALITY_KW Unreserved,
            "others" OTHERS_KW Unreserved, "out" OUT_KW ColName, "outer" OUTER_KW TypeFuncName,
            "over" OVER_KW Unreserved, "overlaps" OVERLAPS_KW TypeFuncName, "overlay" OVERLAY_KW ColName,
            "overriding" OVERRIDING_KW Unreserved, "owned" OWNED_KW Unreserved, "owner" OWNER_KW Unreserved,
            "parallel" PARALLEL_KW Unreserved, "parameter" PARAMETER_KW Unreserved, "parser" PARSER_KW Unreserved,
            "partial" PARTIAL_KW Unreserved, "partition" PARTITION_KW Unreserved, "passing" PASSING_KW Unreserved,
            "password" PASSWORD_KW Unreserved, "placing" PLACING_KW Reserved, "plans" PLANS_KW Unreserved,
            "policy" POLICY_KW Unreserved, "position" POSITION_KW ColName, "preceding" PRECEDING_KW Unreserved,
            "precision" PRECISION_KW ColName, "prepare" PREPARE_KW Unreserved, "prepared" PREPARED_KW Unreserved,
            "preserve" PRESERVE_KW Unreserved, "primary" PRIMARY_KW Reserved, "prior" PRIOR_KW Unreserved,
            "privileges" PRIVILEGES_KW Unreserved, "procedural" PROCEDURAL_KW Unreserved,
            "procedure" PROCEDURE_KW Unreserved, "procedures" PROCEDURES_KW Unreserved,
            "program" PROGRAM_KW Unreserved, "publication" PUBLICATION_KW Unreserved, "quote" QUOTE_KW Unreserved,
            "range" RANGE_KW Unreserved, "read" READ_KW Unreserved, "real" REAL_KW ColName,
            "reassign" REASSIGN_KW Unreserved, "recheck" RECHECK_KW Unreserved, "recursive" RECURSIVE_KW Unreserved,
            "ref" REF_KW Unreserved, "references" REFERENCES_KW Reserved, "referencing" REFERENCING_KW Unreserved,
            "refresh" REFRESH_KW Unreserved, "reindex" REINDEX_KW Unreserved, "relative" RELATIVE_KW Unreserved,
            "release" RELEASE_KW Unreserved, "rename" RENAME_KW Unreserved, "repeatable" REPEATABLE_KW Unreserved,
            "replace" REPLACE_KW Unreserved, "replica" REPLICA_KW Unreserved, "reset" RESET_KW Unreserved,
            "restart" RESTART_KW Unreserved, "restrict" RESTRICT_KW Unreserved, "return" RETURN_KW Unreserved,
            "returning" RETURNING_KW Reserved, "returns" RETURNS_KW Unreserved, "revoke" REVOKE_KW Unreserved,
            "right" RIGHT_KW TypeFuncName, "role" ROLE_KW Unreserved, "rollback" ROLLBACK_KW Unreserved,
            "rollup" ROLLUP_KW Unreserved, "routine" ROUTINE_KW Unreserved, "routines" ROUTINES_KW Unreserved,
            "row" ROW_KW ColName, "rows" ROWS_KW Unreserved, "rule" RULE_KW Unreserved,
            "savepoint" SAVEPOINT_KW Unreserved, "schema" SCHEMA_KW Unreserved, "schemas" SCHEMAS_KW Unreserved,
            "scroll" SCROLL_KW Unreserved, "search" SEARCH_KW Unreserved, "second" SECOND_KW Unreserved,
            "security" SECURITY_KW Unreserved, "select" SELECT_KW Reserved, "sequence" SEQUENCE_KW Unreserved,
            "sequences" SEQUENCES_KW Unreserved, "serializable" SERIALIZABLE_KW Unreserved,
            "server" SERVER_KW Unreserved, "session" SESSION_KW Unreserved, "session_user" SESSION_USER_KW Reserved,
            "set" SET_KW Unreserved, "setof" SETOF_KW ColName, "sets" SETS_KW Unreserved, "share" SHARE_KW Unreserved,
            "show" SHOW_KW Unreserved, "similar" SIMILAR_KW TypeFuncName, "simple" SIMPLE_KW Unreserved,
            "skip" SKIP_KW Unreserved, "smallint" SMALLINT_KW ColName, "snapshot" SNAPSHOT_KW Unreserved,
            "some" SOME_KW Reserved, "sql" SQL_KW Unreserved, "stable" STABLE_KW Unreserved,
            "standalone" STANDALONE_KW Unreserved, "start" START_KW Unreserved, "statement" STATEMENT_KW Unreserved,
            "statistics" STATISTICS_KW Unreserved, "stdin" STDIN_KW Unreserved, "stdout" STDOUT_KW Unreserved,
            "storage" STORAGE_KW Unreserved, "stored" STORED_KW Unreserved, "strict" STRICT_KW Unreserved,
            "strip" STRIP_KW Unreserved, "subscription" SUBSCRIPTION_KW Unreserved, "substring" SUBSTRING_KW ColName,
            "support" SUPPORT_KW Unreserved, "symmetric" SYMMETRIC_KW Reserved, "sysid" SYSID_KW Unreserved,
            "system" SYSTEM_KW Unreserved, "table" TABLE_KW Reserved, "tables" TABLES_KW Unreserved,
            "tablesample" TABLESAMPLE_KW TypeFuncName, "tablespace" TABLESPACE_KW Unreserved,
            "temp" TEMP_KW Unreserved, "template" TEMPLATE_KW Unreserved, "temporary" TEMPORARY_KW Unreserved,
            "text" TEXT_KW Unreserved, "then" THEN_KW Reserved, "ties" TIES_KW Unreserved, "time" TIME_KW ColName,
            "timestamp" TIMESTAMP_KW ColName, "to" TO_KW Reserved, "trailing" TRAILING_KW Reserved,
            "transaction" TRANSACTION_KW Unreserved, "transform" TRANSFORM_KW Unreserved, "treat" TREAT_KW ColName,
            "trigger" TRIGGER_KW Unreserved, "trim" TRIM_KW ColName, "true" TRUE_KW Reserved,
            "truncate" TRUNCATE_KW Unreserved, "trusted" TRUSTED_KW Unreserved, "type" TYPE_KW Unreserved,
            "types" TYPES_KW Unreserved, "uescape" UESCAPE_KW Unreserved, "unbounded" UNBOUNDED_KW Unreserved,
            "uncommitted" UNCOMMITTED_KW Unreserved, "unencrypted" UNENCRYPTED_KW Unreserved,
            "union" UNION_KW Reserved, "unique" UNIQUE_KW Reserved, "unknown" UNKNOWN_KW Unreserved,
            "unlisten" UNLISTEN_KW Unreserved, "unlogged" UNLOGGED_KW Unreserved, "until" UNTIL_KW Unreserved,
            "update" UPDATE_KW Unreserved, "user" USER_KW Reserved, "using" USING_KW Reserved,
            "vacuum" VACUUM_KW Unreserved, "valid" VALID_KW Unreserved, "validate" VALIDATE_KW Unreserved,
            "validator" VALIDATOR_KW Unreserved, "value" VALUE_KW Unreserved, "values" VALUES_KW ColName,
            "varchar" VARCHAR_KW ColName, "variadic" VARIADIC_KW Reserved, "varying" VARYING_KW Unreserved,
            "verbose" VERBOSE_KW TypeFuncName, "version" VERSION_KW Unreserved, "view" VIEW_KW Unreserved,
            "views" VIEWS_KW Unreserved, "volatile" VOLATILE_KW Unreserved, "when" WHEN_KW Reserved,
            "where" WHERE_KW Reserved, "whitespace" WHITESPACE_KW Unreserved, "window" WINDOW_KW Reserved,
            "with" WITH_KW Reserved, "within" WITHIN_KW Unreserved, "without" WITHOUT_KW Unreserved,
            "work" WORK_KW Unreserved, "wrapper" WRAPPER_KW Unreserved, "write" WRITE_KW Unreserved,
            "xml" XML_KW Unreserved, "xmlattributes" XMLATTRIBUTES_KW ColName, "xmlconcat" XMLCONCAT_KW ColName,
            "xmlelement" XMLELEMENT_KW ColName, "xmlexists" XMLEXISTS_KW ColName, "xmlforest" XMLFOREST_KW ColName,
            "xmlnamespaces" XMLNAMESPACES_KW ColName, "xmlparse" XMLPARSE_KW ColName, "xmlpi" XMLPI_KW ColName,
            "xmlroot" XMLROOT_KW ColName, "xmlserialize" XMLSERIALIZE_KW ColName, "xmltable" XMLTABLE_KW ColName,
            "year" YEAR_KW Unreserved, "yes" YES_KW Unreserved, "zone" ZONE_KW Unreserved
        ]
    };
}

static KEYWORDS: [Keyword; 460] = keywords![rows];

static PAIRS: [(&str, u16); 460] = keywords![pairs];

static NAMES: [&str; 460] = keywords![names];

/// The keywords, in the order of their words.
pub fn keywords() -> &'static [Keyword]
    ensures { rows_in result.now ≡ table }
{
    &KEYWORDS
}

/// The keywords with the numbers of their kinds, in the same order.
pub fn keyword_pairs() -> &'static [(&'static str, u16)]
    ensures { pairs_of result.now ≡ keyword_kinds }
{
    &PAIRS
}

/// The names of their kinds, in the same order.
pub fn keyword_names() -> &'static [&'static str]
    ensures { map (λ name. name.now) result.now ≡ map (λ row. keyword_name row.0) table }
{
    &NAMES
}
