//! Types.

pub(crate) const TYPES: &str = r#"
-- Types.

type "a type" = SETOF? type_body bounds?+ => TYPE
simple_type "a type" = type_body => TYPE
bounds = ARRAY ('[' integer ']')?+ | ('[' integer? ']')++

type_body "a type" = builtin_type | interval_type | named_type
interval_type = INTERVAL (interval_fields | precision)?+
named_type = type_ref ('.' label_ref)* type_args?+
type_args = '(' {expression} ')' => TYPE_ARGS

builtin_type "a type" = INT | INTEGER | SMALLINT | BIGINT | REAL | BOOLEAN | FLOAT precision?+ | DOUBLE PRECISION
    | (DECIMAL | DEC | NUMERIC) type_args?+ | BIT VARYING?+ type_args?+
    | (VARCHAR | (CHARACTER | CHAR | NCHAR | NATIONAL (CHARACTER | CHAR)) VARYING?+) precision?+
    | (TIME | TIMESTAMP) precision?+ ((WITH | WITHOUT) TIME ZONE)?+
precision = '(' integer ')' => TYPE_ARGS

interval_fields = YEAR (TO MONTH)?+ | MONTH | DAY (TO (HOUR | MINUTE | seconds))?+ | HOUR (TO (MINUTE | seconds))?+
    | MINUTE (TO seconds)?+ | seconds
seconds = SECOND precision?+

-- The type of a parameter and that of a result: also that of a column.
parameter_type "a type" = SETOF? (parameter_ref (('.' label_ref)+ ('%' TYPE / type_args?+ bounds?+) / type_args?+ bounds?+) | builtin_type bounds?+ | interval_type bounds?+) => TYPE
parameter_ref "a type" = TypeName => NAME_REF
result_type "a type" = SETOF? (result_ref (('.' label_ref)+ ('%' TYPE / type_args?+ bounds?+) / type_args?+ bounds?+) | builtin_type bounds?+ | interval_type bounds?+) => TYPE
result_ref "a type" = ResultName => NAME_REF
"#;
