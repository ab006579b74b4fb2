//! The words that stand as names, and classes of tokens.

pub(crate) const WORDS: &str = r#"
-- Words: which may stand as a name. A keyword that stands as one is an identifier.

-- A column, a table, and what else has no arguments.
class Name = IDENT unreserved col_name => IDENT
-- Keywords that have arguments of their own kind.
class SpecialWord = COALESCE EXISTS EXTRACT GREATEST GROUPING INTERVAL LEAST NORMALIZE NULLIF OVERLAY POSITION ROW SUBSTRING TREAT TRIM
    XMLATTRIBUTES XMLCONCAT XMLELEMENT XMLEXISTS XMLFOREST XMLNAMESPACES XMLPARSE XMLPI XMLROOT XMLSERIALIZE XMLTABLE => IDENT
-- Columns and tables that are no functions. OPERATOR ( begins an operator.
class NoFunction = BIGINT BOOLEAN INOUT INT INTEGER NATIONAL NONE OPERATOR OUT PRECISION REAL SETOF SMALLINT VALUES => IDENT
class TableWord = SpecialWord NoFunction => IDENT
class FromName = IDENT unreserved col_name CURRENT_SCHEMA -SpecialWord -NoFunction => IDENT
-- BETWEEN begins the bounds of a frame.
class OperandName = IDENT unreserved col_name CURRENT_SCHEMA -BETWEEN -SpecialWord -NoFunction => IDENT
class ColumnWord = col_name => IDENT
-- A function or a type.
class TypeName = IDENT unreserved type_func_name => IDENT
class FunctionWord = type_func_name -CURRENT_SCHEMA => IDENT
-- The alias of a table that SET follows.
class ResultName = IDENT unreserved type_func_name -OPERATOR => IDENT
class NotSet = IDENT unreserved col_name -SET => IDENT
-- A role, an option, a label after AS, and one without AS.
class RoleName = IDENT unreserved col_name type_func_name -NONE => IDENT
class OptionName = IDENT unreserved col_name type_func_name => IDENT
class UtilityName = IDENT unreserved col_name type_func_name ANALYZE ANALYSE => IDENT
class AfterExpression = NULLS FILTER OVER WITHIN ESCAPE UESCAPE YEAR MONTH DAY HOUR MINUTE SECOND PRECISION VARYING
class Label = IDENT keyword => IDENT
class NeedsAs = ARRAY AS CHAR CHARACTER CREATE DAY ESCAPE EXCEPT FETCH FILTER FOR FROM GRANT GROUP HAVING HOUR INTERSECT INTO
    ISNULL LIMIT MINUTE MONTH NOTNULL OFFSET ON ORDER OVER OVERLAPS PRECISION RETURNING SECOND TO UNION VARYING WHERE
    WINDOW WITH WITHIN WITHOUT YEAR
class BareLabel = IDENT keyword -NeedsAs => IDENT
-- An operator class, after an expression.
class ClassName = IDENT unreserved col_name -AfterExpression => IDENT
class WindowName = IDENT unreserved col_name -PARTITION -RANGE -ROWS -GROUPS => IDENT
class Reserved = reserved

class Constant = INT_NUMBER NUMERIC_NUMBER TRUE FALSE NULL
class CurrentValue = CURRENT_DATE CURRENT_ROLE CURRENT_USER SESSION_USER USER CURRENT_CATALOG
class CurrentTime = CURRENT_TIME CURRENT_TIMESTAMP LOCALTIME LOCALTIMESTAMP

-- Words that are names elsewhere.
words RoleWord = bypassrls createdb createrole login nobypassrls nocreatedb nocreaterole noinherit nologin noreplication
    nosuperuser replication superuser
words PolicyKind = permissive restrictive
words Objects = objects
words SourceTarget = source target
words Enforced = enforced
words Period = period
words Virtual = virtual
words Indent = indent
words Json = json
words Absent = absent
words Conditional = conditional unconditional
words EmptyError = empty error
words Format = format
words KeepOmit = keep omit
words Keys = keys
words Nested = nested
words Path = path
words Quotes = quotes
words Scalar = scalar
words String = string
class Quoted = STRING ESC_STRING UNICODE_ESC_STRING DOLLAR_QUOTED_STRING

-- A query in parentheses: what it begins with, and what may stand after those inside.
class QueryFirst = SELECT WITH TABLE VALUES
class QueryNext = ')' UNION INTERSECT EXCEPT ORDER LIMIT OFFSET FETCH FOR
guard begins_query = (QueryFirst) QueryNext

-- Where parsing goes on after an error.
class Resume = reserved type_func_name ',' ')' ']' ';' SET VALUES BY
"#;
