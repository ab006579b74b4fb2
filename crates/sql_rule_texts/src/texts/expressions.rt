//! Expressions, calls and XML.

pub(crate) const EXPRESSIONS: &str = r#"
-- Expressions. SIMILAR without TO stands in SUBSTRING. PostgreSQL 17: AT LOCAL.

expression "an expression" = primary | special | DEFAULT => DEFAULT_EXPR
    left  _ OR _ => BIN_EXPR
    left  _ AND _ => BIN_EXPR
    right NOT _ => PREFIX_EXPR
    none  _ IS NOT? DISTINCT FROM _ => IS_EXPR | _ IS NOT? test => IS_EXPR | _ ISNULL => IS_EXPR | _ NOTNULL => IS_EXPR
    none  _ ('<' | '>' | '=' | '<=' | '>=' | '<>' | '!=') (some_of | _) => BIN_EXPR
    left  _ ~LIKE_EXPR ESCAPE _ => LIKE_EXPR
    none  _ NOT? IN in_list => IN_EXPR
        | _ NOT? (BETWEEN (ASYMMETRIC | SYMMETRIC)? plain_expression AND _ => BETWEEN_EXPR
            | like (some_of | _) => LIKE_EXPR | SIMILAR TO? _ => LIKE_EXPR)
        | _ ~ROW_EXPR OVERLAPS _ ~ROW_EXPR => OVERLAPS_EXPR
    left  _ other_sign (some_of | _) => BIN_EXPR | other_sign _ => PREFIX_EXPR
    left  _ ('+' | '-') (some_of | _) => BIN_EXPR
    left  _ ('*' | '/' | '%') (some_of | _) => BIN_EXPR
    left  _ '^' (some_of | _) => BIN_EXPR
    left  _ AT (TIME ZONE _ => BIN_EXPR | LOCAL => AT_LOCAL_EXPR)
    left  _ COLLATE path => COLLATE_EXPR
    right ('+' | '-') _ => PREFIX_EXPR
    left  _ '::' type => CAST_EXPR

-- An expression without what also goes on after it: NOT, AND, IN, LIKE and the like.
plain_expression "an expression" = primary | special
    none  _ IS NOT? DISTINCT FROM _ => IS_EXPR | _ IS NOT? DOCUMENT => IS_EXPR
    none  _ ('<' | '>' | '=' | '<=' | '>=' | '<>' | '!=') _ => BIN_EXPR
    left  _ other_sign _ => BIN_EXPR | other_sign _ => PREFIX_EXPR
    left  _ ('+' | '-') _ => BIN_EXPR
    left  _ ('*' | '/' | '%') _ => BIN_EXPR
    left  _ '^' _ => BIN_EXPR
    right ('+' | '-') _ => PREFIX_EXPR
    left  _ '::' type => CAST_EXPR

other_sign "an operator" = CUSTOM_OP | OPERATOR '(' called_operator ')'
any_sign "an operator" = sign | OPERATOR '(' called_operator ')'
-- PostgreSQL 16: JSON.
test "NULL, TRUE, FALSE, UNKNOWN or DISTINCT FROM" = NULL | TRUE | FALSE | UNKNOWN | DOCUMENT | normal_form? NORMALIZED
    | Json (VALUE | ARRAY | OBJECT)?+ ((WITH | WITHOUT) UNIQUE Keys?+)?+
normal_form "a normal form" = NFC | NFD | NFKC | NFKD
like "LIKE or ILIKE" = LIKE | ILIKE
some_of "an expression" = (ANY | SOME | ALL) (@begins_query '(' query ')' | '(' expression ')') => SOME_OF
in_list "a list of values" = (@begins_query '(' query ')' => SUBQUERY | '(' {expression} ')' => ROW_VALUES)

-- What stands between operators: operands, with fields, elements, arguments and strings after them.
primary "an expression" = operand
    left  _ ~(NAME_REF | FIELD_EXPR | INDEX_EXPR | SLICE_EXPR | PAREN_EXPR | SUBQUERY | PARAM_REF) '.' (label_ref | '*') => FIELD_EXPR
        | _ ~(NAME_REF | FIELD_EXPR | INDEX_EXPR | SLICE_EXPR | PAREN_EXPR | SUBQUERY | PARAM_REF) '[' (':' expression? => SLICE_EXPR / expression => INDEX_EXPR (':' expression? => SLICE_EXPR)?) ']'
        | _ ~(NAME_REF | FIELD_EXPR) arg_list call_tail => CALL_EXPR
        | _ ~(NAME_REF | FIELD_EXPR | CALL_EXPR) constant_string => CAST_EXPR

-- A keyword that is no function is a name where nothing else fits.
operand "an expression" = paren
    / Constant => LITERAL
    / prefixed_string
    / constant_string
    / POSITIONAL_PARAM => PARAM_REF
    / variable
    / CASE expression? when+ else? END => CASE_EXPR
    / ARRAY ('(' query ')' | array_items) => ARRAY_EXPR
    / typed_literal
    / keyword_call
    / function_word (arg_list call_tail => CALL_EXPR | constant_string => CAST_EXPR)
    / CurrentValue => CALL_EXPR
    / OperandName (UESCAPE STRING)? => NAME_REF

paren "an expression" = (@begins_query '(' query ')' => SUBQUERY
    | '(' expression (')' => PAREN_EXPR | ',' {expression} ')' => ROW_EXPR))
when "WHEN" = WHEN expression THEN expression => WHEN_CLAUSE
else = ELSE expression => ELSE_CLAUSE
array_items = '[' ({array_items} | {expression})? ']' => ARRAY_ITEMS
interval_literal = INTERVAL (constant_string interval_fields?+ | precision constant_string) => CAST_EXPR
typed_literal = literal_type constant_string => CAST_EXPR
literal_type "a type" = DOUBLE PRECISION => TYPE | (BIT | CHARACTER | CHAR | NCHAR) VARYING literal_size? => TYPE
    | NATIONAL (CHARACTER | CHAR) VARYING? literal_size? => TYPE
    | (TIME | TIMESTAMP) (literal_size ((WITH | WITHOUT) TIME ZONE)? | (WITH | WITHOUT) TIME ZONE) => TYPE
literal_size = '(' integer ')' => TYPE_ARGS

-- Calls. PostgreSQL 16: VALUE and `:` in JSON_OBJECT, FORMAT and further clauses.
arg_list "arguments" = '(' ('*' | (ALL | DISTINCT)? {argument} order_by? json_passing? json_clause*)? ')' => ARG_LIST
argument "an argument" = VARIADIC? arg json_format?+
arg "an argument" = expression
    none  _ ~NAME_REF (':=' | '=>') _ => NAMED_ARG | _ (VALUE | ':') expression => JSON_KEY_VALUE
call_tail = within_group?+ filter?+ over?+
within_group = WITHIN GROUP '(' order_by ')' => WITHIN_CLAUSE
filter = FILTER '(' where ')' => FILTER_CLAUSE
over = OVER (window_spec | name_ref) => OVER_CLAUSE

keyword_call "a function call" = CurrentTime precision?+ => CALL_EXPR
    | COLLATION FOR '(' expression ')' => CALL_EXPR
    | CAST '(' expression AS type ')' => CAST_EXPR

-- Keywords with arguments of their own kind. Without a parenthesis they are names.
special "an expression" = special_call | EXISTS '(' query ')' => EXISTS_EXPR | ROW '(' {expression}? ')' => ROW_EXPR
    | interval_literal
    | SpecialWord => NAME_REF | special_ref ('.' (label_ref | '*') => FIELD_EXPR | '[' expression ']' => INDEX_EXPR)+
    | NoFunction => NAME_REF | no_function (('.' (label_ref | '*') => FIELD_EXPR | '[' expression ']' => INDEX_EXPR)+ | constant_string => CAST_EXPR)
special_ref "a name" = SpecialWord => NAME_REF
no_function "a name" = NoFunction => NAME_REF
special_call "a function call" = TREAT '(' expression AS type ')' => CALL_EXPR
    | EXTRACT '(' (Name | string) FROM expression ')' => CALL_EXPR
    | GROUPING '(' {expression} ')' => CALL_EXPR
    | NORMALIZE '(' expression (',' normal_form)? ')' => CALL_EXPR
    | OVERLAY '(' (arg (PLACING expression FROM expression (FOR expression)? | (',' arg)*))? ')' => CALL_EXPR
    | POSITION '(' plain_expression IN plain_expression ')' => CALL_EXPR
    | SUBSTRING '(' (arg (FROM expression (FOR expression)? | FOR expression (FROM expression)? | (',' arg)*))? ')' => CALL_EXPR
    | TRIM '(' (BOTH | LEADING | TRAILING)? (FROM {expression} | expression (FROM {expression} | (',' expression)*)) ')' => CALL_EXPR
    | NULLIF '(' expression ',' expression ')' => CALL_EXPR
    | (COALESCE | GREATEST | LEAST) '(' {expression} ')' => CALL_EXPR
    | xml_call

-- Clauses of JSON functions, of PostgreSQL 16 and 17, which may stand in any call, and those of JSON_TABLE, of 17.
json_returning = RETURNING type => JSON_RETURNING_CLAUSE
json_clause "a clause" = &(Format Json) json_format
    / &(Absent ON) Absent ON NULL => JSON_NULL_CLAUSE
    / &(NULL ON NULL) NULL ON NULL => JSON_NULL_CLAUSE
    / &(KeepOmit Quotes) KeepOmit Quotes (ON Scalar String)? => JSON_QUOTES_CLAUSE
    / (WITH | WITHOUT) UNIQUE Keys?+ => JSON_KEYS_UNIQUE_CLAUSE
    / (WITHOUT | WITH Conditional?) ARRAY? WRAPPER => JSON_WRAPPER_BEHAVIOR_CLAUSE
    / json_returning
    / (EmptyError (ARRAY | OBJECT)? | NULL | TRUE | FALSE | UNKNOWN | DEFAULT expression) ON EmptyError => JSON_BEHAVIOR_CLAUSE
json_format = Format Json (ENCODING IDENT)? => JSON_FORMAT_CLAUSE
json_passing = PASSING {json_passed} => JSON_PASSING_CLAUSE
json_passed "a value" = expression json_format? AS label => JSON_PASSING_ARG
json_columns "COLUMNS" = COLUMNS '(' {json_column} ')' => JSON_TABLE_COLUMN_LIST
json_column "a column" = &(Nested Path) Nested Path constant_string (AS name)? json_columns => JSON_TABLE_COLUMN
    / &(Nested Quoted) Nested constant_string (AS name)? json_columns => JSON_TABLE_COLUMN
    / new_column (FOR ORDINALITY | type EXISTS? json_column_clause*) => JSON_TABLE_COLUMN
json_column_clause "a clause" = &(Path Quoted) Path constant_string / json_clause

-- XML. PostgreSQL 16: INDENT.
xml_call = XMLCONCAT '(' {expression} ')' => CALL_EXPR
    | XMLELEMENT '(' NAME label (',' (xml_attributes (',' {expression})? / {expression}))? ')' => CALL_EXPR
    | XMLEXISTS '(' passed xml_passing ')' => CALL_EXPR
    | XMLFOREST '(' {xml_attribute} ')' => CALL_EXPR
    | XMLPARSE '(' (DOCUMENT | CONTENT) expression ((PRESERVE | STRIP) WHITESPACE)? ')' => CALL_EXPR
    | XMLPI '(' NAME label (',' expression)? ')' => CALL_EXPR
    | XMLROOT '(' expression ',' VERSION (NO VALUE / expression) (',' STANDALONE (YES | NO VALUE?))? ')' => CALL_EXPR
    | XMLSERIALIZE '(' (DOCUMENT | CONTENT) expression AS simple_type (NO? Indent)? ')' => CALL_EXPR
xml_attributes = XMLATTRIBUTES '(' {xml_attribute} ')' => XML_ATTRIBUTES
xml_attribute "an expression" = expression (AS label)? => XML_ATTRIBUTE
xml_passing = PASSING xml_mechanism?+ passed xml_mechanism?+ => XML_PASSING
passed "an expression" = primary | special
xml_mechanism = BY (REF | VALUE)
xml_table = XMLTABLE '(' (XMLNAMESPACES '(' {xml_namespace} ')' ',')?+ passed xml_passing COLUMNS {xml_column} ')'
xml_namespace "a namespace" = plain_expression AS label => XML_NAMESPACE | DEFAULT plain_expression => XML_NAMESPACE
xml_column "a column" = new_column (FOR ORDINALITY | type (IDENT plain_expression | DEFAULT plain_expression | NOT NULL | NULL)*) => XML_COLUMN
"#;
