//! Names, operators, strings and numbers.

pub(crate) const NAMES: &str = r#"
-- Names, and the small words of many statements. UESCAPE stands after one as U&"..."; a variable of psql may be a name.

name "a name" = Name (UESCAPE STRING)? => NAME | ':' Label => PARAM_REF
name_ref "a name" = Name (UESCAPE STRING)? => NAME_REF | ':' Label => PARAM_REF
label "a name" = Label (UESCAPE STRING)? => NAME | ':' Label => PARAM_REF
label_ref "a name" = Label (UESCAPE STRING)? => NAME_REF | ':' Label => PARAM_REF
type_ref "a name" = TypeName => NAME_REF
function_word "a name" = FunctionWord => NAME_REF

-- A variable of psql, where it stands for a value.
variable "a variable" = ':' (Label | STRING) => PARAM_REF

-- The name of what is there, and of what is made.
path "a name" = name_ref ('.' label_ref)* => PATH
table "a table name" = name_ref ('.' label_ref)* => PATH
new_path "a name" = name => PATH | schema_ref '.' (middle_ref '.')* label => PATH
function_path "a function name" = function_ref => PATH | schema_ref ('.' label_ref)+ => PATH
new_function "a function name" = new_type => PATH | schema_ref '.' (middle_ref '.')* label => PATH
function_ref "a function name" = TypeName => NAME_REF
new_type "a name" = TypeName => NAME
-- Names that a dot follows: by themselves, so that the dot decides.
schema_ref "a name" = Name => NAME_REF | ':' Label => PARAM_REF
middle_ref "a name" = Label => NAME_REF | ':' Label => PARAM_REF

names "a name" = {name_ref}
columns "column names" = '(' {column_ref} ')' => COLUMN_LIST
column_ref "a column name" = Name => NAME_REF | ':' Label => PARAM_REF
new_columns "column names" = '(' {listed_column} ')' => COLUMN_LIST
listed_column "a column name" = Name => NAME
new_column "a column name" = Name => NAME

role "a role" = (RoleName | CURRENT_ROLE | CURRENT_USER | SESSION_USER) => ROLE_REF | ':' Label => PARAM_REF
roles "a role" = {role}
new_role "a role" = RoleName => NAME | ':' Label => PARAM_REF

operator "an operator" = (schema_ref '.')* sign => OP
called_operator "an operator" = (schema_ref '.')* called_sign => OP
called_sign "an operator" = '+' | '-' | '*' | '/' | '%' | '^' | '<' | '>' | '=' | '<=' | '>=' | '<>' | '!=' | CUSTOM_OP
sign "an operator" = '+' | '-' | '*' | '/' | '%' | '^' | '<' | '>' | '=' | '<=' | '>=' | '<>' | '!=' | CUSTOM_OP

-- Quoted strings that continue one another are one.
string "a string" = constant_string | variable
constant_string "a string" = DOLLAR_QUOTED_STRING => LITERAL | quoted_string
quoted_string "a string" = (STRING | ESC_STRING | UNICODE_ESC_STRING) => LITERAL
    left _ STRING => LITERAL | _ UESCAPE STRING => LITERAL
prefixed_string "a string" = (BIT_STRING | BYTE_STRING | NATIONAL_STRING) => LITERAL
    left _ STRING => LITERAL
integer "an integer" = INT_NUMBER => LITERAL
signed_integer "an integer" = ('+' | '-')? INT_NUMBER => LITERAL
number "a number" = ('+' | '-')? (INT_NUMBER | NUMERIC_NUMBER) => LITERAL
word_or_string "a name or a string" = OptionName => NAME_REF | string
word "a value" = OptionName | TRUE | FALSE | ON

behavior = CASCADE | RESTRICT
"#;
