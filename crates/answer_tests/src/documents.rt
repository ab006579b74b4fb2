//! Documents that tests run. They are cases of `corpus`, too.

/// A name and a space. The error behind the name stands in its node, and the space behind it.
pub const NAME: &str = r#"{"text":"x ","tokens":[["ident",1],["whitespace",1]],
"words":{"operator_first":[],"names":[]},"vocabulary":{"keywords":[],"contextual":[]},"entry":"sql",
"calls":[["start"],["start"],["bump_any"],["complete",1,701],["error","e"],["complete",0,700]]}"#;

/// The answer to [`NAME`].
pub const NAME_LINES: &str = r#"enter 700
enter 701
token 3 "x"
error 1 "e"
exit
token 639 " "
exit
all
"#;

/// A string whose escape is too short, which is a lexical error with a hint.
pub const ESCAPE: &str = r#"{"text":"E'\\u0'","tokens":[["esc_str",6,true]],
"words":{"operator_first":[],"names":[]},"vocabulary":{"keywords":[],"contextual":[]},"entry":"sql",
"calls":[["start"],["bump_any"],["complete",0,700]]}"#;

/// The answer to [`ESCAPE`].
pub const ESCAPE_LINES: &str =
    r#"lex 2..5 "incomplete unicode escape" "expected 4 hex digits, like `\\uXXXX`"
enter 700
token 41 "E'\\u0'"
exit
all
"#;
