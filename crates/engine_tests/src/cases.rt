//! Calls over texts, which are also run where memory or a step is refused.

use row_fixtures::keywords::Keywords;

/// Calls over a text, and the line of the steps that they send (`row_fixtures::lines`).
#[derive(Clone, Copy)]
pub struct Case {
    pub calls: &'static str,
    pub text: &'static str,
    pub line: &'static str,
}

pub const ERROR_BEHIND_A_NODE: Case = Case {
    calls: "start, start, bump_any, complete 1 NAME, error e, complete 0 ROOT",
    text: "x ",
    line: "ROOT(NAME(x !'e'@1) _)",
};

pub const SKIPPED_TOKEN: Case = Case {
    calls: "start, err_and_bump m, complete 0 ROOT",
    text: " ,",
    line: "ROOT(_ ERROR(!'m'@1 ,))",
};

/// A kind that has a name.
pub const EXPECTED_NAME: Case = Case {
    calls: "start, bump_any, expect SEMICOLON, complete 0 ROOT",
    text: "a",
    line: "ROOT(a !'expected SEMICOLON'@1)",
};

/// The same where it has none.
pub const EXPECTED_NUMBER: Case = Case {
    calls: "start, bump_any, expect SEMICOLON, complete 0 ROOT",
    text: "a",
    line: "ROOT(a !'expected 5'@1)",
};

pub const EXTENDED_TWICE: Case = Case {
    calls: "start, start, bump_any, start, bump_any, start, bump_any, complete 3 BINARY, \
            extend_to 3 2, extend_to 3 1, complete 0 ROOT",
    text: "a b c",
    line: "ROOT(BINARY(a _ b _ c))",
};

pub const EXTENDED_TO_THE_OLDEST_FIRST: Case = Case {
    calls: "start, start, bump_any, start, bump_any, start, bump_any, complete 3 BINARY, \
            extend_to 3 1, extend_to 3 2, complete 0 ROOT",
    text: "a b c",
    line: "ROOT(BINARY(a _ b _ c))",
};

/// Node 3 stands in front of node 1, and so before marker 2.
pub const EXTENDED_IN_FRONT: Case = Case {
    calls: "start, start, start, bump_any, complete 1 BINARY, precede 1, complete 3 NAME, \
            extend_to 3 2, complete 0 ROOT",
    text: "a",
    line: "ROOT(NAME(BINARY(a)))",
};

/// A whole statement behind a byte order mark.
pub const STATEMENT: Case = Case {
    calls: "start, start, start, bump_any, start, start, start, bump_any, complete 5 LITERAL, \
            complete 4 TARGET, complete 3 TARGET_LIST, complete 2 SELECT_CLAUSE, bump_any, \
            complete 1 SELECT, complete 0 SOURCE_FILE",
    text: "\u{feff}select 1;",
    line: "SOURCE_FILE(WHITESPACE'\\u{feff}' SELECT(SELECT_CLAUSE(SELECT_KW'select' _ \
           TARGET_LIST(TARGET(LITERAL(1)))) ;))",
};

/// The keywords of the statement.
pub const SELECT: Keywords<'static> = Keywords {
    keywords: &[("select", 200)],
    contextual_keywords: &[("message", 201), ("raise", 202)],
};
