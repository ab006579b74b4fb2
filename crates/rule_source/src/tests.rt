//! Tests of what is printed, and of how it is laid out.
use crate::layout::list;
use crate::source;
use rule_grammar::{Hidden, RuleGrammar, Table};
use squawk_parser::{SyntaxKind, TokenSet};
use std::alloc::{AllocError, Global};
use std::test::Fail;

/// A table of three rows, in which rows and messages stand in a line each or in one.
const PRINTED: &str = "\
//! Rules as a table, as `rule_source` prints it. Don't edit it: print it again.
use rule_grammar::{Hidden, RuleGrammar, Table};
use squawk_parser::{SyntaxKind, TokenSet};

static ROWS: [[u16; 8]; 3] = [
    [13, 2, 3, 4, 5, 6, 7, 8],
    [300, 65535, 0, 0, 0, 0, 0, 0],
    [1, 0, 9, 0, 0, 0, 0, 2],
];

static SETS: [[u16; 40]; 1] = [
    [
        0, 0, 0, 0, 0, 0, 0, 0, 0, 0, 0, 0, 0, 0, 0, 0, 0, 0, 0, 0, 0, 0, 0, 0, 0, 0, 0, 0, 0, 0,
        0, 0, 0, 0, 0, 0, 0, 0, 0, 0,
    ],
];

static LOOKS: [[u16; 5]; 1] = [[1, 65535, 65535, 65535, 0]];

static MESSAGES: &str = concat!(\"expected a name\", \"expected '\\\"'\");

static MESSAGE_ENDS: [usize; 3] = [15, 15, 27];

const OPERATORS: [u64; 10] = [16777216, 0, 0, 0, 0, 0, 0, 0, 0, 0];

const PLAIN: [u64; 10] = [0, 0, 0, 0, 0, 0, 0, 0, 0, 0];

const COMPOSED: [u64; 10] = [0, 0, 0, 0, 0, 0, 0, 0, 0, 9223372036854775808];

static GLUED: [u16; 1] = [650];

/// The rules as a table.
pub fn table() -> Table<'static> {
    Table {
        rows: &ROWS,
        sets: &SETS,
        looks: &LOOKS,
        messages: MESSAGES,
        message_ends: &MESSAGE_ENDS,
        operators: TokenSet(OPERATORS),
        plain: TokenSet(PLAIN),
        glued: &GLUED,
        composed: TokenSet(COMPOSED),
        hidden: Hidden::NONE,
    }
}

/// The same as a grammar.
pub fn grammar() -> RuleGrammar<'static> {
    RuleGrammar {
        table: table(),
        start: 0,
        end: 3,
        root: SyntaxKind(2),
        depth: 500,
        names: &[],
    }
}
";

fn table() -> Table<'static> {
    Table {
        rows: &[
            [13, 2, 3, 4, 5, 6, 7, 8],
            [300, 65535, 0, 0, 0, 0, 0, 0],
            [1, 0, 9, 0, 0, 0, 0, 2],
        ],
        sets: &[[0; 40]],
        looks: &[[1, 65535, 65535, 65535, 0]],
        messages: "expected a nameexpected '\"'",
        message_ends: &[15, 15, 27],
        operators: TokenSet([16777216, 0, 0, 0, 0, 0, 0, 0, 0, 0]),
        plain: TokenSet::EMPTY,
        glued: &[650],
        composed: TokenSet([0, 0, 0, 0, 0, 0, 0, 0, 0, 9223372036854775808]),
        hidden: Hidden::NONE,
    }
}

#[test]
fn prints_a_module(rt: HostRuntime) -> Result<(), Fail> {
    let grammar = RuleGrammar {
        table: table(),
        start: 0,
        end: 3,
        root: SyntaxKind::ERROR,
        depth: 500,
        names: &[],
    };
    let printed = source(rt.alloc(), &grammar)?;
    assert_eq!(rt; printed.as_str(), PRINTED);
    Ok(())
}

/// A list of so many times the same item.
fn repeated(alloc: Global, item: &str, count: usize) -> Result<String, AllocError> {
    let mut items = Vec::new(alloc);
    for _ in 0..count {
        items.push(String::from_str(alloc, item)?)?;
    }
    list(alloc, &items, 0)
}

#[test]
fn fills_lines(rt: HostRuntime) -> Result<(), Fail> {
    let five = "1111111111, 1111111111, 1111111111, 1111111111, 1111111111";
    assert_eq!(rt; repeated(rt.alloc(), "1111111111", 5)?.as_str(), five);
    // Eight of them end at column 99.
    let line =
        "1111111111, 1111111111, 1111111111, 1111111111, 1111111111, 1111111111, 1111111111, 1111111111";
    let nine = format!(in rt.alloc(); "\n    {line},\n    1111111111,\n")?;
    assert_eq!(rt;
        repeated(rt.alloc(), "1111111111", 9)?.as_str(),
        nine.as_str()
    );
    let each =
        "\n    11111111111,\n    11111111111,\n    11111111111,\n    11111111111,\n    11111111111,\n";
    assert_eq!(rt; repeated(rt.alloc(), "11111111111", 5)?.as_str(), each);
    Ok(())
}
