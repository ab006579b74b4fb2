//! Words, names, kinds of nodes, guards, forgotten commas and composite kinds:
//!
//! ```text
//! statement = '+' item (',' item)* | '*' word | '=' a word that is none | ',' LABEL | expression that is a NAME
//! item = expression ':'?
//! expression = operand: where it is one, query | IDENT => NAME | '(' expression ')' => PAREN
//!     level 1: '<' => LESS, '<=' => AT_MOST;  level 2: any other operator => OTHER;  level 3: '::' => CAST
//! query = '(' query ')' => NESTED | INT_NUMBER => QUERY
//! ```
use super::{
    EQ, IDENT, L_PAREN, LABEL, NAME, NONE, PAREN, PLUS, R_PAREN, ROOT, SEMICOLON, STAR, STATEMENT,
    parsed_by, sets_of,
};
use rule_grammar::{DEPTH, Hidden, RuleGrammar, Table, bit_of};
use squawk_parser::{SyntaxKind, TokenSet, token_set};
use std::test::Fail;

const INT: u16 = SyntaxKind::INT_NUMBER.0;

const COMMA: u16 = SyntaxKind::COMMA.0;

const COLON: u16 = SyntaxKind::COLON.0;

const L_ANGLE: u16 = SyntaxKind::L_ANGLE.0;

const LTEQ: u16 = SyntaxKind::LTEQ.0;

const CUSTOM: u16 = SyntaxKind::CUSTOM_OP.0;

const COLONS: u16 = SyntaxKind::COLON_COLON.0;

const LESS: u16 = 707;

const AT_MOST: u16 = 708;

const OTHER: u16 = 709;

const CAST: u16 = 710;

const NESTED: u16 = 711;

const QUERY: u16 = 712;

/// CUSTOM_OP and COLON_COLON stand in sets at the bits 1 and 2.
#[rattlefmt::skip]
static SETS: [&[u16]; 19] = [
    &[PLUS, STAR, EQ, COMMA, IDENT, L_PAREN, INT], &[SEMICOLON], &[IDENT, L_PAREN, INT],
    &[PLUS], &[STAR], &[EQ], &[COMMA], &[IDENT], &[INT], &[L_PAREN, INT],
    &[L_PAREN], &[R_PAREN], &[R_PAREN, SEMICOLON], &[L_ANGLE, LTEQ, 1, 2], &[LTEQ],
    &[L_ANGLE], &[1], &[2], &[COLON],
];

#[rattlefmt::skip]
static ROWS: [[u16; 8]; 62] = [
    // The file: statements, each with a semicolon.
    [256 + 13, 3, 0, 0, NONE, NONE, 0, 1],
    [6, 22, 3, 0, 1, NONE, 0, 0],
    [256 + 1, 0, SEMICOLON, 1, 0, NONE, 0, 0],
    // A statement: a list,
    [256 + 9, 22, STATEMENT, 0, NONE, NONE, 0, 0],
    [256 + 10, 22, 0, 0, NONE, NONE, 0, 0],
    [11, 9, 0, 3, NONE, NONE, 0, 0],
    [1, 0, PLUS, 3, 2, NONE, 0, 0],
    [256 + 15, 9, COMMA, 2, NONE, NONE, 0, 2],
    [256 + 6, 62, 59, 2, 6, 2, 0, 2],
    // a word, one that no identifier is, a name,
    [11, 12, 0, 4, NONE, NONE, 0, 0],
    [1, 0, STAR, 4, 7, NONE, 0, 0],
    [256 + 2, 0, 7, 7, NONE, NONE, 0, 3],
    [11, 15, 0, 5, NONE, NONE, 0, 0],
    [1, 0, EQ, 5, 7, NONE, 0, 0],
    [256 + 2, 0, 8, 7, NONE, NONE, 0, 3],
    [11, 18, 0, 6, NONE, NONE, 0, 0],
    [1, 0, COMMA, 6, 7, NONE, 0, 0],
    [256 + 4, LABEL, 7, 7, NONE, NONE, 0, 3],
    // and an expression that is a NAME.
    [11, 22, 0, 2, NONE, NONE, 0, 0],
    [256 + 6, 50, 22, 2, NONE, NONE, 0, 2],
    [256 + 20, 22, 0, NONE, NONE, NONE, 0, 4],
    [5, 0, NAME, NONE, NONE, NONE, 0, 0],
    // An expression: its operands, of which the first has a guard,
    [256 + 16, 50, 0, 2, NONE, NONE, 13, 2],
    [512 + 11, 26, 0, 9, NONE, NONE, 0, 0],
    [8, 8, 12, NONE, NONE, NONE, 0, 0],
    [256 + 6, 59, 50, 9, 13, NONE, 0, 0],
    [11, 29, 0, 7, NONE, NONE, 0, 0],
    [256 + 9, 29, NAME, 7, 13, NONE, 0, 0],
    [256 + 1, 0, IDENT, 7, 13, NONE, 0, 0],
    [11, 34, 0, 10, NONE, NONE, 0, 0],
    [256 + 9, 34, PAREN, 10, 13, NONE, 0, 0],
    [1, 0, L_PAREN, 10, 2, NONE, 0, 0],
    [6, 50, 22, 2, 11, NONE, 0, 2],
    [256 + 1, 0, R_PAREN, 11, 13, NONE, 0, 5],
    // and its operators.
    [17, 38, 1, 15, NONE, NONE, 0, 0],
    [5, 0, LESS, NONE, NONE, NONE, 0, 0],
    [1, 0, L_ANGLE, 15, 2, NONE, 0, 0],
    [256 + 7, 22, 2, 2, 13, NONE, 0, 0],
    [17, 42, 1, 14, NONE, NONE, 0, 0],
    [5, 0, AT_MOST, NONE, NONE, NONE, 0, 0],
    [1, 0, LTEQ, 14, 2, NONE, 0, 0],
    [256 + 7, 22, 2, 2, 13, NONE, 0, 0],
    [17, 46, 2, 16, NONE, NONE, 0, 0],
    [5, 0, OTHER, NONE, NONE, NONE, 0, 0],
    [1, 0, CUSTOM, 16, 2, NONE, 0, 0],
    [256 + 7, 22, 3, 2, 13, NONE, 0, 0],
    [17, 50, 3, 17, NONE, NONE, 0, 0],
    [5, 0, CAST, NONE, NONE, NONE, 0, 0],
    [1, 0, COLONS, 17, 2, NONE, 0, 0],
    [256 + 7, 22, 4, 2, 13, NONE, 0, 0],
    // A query.
    [256 + 10, 59, 0, 9, NONE, NONE, 0, 0],
    [11, 56, 0, 10, NONE, NONE, 0, 0],
    [256 + 9, 56, NESTED, 10, NONE, NONE, 0, 0],
    [1, 0, L_PAREN, 10, 9, NONE, 0, 0],
    [6, 59, 50, 9, 11, NONE, 0, 0],
    [256 + 1, 0, R_PAREN, 11, NONE, NONE, 0, 5],
    [11, 59, 0, 8, NONE, NONE, 0, 0],
    [256 + 9, 59, QUERY, 8, NONE, NONE, 0, 0],
    [256 + 1, 0, INT, 8, NONE, NONE, 0, 0],
    // An item of a list.
    [6, 50, 22, 2, 18, NONE, 0, 2],
    [256 + 12, 62, 0, 18, NONE, NONE, 0, 6],
    [256 + 1, 0, COLON, 18, NONE, NONE, 0, 0],
];

/// `expected ;`, `expected a statement`, `expected an expression`, `expected a word`, `only a name`, `expected )` and
/// `expected a colon`.
const MESSAGES: &str =
    "expected ;expected a statementexpected an expressionexpected a wordonly a nameexpected )expected a colon";

static MESSAGE_ENDS: [usize; 7] = [10, 30, 52, 67, 78, 88, 104];

/// The kinds that operators are made of.
const OPERATORS: TokenSet = token_set![
    SyntaxKind::L_ANGLE,
    SyntaxKind::R_ANGLE,
    SyntaxKind::EQ,
    SyntaxKind::AT,
];

/// Those that are operators by themselves.
const PLAIN: TokenSet = token_set![SyntaxKind::L_ANGLE, SyntaxKind::EQ];

/// The kinds that symbols of other kinds begin with.
const COMPOSED: TokenSet = token_set![
    SyntaxKind::L_ANGLE,
    SyntaxKind::R_ANGLE,
    SyntaxKind::EQ,
    SyntaxKind::AT,
    SyntaxKind::COLON,
];

/// Texts, and what is in their files.
static CASES: [(&str, &str); 24] = [
    // A word is an identifier of a contextual kind; here that is IDENT. One that is none is left for the next statement.
    ("*a;", "STATEMENT{*a};"),
    ("*1;", "STATEMENT{*ERROR{!expected a word!1}};"),
    ("=a;", "STATEMENT{=!expected a word!}STATEMENT{NAME{a}};"),
    (",a;", "STATEMENT{,<a>};"),
    // The node that ended last has another kind than it has to. An error after the end of a node is sent before that end.
    ("a;", "STATEMENT{NAME{a}};"),
    ("(a);", "STATEMENT{PAREN{(NAME{a})!only a name!}};"),
    ("a<b;", "STATEMENT{LESS{NAME{a}<NAME{b}!only a name!}};"),
    // A query in parentheses is one, unless an operator comes after it.
    ("+(1);", "STATEMENT{+NESTED{(QUERY{1})}};"),
    ("+((1));", "STATEMENT{+NESTED{(NESTED{(QUERY{1})})}};"),
    (
        "+((1)<a);",
        "STATEMENT{+PAREN{(LESS{NESTED{(QUERY{1})}<NAME{a}})}};",
    ),
    (
        "+(((1))<a);",
        "STATEMENT{+PAREN{(LESS{NESTED{(NESTED{(QUERY{1})})}<NAME{a}})}};",
    ),
    (
        "+(((1)<a));",
        "STATEMENT{+PAREN{(PAREN{(LESS{NESTED{(QUERY{1})}<NAME{a}})})}};",
    ),
    ("+(1)<a;", "STATEMENT{+LESS{NESTED{(QUERY{1})}<NAME{a}}};"),
    (
        "+((1;",
        "STATEMENT{+NESTED{(NESTED{(QUERY{1!expected )!}}}};",
    ),
    ("+((a));", "STATEMENT{+PAREN{(PAREN{(NAME{a})})}};"),
    // A comma that is forgotten is one error.
    (
        "+a b,c;",
        "STATEMENT{+NAME{a!expected a comma!} NAME{b},NAME{c}};",
    ),
    (
        "+a:b,c;",
        "STATEMENT{+NAME{a}:!expected a comma!NAME{b},NAME{c}};",
    ),
    // What nobody expects is told where parsing goes on after it.
    ("+a);", "STATEMENT{+NAME{a}}ERROR{!expected ;!)};"),
    // Operators of one token and more, and a glued kind that is a node.
    ("+a<b;", "STATEMENT{+LESS{NAME{a}<NAME{b}}};"),
    (
        "+a<=b<c;",
        "STATEMENT{+LESS{AT_MOST{NAME{a}<=NAME{b}}<NAME{c}}};",
    ),
    ("+a@>b;", "STATEMENT{+OTHER{NAME{a}CUSTOM_OP{@>}NAME{b}}};"),
    ("+a@b;", "STATEMENT{+OTHER{NAME{a}CUSTOM_OP{@}NAME{b}}};"),
    (
        "+a<=>b;",
        "STATEMENT{+OTHER{NAME{a}CUSTOM_OP{<=>}NAME{b}}};",
    ),
    (
        "+a::b@>c;",
        "STATEMENT{+OTHER{CAST{NAME{a}COLON_COLON{::}NAME{b}}CUSTOM_OP{@>}NAME{c}}};",
    ),
];

static GLUED: [u16; 2] = [LTEQ, COLONS];

#[test]
fn parses_parts(rt: HostRuntime) -> Result<(), Fail> {
    let sets = sets_of(rt.alloc(), &SETS)?;
    let rules = RuleGrammar {
        table: Table {
            rows: &ROWS,
            sets: sets.as_slice(),
            looks: &[],
            messages: MESSAGES,
            message_ends: &MESSAGE_ENDS,
            operators: OPERATORS,
            plain: PLAIN,
            glued: &GLUED,
            composed: COMPOSED,
            hidden: Hidden::NONE,
        },
        start: 0,
        end: 3,
        root: ROOT,
        depth: DEPTH,
        names: &[],
    };
    for (text, wanted) in &CASES {
        let line = parsed_by(rt.alloc(), text, &rules)?;
        let wanted = format!(in rt.alloc(); "FILE{{{wanted}}}")?;
        assert_eq!(rt; line.as_str(), wanted.as_str(), "{text}");
    }
    Ok(())
}

/// The bits of kinds in sets.
#[test]
fn tells_bits(rt: HostRuntime) -> Result<(), Fail> {
    assert_eq!(rt; bit_of(SyntaxKind::CUSTOM_OP).0, 1);
    assert_eq!(rt; bit_of(SyntaxKind::COLON_COLON).0, 2);
    assert_eq!(rt; bit_of(SyntaxKind::COMMA), SyntaxKind::COMMA);
    Ok(())
}
