//! Texts by a table of rules, with the trees that they have:
//!
//! ```text
//! file = (statement ';')*
//! statement = expression                                        => STATEMENT
//! expression = operand: IDENT => NAME | '(' expression ')' => PAREN
//!     level 1, left: '+' => SUM;  level 2, none: '=' => EQUALITY;  level 3, left: '*' => PRODUCT
//! ```

mod parts;

use rule_grammar::{DEPTH, Hidden, RuleGrammar, Table};
use squawk_parser::{
    Base, EntryPoint, LiteralKind, NoKeywords, OwnedStep, StepList, SyntaxKind, Token, TokenKind,
    TokenSet, parse_whole_into,
};
use std::alloc::{AllocError, Global};
use std::fmt::Write;
use std::test::Fail;

/// No set.
const NONE: u16 = 65535;

const IDENT: u16 = SyntaxKind::IDENT.0;

const SEMICOLON: u16 = SyntaxKind::SEMICOLON.0;

const L_PAREN: u16 = SyntaxKind::L_PAREN.0;

const R_PAREN: u16 = SyntaxKind::R_PAREN.0;

const PLUS: u16 = SyntaxKind::PLUS.0;

const STAR: u16 = SyntaxKind::STAR.0;

const EQ: u16 = SyntaxKind::EQ.0;

const STATEMENT: u16 = 700;

const NAME: u16 = 701;

const PAREN: u16 = 702;

const SUM: u16 = 703;

const EQUALITY: u16 = 704;

const PRODUCT: u16 = 705;

/// A kind that tokens get.
const LABEL: u16 = 713;

const ROOT: SyntaxKind = SyntaxKind(706);

#[rattlefmt::skip]
static ROWS: [[u16; 8]; 27] = [
    // The file: statements, each with a semicolon.
    [256 + 13, 3, 0, 0, NONE, NONE, 0, 3],
    [6, 5, 3, 0, 1, NONE, 0, 0],
    [256 + 1, 0, SEMICOLON, 1, 0, NONE, 0, 1],
    // A statement.
    [256 + 9, 5, STATEMENT, 0, NONE, NONE, 0, 0],
    [256 + 6, 27, 5, 0, NONE, NONE, 0, 0],
    // An expression: its operands,
    [256 + 16, 27, 0, 0, NONE, NONE, 3, 0],
    [11, 9, 0, 4, NONE, NONE, 0, 0],
    [9, 9, NAME, 4, NONE, NONE, 0, 0],
    [256 + 1, 0, IDENT, 4, 3, NONE, 0, 0],
    [11, 14, 0, 5, NONE, NONE, 0, 0],
    [9, 14, PAREN, 5, NONE, NONE, 0, 0],
    [1, 0, L_PAREN, 5, 0, NONE, 0, 0],
    [6, 27, 5, 0, 2, NONE, 0, 0],
    [256 + 1, 0, R_PAREN, 2, 3, NONE, 0, 2],
    // and its operators.
    [17, 18, 1, 6, NONE, NONE, 0, 0],
    [5, 0, SUM, NONE, NONE, NONE, 0, 0],
    [1, 0, PLUS, 6, 0, NONE, 0, 0],
    [256 + 7, 5, 2, 0, 3, NONE, 0, 0],
    [18, 22, 2, 7, NONE, NONE, 0, 0],
    [5, 0, EQUALITY, NONE, NONE, NONE, 0, 0],
    [1, 0, EQ, 7, 0, NONE, 0, 0],
    [256 + 7, 5, 3, 0, 3, NONE, 0, 0],
    [17, 26, 3, 8, NONE, NONE, 0, 0],
    [5, 0, PRODUCT, NONE, NONE, NONE, 0, 0],
    [1, 0, STAR, 8, 0, NONE, 0, 0],
    [256 + 7, 5, 4, 0, 3, NONE, 0, 0],
    [0, 0, 0, NONE, NONE, NONE, 0, 0],
];

#[rattlefmt::skip]
static SETS: [&[u16]; 9] = [
    &[IDENT, L_PAREN], &[SEMICOLON], &[R_PAREN], &[PLUS, EQ, STAR], &[IDENT], &[L_PAREN], &[PLUS], &[EQ], &[STAR],
];

/// The set of these kinds.
fn set_of(kinds: &[u16]) -> [u16; 40] {
    let mut words = [0u16; 40];
    for &kind in kinds {
        if let Some(word) = words.get_mut(usize::from(kind / 16)) {
            *word |= 1u16 << (kind % 16);
        }
    }
    words
}

/// The sets of these kinds.
fn sets_of(alloc: Global, all: &[&[u16]]) -> Result<Vec<[u16; 40]>, AllocError> {
    let mut sets = Vec::new(alloc);
    for &kinds in all {
        sets.push(set_of(kinds))?;
    }
    Ok(sets)
}

/// `expected an expression`, `expected ;`, `expected )` and `expected a statement`.
const MESSAGES: &str = "expected an expressionexpected ;expected )expected a statement";

static MESSAGE_ENDS: [usize; 4] = [22, 32, 42, 62];

/// The raw tokens of a text whose characters are tokens by themselves.
fn tokens_of(alloc: Global, text: &str) -> Result<Vec<Token>, AllocError> {
    let mut tokens = Vec::new(alloc);
    for byte in text.bytes() {
        let kind = match byte {
            b' ' => TokenKind::Whitespace,
            b'(' => TokenKind::OpenParen,
            b')' => TokenKind::CloseParen,
            b';' => TokenKind::Semi,
            b',' => TokenKind::Comma,
            b'+' => TokenKind::Plus,
            b'*' => TokenKind::Star,
            b'=' => TokenKind::Eq,
            b'<' => TokenKind::Lt,
            b'>' => TokenKind::Gt,
            b'@' => TokenKind::At,
            b':' => TokenKind::Colon,
            b'1' => TokenKind::Literal {
                kind: LiteralKind::Int {
                    empty_int: false,
                    base: Base::Decimal,
                    trailing_junk_start: 1,
                },
            },
            _ => TokenKind::Ident,
        };
        tokens.push(Token { kind, len: 1 })?;
    }
    Ok(tokens)
}

/// What a node of the kind is called.
fn called(kind: SyntaxKind) -> &'static str {
    match kind.0 {
        STATEMENT => "STATEMENT",
        NAME => "NAME",
        PAREN => "PAREN",
        SUM => "SUM",
        EQUALITY => "EQUALITY",
        PRODUCT => "PRODUCT",
        2 => "ERROR",
        707 => "LESS",
        708 => "AT_MOST",
        709 => "OTHER",
        710 => "CAST",
        711 => "NESTED",
        712 => "QUERY",
        664 => "CUSTOM_OP",
        645 => "COLON_COLON",
        706 => "FILE",
        _ => "?",
    }
}

/// The line of steps: `NAME{a}` is a node with a token in it, `<a>` a token of kind LABEL, and `!expected ;!` an error.
fn line_of(alloc: Global, steps: &[OwnedStep]) -> Result<String, AllocError> {
    let mut line = String::new(alloc);
    for step in steps {
        match step {
            OwnedStep::Enter { kind } => write!(line, "{}{{", called(*kind))?,
            OwnedStep::Token {
                kind: SyntaxKind(LABEL),
                text,
            } => write!(line, "<{}>", text.as_str())?,
            OwnedStep::Token { kind: _, text } => line.push_str(text.as_str())?,
            OwnedStep::Error { msg, pos: _ } => write!(line, "!{}!", msg.as_str())?,
            OwnedStep::Exit => line.push('}')?,
        }
    }
    Ok(line)
}

/// The line of a text's tree, where rules may be called in one another so often and these tokens are hidden.
fn parsed(alloc: Global, text: &str, depth: u32, hidden: Hidden<'_>) -> Result<String, Fail> {
    let sets = sets_of(alloc, &SETS)?;
    let rules = RuleGrammar {
        table: Table {
            rows: &ROWS,
            sets: sets.as_slice(),
            looks: &[],
            messages: MESSAGES,
            message_ends: &MESSAGE_ENDS,
            operators: TokenSet::EMPTY,
            plain: TokenSet::EMPTY,
            glued: &[],
            composed: TokenSet::EMPTY,
            hidden,
        },
        start: 0,
        end: 3,
        root: ROOT,
        depth,
        names: &[],
    };
    parsed_by(alloc, text, &rules)
}

/// The line of a text's tree by rules.
fn parsed_by(alloc: Global, text: &str, rules: &RuleGrammar<'_>) -> Result<String, Fail> {
    let tokens = tokens_of(alloc, text)?;
    let mut list = StepList::new(alloc);
    let entry = EntryPoint::SourceFile;
    parse_whole_into(alloc, text, &tokens, &NoKeywords, rules, entry, &mut list)?;
    Ok(line_of(alloc, list.steps())?)
}

/// Texts, and what is in their files.
static CASES: [(&str, &str); 14] = [
    ("", ""),
    ("a;", "STATEMENT{NAME{a}};"),
    (
        "a+b*c;",
        "STATEMENT{SUM{NAME{a}+PRODUCT{NAME{b}*NAME{c}}}};",
    ),
    (
        "a*b+c;",
        "STATEMENT{SUM{PRODUCT{NAME{a}*NAME{b}}+NAME{c}}};",
    ),
    ("a+b+c;", "STATEMENT{SUM{SUM{NAME{a}+NAME{b}}+NAME{c}}};"),
    (
        "(a+b)*c;",
        "STATEMENT{PRODUCT{PAREN{(SUM{NAME{a}+NAME{b}})}*NAME{c}}};",
    ),
    (
        "a=b;c;",
        "STATEMENT{EQUALITY{NAME{a}=NAME{b}}};STATEMENT{NAME{c}};",
    ),
    // What is missing is one error, and eats nothing. An error after the end of a node is sent before that end.
    (
        "a+;b;",
        "STATEMENT{SUM{NAME{a}+!expected an expression!}};STATEMENT{NAME{b}};",
    ),
    ("a b;", "STATEMENT{NAME{a}!expected ;!} STATEMENT{NAME{b}};"),
    ("(a;", "STATEMENT{PAREN{(NAME{a!expected )!}}};"),
    ("a", "STATEMENT{NAME{a}!expected ;!}"),
    // What nobody expects is skipped.
    ("a));", "STATEMENT{NAME{a}}ERROR{!expected ;!))};"),
    (",a;", "ERROR{!expected a statement!,}STATEMENT{NAME{a}};"),
    // An operator that doesn't associate.
    (
        "a=b=c;",
        "STATEMENT{EQUALITY{EQUALITY{NAME{a}=NAME{b}!this operator doesn't associate: use parentheses!}=NAME{c}}};",
    ),
];

#[test]
fn parses_cases(rt: HostRuntime) -> Result<(), Fail> {
    for (text, wanted) in &CASES {
        let line = parsed(rt.alloc(), text, DEPTH, Hidden::NONE)?;
        let wanted = format!(in rt.alloc(); "FILE{{{wanted}}}")?;
        assert_eq!(rt; line.as_str(), wanted.as_str(), "{text}");
    }
    Ok(())
}

/// A statement and an expression are two rules, and an expression in parentheses is one more.
#[test]
fn stops_at_the_depth(rt: HostRuntime) -> Result<(), Fail> {
    let whole = parsed(rt.alloc(), "((a));", 4, Hidden::NONE)?;
    assert_eq!(rt;
        whole.as_str(),
        "FILE{STATEMENT{PAREN{(PAREN{(NAME{a})})}};}"
    );
    let cut = parsed(rt.alloc(), "(((a)));", 3, Hidden::NONE)?;
    assert_eq!(rt;
        cut.as_str(),
        "FILE{STATEMENT{PAREN{(PAREN{(ERROR{!nested too deep!(a)})})}};}"
    );
    Ok(())
}

/// No rule takes the third token of the text.
#[test]
fn takes_no_hidden_token(rt: HostRuntime) -> Result<(), Fail> {
    let third = Hidden {
        tokens: &[false, false, true],
        message: "this is hidden",
    };
    let operand = parsed(rt.alloc(), "a*b;c;", DEPTH, third)?;
    assert_eq!(rt;
        operand.as_str(),
        "FILE{STATEMENT{PRODUCT{NAME{a}*ERROR{!this is hidden!b}}};STATEMENT{NAME{c}};}"
    );
    let statement = parsed(rt.alloc(), "a;b", DEPTH, third)?;
    assert_eq!(rt;
        statement.as_str(),
        "FILE{STATEMENT{NAME{a}};ERROR{!this is hidden!b}}"
    );
    Ok(())
}
