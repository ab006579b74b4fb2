//! Texts by rules, with the trees that they have.
use crate::lines::line_of;
use crate::names::{CLASSES, NODES, TOKENS};
use rule_tables::{KeywordNames, Rules};
use rule_text::read;
use sql_lexer::tokenize;
use squawk_kinds::{NoKeywords, SyntaxKind, TokenSet};
use squawk_parser::{EntryPoint, OwnedStep, StepList, parse_whole_into};
use std::alloc::{AllocError, Global};
use std::fmt::Write;
use std::process::Abort;
use std::test::Fail;

/// The line of a text's tree by rules.
fn parsed(alloc: Global, rules: &str, text: &str) -> Result<String, Fail> {
    let parts = read(alloc, rules)?;
    let names = KeywordNames {
        words: &NoKeywords,
        tokens: &TOKENS,
        nodes: &NODES,
        classes: &CLASSES,
        operators: TokenSet::EMPTY,
    };
    let rules = Rules::new(alloc, &parts, &names)?;
    let tokens = tokenize(alloc, text)?;
    let mut list = StepList::new(alloc);
    let entry = EntryPoint::SourceFile;
    parse_whole_into(alloc, text, &tokens, &NoKeywords, &rules, entry, &mut list)?;
    Ok(line_of(alloc, &NODES, list.steps())?)
}

/// Parses texts by rules, and says what is to be in their files.
fn parse_all(
    rt: &(impl Abort + AllocGlobal),
    rules: &str,
    cases: &[(&str, &str)],
) -> Result<(), Fail> {
    for (text, wanted) in cases {
        let line = parsed(rt.alloc(), rules, text)?;
        let wanted = format!(in rt.alloc(); "FILE{{{wanted}}}")?;
        assert_eq!(rt; line.as_str(), wanted.as_str(), "{text}");
    }
    Ok(())
}

/// Statements of expressions.
pub(crate) const EXPRESSIONS: &str = "
file = statement* => FILE
statement \"a statement\" = expression ';' => STATEMENT
expression \"an expression\"
    = => NAME IDENT ('(' {expression}? ')' => CALL)?
    | '(' expression ')' => PAREN
    left  '-' _ => NEGATION
    left  _ ('+' | '-') _ => SUM
    none  _ '=' _ => EQUALITY
    left  _ '*' _ => PRODUCT
";

/// Texts, and what is in their files.
static CASES: [(&str, &str); 12] = [
    ("", ""),
    ("a;", "STATEMENT{NAME{a};}"),
    ("a+b-c;", "STATEMENT{SUM{SUM{NAME{a}+NAME{b}}-NAME{c}};}"),
    (
        "a+b*c;",
        "STATEMENT{SUM{NAME{a}+PRODUCT{NAME{b}*NAME{c}}};}",
    ),
    (
        "(a+b)*c;",
        "STATEMENT{PRODUCT{PAREN{(SUM{NAME{a}+NAME{b}})}*NAME{c}};}",
    ),
    ("f(a,g());", "STATEMENT{CALL{f(NAME{a},CALL{g()})};}"),
    // A prefix of the lowest level takes the operators of higher ones.
    (
        "-a*b+c;",
        "STATEMENT{NEGATION{-SUM{PRODUCT{NAME{a}*NAME{b}}+NAME{c}}};}",
    ),
    ("a;b;", "STATEMENT{NAME{a};}STATEMENT{NAME{b};}"),
    // An operator that doesn't associate.
    (
        "a=b=c;",
        "STATEMENT{EQUALITY{EQUALITY{NAME{a}=NAME{b}!this operator doesn't associate: use parentheses!}=NAME{c}};}",
    ),
    // What is missing is told where it should stand. An error stands before the end of the node before it.
    ("a", "STATEMENT{NAME{a!expected ;!}}"),
    ("a+;", "STATEMENT{SUM{NAME{a}+!expected an expression!};}"),
    ("(a;", "STATEMENT{PAREN{(NAME{a!expected )!}};}"),
];

#[test]
fn parses_expressions(rt: HostRuntime) -> Result<(), Fail> {
    parse_all(&rt, EXPRESSIONS, &CASES)
}

/// Items that two tokens tell apart, and lists of pairs between semicolons.
const ITEMS: &str = "
class Word = IDENT
class Value = IDENT literal -IDENT
file = item+ => FILE
item \"an item\" = '(' {pair % ';'} ')' => LIST | IDENT '.' IDENT => CALL | IDENT => NAME
pair \"a pair\" = Word '=' Value
";

/// Texts, and what is in their files.
static ITEM_CASES: [(&str, &str); 10] = [
    ("a", "NAME{a}"),
    ("a.b", "CALL{a.b}"),
    ("a b.c", "NAME{a} CALL{b.c}"),
    ("(a=1)", "LIST{(a=1)}"),
    ("(a=1;b=2)c", "LIST{(a=1;b=2)}NAME{c}"),
    // One item at least.
    ("", "!expected an item!"),
    // A value is a number: what stands before the parenthesis that closes is skipped.
    ("(a=b)", "LIST{(a=!expected a pair!ERROR{b})}"),
    ("(a 1)", "LIST{(a!expected =! 1)}"),
    // What can begin an item is one, also without a separator before it.
    ("(a=1 b)", "LIST{(a=1!expected ; or )! b)}"),
    // No rule goes on at a comma.
    ("a,b", "NAME{a}ERROR{!expected an item!,}NAME{b}"),
];

#[test]
fn parses_items(rt: HostRuntime) -> Result<(), Fail> {
    parse_all(&rt, ITEMS, &ITEM_CASES)
}

/// Items that a composite kind tells apart, or what stands after it.
const CASTS: &str = "
file = item+ => FILE
item \"an item\" = IDENT '::' IDENT '.' => SUM | IDENT '::' IDENT => CALL | IDENT IDENT => LIST
";

/// Texts, and what is in their files.
static CAST_CASES: [(&str, &str); 4] = [
    ("a::b", "CALL{aCAST{::}b}"),
    ("a::b.", "SUM{aCAST{::}b.}"),
    ("a b", "LIST{a b}"),
    (
        "a::b.c::d e f",
        "SUM{aCAST{::}b.}CALL{cCAST{::}d} LIST{e f}",
    ),
];

#[test]
fn composite_kinds_decide(rt: HostRuntime) -> Result<(), Fail> {
    parse_all(&rt, CASTS, &CAST_CASES)
}

/// Values in parentheses: a guard tells which are numbers.
const GUARDED: &str = "
class First = INT
class After = ')' ';'
guard begins_number = (First) After
file = value+ => FILE
value \"a value\" = @begins_number number => LIST | '(' value ')' => PAREN | IDENT => NAME
number = '(' number ')' | INT
";

/// Texts, and what is in their files.
static GUARDED_CASES: [(&str, &str); 4] = [
    ("((1))", "LIST{((1))}"),
    ("((a))", "PAREN{(PAREN{(NAME{a})})}"),
    ("(1)a", "LIST{(1)}NAME{a}"),
    ("((a))(1)", "PAREN{(PAREN{(NAME{a})})}LIST{(1)}"),
];

#[test]
fn guards_decide(rt: HostRuntime) -> Result<(), Fail> {
    parse_all(&rt, GUARDED, &GUARDED_CASES)
}

/// Values in parentheses: a look tells which have two around them, and which are casts.
const LOOKED: &str = "
class Word = IDENT INT
file = item+ => FILE
item \"an item\" = &('(' '(') value => LIST | &(Word '::' Word) word '::' word => CALL | value ('::' value)? => PAREN
value = '(' value ')' | word
word = Word
";

/// Texts, and what is in their files.
static LOOKED_CASES: [(&str, &str); 5] = [
    ("((a))", "LIST{((a))}"),
    ("(a)", "PAREN{(a)}"),
    ("a::1", "CALL{aCAST{::}1}"),
    ("a::(1)", "PAREN{aCAST{::}(1)}"),
    ("a((b))(c)::d", "PAREN{a}LIST{((b))}PAREN{(c)CAST{::}d}"),
];

#[test]
fn looks_decide(rt: HostRuntime) -> Result<(), Fail> {
    parse_all(&rt, LOOKED, &LOOKED_CASES)
}
