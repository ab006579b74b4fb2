//! Broken texts, with the trees and errors that they have.
use crate::lines::line_of;
use rule_tables::{KeywordNames, Rules, TextError};
use sql_lexer::tokenize;
use squawk_keywords::Keywords;
use squawk_kinds::{SyntaxKind, TokenSet, Vocabulary};
use squawk_parser::{EntryPoint, StepList, parse_whole_into};
use std::alloc::Global;
use std::test::Fail;

/// Keywords.
const WORDS: [(&str, SyntaxKind); 25] = [
    ("and", SyntaxKind(200)),
    ("as", SyntaxKind(201)),
    ("by", SyntaxKind(202)),
    ("create", SyntaxKind(203)),
    ("delete", SyntaxKind(204)),
    ("from", SyntaxKind(205)),
    ("insert", SyntaxKind(206)),
    ("integer", SyntaxKind(207)),
    ("into", SyntaxKind(208)),
    ("is", SyntaxKind(209)),
    ("key", SyntaxKind(210)),
    ("limit", SyntaxKind(211)),
    ("not", SyntaxKind(212)),
    ("null", SyntaxKind(213)),
    ("numeric", SyntaxKind(214)),
    ("or", SyntaxKind(215)),
    ("order", SyntaxKind(216)),
    ("primary", SyntaxKind(217)),
    ("select", SyntaxKind(218)),
    ("set", SyntaxKind(219)),
    ("table", SyntaxKind(220)),
    ("text", SyntaxKind(221)),
    ("update", SyntaxKind(222)),
    ("values", SyntaxKind(223)),
    ("where", SyntaxKind(224)),
];

/// Tokens that aren't keywords.
const TOKENS: [(&str, SyntaxKind); 14] = [
    ("IDENT", SyntaxKind::IDENT),
    ("INT", SyntaxKind::INT_NUMBER),
    ("STRING", SyntaxKind::STRING),
    ("(", SyntaxKind::L_PAREN),
    (")", SyntaxKind::R_PAREN),
    (",", SyntaxKind::COMMA),
    (";", SyntaxKind::SEMICOLON),
    ("+", SyntaxKind::PLUS),
    ("-", SyntaxKind::MINUS),
    ("*", SyntaxKind::STAR),
    ("/", SyntaxKind::SLASH),
    ("=", SyntaxKind::EQ),
    ("<", SyntaxKind::L_ANGLE),
    (">", SyntaxKind::R_ANGLE),
];

/// Nodes.
const NODES: [(&str, SyntaxKind); 28] = [
    ("FILE", SyntaxKind(700)),
    ("SELECT", SyntaxKind(701)),
    ("TARGET", SyntaxKind(702)),
    ("STAR", SyntaxKind(703)),
    ("FROM", SyntaxKind(704)),
    ("TABLE", SyntaxKind(705)),
    ("WHERE", SyntaxKind(706)),
    ("ORDER", SyntaxKind(707)),
    ("LIMIT", SyntaxKind(708)),
    ("INSERT", SyntaxKind(709)),
    ("COLUMNS", SyntaxKind(710)),
    ("ROW", SyntaxKind(711)),
    ("UPDATE", SyntaxKind(712)),
    ("CHANGE", SyntaxKind(713)),
    ("DELETE", SyntaxKind(714)),
    ("CREATE", SyntaxKind(715)),
    ("COLUMN", SyntaxKind(716)),
    ("TYPE", SyntaxKind(717)),
    ("NAME", SyntaxKind(718)),
    ("REF", SyntaxKind(719)),
    ("CALL", SyntaxKind(720)),
    ("LITERAL", SyntaxKind(721)),
    ("PAREN", SyntaxKind(722)),
    ("LOGIC", SyntaxKind(723)),
    ("NOT", SyntaxKind(724)),
    ("COMPARE", SyntaxKind(725)),
    ("SUM", SyntaxKind(726)),
    ("PRODUCT", SyntaxKind(727)),
];

/// Statements.
const RULES: &str = "
file = ({statement % ';'} ';'?)? => FILE
statement \"a statement\" = select | insert | update | delete | create

select = SELECT {target} from? where? order? limit? => SELECT
target \"an expression\" = expression (AS name)? => TARGET | '*' => STAR
from = FROM {table} => FROM
table \"a table\" = name (AS? name)? => TABLE
where = WHERE expression => WHERE
order = ORDER BY {expression} => ORDER
limit = LIMIT expression => LIMIT

insert = INSERT INTO name columns? VALUES {row} => INSERT
columns = '(' {name} ')' => COLUMNS
row \"a row\" = '(' {expression} ')' => ROW
update = UPDATE name SET {change} where? => UPDATE
change \"a column\" = name '=' expression => CHANGE
delete = DELETE FROM name where? => DELETE

create = CREATE TABLE name '(' {column} ')' => CREATE
column \"a column\" = name type (NOT NULL | PRIMARY KEY)* => COLUMN
type \"a type\" = (INTEGER | TEXT | NUMERIC) ('(' {INT} ')')? => TYPE

name \"a name\" = IDENT => NAME
expression \"an expression\"
    = => REF IDENT ('(' {expression}? ')' => CALL)?
    | (INT | STRING | NULL) => LITERAL
    | '(' expression ')' => PAREN
    left  _ OR _ => LOGIC
    left  _ AND _ => LOGIC
    right NOT _ => NOT
    none  _ ('=' | '<' | '>') _ => COMPARE | _ IS NOT? NULL => COMPARE
    left  _ ('+' | '-') _ => SUM
    left  _ ('*' | '/') _ => PRODUCT
";

/// Texts, and what is in their files.
static CASES: [(&str, &str); 39] = [
    // A forgotten comma.
    (
        "select a b from t",
        "SELECT{select TARGET{REF{a}!expected a comma!} TARGET{REF{b}} FROM{from TABLE{NAME{t}}}}",
    ),
    (
        "select a b c from t",
        "SELECT{select TARGET{REF{a}!expected a comma!} TARGET{REF{b}} TARGET{REF{c}} FROM{from TABLE{NAME{t}}}}",
    ),
    (
        "select a b, c d from t",
        "SELECT{select TARGET{REF{a}!expected a comma!} TARGET{REF{b}}, TARGET{REF{c}} TARGET{REF{d}} FROM{from TABLE{NAME{t}}}}",
    ),
    (
        "select a b, c + d e from t",
        "SELECT{select TARGET{REF{a}!expected a comma!} TARGET{REF{b}}, TARGET{SUM{REF{c} + REF{d}}!expected a comma!} TARGET{REF{e}} FROM{from TABLE{NAME{t}}}}",
    ),
    (
        "select f(a b) from t",
        "SELECT{select TARGET{CALL{f(REF{a!expected a comma!} REF{b})}} FROM{from TABLE{NAME{t}}}}",
    ),
    (
        "insert into t values (1 2)",
        "INSERT{insert into NAME{t} values ROW{(LITERAL{1!expected a comma!} LITERAL{2})}}",
    ),
    (
        "create table t (a integer b text)",
        "CREATE{create table NAME{t} (COLUMN{NAME{a} TYPE{integer}!expected a comma!} COLUMN{NAME{b} TYPE{text}})}",
    ),
    // A comma too many.
    (
        "select a,, b from t",
        "SELECT{select TARGET{REF{a}},!expected an expression!, TARGET{REF{b}} FROM{from TABLE{NAME{t}}}}",
    ),
    (
        "select a, from t",
        "SELECT{select TARGET{REF{a}},!expected an expression! FROM{from TABLE{NAME{t}}}}",
    ),
    (
        "create table t (a integer, )",
        "CREATE{create table NAME{t} (COLUMN{NAME{a} TYPE{integer}},!expected a column! )}",
    ),
    // What should stand after a word is missing.
    (
        "select from t",
        "SELECT{select!expected an expression! FROM{from TABLE{NAME{t}}}}",
    ),
    (
        "select a from where b",
        "SELECT{select TARGET{REF{a}} FROM{from!expected a table!} WHERE{where REF{b}}}",
    ),
    (
        "select a from t where",
        "SELECT{select TARGET{REF{a}} FROM{from TABLE{NAME{t}}} WHERE{where!expected an expression!}}",
    ),
    (
        "select a as from t",
        "SELECT{select TARGET{REF{a} as!expected a name!} FROM{from TABLE{NAME{t}}}}",
    ),
    (
        "insert into values (1)",
        "INSERT{insert into!expected a name! values ROW{(LITERAL{1})}}",
    ),
    (
        "update t set where b",
        "UPDATE{update NAME{t} set!expected a column! WHERE{where REF{b}}}",
    ),
    (
        "create table (a integer)",
        "CREATE{create table!expected a name! (COLUMN{NAME{a} TYPE{integer}})}",
    ),
    (
        "create table t (a)",
        "CREATE{create table NAME{t} (COLUMN{NAME{a!expected a type!}})}",
    ),
    (
        "create table t (a integer not, b text)",
        "CREATE{create table NAME{t} (COLUMN{NAME{a} TYPE{integer} not!expected NULL!}, COLUMN{NAME{b} TYPE{text}})}",
    ),
    // A word is missing.
    (
        "insert t values (1)",
        "INSERT{insert!expected INTO! NAME{t} values ROW{(LITERAL{1})}}",
    ),
    (
        "update t a = 1",
        "UPDATE{update NAME{t!expected SET!} CHANGE{NAME{a} = LITERAL{1}}}",
    ),
    (
        "update t set a 1 where b",
        "UPDATE{update NAME{t} set CHANGE{NAME{a!expected =!} LITERAL{1}} WHERE{where REF{b}}}",
    ),
    (
        "delete t where a",
        "DELETE{delete!expected FROM! NAME{t} WHERE{where REF{a}}}",
    ),
    (
        "select a from t order b",
        "SELECT{select TARGET{REF{a}} FROM{from TABLE{NAME{t}}} ORDER{order!expected BY! REF{b}}}",
    ),
    // An operand is missing.
    (
        "select a + from t",
        "SELECT{select TARGET{SUM{REF{a} +!expected an expression!}} FROM{from TABLE{NAME{t}}}}",
    ),
    (
        "select a from t where b and",
        "SELECT{select TARGET{REF{a}} FROM{from TABLE{NAME{t}}} WHERE{where LOGIC{REF{b} and!expected an expression!}}}",
    ),
    (
        "select a from t where b = = c",
        "SELECT{select TARGET{REF{a}} FROM{from TABLE{NAME{t}}} WHERE{where COMPARE{COMPARE{REF{b} =!expected an expression!} = REF{c}}}}",
    ),
    (
        "select a from t where b is 3",
        "SELECT{select TARGET{REF{a}} FROM{from TABLE{NAME{t}}} WHERE{where COMPARE{REF{b} is ERROR{!expected NOT or NULL!3}}}}",
    ),
    // An operator after one that has no operand on its right.
    (
        "select a from t where b is null = c",
        "SELECT{select TARGET{REF{a}} FROM{from TABLE{NAME{t}}} WHERE{where COMPARE{COMPARE{REF{b} is null} = REF{c}}}}",
    ),
    // Parentheses.
    (
        "select (a from t",
        "SELECT{select TARGET{PAREN{(REF{a!expected )!}}} FROM{from TABLE{NAME{t}}}}",
    ),
    (
        "select a) from t",
        "SELECT{select TARGET{REF{a}}ERROR{!expected a comma, FROM, WHERE, ORDER or LIMIT!)} FROM{from TABLE{NAME{t}}}}",
    ),
    (
        "select f(a, from t",
        "SELECT{select TARGET{CALL{f(REF{a},!expected an expression!}} FROM{from TABLE{NAME{t}}}}",
    ),
    (
        "select ((a)",
        "SELECT{select TARGET{PAREN{(PAREN{(REF{a})!expected )!}}}}",
    ),
    (
        "insert into t (a, b values (1, 2)",
        "INSERT{insert into NAME{t} COLUMNS{(NAME{a}, NAME{b!expected )!}} values ROW{(LITERAL{1}, LITERAL{2})}}",
    ),
    (
        "insert into t values (1, (2, 3))",
        "INSERT{insert into NAME{t} values ROW{(LITERAL{1}, PAREN{(LITERAL{2}ERROR{!expected )!, 3})})}}",
    ),
    (
        "create table t a integer)",
        "CREATE{create table NAME{t!expected (!} COLUMN{NAME{a} TYPE{integer}})}",
    ),
    // Statements.
    (
        "selct a from t",
        "ERROR{!expected a statement!selct a from t}",
    ),
    (
        "select a from t select b from u",
        "SELECT{select TARGET{REF{a}} FROM{from TABLE{NAME{t}}}!expected ;!} SELECT{select TARGET{REF{b}} FROM{from TABLE{NAME{u}}}}",
    ),
    (
        "select a from t; delete from",
        "SELECT{select TARGET{REF{a}} FROM{from TABLE{NAME{t}}}}; DELETE{delete from!expected a name!}",
    ),
];

/// The rules, ready to be run.
fn made<V: Vocabulary>(alloc: Global, words: &V) -> Result<Rules, TextError> {
    let names = KeywordNames {
        words,
        tokens: &TOKENS,
        nodes: &NODES,
        classes: &[],
        operators: TokenSet::EMPTY,
    };
    Rules::read(alloc, RULES, &names)
}

/// The line of a text's tree.
fn parsed<V: Vocabulary>(
    alloc: Global,
    words: &V,
    rules: &Rules,
    text: &str,
) -> Result<String, Fail> {
    let tokens = tokenize(alloc, text)?;
    let mut list = StepList::new(alloc);
    let entry = EntryPoint::SourceFile;
    parse_whole_into(alloc, text, &tokens, words, rules, entry, &mut list)?;
    Ok(line_of(alloc, &NODES, list.steps())?)
}

#[test]
fn places_errors(rt: HostRuntime) -> Result<(), Fail> {
    let words = Keywords::ignoring_case(rt.alloc(), &WORDS, &[])?;
    let rules = made(rt.alloc(), &words)?;
    for (text, wanted) in &CASES {
        let line = parsed(rt.alloc(), &words, &rules, text)?;
        let wanted = format!(in rt.alloc(); "FILE{{{wanted}}}")?;
        assert_eq!(rt; line.as_str(), wanted.as_str(), "{text}");
    }
    Ok(())
}
