//! The rules of SELECT as text, and the tokens and nodes that they name.
use rule_tables::{KeywordNames, Rules, TextError};
use select_grammar::kinds::{
    BIN_EXPR, FROM_CLAUSE, ITEM, LIST, LITERAL, NAME_REF, NOT_EXPR, SELECT, SOURCE_FILE,
    WHERE_CLAUSE,
};
use squawk_kinds::{SyntaxKind, TokenSet, Vocabulary};
use std::alloc::Global;

/// SELECT statements.
pub const RULES: &str = "
class Literal = INT STRING NULL
file = statement* => SOURCE_FILE
statement \"SELECT\" = SELECT DISTINCT? {item} from where? ';' => SELECT
item = expression (AS name)? => ITEM
from = FROM name => FROM_CLAUSE
where = WHERE expression => WHERE_CLAUSE
name \"a name\" = IDENT => NAME_REF
expression \"an expression\" = name | Literal => LITERAL | '(' {expression}? ')' => LIST
    left  _ OR _ => BIN_EXPR
    left  _ AND _ => BIN_EXPR
    right NOT _ => NOT_EXPR
    left  _ (IS | IN | LIKE) _ => BIN_EXPR
";

/// Tokens that aren't keywords.
const TOKENS: [(&str, SyntaxKind); 7] = [
    ("IDENT", SyntaxKind::IDENT),
    ("INT", SyntaxKind::INT_NUMBER),
    ("STRING", SyntaxKind::STRING),
    ("(", SyntaxKind::L_PAREN),
    (")", SyntaxKind::R_PAREN),
    (",", SyntaxKind::COMMA),
    (";", SyntaxKind::SEMICOLON),
];

/// Nodes.
const NODES: [(&str, SyntaxKind); 10] = [
    ("SOURCE_FILE", SOURCE_FILE),
    ("SELECT", SELECT),
    ("ITEM", ITEM),
    ("FROM_CLAUSE", FROM_CLAUSE),
    ("WHERE_CLAUSE", WHERE_CLAUSE),
    ("NAME_REF", NAME_REF),
    ("LITERAL", LITERAL),
    ("LIST", LIST),
    ("BIN_EXPR", BIN_EXPR),
    ("NOT_EXPR", NOT_EXPR),
];

/// The rules, made of their text.
pub fn rules<V: Vocabulary>(alloc: Global, words: &V) -> Result<Rules, TextError> {
    rules_of(alloc, words, RULES)
}

/// The rules of another text by the same names.
pub fn rules_of<V: Vocabulary>(alloc: Global, words: &V, text: &str) -> Result<Rules, TextError> {
    let names = KeywordNames {
        words,
        tokens: &TOKENS,
        nodes: &NODES,
        classes: &[],
        operators: TokenSet::EMPTY,
    };
    Rules::read(alloc, text, &names)
}
