//! Rules of CREATE TABLE, and the tokens and nodes that they name.
use rule_tables::{KeywordNames, Rules, TextError, keyword_classes};
use squawk_parser::{SyntaxKind, TokenSet, Vocabulary};
use std::alloc::Global;

/// The rules.
const RULES: &str = "
-- A keyword that stands as a name is an identifier.
class Word = IDENT unreserved => IDENT
class Resume = reserved ',' ')' ';'

file = statement* => FILE
statement \"CREATE TABLE\" = CREATE TABLE (IF NOT EXISTS)? name '(' {element}? ')' ';' => CREATE_TABLE
name \"a name\" = Word => NAME

element \"a column or a constraint\" = column | constraint
column = name type column_constraint* => COLUMN
type \"a type\" = (Word | INTEGER | NUMERIC | TIMESTAMP) ('(' {INT} ')')? => TYPE

-- One word more tells the key of a column from that of a table.
column_constraint = NOT NULL => NOT_NULL | PRIMARY KEY => PRIMARY_KEY | UNIQUE => UNIQUE
    | DEFAULT value => DEFAULT | REFERENCES name columns? => REFERENCES
constraint \"a constraint\" = PRIMARY KEY columns => PRIMARY_KEY | UNIQUE columns => UNIQUE
    | FOREIGN KEY columns REFERENCES name columns? => REFERENCES
columns = '(' {name} ')' => COLUMNS

value \"a value\" = (INT | NUMBER | STRING | NULL) => LITERAL | '(' value ')' => PAREN
    left  _ ('+' | '-') _ => BINARY
    left  _ ('*' | '/') _ => BINARY
";

/// Tokens that aren't keywords.
const TOKENS: [(&str, SyntaxKind); 12] = [
    ("IDENT", SyntaxKind::IDENT),
    ("INT", SyntaxKind::INT_NUMBER),
    ("NUMBER", SyntaxKind::NUMERIC_NUMBER),
    ("STRING", SyntaxKind::STRING),
    ("(", SyntaxKind::L_PAREN),
    (")", SyntaxKind::R_PAREN),
    (",", SyntaxKind::COMMA),
    (";", SyntaxKind::SEMICOLON),
    ("+", SyntaxKind::PLUS),
    ("-", SyntaxKind::MINUS),
    ("*", SyntaxKind::STAR),
    ("/", SyntaxKind::SLASH),
];

pub const CREATE_TABLE: SyntaxKind = SyntaxKind(801);

pub const NAME: SyntaxKind = SyntaxKind(802);

pub const PRIMARY_KEY: SyntaxKind = SyntaxKind(806);

/// Nodes.
pub const NODES: [(&str, SyntaxKind); 14] = [
    ("FILE", SyntaxKind(800)),
    ("CREATE_TABLE", CREATE_TABLE),
    ("NAME", NAME),
    ("COLUMN", SyntaxKind(803)),
    ("TYPE", SyntaxKind(804)),
    ("NOT_NULL", SyntaxKind(805)),
    ("PRIMARY_KEY", PRIMARY_KEY),
    ("UNIQUE", SyntaxKind(807)),
    ("DEFAULT", SyntaxKind(808)),
    ("REFERENCES", SyntaxKind(809)),
    ("COLUMNS", SyntaxKind(810)),
    ("LITERAL", SyntaxKind(811)),
    ("PAREN", SyntaxKind(812)),
    ("BINARY", SyntaxKind(813)),
];

/// The rules, ready to be run. The keywords are PostgreSQL's.
pub fn rules<V: Vocabulary>(alloc: Global, words: &V) -> Result<Rules, TextError> {
    let names = KeywordNames {
        words,
        tokens: &TOKENS,
        nodes: &NODES,
        classes: &keyword_classes(words),
        operators: TokenSet::EMPTY,
    };
    Rules::read(alloc, RULES, &names)
}
