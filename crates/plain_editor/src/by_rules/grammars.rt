//! Rules that sentences are made of, and their tokens.
use squawk_kinds::SyntaxKind;

/// Tokens: a word is in each grammar's vocabulary what its name says.
pub(crate) const TOKENS: [(&str, SyntaxKind); 16] = [
    ("IDENT", SyntaxKind::IDENT),
    ("INT", SyntaxKind::INT_NUMBER),
    ("STRING", SyntaxKind::STRING),
    ("(", SyntaxKind::L_PAREN),
    (")", SyntaxKind::R_PAREN),
    ("[", SyntaxKind::L_BRACK),
    ("]", SyntaxKind::R_BRACK),
    (";", SyntaxKind::SEMICOLON),
    (",", SyntaxKind::COMMA),
    (".", SyntaxKind::DOT),
    ("+", SyntaxKind::PLUS),
    ("-", SyntaxKind::MINUS),
    ("*", SyntaxKind::STAR),
    ("=", SyntaxKind::EQ),
    ("<", SyntaxKind::L_ANGLE),
    ("^", SyntaxKind::CARET),
];

/// How a token is spelled.
pub(crate) fn spelled<'n>(name: &'n str) -> &'n str {
    match name {
        "IDENT" => "a",
        "INT" => "1",
        "STRING" => "'s'",
        sign => sign,
    }
}

/// Nodes.
pub(crate) const NODES: [(&str, SyntaxKind); 4] = [
    ("FILE", SyntaxKind(700)),
    ("ITEM", SyntaxKind(701)),
    ("ONE", SyntaxKind(702)),
    ("TWO", SyntaxKind(703)),
];

/// Rules. The first arm of each choice leads to its end without choices.
pub(crate) const GRAMMARS: [&str; 6] = [
    // Groups, and how often they stand.
    "
file = item* => FILE
item = IDENT INT? ('+' IDENT)* ('-' INT)+ ';' => ITEM | '(' (STRING | INT IDENT?)? ')' => ONE
",
    // Lists in one another.
    "
file = {item % ';'} => FILE
item = IDENT => ITEM | '(' {item} ')' => ONE | '[' {element}? ']' => TWO
element = INT | '.' {STRING % '='}
",
    // Operators of all associations.
    "
file = expression* => FILE
expression = IDENT => ONE | '(' expression ')' => TWO | '[' {expression}? ']' => ITEM
    left  _ '+' _ => ONE | _ '-' _ => TWO
    none  _ '=' _ => ONE | _ '<' _ => ONE
    left  _ '*' _ => ONE
    left  '.' _ => TWO
    right _ '^' _ => ONE
    left  _ ';' => ITEM
",
    // Two, three and four tokens decide.
    "
file = item* => FILE
item = IDENT '.' '.' INT => ONE | IDENT '.' '.' STRING => TWO | IDENT '.' INT => ITEM | IDENT '=' => ITEM
    | pair+ ';' => ONE
pair = INT INT '+' | INT INT '-' | STRING ('*' STRING)* '*' '+'
",
    // Classes.
    "
class Word = IDENT STRING
class Sign = '+' '-' '*' '='
class Plus = '+'
class Rest = Sign -Plus
file = term (Rest term | Plus '(' term ')')* => FILE
term = Word (',' Word)* => ITEM | INT => ONE
",
    // Rules in one another.
    "
file = one* => FILE
one = IDENT two? => ONE | '(' three ')' => TWO
two = '[' one* ']' | '.' three
three = INT | '[' {one % ';'} ']' | '-' three => ITEM
",
];
