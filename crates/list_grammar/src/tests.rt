//! Small texts, with what is sent for them.

ghost use Rattle.std.specs.Prelude.{◌≤◌};

use crate::{Lists, send};
use squawk_parser::{
    Base, EntryPoint, LiteralKind, NoKeywords, Sent, StepList, StrStep, SyntaxKind, Token,
    TokenKind,
};
use std::alloc::{AllocError, Global};
use std::fmt::Write;
use std::process::Abort;
use std::test::Fail;
use syntax_tree::{SyntaxTree, parse_tree};

/// The raw tokens of a text whose characters are tokens by themselves.
fn tokens_of(alloc: Global, text: &str) -> Result<Vec<Token>, AllocError> {
    let mut tokens = Vec::new(alloc);
    for byte in text.bytes() {
        let kind = match byte {
            b' ' => TokenKind::Whitespace,
            b'(' => TokenKind::OpenParen,
            b')' => TokenKind::CloseParen,
            b',' => TokenKind::Comma,
            b'+' => TokenKind::Plus,
            b'0'..=b'9' => TokenKind::Literal {
                kind: LiteralKind::Int {
                    base: Base::Decimal,
                    empty_int: false,
                    trailing_junk_start: 1,
                },
            },
            _ => TokenKind::Ident,
        };
        tokens.push(Token { kind, len: 1 })?;
    }
    Ok(tokens)
}

/// The line of a tree's steps: `710{ 3:a !1 text; }` is a node 710 with a token `a` of kind 3 and
/// an error at byte 1 in it.
fn line_of(alloc: Global, tree: &SyntaxTree<'_>) -> Result<String, AllocError> {
    let mut line = String::new(alloc);
    for step in tree.steps() {
        if !line.is_empty() {
            line.push(' ')?;
        }
        match step {
            StrStep::Enter { kind } => write!(line, "{}{{", kind.0)?,
            StrStep::Token { kind, text } => write!(line, "{}:{text}", kind.0)?,
            StrStep::Error { msg, pos } => write!(line, "!{pos} {msg};")?,
            StrStep::Exit => line.push('}')?,
        }
    }
    Ok(line)
}

/// The parts one after another, each so many times.
fn repeated(alloc: Global, parts: &[(&str, u32)]) -> Result<String, AllocError> {
    let mut all = String::new(alloc);
    for (part, times) in parts {
        for _ in 0..*times {
            all.push_str(part)?;
        }
    }
    Ok(all)
}

/// Parses the text from both entry points, and ends the test unless these steps are sent, of so many
/// recorded events, with so many nodes among them.
fn assert_row(
    rt: &(impl Abort + AllocGlobal),
    text: &str,
    recorded: u32,
    nodes: u64,
    wanted: &str,
) -> Result<(), Fail>
    requires { nodes ≤ 1000 }
{
    let tokens = tokens_of(rt.alloc(), text)?;
    // Each event has a turn, and each opening of a node one more.
    let turns = u64::from(recorded) + nodes;
    let wanted_counts = Sent {
        all: true,
        recorded,
        turns,
    };
    for entry in [EntryPoint::SourceFile, EntryPoint::Plpgsql] {
        let mut list = StepList::new(rt.alloc());
        let sent = send(rt.alloc(), text, &tokens, entry, &mut list)?;
        assert_eq!(rt; sent, wanted_counts);
        let names = [(SyntaxKind::COMMA, ","), (SyntaxKind::R_PAREN, ")")];
        let lists = Lists { names: &names };
        let tree = parse_tree(rt.alloc(), text, &tokens, &NoKeywords, &lists, entry)?;
        let line = line_of(rt.alloc(), &tree)?;
        assert_eq!(rt; line.as_str(), wanted);
    }
    Ok(())
}

#[test]
fn lists_nest(rt: HostRuntime) -> Result<(), Fail> {
    // Twelve tokens and four nodes.
    let wanted = "710{ 711{ 9:( 3:a 6:, 711{ 9:( 33:1 6:, 3:b 10:) } 6:, 711{ 9:( 10:) } 10:) } }";
    assert_row(&rt, "(a,(1,b),())", 20, 4, wanted)
}

#[test]
fn file_has_items_without_commas(rt: HostRuntime) -> Result<(), Fail> {
    // Four tokens and two nodes.
    let wanted = "710{ 3:a 639:  711{ 9:( 33:1 10:) } }";
    assert_row(&rt, "a (1)", 8, 2, wanted)
}

#[test]
fn file_may_be_empty(rt: HostRuntime) -> Result<(), Fail> {
    assert_row(&rt, "", 2, 1, "710{ }")
}

#[test]
fn comma_may_be_missing(rt: HostRuntime) -> Result<(), Fail> {
    // Four tokens, an error and two nodes.
    let wanted = "710{ 711{ 9:( 3:a !2 expected ,; 3:b 10:) } }";
    assert_row(&rt, "(ab)", 9, 2, wanted)
}

#[test]
fn item_may_be_missing_before_a_comma(rt: HostRuntime) -> Result<(), Fail> {
    // As before.
    let wanted = "710{ 711{ 9:( !1 expected an item; 6:, 3:a 10:) } }";
    assert_row(&rt, "(,a)", 9, 2, wanted)
}

#[test]
fn item_may_be_missing_before_the_end_of_a_list(rt: HostRuntime) -> Result<(), Fail> {
    // As before.
    let wanted = "710{ 711{ 9:( 3:a 6:, !3 expected an item; 10:) } }";
    assert_row(&rt, "(a,)", 9, 2, wanted)
}

#[test]
fn each_open_list_expects_its_end(rt: HostRuntime) -> Result<(), Fail> {
    // Two tokens, two errors and three nodes.
    let wanted = "710{ 711{ 9:( 711{ 9:( !2 expected ); !2 expected ); } } }";
    assert_row(&rt, "((", 10, 3, wanted)
}

#[test]
fn item_may_be_missing_at_the_end(rt: HostRuntime) -> Result<(), Fail> {
    // Three tokens, two errors and three nodes; that of the first error has no token.
    let wanted = "710{ 711{ 9:( 3:a 6:, 2{ !3 expected an item; !3 expected ); } } }";
    assert_row(&rt, "(a,", 11, 3, wanted)
}

#[test]
fn token_that_is_no_item_is_an_error(rt: HostRuntime) -> Result<(), Fail> {
    // Five tokens, three errors and three nodes.
    let wanted =
        "710{ 711{ 9:( 3:a !2 expected ,; 2{ !2 expected an item; 27:+ !3 expected ,; } 3:b 10:) } }";
    assert_row(&rt, "(a+b)", 14, 3, wanted)
}

#[test]
fn file_goes_on_at_no_sign(rt: HostRuntime) -> Result<(), Fail> {
    // Three tokens, two errors and three nodes.
    let wanted = "710{ 2{ !0 expected an item; 10:) } 2{ !1 expected an item; 6:, } 3:a }";
    assert_row(&rt, "),a", 11, 3, wanted)
}

#[test]
fn lists_nest_to_the_limit(rt: HostRuntime) -> Result<(), Fail> {
    // Of 500 lists two tokens and a node each, and the node of the file.
    let text = repeated(rt.alloc(), &[("(", 500), (")", 500)])?;
    let wanted = repeated(
        rt.alloc(),
        &[("710{", 1), (" 711{ 9:(", 500), (" 10:) }", 500), (" }", 1)],
    )?;
    assert_row(&rt, text.as_str(), 2002, 501, wanted.as_str())
}

#[test]
fn list_past_the_limit_is_an_error(rt: HostRuntime) -> Result<(), Fail> {
    // As before, and an error, two tokens and a node.
    let text = repeated(rt.alloc(), &[("(", 501), (")", 501)])?;
    let wanted = repeated(
        rt.alloc(),
        &[
            ("710{", 1),
            (" 711{ 9:(", 500),
            (" 2{ !500 nested too deep; 9:( 10:) }", 1),
            (" 10:) }", 500),
            (" }", 1),
        ],
    )?;
    assert_row(&rt, text.as_str(), 2007, 502, wanted.as_str())
}

#[test]
fn list_goes_on_behind_one_past_the_limit(rt: HostRuntime) -> Result<(), Fail> {
    // As before, but nine tokens behind the error; two tokens, and two more with a node.
    let text = repeated(
        rt.alloc(),
        &[
            ("(", 500),
            ("((),(a)+)", 1),
            (",a", 1),
            (")", 500),
            ("()", 1),
        ],
    )?;
    let wanted = repeated(
        rt.alloc(),
        &[
            ("710{", 1),
            (" 711{ 9:(", 500),
            (
                " 2{ !500 nested too deep; 9:( 9:( 10:) 6:, 9:( 3:a 10:) 27:+ 10:) }",
                1,
            ),
            (" 6:, 3:a", 1),
            (" 10:) }", 500),
            (" 711{ 9:( 10:) } }", 1),
        ],
    )?;
    assert_row(&rt, text.as_str(), 2020, 503, wanted.as_str())
}

#[test]
fn million_parentheses_are_parsed(rt: HostRuntime) -> Result<(), Fail> {
    // Of 500 lists a token, an error and a node each; of the others a token each, an error and a node; and
    // the node of the file.
    let text = repeated(rt.alloc(), &[("(", 1000000)])?;
    let wanted = repeated(
        rt.alloc(),
        &[
            ("710{", 1),
            (" 711{ 9:(", 500),
            (" 2{ !500 nested too deep;", 1),
            (" 9:(", 999500),
            (" !1000000 expected ); }", 500),
            (" } }", 1),
        ],
    )?;
    assert_row(&rt, text.as_str(), 1001505, 502, wanted.as_str())
}
