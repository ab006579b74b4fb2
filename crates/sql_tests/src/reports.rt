//! Lines of JSON, of an output that is made of events.
ghost use Rattle.std.specs.Prelude.{◌≡◌, ◌<◌, ◌^◌, None, length};

use sql_report::{Asked, Walk};
use squawk_kinds::{NoKeywords, SyntaxKind};
use squawk_output::{Event, Output, Text, process};
use squawk_table::{LexedStr, Token, TokenKind};
use std::alloc::{AllocError, Global};
use std::test::Fail;

const ROOT: u16 = 700;

const STATEMENT: u16 = 701;

const INNER: u16 = 702;

/// The start of a node of this kind.
fn start(kind: u16) -> Event
    ensures { result ≡ Event.Start kind None }
{
    Event::Start {
        kind: SyntaxKind(kind),
        forward_parent: None,
    }
}

/// A token of one raw token.
fn token() -> Event
    ensures { result ≡ Event.Token 3 1 }
{
    Event::Token {
        kind: SyntaxKind::IDENT,
        n_raw_tokens: 1,
    }
}

/// A text for an error.
fn message(alloc: Global, text: &str) -> Result<Text, AllocError> {
    Ok(Text::new(String::from_str(alloc, text)?))
}

/// The lines of an output, if it fits.
fn lines(alloc: Global, table: &LexedStr<'_>, output: &Output) -> Result<Option<String>, AllocError>
    requires { length table.now.text < 2 ^ 64 }
{
    if !table.fits(output) {
        return Ok(None);
    }
    // Trivia has no name, so that its kind is a number.
    let names = [
        (SyntaxKind::IDENT, "IDENT"),
        (SyntaxKind(STATEMENT), "STATEMENT"),
        (SyntaxKind(INNER), "in \"quotes\""),
    ];
    let mut walk = Walk::new(alloc, &names, Asked::Json, SyntaxKind(ROOT))?;
    walk.part(table, output, 0)?;
    Ok(Some(walk.finish()?))
}

#[test]
fn writes_statements(rt: HostRuntime) -> Result<(), Fail> {
    let alloc = rt.alloc();
    let word = Token {
        kind: TokenKind::Ident,
        len: 1,
    };
    let space = Token {
        kind: TokenKind::Whitespace,
        len: 1,
    };
    let tokens = [word, space, word, space, word];
    let table = LexedStr::new(alloc, "x y z", &tokens, &NoKeywords)?;
    let events = vec![in alloc;
        start(ROOT),
        start(STATEMENT),
        Event::Error {
            msg: message(alloc, "say \"a\"\n")?
        },
        start(INNER),
        token(),
        Event::Error {
            msg: message(alloc, "b")?
        },
        Event::Finish,
        token(),
        Event::Error {
            msg: message(alloc, "c")?
        },
        Event::Finish,
        start(STATEMENT),
        token(),
        Event::Finish,
        Event::Finish,
    ]?;
    let output = process(alloc, events, 14)?;
    let lines = lines(alloc, &table, &output)?.unwrap_or(String::new(alloc));
    assert_eq!(rt; lines.as_str(), LINES);
    Ok(())
}

/// An error stands in the innermost node around its place. What stands between statements is left out.
const LINES: &str = "{\"kind\":\"STATEMENT\",\"start\":0,\"children\":[\
    {\"kind\":\"in \\\"quotes\\\"\",\"start\":0,\"children\":[\
    {\"kind\":\"IDENT\",\"start\":0,\"end\":1}],\"end\":1,\
    \"errors\":[{\"message\":\"b\",\"at\":1}]},\
    {\"kind\":\"639\",\"start\":1,\"end\":2},{\"kind\":\"IDENT\",\"start\":2,\"end\":3}],\"end\":3,\
    \"errors\":[{\"message\":\"say \\\"a\\\"\\n\",\"at\":0},{\"message\":\"c\",\"at\":3}]}\n\
    {\"kind\":\"STATEMENT\",\"start\":4,\"children\":[\
    {\"kind\":\"IDENT\",\"start\":4,\"end\":5}],\"end\":5,\"errors\":[]}\n";
