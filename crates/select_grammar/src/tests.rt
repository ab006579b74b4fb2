//! Texts, with what is sent for them.

use crate::kinds::NAMES;
use crate::{send, vocabulary};
use squawk_parser::{Base, LiteralKind, StepSink, StrStep, SyntaxKind, Token, TokenKind};
use std::alloc::{AllocError, Global};
use std::fmt::Write;
use std::process::Abort;
use std::test::Fail;
use syntax_tree::{SyntaxTree, TreeBuilder};

/// The kind of the raw token that a character is, or begins.
fn kind_of(byte: u8) -> TokenKind {
    match byte {
        b' ' => TokenKind::Whitespace,
        b'(' => TokenKind::OpenParen,
        b')' => TokenKind::CloseParen,
        b',' => TokenKind::Comma,
        b';' => TokenKind::Semi,
        b'+' => TokenKind::Plus,
        b'0'..=b'9' => TokenKind::Literal {
            kind: LiteralKind::Int {
                base: Base::Decimal,
                empty_int: false,
                trailing_junk_start: 1,
            },
        },
        _ => TokenKind::Ident,
    }
}

/// The raw tokens of a text of words, digits, spaces and signs.
fn tokens_of(alloc: Global, text: &str) -> Result<Vec<Token>, AllocError> {
    let mut tokens: Vec<Token> = Vec::new(alloc);
    for byte in text.bytes() {
        push_byte(&mut tokens, kind_of(byte))?;
    }
    Ok(tokens)
}

/// Adds a raw token of one byte, or a letter to the word that it goes on.
fn push_byte(tokens: &mut Vec<Token>, kind: TokenKind) -> Result<(), AllocError> {
    if let Some(last) = tokens.last_mut() {
        if last.kind == TokenKind::Ident && kind == TokenKind::Ident {
            last.len = last.len.saturating_add(1);
            return Ok(());
        }
    }
    tokens.push(Token { kind, len: 1 })?;
    Ok(())
}

fn put_token(line: &mut String, kind: SyntaxKind, text: &str) -> Result<(), AllocError> {
    if text == " " {
        line.push('_')
    } else {
        write!(line, "{}:{text} ", kind.0)
    }
}

/// The line of a tree's steps: `700{3:a !1 text;}` is a node 700 with a token `a` of kind 3 and an
/// error at byte 1 in it. A space is an underscore.
fn line_of(alloc: Global, tree: &SyntaxTree<'_>) -> Result<String, AllocError> {
    let mut line = String::new(alloc);
    for step in tree.steps() {
        match step {
            StrStep::Enter { kind } => write!(line, "{}{{", kind.0)?,
            StrStep::Token { kind, text } => put_token(&mut line, kind, text)?,
            StrStep::Error { msg, pos } => write!(line, "!{pos} {msg};")?,
            StrStep::Exit => line.push('}')?,
        }
    }
    Ok(line)
}

/// Parses the text, and ends the test unless all of it is sent, and its tree has these steps.
fn assert_sent(rt: &(impl Abort + AllocGlobal), text: &str, wanted: &str) -> Result<(), Fail> {
    let tokens = tokens_of(rt.alloc(), text)?;
    let mut builder = TreeBuilder::new(rt.alloc(), text);
    let keywords = vocabulary(rt.alloc())?;
    let sent = send(rt.alloc(), text, &tokens, &keywords, &NAMES, &mut builder)?;
    assert!(rt; sent.all);
    let Ok(tree) = builder.finish() else {
        return Err(Fail::from("no tree"));
    };
    let line = line_of(rt.alloc(), &tree)?;
    assert_eq!(rt; line.as_str(), wanted);
    Ok(())
}

#[test]
fn operators_bind_by_precedence(rt: HostRuntime) -> Result<(), Fail> {
    let text = "SELECT a+1 FROM t WHERE NOT b OR c IS NOT NULL;";
    let wanted =
        "700{701{200:SELECT _702{708{705{3:a }664{27:+ }706{33:1 }}}_703{83:FROM _705{3:t }}\
        _704{201:WHERE _708{709{71:NOT _705{3:b }}_203:OR _708{705{3:c }_663{70:IS _71:NOT }_706{205:NULL }}}}5:; }}";
    assert_sent(&rt, text, wanted)
}

#[test]
fn grammar_goes_on_behind_what_is_skipped(rt: HostRuntime) -> Result<(), Fail> {
    let text = "select a, from t x; 1 select b from u;";
    let wanted =
        "700{701{200:select _702{705{3:a }}6:, _702{2{!10 expected an expression;}}703{83:from _705{3:t }}\
        _2{!17 expected the end of the statement;3:x }5:; }_2{!20 expected SELECT;33:1 }\
        _701{200:select _702{705{3:b }}_703{83:from _705{3:u }}5:; }}";
    assert_sent(&rt, text, wanted)
}

#[test]
fn missing_parenthesis_is_seen_in_the_last_item(rt: HostRuntime) -> Result<(), Fail> {
    let wanted =
        "700{701{200:select _702{707{9:( 705{3:a !9 expected );}}}_703{83:from _705{3:t }}5:; }}";
    assert_sent(&rt, "select (a from t;", wanted)
}

/// A sink that counts errors: those of too deep a nesting, and missing ends of lists.
#[derive(Drop)]
struct Counts {
    too_deep: usize,
    missing_ends: usize,
    last: SyntaxKind,
}

impl StepSink for Counts {
    type Refusal = AllocError;

    ghost stands_after = { λ _ _. Unit {0} };

    ghost refuses = { λ _ _ _. Unit {0} };

    fn step(&mut self, step: StrStep<'_>) -> Result<(), AllocError> {
        match step {
            StrStep::Token { kind, text: _ } | StrStep::Enter { kind } => self.last = kind,
            StrStep::Exit => {}
            StrStep::Error { msg, pos: _ } => {
                if msg == "nested too deep" {
                    self.too_deep = self.too_deep.saturating_add(1);
                }
                if msg == "expected )" {
                    self.missing_ends = self.missing_ends.saturating_add(1);
                }
            }
        }
        Ok(())
    }
}

/// Sends `select` with so many opening parentheses, and as many closing ones or none.
fn send_nested(alloc: Global, depth: u32, is_closed: bool) -> Result<Counts, Fail> {
    let mut text = String::from_str(alloc, "select ")?;
    for _ in 0..depth {
        text.push('(')?;
    }
    if is_closed {
        for _ in 0..depth {
            text.push(')')?;
        }
    }
    let tokens = tokens_of(alloc, text.as_str())?;
    let mut counts = Counts {
        too_deep: 0,
        missing_ends: 0,
        last: SyntaxKind::EOF,
    };
    let keywords = vocabulary(alloc)?;
    send(
        alloc,
        text.as_str(),
        &tokens,
        &keywords,
        &NAMES,
        &mut counts,
    )?;
    Ok(counts)
}

#[test]
fn million_parentheses_are_parsed(rt: HostRuntime) -> Result<(), Fail> {
    let counts = send_nested(rt.alloc(), 1_000_000, false)?;
    assert_eq!(rt; counts.too_deep, 1);
    Ok(())
}

#[test]
fn what_is_too_deep_is_one_error(rt: HostRuntime) -> Result<(), Fail> {
    let counts = send_nested(rt.alloc(), 600, true)?;
    assert_eq!(rt; counts.too_deep, 1);
    // Each list that is not too deep has its end.
    assert_eq!(rt; counts.missing_ends, 0);
    Ok(())
}
