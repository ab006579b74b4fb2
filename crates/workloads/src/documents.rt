//! Documents as JSON, answered in lines.

use crate::setting::Setting;
use squawk_answer::run;
use squawk_parser::{LiteralKind, Token, TokenKind};
use std::alloc::{AllocError, Global};
use workload_texts::{Digest, Maker, Piece};

/// A piece of a document's text, raw tokens and calls.
#[derive(Drop)]
struct Part {
    text: String,
    tokens: String,
    calls: String,
}

/// The part of a document for a piece.
fn made_part(alloc: Global, piece: &Piece) -> Result<Part, AllocError> {
    let mut part = Part {
        text: String::new(alloc),
        tokens: String::new(alloc),
        calls: String::new(alloc),
    };
    for c in piece.text.chars() {
        match c {
            '"' => part.text.push_str("\\\"")?,
            '\n' => part.text.push_str("\\n")?,
            '\\' => part.text.push_str("\\\\")?,
            _ => part.text.push(c)?,
        }
    }
    for token in &piece.tokens {
        put_token(&mut part.tokens, token)?;
        if !matches!(token.kind, TokenKind::Whitespace | TokenKind::LineComment) {
            part.calls.push_str("[\"bump_any\"],")?;
        }
    }
    Ok(part)
}

/// Adds a raw token's list and a comma.
fn put_token(text: &mut String, token: &Token) -> Result<(), AllocError> {
    let len = token.len;
    match token.kind {
        TokenKind::Whitespace => write!(text, "[\"whitespace\",{len}],"),
        TokenKind::LineComment => write!(text, "[\"line_comment\",{len}],"),
        TokenKind::Ident => write!(text, "[\"ident\",{len}],"),
        TokenKind::Comma => write!(text, "[\"comma\",{len}],"),
        TokenKind::Semi => write!(text, "[\"semi\",{len}],"),
        TokenKind::Dot => write!(text, "[\"dot\",{len}],"),
        TokenKind::OpenParen => write!(text, "[\"open_paren\",{len}],"),
        TokenKind::CloseParen => write!(text, "[\"close_paren\",{len}],"),
        TokenKind::Literal {
            kind: LiteralKind::Int {
                trailing_junk_start,
                ..
            },
        } => write!(text, "[\"int\",{len},false,10,{trailing_junk_start}],"),
        TokenKind::Literal {
            kind: LiteralKind::Str { terminated },
        } => write!(text, "[\"str\",{len},{terminated}],"),
        _ => write!(text, "[\"unknown\",{len}],"),
    }
}

/// A document of so many parts at random: each is a node.
fn document(
    alloc: Global,
    setting: &Setting<'_>,
    maker: &mut Maker<'_>,
    parts: &[Part],
    count: usize,
) -> Result<String, AllocError> {
    let mut text = String::from_str(alloc, "{\"text\":\"")?;
    let mut tokens = String::from_str(alloc, "\",\"tokens\":[")?;
    let mut calls = String::from_str(alloc, "\"calls\":[[\"start\"],")?;
    for i in 0..count {
        if let Some(part) = parts.get(maker.random.below(parts.len())) {
            text.push_str(part.text.as_str())?;
            tokens.push_str(part.tokens.as_str())?;
            let marker = i.saturating_add(1);
            calls.push_str("[\"start\"],")?;
            calls.push_str(part.calls.as_str())?;
            write!(calls, "[\"complete\",{marker},701],")?;
            if maker.random.is_one_in(12) {
                calls.push_str("[\"expect\",10],")?;
            }
        }
    }
    tokens.push_str("[\"whitespace\",1]],\n")?;
    calls.push_str("[\"complete\",0,700]]}\n")?;
    text.push_str(" ")?;
    text.push_str(tokens.as_str())?;
    text.push_str(setting.words)?;
    text.push_str(calls.as_str())?;
    Ok(text)
}

/// How many parts a document has: one of eight is large.
fn parts_of(maker: &mut Maker<'_>, i: usize) -> usize {
    if i % 8 == 7 {
        maker.random.below(600).saturating_add(300)
    } else {
        maker.random.below(40).saturating_add(1)
    }
}

/// Documents with statements.
pub fn documents(
    alloc: Global,
    setting: &Setting<'_>,
    mut maker: Maker<'_>,
    count: usize,
    digest: &mut Digest,
) -> Result<(), AllocError> {
    let mut parts = Vec::new(alloc);
    for _ in 0..256 {
        let piece = maker.statement(alloc)?;
        parts.push(made_part(alloc, &piece)?)?;
    }
    for i in 0..count {
        let parts_here = parts_of(&mut maker, i);
        let document = document(alloc, setting, &mut maker, &parts, parts_here)?;
        let mut lines = Vec::new(alloc);
        match run(alloc, &mut document.as_bytes(), &mut lines) {
            Ok(()) => {
                digest.add_bytes(&lines);
            }
            Err(fault) if fault.is_out_of_memory() => return Err(AllocError),
            Err(fault) => {
                let line = format!(in alloc; "{fault}")?;
                digest.add_bytes(line.as_bytes());
            }
        }
    }
    Ok(())
}
