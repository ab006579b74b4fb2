//! Public calls that the other jobs don't make: of a log of events that is handed in, and of a kind with a
//! tail.
ghost use Rattle.std.specs.Prelude.{◌≡◌};

use crate::setting::Setting;
use row_fixtures::parts::EatingWith;
use squawk_parser::{
    EntryPoint, Event, LexedStr, ParseError, Step, SyntaxKind, Text, TokenKind, TokenSet, process,
};
use std::alloc::{AllocError, Global};
use workload_texts::{Digest, Piece};

/// So many small logs, and parses of a kind with a tail.
pub fn calls(
    alloc: Global,
    setting: &Setting<'_>,
    count: usize,
    digest: &mut Digest,
) -> Result<(), AllocError> {
    let text = is_json(alloc)?;
    for _ in 0..count {
        logged(alloc, digest)?;
        eaten(alloc, setting, &text, digest)?;
    }
    Ok(())
}

/// The start of a node of this kind, whose forward parent is so many places on.
fn start(kind: u16, forward_parent: Option<u32>) -> Event
    ensures { result ≡ Event.Start kind forward_parent }
{
    Event::Start {
        kind: SyntaxKind(kind),
        forward_parent,
    }
}

/// A token of one input token.
fn token(kind: SyntaxKind) -> Event
    ensures { result ≡ Event.Token kind 1 }
{
    Event::Token {
        kind,
        n_raw_tokens: 1,
    }
}

/// The output of a log with a node in front of another, one that was given up, and an error.
fn logged(alloc: Global, digest: &mut Digest) -> Result<(), AllocError> {
    let msg = Text::new(String::from_str(alloc, "expected a name")?);
    let events = vec![in alloc;
        start(700, None),
        start(701, Some(4)),
        token(SyntaxKind::IDENT),
        Event::Finish,
        start(1, None),
        start(702, None),
        token(SyntaxKind::PLUS),
        Event::Error { msg },
        token(SyntaxKind::IDENT),
        Event::Finish,
        Event::Finish,
    ]?;
    let output = process(alloc, events, 11)?;
    digest.add(output.turns());
    for step in output.iter() {
        digest.add(match step {
            Step::Token { kind, .. } => u64::from(u16::from(kind)),
            Step::Enter { kind } => 65536 + u64::from(u16::from(kind)),
            Step::Exit => 1,
            Step::Error { msg } => msg.len() as u64,
        });
    }
    Ok(())
}

/// A text of two keywords and a name.
fn is_json(alloc: Global) -> Result<Piece, AllocError> {
    let mut text = Piece::new(alloc);
    text.put(TokenKind::Ident, "is")?;
    text.space()?;
    text.put(TokenKind::Ident, "json")?;
    text.space()?;
    text.put(TokenKind::Ident, "x")?;
    Ok(text)
}

/// Parses a text in which a kind with a tail stands, and adds its steps if it fits.
fn eaten(
    alloc: Global,
    setting: &Setting<'_>,
    text: &Piece,
    digest: &mut Digest,
) -> Result<(), AllocError> {
    let vocabulary = &setting.document.vocabulary;
    let Ok(table) = LexedStr::new(alloc, text.text.as_str(), &text.tokens, vocabulary) else {
        return Ok(());
    };
    let input = table.to_input(alloc, vocabulary)?;
    let grammar = EatingWith {
        operator_first: TokenSet::EMPTY,
        names: &[],
        kind: SyntaxKind::IS_JSON,
    };
    match EntryPoint::SourceFile.parse(alloc, &input, &grammar) {
        Ok(output) => {
            if table.fits(&output) {
                for step in table.str_steps(&output) {
                    digest.add_step(step);
                }
            }
            Ok(())
        }
        Err(ParseError::OutOfMemory) => Err(AllocError),
        Err(_) => Ok(()),
    }
}
