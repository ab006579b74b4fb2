//! The jobs that go from a text to a sink in one call.

use crate::questions::Questions;
use crate::setting::Setting;
use crate::statements::Statements;
use squawk_parser::{EntryPoint, LexedStr, WholeGrammar, check_tokens, parse_whole_into};
use std::alloc::{AllocError, Global};
use tiny_grammar::Tiny;
use workload_texts::{Digest, Maker, Piece, file_size, text};

/// How many pieces a text is made of at random.
const PIECES: usize = 1024;

/// So many pieces.
fn pieces(
    alloc: Global,
    maker: &mut Maker<'_>,
    make: Make,
    count: usize,
) -> Result<Vec<Piece>, AllocError> {
    let mut pieces = Vec::with_capacity(alloc, count)?;
    for _ in 0..count {
        pieces.push(make.piece(alloc, maker)?)?;
    }
    Ok(pieces)
}

/// What a text is made of.
#[derive(Clone, Copy)]
enum Make {
    Statements,
    Rows,
    Expressions,
    /// Statements, one of so many broken.
    Broken(usize),
}

impl Make {
    fn piece(self, alloc: Global, maker: &mut Maker<'_>) -> Result<Piece, AllocError> {
        match self {
            Make::Statements => maker.statement(alloc),
            Make::Rows => maker.row(alloc),
            Make::Expressions => maker.expression(alloc),
            Make::Broken(one_in) => {
                if maker.random.is_one_in(one_in) {
                    maker.broken(alloc)
                } else {
                    maker.statement(alloc)
                }
            }
        }
    }
}

/// Parses a text, and adds to a digest what is sent and what it took, or the line of a refusal.
fn parse<G: WholeGrammar>(
    alloc: Global,
    setting: &Setting<'_>,
    text: &Piece,
    grammar: &G,
    digest: &mut Digest,
) -> Result<(), AllocError> {
    let sent = parse_whole_into(
        alloc,
        text.text.as_str(),
        &text.tokens,
        &setting.document.vocabulary,
        grammar,
        EntryPoint::SourceFile,
        digest,
    );
    match sent {
        Ok(sent) => {
            digest.add(u64::from(sent.all));
            digest.add(u64::from(sent.recorded));
            digest.add(sent.turns);
            Ok(())
        }
        Err(refusal) => {
            let line = format!(in alloc; "{refusal}")?;
            digest.add_bytes(line.as_bytes());
            Ok(())
        }
    }
}

/// Files of statements, most of them small.
pub fn files(
    alloc: Global,
    setting: &Setting<'_>,
    mut maker: Maker<'_>,
    count: usize,
    digest: &mut Digest,
) -> Result<(), AllocError> {
    let pieces = pieces(alloc, &mut maker, Make::Statements, PIECES)?;
    let statements = Statements {
        names: &setting.document.names,
    };
    for _ in 0..count {
        let size = file_size(&mut maker);
        let text = text(alloc, &mut maker, &pieces, size)?;
        parse(alloc, setting, &text, &statements, digest)?;
    }
    Ok(())
}

/// Dumps, each of a million raw tokens and more.
pub fn dumps(
    alloc: Global,
    setting: &Setting<'_>,
    mut maker: Maker<'_>,
    tokens: usize,
    digest: &mut Digest,
) -> Result<(), AllocError> {
    let pieces = pieces(alloc, &mut maker, Make::Rows, PIECES)?;
    let statements = Statements {
        names: &setting.document.names,
    };
    for _ in 0..tokens.div_ceil(1500000) {
        let size = tokens.min(1500000);
        let text = text(alloc, &mut maker, &pieces, size)?;
        parse(alloc, setting, &text, &statements, digest)?;
    }
    Ok(())
}

/// Files of expressions, by a grammar that asks much, and by one that nests operators to the left.
pub fn expressions(
    alloc: Global,
    setting: &Setting<'_>,
    mut maker: Maker<'_>,
    count: usize,
    digest: &mut Digest,
) -> Result<(), AllocError> {
    let pieces = pieces(alloc, &mut maker, Make::Expressions, PIECES)?;
    let questions = Questions::new();
    let tiny = Tiny::new();
    for i in 0..count {
        let size = maker.random.below(5000).saturating_add(1000);
        let text = text(alloc, &mut maker, &pieces, size)?;
        if i % 4 == 3 {
            parse(alloc, setting, &text, &tiny, digest)?;
        } else {
            parse(alloc, setting, &text, &questions, digest)?;
        }
    }
    Ok(())
}

/// Files that are edited: statements break off, strings, comments and parentheses are open. The raw
/// tokens are checked and their errors told before the text is parsed.
pub fn edits(
    alloc: Global,
    setting: &Setting<'_>,
    mut maker: Maker<'_>,
    count: usize,
    digest: &mut Digest,
) -> Result<(), AllocError> {
    let pieces = pieces(alloc, &mut maker, Make::Broken(4), PIECES)?;
    let statements = Statements {
        names: &setting.document.names,
    };
    for i in 0..count {
        let size = maker.random.below(6000).saturating_add(300);
        let mut text = text(alloc, &mut maker, &pieces, size)?;
        if i % 32 == 31 {
            spoil(&mut text, &mut maker);
        }
        lex(alloc, setting, &text, digest)?;
        parse(alloc, setting, &text, &statements, digest)?;
    }
    Ok(())
}

/// Makes a raw token longer by one byte, so that it may be none.
fn spoil(text: &mut Piece, maker: &mut Maker<'_>) {
    let place = maker.random.below(text.tokens.len());
    if let Some(token) = text.tokens.get_mut(place) {
        token.len = token.len.saturating_add(1);
    }
}

/// Adds the lexical errors of a text.
fn lex(
    alloc: Global,
    setting: &Setting<'_>,
    text: &Piece,
    digest: &mut Digest,
) -> Result<(), AllocError> {
    if check_tokens(text.text.as_str(), &text.tokens).is_err() {
        digest.add(7);
        return Ok(());
    }
    match LexedStr::new(
        alloc,
        text.text.as_str(),
        &text.tokens,
        &setting.document.vocabulary,
    ) {
        Ok(table) => {
            digest.add_errors(&table);
            Ok(())
        }
        Err(_) => Err(AllocError),
    }
}
