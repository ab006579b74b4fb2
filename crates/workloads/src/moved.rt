//! Trees whose nodes begin in front of others: by scripts, as steps and as text.

use crate::setting::Setting;
use squawk_parser::{EntryPoint, Input, LexedStr, Output, ParseError, SyntaxKind, TokenSet, Words};
use squawk_script::{Call, Script};
use squawk_tree::TreeText;
use std::alloc::{AllocError, Global};
use workload_texts::{Digest, Maker, Piece};

/// Calls over so many tokens.
#[derive(Drop)]
struct Calls {
    calls: Vec<Call>,
    markers: u32,
}

impl Calls {
    fn start(&mut self) -> Result<u32, AllocError> {
        self.calls.push(Call::Start)?;
        Ok(self.next())
    }

    fn next(&mut self) -> u32 {
        let marker = self.markers;
        self.markers = self.markers.saturating_add(1);
        marker
    }

    fn complete(&mut self, marker: u32, kind: u16) -> Result<(), AllocError> {
        let kind = SyntaxKind::from(kind);
        self.calls.push(Call::Complete { marker, kind })?;
        Ok(())
    }

    fn bump(&mut self) -> Result<(), AllocError> {
        self.calls.push(Call::BumpAny)?;
        Ok(())
    }

    /// A node with a token, and so many nodes that each begin in front of the last and have two more.
    fn chain(&mut self, len: usize) -> Result<(), AllocError> {
        let mut node = self.start()?;
        self.bump()?;
        self.complete(node, 710)?;
        for _ in 0..len {
            self.calls.push(Call::Precede { node })?;
            node = self.next();
            self.bump()?;
            self.bump()?;
            self.complete(node, 711)?;
        }
        Ok(())
    }

    /// A node that begins where an older marker was started.
    fn extended(&mut self) -> Result<(), AllocError> {
        let marker = self.start()?;
        self.bump()?;
        let node = self.start()?;
        self.bump()?;
        self.complete(node, 712)?;
        self.calls.push(Call::ExtendTo { node, marker })?;
        Ok(())
    }

    /// A node that is given up.
    fn abandoned(&mut self) -> Result<(), AllocError> {
        let marker = self.start()?;
        self.bump()?;
        self.calls.push(Call::Abandon { marker })?;
        Ok(())
    }

    /// A node with two tokens.
    fn plain(&mut self) -> Result<(), AllocError> {
        let marker = self.start()?;
        self.bump()?;
        self.bump()?;
        self.complete(marker, 713)
    }
}

/// Calls over a text with so many raw tokens.
fn made_calls(
    alloc: Global,
    maker: &mut Maker<'_>,
    tokens: usize,
) -> Result<Vec<Call>, AllocError> {
    let mut calls = Calls {
        calls: Vec::new(alloc),
        markers: 0,
    };
    let root = calls.start()?;
    if maker.random.is_one_in(8) {
        calls.chain(tokens / 5)?;
    }
    for _ in 0..tokens / 6 {
        match maker.random.below(8) {
            0 => {
                let len = maker.random.below(6);
                calls.chain(len)?;
            }
            1 => calls.extended()?,
            2 => calls.abandoned()?,
            _ => calls.plain()?,
        }
    }
    calls.complete(root, 700)?;
    let Calls { calls, markers: _ } = calls;
    Ok(calls)
}

/// Files of statements, whose nodes scripts make.
pub fn moved(
    alloc: Global,
    setting: &Setting<'_>,
    mut maker: Maker<'_>,
    count: usize,
    digest: &mut Digest,
) -> Result<(), AllocError> {
    let mut pieces = Vec::new(alloc);
    for _ in 0..256 {
        pieces.push(maker.statement(alloc)?)?;
    }
    for i in 0..count {
        let size = if i % 8 == 0 { 6000 } else { 250 };
        let size = maker.random.below(size).saturating_add(size);
        let mut text = Piece::new(alloc);
        for _ in 0..size {
            if text.tokens.len() >= size {
                break;
            }
            if let Some(piece) = pieces.get(maker.random.below(pieces.len())) {
                text.append(piece)?;
            }
        }
        let calls = made_calls(alloc, &mut maker, text.tokens.len())?;
        run(alloc, setting, &text, calls, i % 8 != 0, digest)?;
    }
    Ok(())
}

/// Runs a script over a text, and adds the steps of its tree, or its text.
fn run(
    alloc: Global,
    setting: &Setting<'_>,
    text: &Piece,
    calls: Vec<Call>,
    as_text: bool,
    digest: &mut Digest,
) -> Result<(), AllocError> {
    let vocabulary = &setting.document.vocabulary;
    let Ok(table) = LexedStr::new(alloc, text.text.as_str(), &text.tokens, vocabulary) else {
        return Ok(());
    };
    let input = table.to_input(alloc, vocabulary)?;
    match parse(alloc, &input, calls) {
        Ok(output) => add(alloc, setting, &table, &output, as_text, digest),
        Err(ParseError::OutOfMemory) => Err(AllocError),
        Err(_) => Ok(()),
    }
}

/// The parse of an input by a script.
#[tactic(auto, using(squawk_parser::specs::Words::no_words_has_no_end))]
fn parse(alloc: Global, input: &Input, calls: Vec<Call>) -> Result<Output, ParseError> {
    let words = Words {
        operator_first: TokenSet::EMPTY,
        names: &[],
    };
    match Script::new(alloc, calls, words) {
        Ok(script) => EntryPoint::SourceFile.parse(alloc, input, &script),
        Err(_) => Err(ParseError::TooManyEvents),
    }
}

/// Adds the steps of an output, or the text of its tree.
fn add(
    alloc: Global,
    setting: &Setting<'_>,
    table: &LexedStr<'_>,
    output: &Output,
    as_text: bool,
    digest: &mut Digest,
) -> Result<(), AllocError> {
    if !table.fits(output) {
        digest.add(5);
        return Ok(());
    }
    digest.add(output.turns());
    if as_text {
        let mut tree = TreeText::new(alloc);
        table.intersperse_trivia(output, &mut tree)?;
        let text = tree.finish(alloc, &setting.document.names)?;
        digest.add_bytes(text.as_bytes());
        return Ok(());
    }
    for step in table.str_steps(output) {
        digest.add_step(step);
    }
    Ok(())
}
