//! From SQL texts to their steps or trees, by the lexer, the keywords and the grammar of SQL.
ghost use Rattle.std.specs.Prelude.{IfOk};
ghost use Rattle.squawk_tokens.specs.AcceptedTokens.{AreAcceptedTokens};

use crate::texts::Texts;
use sql_grammar::{Detail, SqlGrammar, stray_strings};
use sql_lexer::{TokenizeError, tokenize_script};
use squawk_keywords::Keywords;
use squawk_parser::{
    EntryPoint, LexedStr, StepSink, StrStep, SyntaxKind, Token, parse_accepted_into,
};
use std::alloc::{AllocError, Global};
use syntax_tree::{SyntaxTree, TokenAtOffset, parse_accepted_tree};
use workload_texts::Digest;

/// Of the dump: how many raw tokens it has for each file.
const TOKENS_PER_FILE: usize = 100;

/// How often a token at an offset is asked for.
const OFFSETS: usize = 1000000;

/// Counts steps, and adds the numbers of kinds.
#[derive(Drop)]
struct Counter {
    steps: u64,
    kinds: u64,
}

impl Counter {
    fn see(&mut self, kind: SyntaxKind) {
        self.kinds = self.kinds.wrapping_add(u64::from(u16::from(kind)));
    }
}

impl StepSink for Counter {
    type Refusal = AllocError;

    ghost stands_after = { λ _ _. Unit {0} };

    ghost refuses = { λ _ _ _. Unit {0} };

    #[inline(always)]
    fn step(&mut self, step: StrStep<'_>) -> Result<(), AllocError> {
        self.steps = self.steps.wrapping_add(1);
        match step {
            StrStep::Token { kind, text: _ } => self.see(kind),
            StrStep::Enter { kind } => self.see(kind),
            StrStep::Exit => {}
            StrStep::Error { msg: _, pos: _ } => {}
        }
        Ok(())
    }
}

/// The raw tokens of a text. Too long a text counts as want of memory.
fn tokens(alloc: Global, text: &str) -> Result<Vec<Token>, AllocError>
    ensures { IfOk result (λ tokens. AreAcceptedTokens text.now tokens.items) }
{
    match tokenize_script(alloc, text) {
        Ok(tokens) => Ok(tokens),
        Err(TokenizeError::OutOfMemory) => Err(AllocError),
        Err(TokenizeError::TextTooLong) => Err(AllocError),
    }
}

/// Sends the steps of a text. A refusal counts as want of memory.
fn send<S: StepSink<Refusal = AllocError>>(
    alloc: Global,
    words: &Keywords<'_>,
    text: &str,
    tokens: &[Token],
    sink: &mut S,
) -> Result<(), AllocError>
    requires { AreAcceptedTokens text.now tokens.now }
{
    let strays = stray_strings(alloc, text, tokens)?;
    let ready = sql_rules::rules();
    let rules = sql_rules::hiding(&ready, &strays);
    let grammar = SqlGrammar {
        detail: Detail::Nodes(&rules),
    };
    let entry = EntryPoint::SourceFile;
    match parse_accepted_into(alloc, text, tokens, words, &grammar, entry, sink) {
        Ok(_sent) => Ok(()),
        Err(_refusal) => Err(AllocError),
    }
}

/// The tree of a text. A refusal counts as want of memory.
fn tree<'t>(
    alloc: Global,
    words: &Keywords<'_>,
    text: &'t str,
    tokens: &[Token],
) -> Result<SyntaxTree<'t>, AllocError>
    requires { AreAcceptedTokens text.now tokens.now }
{
    let strays = stray_strings(alloc, text, tokens)?;
    let ready = sql_rules::rules();
    let rules = sql_rules::hiding(&ready, &strays);
    let grammar = SqlGrammar {
        detail: Detail::Nodes(&rules),
    };
    let entry = EntryPoint::SourceFile;
    match parse_accepted_tree(alloc, text, tokens, words, &grammar, entry) {
        Ok(tree) => Ok(tree),
        Err(_refusal) => Err(AllocError),
    }
}

/// What is done with each text.
#[derive(Clone, Copy)]
pub enum Make {
    /// Its steps are sent.
    Steps,
    /// Its tree is built, whose steps are those sent.
    Tree,
}

/// Adds the steps of a text to a digest.
fn add(
    alloc: Global,
    words: &Keywords<'_>,
    text: &str,
    make: Make,
    digest: &mut Digest,
) -> Result<(), AllocError> {
    let tokens = tokens(alloc, text)?;
    match make {
        Make::Steps => send(alloc, words, text, &tokens, digest)?,
        Make::Tree => {
            for step in tree(alloc, words, text, &tokens)?.steps() {
                digest.add_step(step);
            }
        }
    }
    Ok(())
}

/// Adds the steps of files of SQL, most of them small, and of a dump to a digest.
pub fn files(
    alloc: Global,
    words: &Keywords<'_>,
    texts: &mut Texts<'_>,
    count: usize,
    make: Make,
    digest: &mut Digest,
) -> Result<(), AllocError> {
    for _ in 0..count {
        let file = texts.file(alloc)?;
        add(alloc, words, file.as_str(), make, digest)?;
    }
    let dump = texts.dump(alloc, count.saturating_mul(TOKENS_PER_FILE))?;
    add(alloc, words, dump.as_str(), make, digest)
}

/// How far a text is taken.
#[derive(Clone, Copy)]
pub enum Phase {
    /// To its raw tokens.
    Tokens,
    /// To their table.
    Table,
    /// To the parser's input.
    Input,
    /// To the parse's output.
    Parse,
    /// To its steps, in one call.
    Steps,
    /// To its tree, in one call.
    Tree,
}

/// Takes a text so far. Returns how many raw tokens, input tokens, events or steps there are, or the bytes of the tree.
fn done(alloc: Global, words: &Keywords<'_>, text: &str, phase: Phase) -> Result<u64, AllocError> {
    let tokens = tokens(alloc, text)?;
    match phase {
        Phase::Tokens => Ok(tokens.len() as u64),
        Phase::Table => Ok(LexedStr::from_accepted(alloc, text, &tokens, words)?.len() as u64),
        Phase::Input => {
            let table = LexedStr::from_accepted(alloc, text, &tokens, words)?;
            Ok(table.to_input(alloc, words)?.len() as u64)
        }
        Phase::Parse => {
            let table = LexedStr::from_accepted(alloc, text, &tokens, words)?;
            let input = table.to_input(alloc, words)?;
            let strays = stray_strings(alloc, text, &tokens)?;
            let ready = sql_rules::rules();
            let rules = sql_rules::hiding(&ready, &strays);
            let grammar = SqlGrammar {
                detail: Detail::Nodes(&rules),
            };
            match EntryPoint::SourceFile.parse(alloc, &input, &grammar) {
                Ok(output) => Ok(u64::from(output.recorded())),
                Err(_refusal) => Err(AllocError),
            }
        }
        Phase::Steps => {
            let mut counter = Counter { steps: 0, kinds: 0 };
            send(alloc, words, text, &tokens, &mut counter)?;
            Ok(counter.steps)
        }
        Phase::Tree => {
            let tree = tree(alloc, words, text, &tokens)?;
            Ok(tree.root().text_range().end as u64)
        }
    }
}

/// Takes a text so far, so many times.
pub fn phases(
    alloc: Global,
    words: &Keywords<'_>,
    text: &str,
    phase: Phase,
    rounds: usize,
    digest: &mut Digest,
) -> Result<(), AllocError> {
    for _ in 0..rounds {
        digest.steps = digest.steps.wrapping_add(done(alloc, words, text, phase)?);
    }
    Ok(())
}

/// Builds the tree of a text, walks over its tokens so many times, and counts them.
pub fn walked(
    alloc: Global,
    words: &Keywords<'_>,
    text: &str,
    rounds: usize,
    digest: &mut Digest,
) -> Result<(), AllocError> {
    let tokens = tokens(alloc, text)?;
    let tree = tree(alloc, words, text, &tokens)?;
    for _ in 0..rounds {
        for element in tree.root().descendants_with_tokens() {
            if element.is_token() {
                digest.steps = digest.steps.wrapping_add(1);
            }
        }
    }
    Ok(())
}

/// Builds the tree of a text, asks a million times in each round which token is at an offset, and counts those
/// that stand alone.
pub fn found(
    alloc: Global,
    words: &Keywords<'_>,
    texts: &mut Texts<'_>,
    text: &str,
    rounds: usize,
    digest: &mut Digest,
) -> Result<(), AllocError> {
    let tokens = tokens(alloc, text)?;
    let tree = tree(alloc, words, text, &tokens)?;
    for _ in 0..rounds.saturating_mul(OFFSETS) {
        if let TokenAtOffset::Single(_token) = tree.token_at_offset(texts.offset(text.len())) {
            digest.steps = digest.steps.wrapping_add(1);
        }
    }
    Ok(())
}
