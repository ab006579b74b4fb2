//! Calls from a text to a sink.
ghost use Rattle.std.specs.Prelude.{List, ◌≡◌, ◌++◌, true, IfOk, IfErr};
ghost use Rattle.squawk_tokens.specs.AcceptedTokens.{AreAcceptedTokens};
ghost use Rattle.squawk_table.specs.ParserInput.{input_of};
ghost use Rattle.squawk_table.specs.Shape.{Fits, IsOver, no_keywords};
ghost use Rattle.squawk_table.specs.Sent.{StopsWithin, sent_list};
ghost use Rattle.squawk_table.specs.declared.shortcuts.str_step.OwnedStep.{OwnedStep};
ghost use Rattle.squawk_parser.specs.Pipeline.{IsNotParsed, IsParsed, IsParsedInto, IsRefusal, IsSent, as_into_error, given, table_for};

pub mod errors;

use crate::parser::{EntryPoint, Grammar, WholeGrammar};
use errors::{ParseIntoError, ParseWholeError};
use squawk_kinds::Vocabulary;
use squawk_output::Output;
use squawk_table::{LexedStr, StepSink, Token, check_tokens};
use std::alloc::Global;

/// Whether all of a text was sent, and the counts of its parse.
#[derive(Clone, Copy, Debug, PartialEq, Eq)]
pub struct Sent {
    /// Whether all of the text was sent.
    pub all: bool,
    /// The number of events that the parse recorded.
    pub recorded: u32,
    /// The number of turns of the pass over the events: at most four for each.
    pub turns: u64,
}

/// Parses a text with these raw tokens by a grammar, and sends the tree with its trivia to a sink.
///
/// It returns whether all of the text was sent: a grammar may leave tokens at the end. The errors are those
/// of the stages in turn, then [`ParseIntoError::NoRoot`], then the sink's. Before the sink's error the sink
/// is unchanged.
pub fn parse_into<V: Vocabulary, G: Grammar, S: StepSink>(
    alloc: Global,
    text: &str,
    tokens: &[Token],
    vocabulary: &V,
    grammar: &G,
    entry: EntryPoint,
    sink: &mut S,
) -> Result<Sent, ParseIntoError<S::Refusal>>
    ensures sent { let g = given (V.keyword vocabulary.now) (V.contextual_keyword vocabulary.now) text.now tokens.now in
        IfOk result (IsParsedInto g (G.leaves grammar.now entry) (S.stands_after sink.old) (S.stands_after sink.new)) }
    ensures refused { let g = given (V.keyword vocabulary.now) (V.contextual_keyword vocabulary.now) text.now tokens.now in
        IfErr result (IsRefusal g (G.leaves grammar.now entry) (G.runs grammar.now entry) (G.meaning grammar.now)
        (S.stands_after sink.old) (S.stands_after sink.new) S.refuses (sink.new ≡ sink.old)) }
{
    check_tokens(text, tokens)?;
    parse_accepted_into(alloc, text, tokens, vocabulary, grammar, entry, sink)
}

/// [`parse_into`] for a grammar that always leaves one node over all tokens: all of the text is sent.
pub fn parse_whole_into<V: Vocabulary, G: WholeGrammar, S: StepSink>(
    alloc: Global,
    text: &str,
    tokens: &[Token],
    vocabulary: &V,
    grammar: &G,
    entry: EntryPoint,
    sink: &mut S,
) -> Result<Sent, ParseWholeError<S::Refusal>>
    ensures sent { let g = given (V.keyword vocabulary.now) (V.contextual_keyword vocabulary.now) text.now tokens.now in
        IfOk result (IsParsedInto g (G.leaves grammar.now entry) (S.stands_after sink.old) (S.stands_after sink.new)) }
    ensures all { IfOk result (λ sent. sent.all ≡ true) }
    ensures refused { let g = given (V.keyword vocabulary.now) (V.contextual_keyword vocabulary.now) text.now tokens.now in
        IfErr result (λ reason. IsRefusal g (G.leaves grammar.now entry) (G.runs grammar.now entry) (G.meaning grammar.now)
        (S.stands_after sink.old) (S.stands_after sink.new) S.refuses (sink.new ≡ sink.old) (as_into_error reason)) }
{
    check_tokens(text, tokens)?;
    parse_accepted_whole_into(alloc, text, tokens, vocabulary, grammar, entry, sink)
}

/// [`parse_into`] for raw tokens that are proved to be accepted, as a lexer's may be: skips their check.
pub fn parse_accepted_into<V: Vocabulary, G: Grammar, S: StepSink>(
    alloc: Global,
    text: &str,
    tokens: &[Token],
    vocabulary: &V,
    grammar: &G,
    entry: EntryPoint,
    sink: &mut S,
) -> Result<Sent, ParseIntoError<S::Refusal>>
    requires { AreAcceptedTokens text.now tokens.now }
    ensures sent { let g = given (V.keyword vocabulary.now) (V.contextual_keyword vocabulary.now) text.now tokens.now in
        IfOk result (IsParsedInto g (G.leaves grammar.now entry) (S.stands_after sink.old) (S.stands_after sink.new)) }
    ensures refused { let g = given (V.keyword vocabulary.now) (V.contextual_keyword vocabulary.now) text.now tokens.now in
        IfErr result (IsRefusal g (G.leaves grammar.now entry) (G.runs grammar.now entry) (G.meaning grammar.now)
        (S.stands_after sink.old) (S.stands_after sink.new) S.refuses (sink.new ≡ sink.old)) }
{
    let parsed = Parsed::new(alloc, text, tokens, vocabulary, grammar, entry)?;
    if !parsed.output.stands_in_one_root() {
        return Err(ParseIntoError::NoRoot);
    }
    match parsed.send(sink) {
        Ok(sent) => Ok(sent),
        Err(answer) => Err(ParseIntoError::Sink(answer)),
    }
}

/// [`parse_whole_into`] for raw tokens that are proved to be accepted: skips their check.
pub fn parse_accepted_whole_into<V: Vocabulary, G: WholeGrammar, S: StepSink>(
    alloc: Global,
    text: &str,
    tokens: &[Token],
    vocabulary: &V,
    grammar: &G,
    entry: EntryPoint,
    sink: &mut S,
) -> Result<Sent, ParseWholeError<S::Refusal>>
    requires { AreAcceptedTokens text.now tokens.now }
    ensures sent { let g = given (V.keyword vocabulary.now) (V.contextual_keyword vocabulary.now) text.now tokens.now in
        IfOk result (IsParsedInto g (G.leaves grammar.now entry) (S.stands_after sink.old) (S.stands_after sink.new)) }
    ensures all { IfOk result (λ sent. sent.all ≡ true) }
    ensures refused { let g = given (V.keyword vocabulary.now) (V.contextual_keyword vocabulary.now) text.now tokens.now in
        IfErr result (λ reason. IsRefusal g (G.leaves grammar.now entry) (G.runs grammar.now entry) (G.meaning grammar.now)
        (S.stands_after sink.old) (S.stands_after sink.new) S.refuses (sink.new ≡ sink.old) (as_into_error reason)) }
{
    let parsed = Parsed::new(alloc, text, tokens, vocabulary, grammar, entry)?;
    match parsed.send(sink) {
        Ok(sent) => Ok(sent),
        Err(answer) => Err(ParseWholeError::Sink(answer)),
    }
}

/// A table of raw tokens, and the output of a parse over its input.
#[derive(Drop)]
pub struct Parsed<'a> {
    pub table: LexedStr<'a>,
    pub output: Output,
}

impl<'a> Parsed<'a> {
    /// Parses a text with raw tokens that are proved to be accepted.
    pub fn new<V: Vocabulary, G: Grammar, R>(
        alloc: Global,
        text: &'a str,
        tokens: &[Token],
        vocabulary: &V,
        grammar: &G,
        entry: EntryPoint,
    ) -> Result<Parsed<'a>, ParseWholeError<R>>
        requires { AreAcceptedTokens text.now tokens.now }
        ensures parsed { let g = given (V.keyword vocabulary.now) (V.contextual_keyword vocabulary.now) text.now tokens.now in
            IfOk result (λ parsed. (parsed.table ≡ table_for g) × IsParsed g (G.leaves grammar.now entry) parsed.output) }
        ensures over { IfOk result (λ parsed. IsOver parsed.output.steps (input_of no_keywords parsed.table)) }
        ensures refused { let g = given (V.keyword vocabulary.now) (V.contextual_keyword vocabulary.now) text.now tokens.now in
            IfErr result (IsNotParsed g (G.runs grammar.now entry) (G.meaning grammar.now)) }
    {
        let table = match LexedStr::from_accepted(alloc, text, tokens, vocabulary) {
            Ok(table) => table,
            Err(reason) => return Err(ParseWholeError::Table(reason.into())),
        };
        let input = table.to_input(alloc, vocabulary)?;
        let output = entry.parse(alloc, &input, grammar)?;
        Ok(Parsed { table, output })
    }

    /// Sends the steps of the output, which fits the table, to a sink.
    pub fn send<S: StepSink>(&self, sink: &mut S) -> Result<Sent, S::Refusal>
        requires { Fits self.now.table self.now.output.steps }
        ensures sent { IfOk result (IsSent self.now.table self.now.output (S.stands_after sink.old) (S.stands_after sink.new)) }
        ensures stopped { IfErr result (λ answer. (l : List OwnedStep) → S.stands_after sink.old l
            → StopsWithin (S.stands_after sink.new) S.refuses l (sent_list self.now.table self.now.output.steps) answer) }
    {
        let all = self.table.intersperse_trivia(&self.output, sink)?;
        Ok(Sent {
            all,
            recorded: self.output.recorded(),
            turns: self.output.turns(),
        })
    }
}
