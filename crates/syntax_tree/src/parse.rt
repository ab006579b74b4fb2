//! From a text to its tree in one call.
ghost use Rattle.std.specs.Prelude.{◌≡◌, IfOk, IfErr};
ghost use Rattle.squawk_tokens.specs.AcceptedTokens.{AreAcceptedTokens};
ghost use Rattle.squawk_parser.specs.Pipeline.{IsParsedInto, IsRefusal, given, table_for};
ghost use Rattle.squawk_parser.specs.declared.pipeline.Sent.{Sent};
ghost use Rattle.syntax_tree.specs.Drafts.{StandsOver};
ghost use Rattle.syntax_tree.specs.Parsed.{IsParsedTree, IsTreeRefusal};
ghost use Rattle.syntax_tree.specs.Refusals.{RefusesOver};

pub mod errors;

use crate::builder::{TreeBuilder, TreeRefusal};
use crate::tree::SyntaxTree;
pub use errors::ParseTreeError;
use squawk_parser::{
    EntryPoint, Grammar, LexError, ParseIntoError, Parsed, Token, Vocabulary, check_tokens,
};
use std::alloc::Global;

/// The tree of a text with these raw tokens, by a grammar, with the trivia.
///
/// A grammar may leave tokens at the end of the text: then the tree's text is what stands before them, but it has the
/// lexical errors of all of it. The stages refuse in the order of [`ParseTreeError`].
pub fn parse_tree<'s, V: Vocabulary, G: Grammar>(
    alloc: Global,
    text: &'s str,
    tokens: &[Token],
    vocabulary: &V,
    grammar: &G,
    entry: EntryPoint,
) -> Result<SyntaxTree<'s>, ParseTreeError>
    ensures tree { let g = given (V.keyword vocabulary.now) (V.contextual_keyword vocabulary.now) text.now tokens.now in
        IfOk result (IsParsedTree g (G.leaves grammar.now entry)) }
    ensures refused { let g = given (V.keyword vocabulary.now) (V.contextual_keyword vocabulary.now) text.now tokens.now in
        IfErr result (IsTreeRefusal g (G.leaves grammar.now entry) (G.runs grammar.now entry) (G.meaning grammar.now)) }
{
    check_tokens(text, tokens)?;
    parse_accepted_tree(alloc, text, tokens, vocabulary, grammar, entry)
}

/// [`parse_tree`] of raw tokens that are known to be accepted, as those of a lexer that promises it: they
/// aren't checked.
pub fn parse_accepted_tree<'s, V: Vocabulary, G: Grammar>(
    alloc: Global,
    text: &'s str,
    tokens: &[Token],
    vocabulary: &V,
    grammar: &G,
    entry: EntryPoint,
) -> Result<SyntaxTree<'s>, ParseTreeError>
    requires { AreAcceptedTokens text.now tokens.now }
    ensures tree { let g = given (V.keyword vocabulary.now) (V.contextual_keyword vocabulary.now) text.now tokens.now in
        IfOk result (IsParsedTree g (G.leaves grammar.now entry)) }
    ensures refused { let g = given (V.keyword vocabulary.now) (V.contextual_keyword vocabulary.now) text.now tokens.now in
        IfErr result (IsTreeRefusal g (G.leaves grammar.now entry) (G.runs grammar.now entry) (G.meaning grammar.now)) }
{
    // Most trees have fewer nodes than raw tokens.
    let elements = tokens.len().saturating_mul(2);
    let mut builder = TreeBuilder::with_capacity(alloc, text, elements);
    match build(
        alloc,
        text,
        tokens,
        vocabulary,
        grammar,
        entry,
        &mut builder,
    ) {
        Ok(lexical) => match builder.finish_with(lexical) {
            Ok(tree) => Ok(tree),
            Err(_unfinished) => unreachable!(),
        },
        Err(ParseIntoError::Table(reason)) => Err(ParseTreeError::Table(reason)),
        Err(ParseIntoError::Input(reason)) => Err(ParseTreeError::Input(reason)),
        Err(ParseIntoError::Parse(reason)) => Err(ParseTreeError::Parse(reason)),
        Err(ParseIntoError::NoRoot) => Err(ParseTreeError::NoRoot),
        Err(ParseIntoError::Sink(answer)) => match answer {
            TreeRefusal::TooLarge => Err(ParseTreeError::TooLarge),
            TreeRefusal::OutOfMemory => Err(ParseTreeError::OutOfMemory),
            TreeRefusal::OutsideOfRoot => unreachable!(),
            TreeRefusal::NothingOpen => unreachable!(),
            TreeRefusal::OtherText => unreachable!(),
        },
    }
}

/// Sends the tree of a text to a builder over it, and returns the lexical errors.
fn build<V: Vocabulary, G: Grammar>(
    alloc: Global,
    text: &str,
    tokens: &[Token],
    vocabulary: &V,
    grammar: &G,
    entry: EntryPoint,
    builder: &mut TreeBuilder<'_>,
) -> Result<Vec<LexError>, ParseIntoError<TreeRefusal>>
    requires { AreAcceptedTokens text.now tokens.now }
    ensures sent { let g = given (V.keyword vocabulary.now) (V.contextual_keyword vocabulary.now) text.now tokens.now in
        IfOk result (λ _. (sent : Sent) × IsParsedInto g (G.leaves grammar.now entry) (StandsOver builder.old) (StandsOver builder.new) sent) }
    ensures lexical { let g = given (V.keyword vocabulary.now) (V.contextual_keyword vocabulary.now) text.now tokens.now in
        IfOk result (λ lexical. lexical.items ≡ (table_for g).errors) }
    ensures refused { let g = given (V.keyword vocabulary.now) (V.contextual_keyword vocabulary.now) text.now tokens.now in
        IfErr result (IsRefusal g (G.leaves grammar.now entry) (G.runs grammar.now entry) (G.meaning grammar.now)
        (StandsOver builder.old) (StandsOver builder.new) RefusesOver (builder.new ≡ builder.old)) }
{
    let parsed = Parsed::new(alloc, text, tokens, vocabulary, grammar, entry)?;
    if !parsed.output.stands_in_one_root() {
        return Err(ParseIntoError::NoRoot);
    }
    match parsed.send(builder) {
        Ok(_sent) => Ok(parsed.table.into_errors()),
        Err(answer) => Err(ParseIntoError::Sink(answer)),
    }
}
