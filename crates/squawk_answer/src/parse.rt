//! Parses a table's input by a document's grammar.
ghost use Rattle.std.specs.Prelude.{◌≡◌, ◌≢◌, Ok, Err, false, IfErr, MatchResult};
ghost use Rattle.squawk_document.specs.DocumentGrammars.{by_calls, by_tiny, grammar_content};
ghost use Rattle.squawk_document.specs.KeywordAnswers.{answers};
ghost use Rattle.squawk_kinds.specs.Kinds.{EOF};
ghost use Rattle.squawk_kinds.specs.TokenSets.{has};
ghost use Rattle.squawk_parser.specs.Words.{Words as SpecWords, words_of};
ghost use Rattle.squawk_table.specs.ParserInput.{input_of};
ghost use Rattle.squawk_answer.specs.Answers.{ParseReturns};

use crate::fault::Fault;
use squawk_document::DocumentGrammar;
use squawk_keywords::Keywords;
use squawk_parser::{EntryPoint, LexedStr, Output, SyntaxKind, TokenSet, Words};
use squawk_script::{Call, Script};
use std::alloc::Global;
use tiny_grammar::Tiny;

/// Parses by the grammar. The output fits the table.
pub fn parse(
    alloc: Global,
    table: &LexedStr<'_>,
    vocabulary: &Keywords<'_>,
    operator_first: TokenSet,
    names: &[(SyntaxKind, &str)],
    grammar: DocumentGrammar,
) -> Result<Output, Fault>
    requires { has operator_first EOF ≡ false }
    ensures parsed { let input = input_of (answers vocabulary.now).contextual.kind_of table.now in MatchResult result
        (λ output. ParseReturns (grammar_content grammar) (words_of (record { operator_first = operator_first; names = names.entry })) input table.now (Ok output.steps))
        (λ fault. ParseReturns (grammar_content grammar) (words_of (record { operator_first = operator_first; names = names.entry })) input table.now (Err fault)) }
    ensures unwritten { IfErr result (λ fault. fault ≢ Fault.Io) }
{
    match grammar {
        DocumentGrammar::Calls { entry, calls } => {
            parse_calls(
                alloc,
                table,
                vocabulary,
                operator_first,
                names,
                entry,
                calls,
            )
        }
        DocumentGrammar::Tiny => parse_tiny(alloc, table, vocabulary),
    }
}

/// Parses by these calls, from an entry point.
fn parse_calls(
    alloc: Global,
    table: &LexedStr<'_>,
    vocabulary: &Keywords<'_>,
    operator_first: TokenSet,
    names: &[(SyntaxKind, &str)],
    entry: EntryPoint,
    calls: Vec<Call>,
) -> Result<Output, Fault>
    requires { has operator_first EOF ≡ false }
    ensures parsed { let input = input_of (answers vocabulary.now).contextual.kind_of table.now in MatchResult result
        (λ output. ParseReturns (by_calls entry calls.items) (words_of (record { operator_first = operator_first; names = names.entry })) input table.now (Ok output.steps))
        (λ fault. ParseReturns (by_calls entry calls.items) (words_of (record { operator_first = operator_first; names = names.entry })) input table.now (Err fault)) }
    ensures unwritten { IfErr result (λ fault. fault ≢ Fault.Io) }
{
    let words = Words {
        operator_first,
        names,
    };
    let script = Script::new(alloc, calls, words)?;
    let input = table.to_input(alloc, vocabulary)?;
    let output = entry.parse(alloc, &input, &script)?;
    if !output.stands_in_one_root() {
        return Err(Fault::DoesNotFit);
    }
    Ok(output)
}

/// Parses by the small grammar, whose output always fits.
fn parse_tiny(
    alloc: Global,
    table: &LexedStr<'_>,
    vocabulary: &Keywords<'_>,
) -> Result<Output, Fault>
    ensures parsed { let input = input_of (answers vocabulary.now).contextual.kind_of table.now in MatchResult result
        (λ output. (words : SpecWords) → ParseReturns by_tiny words input table.now (Ok output.steps))
        (λ fault. (words : SpecWords) → ParseReturns by_tiny words input table.now (Err fault)) }
    ensures unwritten { IfErr result (λ fault. fault ≢ Fault.Io) }
{
    let output = Tiny::new().parse(alloc, table, vocabulary, EntryPoint::SourceFile)?;
    Ok(output)
}
