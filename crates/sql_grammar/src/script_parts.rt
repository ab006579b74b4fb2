//! A script a part at a time.
ghost use Rattle.std.specs.Prelude.{◌≡◌, ◌≢◌, ◌≤◌, ◌⊎◌, false, length, true, IfErr, IfOk};
ghost use Rattle.std.specs.Str.{chars};
ghost use Rattle.squawk_output.specs.Steps.{errors_in};
ghost use Rattle.squawk_keywords.specs.KeywordAnswers.{keyword_of};
ghost use Rattle.squawk_table.specs.RawTable.{IsTable, table_of};
ghost use Rattle.squawk_table.specs.Sent.{sent_list, texts_of};
ghost use Rattle.squawk_table.specs.Shape.{Fits};
ghost use Rattle.squawk_tokens.specs.AcceptedTokens.{AreAcceptedTokens};
ghost use Rattle.sql_grammar.specs.CutParts.{CutsInText, RefusesTokens};
ghost use Rattle.sql_grammar.specs.ReadParts.{IsParsedBy, begun_with, can_end_part};
ghost use Rattle.sql_grammar.specs.WholeLines.{AreWholeLines};

use crate::Detail;
use crate::lines::whole_lines;
use crate::parse::parse_table;
use crate::strings::stray_strings;
use rule_grammar::RuleGrammar;
use sql_lexer::{ScriptLexer, ScriptPlace, TokenizeError};
use sql_rules::hiding;
use squawk_keywords::Keywords;
use squawk_parser::{LexedStr, Output, ParseError, Token};
use std::alloc::{AllocError, Global};
use std::marker::Model;

/// Room for so many raw tokens is asked for at once, as most parts have fewer.
const ROOM_FOR_TOKENS: usize = 5120;

/// Whole statements of a script, or the last of it, with their parse.
#[derive(Drop)]
pub struct ScriptPart<'t> {
    /// Where the part begins, in bytes of the script.
    pub start: usize,
    /// Its raw tokens. Places in the table count from `start`.
    pub table: LexedStr<'t>,
    /// One node over all of its tokens.
    pub output: Output,
}

/// How far a script is read.
#[derive(Clone, Copy)]
enum Progress {
    Front,
    Inside,
}

/// Reads a script, one that `psql` reads or `pg_dump` writes, a part at a time. It holds what belongs to one part.
///
/// A part is whole statements. A script may come as several texts, one after another: what is left of one, after its last
/// part, begins the next one. The last part of the last text has the rest of the script.
#[derive(Drop)]
pub struct ScriptParts<'t> {
    alloc: Global,
    text: &'t str,
    begun: ScriptPlace,
    is_last: bool,
    lexer: ScriptLexer<'t>,
    progress: Progress,
}

impl<'t> Model for ScriptParts<'t> {
    ghost use Rattle.sql_grammar.specs.ReadParts.{IsReading, Reading};

    ghost Value = { Reading };

    ghost view = { λ p. record { lexer = p.lexer; begun = p.begun; is_last = p.is_last; progress = p.progress } };

    ghost invariant = { λ p. IsReading (record { lexer = p.lexer; begun = p.begun; is_last = p.is_last; progress = p.progress }) p.text.now };
}

impl<'t> ScriptParts<'t> {
    ghost use Rattle.std.specs.Prelude.{◌≡◌, ◌≢◌, ◌≤◌, ◌⊎◌, ℕ, true, [], ◌∷◌, ◌++◌, List, None, length, IfErr, IfOk, IfSome, OnErr, OnOk};
    ghost use Rattle.squawk_keywords.specs.declared.keywords.Keywords.{Keywords};
    ghost use Rattle.squawk_table.specs.declared.shortcuts.str_step.OwnedStep.{OwnedStep};
    ghost use Rattle.squawk_table.specs.declared.shortcuts.str_step.OwnedStep.TheVariants.{Enter, Exit};
    ghost use Rattle.squawk_tokens.specs.LexicalErrors.{LexicalError};
    ghost use Rattle.rule_grammar.specs.declared.rules.RuleGrammar.{RuleGrammar};
    ghost use Rattle.sql_lexer.specs.Tokens.{RefusesText};
    ghost use Rattle.sql_lexer.specs.ScriptLexing.{place_of, script_place};
    ghost use Rattle.sql_lexer.specs.declared.script.script_place.ScriptPlace.TheVariants as script;
    ghost use Rattle.sql_words.specs.SqlVocabulary.{KnowsKeywords};
    ghost use Rattle.sql_grammar.specs.CutParts.{is_over};
    ghost use Rattle.sql_grammar.specs.Kinds.{SOURCE_FILE};
    ghost use Rattle.sql_grammar.specs.ReadParts.{BeginsText, HasRead, IsOver, IsRefusedPart, IsScriptParse, NoneLeft, ReadsPart};

    /// A reader at the front of a text, which begins at this place of a script. The script ends with the last text; of any other
    /// one what stands after the end of its last line isn't read. More than `u32::MAX` bytes are refused.
    pub fn new(
        alloc: Global,
        text: &'t str,
        place: ScriptPlace,
        is_last: bool,
    ) -> Result<ScriptParts<'t>, TokenizeError>
        ensures begins { IfOk result (BeginsText text.now place is_last) }
        ensures reads { IfOk result (λ parts. place ≡ script.Front → (vocabulary : Keywords) (rules : RuleGrammar) → KnowsKeywords vocabulary
            → (rest : List ℕ) → HasRead vocabulary rules parts rest [] [] (Enter SOURCE_FILE ∷ [])) }
        ensures refused { IfErr result (RefusesText text.now) }
    {
        let text = readable(text, is_last);
        Ok(ScriptParts {
            alloc,
            text,
            begun: place,
            is_last,
            lexer: ScriptLexer::new(text, place)?,
            progress: begun_with(place),
        })
    }

    /// Reads the next part, if there is one, and parses it by rules. After an error all is as before.
    ///
    /// A part ends with the first statement that ends `least` bytes after its start or later: with 1 it is one statement, with
    /// `usize::MAX` all that is left. In a text that isn't the last one it ends before the last line does, with a statement or
    /// a line of data.
    pub fn next_part(
        &mut self,
        least: usize,
        vocabulary: &Keywords<'_>,
        rules: &RuleGrammar<'_>,
    ) -> Result<Option<ScriptPart<'t>>, ParseError>
        ensures reads { IfOk result (λ found. IfSome found (λ part. ReadsPart vocabulary.now rules.now self.old self.new part)) }
        ensures full { IfOk result (λ found. IfSome found (λ part. (least ≤ length part.table.text) ⊎ NoneLeft self.new.is_last self.new.lexer)) }
        ensures over { IfOk result (λ found. found ≡ None → IsOver self.old self.new) }
        // Where all of the last text is read, what is read is the script, and its parse.
        ensures ends { OnOk result (self.new.is_last ≡ true → length self.new.lexer.text ≤ self.new.lexer.at → (read : List ℕ) (errors : List LexicalError) (done : List OwnedStep)
            → HasRead vocabulary.now rules.now self.new [] read errors done → IsScriptParse vocabulary.now read errors (done ++ Exit ∷ [])) }
        ensures refused { IfErr result (λ reason. reason ≢ ParseError.OutOfMemory → IsRefusedPart vocabulary.now self.old.begun self.old.lexer.text reason) }
        ensures stays { OnErr result (self.new ≡ self.old) }
    {
        if self.is_over() {
            return Ok(None);
        }
        let Some((lexer, tokens)) = cut_part(self.alloc, &self.lexer, least, self.is_last)? else {
            return Ok(None);
        };
        let start = self.lexer.position();
        let text = &self.text[start..lexer.position()];
        let (table, output) = parse_tokens(self.alloc, text, tokens, vocabulary, rules)?;
        self.lexer = lexer;
        self.progress = Progress::Inside;
        Ok(Some(ScriptPart {
            start,
            table,
            output,
        }))
    }

    /// How many bytes are read.
    pub fn position(&self) -> usize
        ensures { result ≡ self.now.lexer.at }
    {
        self.lexer.position()
    }

    /// Where the script stands after what is read, if another text may begin there, as it may after the last part of a text that
    /// isn't the last one.
    pub fn place(&self) -> Option<ScriptPlace>
        ensures is { result ≡ script_place self.now.lexer.place }
        // A script goes on there as it would have gone on here.
        ensures goes_on { IfSome result (λ place. place_of place ≡ self.now.lexer.place) }
    {
        self.lexer.place()
    }

    /// Whether there is no other part.
    fn is_over(&self) -> bool
        ensures { result ≡ is_over self.now }
    {
        match self.progress {
            Progress::Front => false,
            Progress::Inside => self.lexer.is_at_end(),
        }
    }
}

/// What is read of a text: where others follow, its lines that end.
fn readable(text: &str, is_last: bool) -> &str
    ensures all { is_last ≡ true → result.now ≡ text.now }
    ensures lines { is_last ≡ false → AreWholeLines text.now result.now }
{
    if is_last {
        return text;
    }
    let end = whole_lines(text.as_bytes()).len();
    &text[..end]
}

/// What is read of a script where a text begins.
fn begun_with(place: ScriptPlace) -> Progress
    ensures { result ≡ begun_with place }
{
    match place {
        ScriptPlace::Front => Progress::Front,
        ScriptPlace::Inside { .. } => Progress::Inside,
    }
}

/// Cuts statements up to the first that ends after so many bytes, and a part can end there. None are cut where the script goes on
/// in another text, and no part ends in this one.
fn cut_part<'t>(
    alloc: Global,
    lexer: &ScriptLexer<'t>,
    least: usize,
    is_last: bool,
) -> Result<Option<(ScriptLexer<'t>, Vec<Token>)>, AllocError>
    ensures cuts { IfOk result (λ found. CutsInText least is_last lexer.now found) }
{
    let enough = lexer.position().saturating_add(least.max(1));
    let mut tokens = Vec::with_capacity(alloc, ROOM_FOR_TOKENS)?;
    let mut cut = lexer.fork();
    let mut end = lexer.fork();
    let mut count = 0;
    while end.position() < enough && !cut.is_at_end() {
        cut.next_statement(&mut tokens)?;
        if is_last || can_end_part(&cut) {
            end = cut.fork();
            count = tokens.len();
        }
    }
    if count == 0 && !is_last {
        return Ok(None);
    }
    tokens.truncate(count);
    Ok(Some((end, tokens)))
}

/// Whether a part can end here that another text follows: some of the text is left, and the script can go on here.
fn can_end_part(lexer: &ScriptLexer<'_>) -> bool
    ensures { result ≡ can_end_part lexer.now }
{
    !lexer.is_at_end() && lexer.place().is_some()
}

/// Parses a text by rules that hide its stray strings. The tokens are all of it, and their list is freed before the parse.
fn parse_tokens<'t>(
    alloc: Global,
    text: &'t str,
    tokens: Vec<Token>,
    vocabulary: &Keywords<'_>,
    rules: &RuleGrammar<'_>,
) -> Result<(LexedStr<'t>, Output), ParseError>
    requires { AreAcceptedTokens text.now tokens.items }
    ensures table { IfOk result (λ both. both.0 ≡ table_of (keyword_of vocabulary.now) text.now tokens.items) }
    ensures is_table { IfOk result (λ both. IsTable both.0) }
    ensures fits { IfOk result (λ both. Fits both.0 both.1.steps) }
    ensures whole { IfOk result (λ both. texts_of (sent_list both.0 both.1.steps) ≡ chars text.now) }
    ensures few { IfOk result (λ both. (length both.1.steps ≤ 4294967295) × (errors_in both.1.steps ≤ 2147483648)) }
    ensures parsed { IfOk result (λ both. IsParsedBy rules.now vocabulary.now text.now tokens.items both.0 both.1.steps) }
    ensures refused { IfErr result (λ reason. reason ≢ ParseError.OutOfMemory → RefusesTokens vocabulary.now text.now tokens.items reason) }
{
    let table = LexedStr::from_accepted(alloc, text, &tokens, vocabulary)?;
    let strays = stray_strings(alloc, text, &tokens)?;
    drop(tokens);
    let rules = hiding(rules, &strays);
    let output = parse_table(alloc, &table, vocabulary, Detail::Nodes(&rules))?;
    // The proof reads that it is a table.
    let _len = table.len();
    Ok((table, output))
}
