//! What goes into a case.
//!
//! | line | what it gives |
//! |---|---|
//! | `text \|x \|` | a text, between two bars |
//! | `text \|'\| [["str",1,false]]` | one with its raw tokens as in a document, where the small lexer can't cut it |
//! | `bom \|x \|` | a text behind a byte order mark |
//! | `more \|x \|` | the next line of the text, behind which its raw tokens may stand |
//! | `keywords is 70, json 77` | keywords with their kinds; `keywords all` are those of composite kinds |
//! | `contextual raise 202` | contextual keywords |
//! | `operators =<>-` | the signs of which operators are made |
//! | `names SEMICOLON semi, 700 SOURCE` | names of kinds |
//! | `plpgsql` | the parse begins at the other entry point |
//! | `calls start, ..` | the calls of a script (`row_fixtures::call_list`) |
//! | `eat_with IS_JSON` | or a root in which the kind is eaten, the current token being its tail |
//! | `tiny` | or a parse by the small grammar |
//! | `empty` | or no parse: the empty output |
//! | `sent enter ROOT` | or these steps, one a line (`crate::sent`) |
//!
//! Of several texts, and of several lines of calls, the same is wanted.

ghost use Rattle.squawk_parser.specs.Words.{HasNoEnd, words_of};

use crate::looks::kind;
use crate::sections::{Case, Entry};
use crate::sent::push_step;
use crate::trouble::{Trouble, json_trouble, malformed};
use row_fixtures::call_list::set_of;
use row_fixtures::keywords::{KEYWORDS, Keywords};
use row_fixtures::lexer::tokens_of;
use row_fixtures::tokens::table;
use row_fixtures::words::words_with;
use squawk_document::{token, value};
use squawk_parser::{EntryPoint, OwnedStep, SyntaxKind, Token, TokenSet, Words};
use std::alloc::{AllocError, Global};

/// What is called.
#[derive(Drop)]
pub enum Doing {
    Calls(String),
    EatWith(SyntaxKind),
    /// The calls of the small grammar.
    Tiny,
    /// Nothing: the output is the empty one.
    Empty,
    /// Nothing: the steps are given.
    Sent,
}

/// A text, and its raw tokens if they are given.
#[derive(Drop)]
pub struct Source {
    pub text: String,
    pub tokens: Option<Vec<Token>>,
}

#[derive(Drop)]
pub struct Given<'c> {
    pub alloc: Global,
    pub case: &'c Case<'c>,
    pub sources: Vec<Source>,
    keywords: Vec<(&'c str, u16)>,
    contextual_keywords: Vec<(&'c str, u16)>,
    operator_first: TokenSet,
    pub names: Vec<(SyntaxKind, &'c str)>,
    pub entry_point: EntryPoint,
    pub doings: Vec<Doing>,
    /// The steps that are given.
    pub sent: Vec<OwnedStep>,
}

impl<'c> Given<'c> {
    pub fn new(alloc: Global, case: &'c Case<'c>) -> Result<Given<'c>, Trouble> {
        let mut given = Given {
            alloc,
            case,
            sources: Vec::new(alloc),
            keywords: Vec::new(alloc),
            contextual_keywords: Vec::new(alloc),
            operator_first: TokenSet::EMPTY,
            names: Vec::new(alloc),
            entry_point: EntryPoint::SourceFile,
            doings: Vec::new(alloc),
            sent: Vec::new(alloc),
        };
        for entry in &case.given {
            given.add(alloc, entry)?;
        }
        if given.sources.is_empty() {
            given.add_source(String::new(alloc))?;
        }
        Ok(given)
    }

    /// The keywords of the case.
    pub fn vocabulary(&self) -> Keywords<'_> {
        Keywords {
            keywords: self.keywords.as_slice(),
            contextual_keywords: self.contextual_keywords.as_slice(),
        }
    }

    /// What the grammar of the case tells.
    pub fn words(&self) -> Words<'_>
        ensures { HasNoEnd (words_of result) }
    {
        words_with(self.operator_first, self.names.as_slice())
    }

    /// Adds a line.
    fn add(&mut self, alloc: Global, entry: &'c Entry<'_>) -> Result<(), Trouble> {
        let value = entry.value.as_str();
        match entry.word {
            "text" | "bom" | "more" => self.add_text(alloc, entry),
            "keywords" if value == "all" => Ok(push_all(&mut self.keywords, KEYWORDS.keywords)?),
            "keywords" => push_words(&mut self.keywords, entry),
            "contextual" => push_words(&mut self.contextual_keywords, entry),
            "operators" => self.add_operators(alloc, entry),
            "names" => push_names(&mut self.names, entry),
            "plpgsql" => {
                self.entry_point = EntryPoint::Plpgsql;
                Ok(())
            }
            "sent" => self.add_step(alloc, entry),
            _ => self.add_doing(alloc, entry),
        }
    }

    /// Adds what is called.
    fn add_doing(&mut self, alloc: Global, entry: &Entry<'_>) -> Result<(), Trouble> {
        let doing = match (entry.word, kind(entry.value.as_str())) {
            ("calls", _) => Doing::Calls(String::from_str(alloc, entry.value.as_str())?),
            ("eat_with", Some(kind)) => Doing::EatWith(kind),
            ("tiny", _) => Doing::Tiny,
            ("empty", _) => Doing::Empty,
            _ => return Err(malformed(entry.line, "nothing like this is given")),
        };
        self.doings.push(doing).map_err(AllocError::from)?;
        Ok(())
    }

    fn add_step(&mut self, alloc: Global, entry: &Entry<'_>) -> Result<(), Trouble> {
        if self.doings.is_empty() {
            self.doings.push(Doing::Sent).map_err(AllocError::from)?;
        }
        push_step(alloc, &mut self.sent, entry)
    }

    /// Adds the kinds of signs.
    fn add_operators(&mut self, alloc: Global, entry: &Entry<'_>) -> Result<(), Trouble> {
        let signs = entry.value.as_str();
        let tokens = tokens_of(alloc, signs)?;
        let Ok(table) = table(alloc, signs, &tokens) else {
            return Err(malformed(entry.line, "these are no signs"));
        };
        for i in 0..table.len() {
            self.operator_first = self.operator_first.union(set_of(table.kind(i)));
        }
        Ok(())
    }

    fn add_source(&mut self, text: String) -> Result<(), AllocError> {
        self.sources.push(Source { text, tokens: None })?;
        Ok(())
    }

    /// Adds a text, or the text of a line to the last source, and the raw tokens behind it.
    fn add_text(&mut self, alloc: Global, entry: &Entry<'_>) -> Result<(), Trouble> {
        match entry.word {
            "text" => self.add_source(String::new(alloc))?,
            "bom" => self.add_source(String::from_str(alloc, "\u{feff}")?)?,
            _ => {}
        }
        let Some(source) = self.sources.last_mut() else {
            return Err(malformed(entry.line, "no text to go on"));
        };
        if entry.word == "more" {
            source.text.push('\n')?;
        }
        let (line, tokens) = entry.in_bars()?;
        source.text.push_str(line)?;
        if !tokens.is_empty() {
            source.tokens = Some(tokens_in(alloc, tokens, entry.line)?);
        }
        Ok(())
    }
}

/// Adds names of kinds, each behind its kind.
fn push_names<'c>(
    names: &mut Vec<(SyntaxKind, &'c str)>,
    entry: &'c Entry<'_>,
) -> Result<(), Trouble> {
    for pair in entry.value.split(", ") {
        match kind_and_name(pair) {
            Some(named) => {
                names.reserve(1)?;
                names.push_reserved(named);
            }
            None => return Err(malformed(entry.line, "a kind and its name are given")),
        }
    }
    Ok(())
}

fn kind_and_name(pair: &str) -> Option<(SyntaxKind, &str)> {
    let (word, name) = pair.split_once(' ')?;
    Some((kind(word)?, name))
}

/// Adds keywords, each before its kind.
fn push_words<'c>(words: &mut Vec<(&'c str, u16)>, entry: &'c Entry<'_>) -> Result<(), Trouble> {
    for pair in entry.value.split(", ") {
        match word_and_kind(pair) {
            Some(word) => words.push(word).map_err(AllocError::from)?,
            None => return Err(malformed(entry.line, "a word and its kind are given")),
        }
    }
    Ok(())
}

fn word_and_kind(pair: &str) -> Option<(&str, u16)> {
    let (word, kind) = pair.split_once(' ')?;
    Some((word, kind.parse::<u16>().ok()?))
}

fn push_all<'c>(words: &mut Vec<(&'c str, u16)>, all: &[(&'c str, u16)]) -> Result<(), AllocError> {
    for word in all {
        words.push(*word)?;
    }
    Ok(())
}

/// The raw tokens that JSON says.
fn tokens_in(alloc: Global, json: &str, line: usize) -> Result<Vec<Token>, Trouble> {
    let what = "these are no raw tokens";
    let value = match value::parse(alloc, json.as_bytes()) {
        Ok(value) => value,
        Err(error) => return Err(json_trouble(error, line, what)),
    };
    match token::tokens(alloc, &value) {
        Ok(tokens) => Ok(tokens),
        Err(error) => Err(json_trouble(error, line, what)),
    }
}
