//! Where statements end, and which of them data follow: a machine that takes a word after another.
ghost use Rattle.std.specs.Prelude.{◌≡◌, ◌+◌, ◌<◌, ◌≤◌, ◌^◌};
ghost use Rattle.sql_lexer.specs.Statements as spec;

/// What a token is to a statement.
#[derive(Clone, Copy)]
pub enum Word {
    /// White space or a comment.
    Trivia,
    Semicolon,
    /// A command of psql that ends a query.
    QueryEnd,
    /// `\copy` that data follow.
    CopyCommand,
    /// Any other command of psql.
    Command,
    /// A parenthesis or a bracket.
    Open,
    /// One that closes.
    Close,
    Dot,
    As,
    Copy,
    From,
    /// STDIN or STDOUT, which are the same after COPY FROM.
    Stdin,
    Create,
    Or,
    Replace,
    Function,
    Procedure,
    Rule,
    Begin,
    Atomic,
    Case,
    End,
    Other,
}

/// How much of `FROM STDIN`, outside of brackets, stands in a COPY statement so far.
#[derive(Clone, Copy)]
pub enum Phrase {
    Nothing,
    /// The last word is FROM.
    Begun,
    Whole,
}

/// What the last word of a routine makes of the next one.
#[derive(Clone, Copy)]
pub enum Before {
    /// Nothing.
    Any,
    /// A name: the last word is `.` or AS.
    Name,
    /// If it is ATOMIC, a block: the last word is BEGIN.
    Block,
}

/// What a statement is by its words so far.
#[derive(Clone, Copy)]
pub enum Statement {
    /// It has none.
    Start,
    /// CREATE
    Created,
    /// CREATE OR
    CreatedOr,
    /// CREATE OR REPLACE
    Replaced,
    /// Nothing holds semicolons in it.
    Plain,
    /// CREATE RULE, and how many brackets are unclosed.
    OfRule { unclosed: usize },
    /// CREATE FUNCTION or CREATE PROCEDURE outside of a block, and how many brackets are unclosed.
    OfRoutine { unclosed: usize, before: Before },
    /// A block of it: how many of the block and the CASE expressions in it are unclosed.
    OfBlock { unclosed: usize, before: Before },
    /// COPY, and how many brackets are unclosed.
    OfCopy { unclosed: usize, phrase: Phrase },
}

impl Statement {
    /// The statement after a word, or the next one. Commands of psql are no words of a statement.
    #[inline(always)]
    pub fn after(self, word: Word) -> Statement
        requires { spec.unclosed_in self + 1 < 2 ^ 64 }
        ensures { result ≡ spec.after self word }
    {
        match word {
            Word::Trivia | Word::Command | Word::CopyCommand => self,
            _ if self.ends_with(word) => Statement::Start,
            _ => goes_on(self, word),
        }
    }

    /// Whether the word ends it. A command of psql is a statement by itself where none is begun.
    #[inline(always)]
    pub fn ends_with(self, word: Word) -> bool
        ensures { result ≡ spec.ends_with self word }
    {
        match (word, self) {
            (Word::QueryEnd, _) => true,
            (Word::Command | Word::CopyCommand, Statement::Start) => true,
            (Word::Semicolon, _) => held_by(self) == 0,
            _ => false,
        }
    }

    /// Whether data follow it at the word, which ends COPY or is `\copy`.
    #[inline(always)]
    pub fn data_follow(self, word: Word) -> bool
        ensures { result ≡ spec.data_follow self word }
    {
        match (word, self) {
            (Word::CopyCommand, _) => true,
            (
                Word::Semicolon,
                Statement::OfCopy {
                    phrase: Phrase::Whole,
                    ..
                },
            ) => true,
            _ => false,
        }
    }
}

/// How many of what holds semicolons are unclosed.
#[inline(always)]
fn held_by(statement: Statement) -> usize
    ensures { result ≡ spec.held_by statement }
{
    match statement {
        Statement::OfRule { unclosed } | Statement::OfBlock { unclosed, .. } => unclosed,
        _ => 0,
    }
}

/// A statement with a word more, which doesn't end it.
#[inline(never)]
fn goes_on(statement: Statement, word: Word) -> Statement
    requires { spec.unclosed_in statement + 1 < 2 ^ 64 }
    ensures { result ≡ spec.goes_on statement word }
{
    match statement {
        Statement::Start => begun_by(word),
        Statement::Created => created_by(word),
        Statement::CreatedOr => replaced_by(word),
        Statement::Replaced => creating(word),
        Statement::Plain => Statement::Plain,
        Statement::OfRule { unclosed } => Statement::OfRule {
            unclosed: brackets_after(unclosed, word),
        },
        Statement::OfRoutine { unclosed, before } => routine_after(unclosed, before, word),
        Statement::OfBlock { unclosed, before } => block_after(unclosed, read_as(before, word)),
        Statement::OfCopy { unclosed, phrase } => Statement::OfCopy {
            unclosed: brackets_after(unclosed, word),
            phrase: phrase_after(unclosed, phrase, word),
        },
    }
}

/// A statement by its first word.
fn begun_by(word: Word) -> Statement
    ensures { result ≡ spec.begun_by word }
{
    match word {
        Word::Create => Statement::Created,
        Word::Copy => Statement::OfCopy {
            unclosed: 0,
            phrase: Phrase::Nothing,
        },
        _ => Statement::Plain,
    }
}

/// A statement by the word after CREATE.
fn created_by(word: Word) -> Statement
    ensures { result ≡ spec.created_by word }
{
    match word {
        Word::Or => Statement::CreatedOr,
        _ => creating(word),
    }
}

/// A statement by the word after CREATE OR.
fn replaced_by(word: Word) -> Statement
    ensures { result ≡ spec.replaced_by word }
{
    match word {
        Word::Replace => Statement::Replaced,
        _ => Statement::Plain,
    }
}

/// A statement that creates what the word says.
fn creating(word: Word) -> Statement
    ensures { result ≡ spec.creating word }
{
    match word {
        Word::Function | Word::Procedure => Statement::OfRoutine {
            unclosed: 0,
            before: Before::Any,
        },
        Word::Rule => Statement::OfRule { unclosed: 0 },
        _ => Statement::Plain,
    }
}

fn brackets_after(unclosed: usize, word: Word) -> usize
    requires { unclosed + 1 < 2 ^ 64 }
    ensures { result ≡ spec.brackets_after unclosed word }
{
    match word {
        Word::Open => unclosed + 1,
        Word::Close => unclosed.saturating_sub(1),
        _ => unclosed,
    }
}

/// What a word of a routine is: after `.` and AS, those that open or close a block are names.
fn read_as(before: Before, word: Word) -> Word
    ensures { result ≡ spec.read_as before word }
{
    match (before, word) {
        (Before::Name, Word::Case | Word::End | Word::Begin | Word::Atomic | Word::As) => {
            Word::Other
        }
        _ => word,
    }
}

/// What the word makes of the next one.
fn before_next(word: Word) -> Before
    ensures { result ≡ spec.before_next word }
{
    match word {
        Word::Dot | Word::As => Before::Name,
        Word::Begin => Before::Block,
        _ => Before::Any,
    }
}

/// A routine outside of a block. BEGIN ATOMIC outside of brackets begins one.
fn routine_after(unclosed: usize, before: Before, word: Word) -> Statement
    requires { unclosed + 1 < 2 ^ 64 }
    ensures { result ≡ spec.routine_after unclosed before word }
{
    match (before, word) {
        (Before::Block, Word::Atomic) if unclosed == 0 => Statement::OfBlock {
            unclosed: 1,
            before: Before::Any,
        },
        _ => Statement::OfRoutine {
            unclosed: brackets_after(unclosed, word),
            before: before_next(read_as(before, word)),
        },
    }
}

/// A block. END closes the last that is unclosed, and a semicolon each CASE.
fn block_after(unclosed: usize, word: Word) -> Statement
    requires { unclosed + 1 < 2 ^ 64 }
    ensures { result ≡ spec.block_after unclosed word }
{
    match word {
        Word::End if unclosed <= 1 => Statement::OfRoutine {
            unclosed: 0,
            before: Before::Any,
        },
        _ => Statement::OfBlock {
            unclosed: blocks_after(unclosed, word),
            before: before_next(word),
        },
    }
}

fn blocks_after(unclosed: usize, word: Word) -> usize
    requires { unclosed + 1 < 2 ^ 64 }
    ensures { result ≡ spec.blocks_after unclosed word }
{
    match word {
        Word::Case => unclosed + 1,
        Word::End => unclosed.saturating_sub(1),
        Word::Semicolon => 1,
        _ => unclosed,
    }
}

fn phrase_after(unclosed: usize, phrase: Phrase, word: Word) -> Phrase
    ensures { result ≡ spec.phrase_after unclosed phrase word }
{
    match (phrase, word) {
        (Phrase::Whole, _) | (Phrase::Begun, Word::Stdin) => Phrase::Whole,
        (_, Word::From) if unclosed == 0 => Phrase::Begun,
        _ => Phrase::Nothing,
    }
}
