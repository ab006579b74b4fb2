//! What stands at a place of a script.
ghost use Rattle.std.specs.Prelude.{◌≡◌, ◌+◌, ◌<◌, ◌≤◌, ◌^◌, ◌&&◌, length, IsUtf8, OnOk};
ghost use Rattle.sql_lexer.specs.Pushes.{Pushes};
ghost use Rattle.sql_lexer.specs.Scripts as spec;
ghost use Rattle.sql_lexer.specs.ScriptPlaces.{HasLine, HasRoom, IsRest, may_end, waiting_at};
ghost use Rattle.sql_lexer.specs.ScriptEnds.{statement_at};
ghost use Rattle.sql_lexer.specs.Statements.{is_start, unclosed_in};
ghost use Rattle.sql_lexer.specs.ScriptWords.{word_of};
ghost use Rattle.sql_lexer.specs.Tokens.{first_token};
ghost use Rattle.sql_lexer.specs.declared.script.places.Place.TheVariants.{Front};

use crate::first_token::{push, push_first};
use crate::script::words::word_of;
use crate::signs::token;
use crate::statements::{Statement, Word};
use squawk_tokens::{Token, TokenKind};
use std::alloc::AllocError;

/// What stands at a place of a script.
#[derive(Clone, Copy)]
pub(crate) enum Place {
    /// The text begins.
    Front,
    /// SQL, in a statement.
    Sql(Statement),
    /// The line of a COPY that data follow, and behind it these data.
    Data {
        /// How many bytes of the line are left.
        left: usize,
        /// The statement there.
        statement: Statement,
        /// How many further COPY statements of the line wait for their data.
        waiting: usize,
    },
}

impl Place {
    /// Whether no statement is begun.
    #[inline(always)]
    fn is_start(&self) -> bool
        ensures { result ≡ is_start (statement_at self.now) }
    {
        match *self {
            Place::Front => true,
            Place::Sql(statement) | Place::Data { statement, .. } => {
                matches!(statement, Statement::Start)
            }
        }
    }
}

/// Whether a statement ends with a token of the kind, where this place stands after it.
#[inline(always)]
pub(crate) fn ends_statement(kind: TokenKind, after: &Place) -> bool
    ensures { result ≡ (may_end kind && is_start (statement_at after.now)) }
{
    may_end(kind) && after.is_start()
}

/// Adds the token at a place, and gives it. The place goes on behind it.
///
/// Most tokens stand in a plain statement, where the place stays.
#[inline(always)]
pub(crate) fn push_next(
    tokens: &mut Vec<Token>,
    place: &mut Place,
    text: &[u8],
) -> Result<Token, AllocError>
    requires rest { IsRest text.now }
    requires room { HasRoom place.old text.now }
    ensures token { Pushes tokens.old.items (spec.token_at place.old text.now) tokens.new.items result }
    ensures place { OnOk result (place.new ≡ spec.place_behind place.old text.now) }
{
    match *place {
        Place::Sql(Statement::Plain) => push_plain(tokens, place, text),
        _ => push_elsewhere(tokens, place, text),
    }
}

/// The same in a plain statement, where few kinds count: only for these is it asked what the token's text is.
#[inline(always)]
fn push_plain(tokens: &mut Vec<Token>, place: &mut Place, text: &[u8]) -> Result<Token, AllocError>
    requires rest { IsRest text.now }
    requires plain { place.old ≡ Place.Sql Statement.Plain }
    ensures token { Pushes tokens.old.items (first_token text.now) tokens.new.items result }
    ensures place { OnOk result (place.new ≡ spec.place_in Statement.Plain text.now) }
{
    let found = push_first(tokens, text)?;
    if may_end(found.kind) {
        let (front, rest) = text.split_at(found.len as usize);
        *place = place_with(Statement::Plain, found.kind, front, rest);
    }
    Ok(found)
}

/// The same anywhere.
#[inline(never)]
fn push_elsewhere(
    tokens: &mut Vec<Token>,
    place: &mut Place,
    text: &[u8],
) -> Result<Token, AllocError>
    requires rest { IsRest text.now }
    requires room { HasRoom place.old text.now }
    ensures token { Pushes tokens.old.items (spec.token_at place.old text.now) tokens.new.items result }
    ensures place { OnOk result (place.new ≡ spec.place_behind place.old text.now) }
{
    match *place {
        Place::Sql(statement) => push_sql(tokens, place, statement, text),
        Place::Data {
            left,
            statement,
            waiting,
        } => push_before(tokens, place, left, statement, waiting, text),
        Place::Front => push_front(tokens, place, text),
    }
}

/// The same at the front of the text.
#[cold]
fn push_front(tokens: &mut Vec<Token>, place: &mut Place, text: &[u8]) -> Result<Token, AllocError>
    requires rest { IsRest text.now }
    ensures token { Pushes tokens.old.items (spec.token_at Front text.now) tokens.new.items result }
    ensures place { OnOk result (place.new ≡ spec.place_behind Front text.now) }
{
    if text.starts_with(b"\xEF\xBB\xBF") {
        let mark = push(tokens, token(TokenKind::Whitespace, 3))?;
        *place = Place::Sql(Statement::Start);
        return Ok(mark);
    }
    push_sql(tokens, place, Statement::Start, text)
}

/// The same in a statement.
fn push_sql(
    tokens: &mut Vec<Token>,
    place: &mut Place,
    statement: Statement,
    text: &[u8],
) -> Result<Token, AllocError>
    requires rest { IsRest text.now }
    requires room { unclosed_in statement + 1 < 2 ^ 64 }
    ensures token { Pushes tokens.old.items (first_token text.now) tokens.new.items result }
    ensures place { OnOk result (place.new ≡ spec.place_in statement text.now) }
{
    let found = push_first(tokens, text)?;
    let (front, rest) = text.split_at(found.len as usize);
    *place = place_with(statement, found.kind, front, rest);
    Ok(found)
}

/// Whether a token with this kind may end a statement.
#[inline(always)]
fn may_end(kind: TokenKind) -> bool
    ensures { result ≡ may_end kind }
{
    matches!(kind, TokenKind::Semi | TokenKind::PsqlCommand { .. })
}

/// The place behind a token with this kind and text in a statement.
#[inline(always)]
fn place_with(statement: Statement, kind: TokenKind, front: &[u8], rest: &[u8]) -> Place
    requires utf8 { IsUtf8 front.now }
    requires short { length front.now < 2 ^ 32 }
    requires room { unclosed_in statement + 1 < 2 ^ 64 }
    ensures { result ≡ spec.place_with statement (word_of kind front.now) rest.now }
{
    let word = word_of(kind, front);
    if statement.data_follow(word) {
        Place::Data {
            left: line_len(rest),
            statement: statement.after(word),
            waiting: 0,
        }
    } else {
        Place::Sql(statement.after(word))
    }
}

/// The same behind COPY, of whose line so many bytes are left.
#[inline(never)]
fn push_before(
    tokens: &mut Vec<Token>,
    place: &mut Place,
    left: usize,
    statement: Statement,
    waiting: usize,
    text: &[u8],
) -> Result<Token, AllocError>
    requires rest { IsRest text.now }
    requires room { HasLine left statement waiting text.now }
    ensures token { Pushes tokens.old.items (spec.token_before left text.now) tokens.new.items result }
    ensures place { OnOk result (place.new ≡ spec.place_before left statement waiting text.now) }
{
    if left == 0 {
        return push_data(tokens, place, statement, waiting, text);
    }
    let found = push_first(tokens, &text[..left])?;
    let word = word_of(found.kind, &text[..found.len as usize]);
    *place = Place::Data {
        left: left - found.len as usize,
        statement: statement.after(word),
        waiting: waiting_behind(waiting, statement, word),
    };
    Ok(found)
}

/// How many COPY statements wait for their data behind a word of the line.
fn waiting_behind(waiting: usize, statement: Statement, word: Word) -> usize
    requires { waiting + 1 < 2 ^ 64 }
    ensures { result ≡ spec.waiting_behind waiting statement word }
{
    if statement.data_follow(word) {
        waiting + 1
    } else {
        waiting
    }
}

/// The same of data.
fn push_data(
    tokens: &mut Vec<Token>,
    place: &mut Place,
    statement: Statement,
    waiting: usize,
    text: &[u8],
) -> Result<Token, AllocError>
    requires rest { IsRest text.now }
    requires room { unclosed_in statement + 1 < 2 ^ 64 }
    ensures token { Pushes tokens.old.items (spec.data_token text.now) tokens.new.items result }
    ensures place { OnOk result (place.new ≡ spec.place_in_data statement waiting text.now) }
{
    let len = line_len(text);
    if len == 0 {
        let end = push(tokens, token(TokenKind::Whitespace, line_end_len(text)))?;
        *place = data_of(statement, waiting);
        return Ok(end);
    }
    let ends_query = &text[..len] == b"\\.".as_slice();
    let line = push(tokens, token(TokenKind::PsqlCommand { ends_query }, len))?;
    *place = if ends_query {
        place_behind_data(waiting)
    } else {
        data_of(statement, waiting)
    };
    Ok(line)
}

/// Data, for which so many other COPY statements wait.
fn data_of(statement: Statement, waiting: usize) -> Place
    ensures { result ≡ spec.data_of statement waiting }
{
    Place::Data {
        left: 0,
        statement,
        waiting,
    }
}

/// The place behind the data of a COPY: those of the next one that waits, or SQL.
pub(crate) fn place_behind_data(waiting: usize) -> Place
    ensures is { result ≡ spec.place_behind_data waiting }
    ensures waits { waiting_at result ≤ waiting }
{
    if waiting == 0 {
        Place::Sql(Statement::Start)
    } else {
        data_of(Statement::Start, waiting - 1)
    }
}

/// How many bytes the line in front has.
fn line_len(text: &[u8]) -> usize
    ensures len { result ≡ spec.line_len text.now }
    ensures within { result ≤ length text.now }
{
    let end = newline_at(text);
    if end > 0 && text[end - 1] == b'\r' {
        end - 1
    } else {
        end
    }
}

/// How many bytes stand before the first newline.
fn newline_at(text: &[u8]) -> usize
    ensures at { result ≡ spec.newline_at text.now }
    ensures within { result ≤ length text.now }
{
    text.iter().take_while(|b| **b != b'\n').count()
}

/// How many bytes the line end in front has.
fn line_end_len(text: &[u8]) -> usize
    ensures { result ≡ spec.line_end_len text.now }
{
    if text.starts_with(b"\r\n") { 2 } else { 1 }
}
