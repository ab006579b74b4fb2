//! `\copy`.
ghost use Rattle.std.specs.Prelude.{◌≡◌, ◌<◌, ◌^◌, length, IsUtf8};
ghost use Rattle.sql_lexer.specs.ScriptWords as spec;
ghost use Rattle.sql_lexer.specs.declared.statements.Statement.TheVariants.{Start};

use crate::first_token::token_in_front;
use crate::psql::{is_copy, word_len};
use crate::script::words::plain_word;
use crate::statements::{Statement, Word};

/// Whether a command is `\copy` with FROM STDIN.
#[cold]
pub(crate) fn is_copy_command(text: &[u8]) -> bool
    requires utf8 { IsUtf8 text.now }
    requires short { length text.now < 2 ^ 32 }
    ensures { result ≡ spec.is_copy_command text.now }
{
    if !text.starts_with(b"\\") {
        return false;
    }
    let rest = &text[1..];
    is_copy(&rest[..word_len(rest)]) && has_copy(rest)
}

/// Whether a text has COPY that data follow. A semicolon may be left out at the end.
fn has_copy(text: &[u8]) -> bool
    requires utf8 { IsUtf8 text.now }
    requires short { length text.now < 2 ^ 32 }
    ensures { result ≡ spec.has_copy Start 0 text.now }
{
    let mut statement = Statement::Start;
    let mut at = 0;
    while at < text.len() {
        let found = token_in_front(&text[at..]);
        let end = at + found.len as usize;
        let word = plain_word(found.kind, &text[at..end]);
        if statement.data_follow(word) {
            return true;
        }
        statement = statement.after(word);
        at = end;
    }
    statement.data_follow(Word::Semicolon)
}
