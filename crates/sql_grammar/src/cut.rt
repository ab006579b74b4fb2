//! Where a statement ends.
ghost use Rattle.std.specs.Prelude.{◌≡◌, ◌+◌, drop};
ghost use Rattle.sql_lexer.specs.Statements.{ends_with};
ghost use Rattle.squawk_table.specs.ParserInput.{kinds_in};
ghost use Rattle.squawk_parser.specs.State.{ahead};
ghost use Rattle.sql_grammar.specs.Statements.{content_len, len_from, len_of};
ghost use Rattle.sql_grammar.specs.Words.{word_of};

use sql_lexer::statements::{Statement, Word};
use sql_words::SqlKind;
use squawk_parser::{Parser, SyntaxKind};

/// How many tokens the statement at the position has.
pub(crate) fn first_len(p: &Parser<'_>) -> usize
    ensures { result ≡ len_of (kinds_in (ahead p.now 0)) }
{
    // The position shows that the tokens can be counted.
    let _ = p.position();
    let mut statement = Statement::Start;
    let mut len = 0usize;
    while p.nth(len) != SyntaxKind::EOF {
        let kind = p.nth(len);
        let word = word_of(kind);
        len += 1;
        if statement.ends_with(word) {
            return len;
        }
        statement = statement.after(word);
        if let Statement::Plain = statement {
            return plain_end(p, len);
        }
    }
    len
}

/// How many tokens of a statement of so many stand before the sign that ends it.
pub(crate) fn content_len(len: usize, p: &Parser<'_>) -> usize
    ensures { result ≡ content_len (kinds_in (ahead p.now 0)) len }
{
    if len > 0 && ends_plain(p.nth(len - 1)) {
        len - 1
    } else {
        len
    }
}

/// How many tokens a plain statement has, of which `begun` stand before. Most statements are plain.
fn plain_end(p: &Parser<'_>, begun: usize) -> usize
    ensures { result ≡ begun + len_from Statement.Plain (drop begun (kinds_in (ahead p.now 0))) }
{
    let _ = p.position();
    let mut len = begun;
    while p.nth(len) != SyntaxKind::EOF {
        let kind = p.nth(len);
        len += 1;
        if ends_plain(kind) {
            return len;
        }
    }
    len
}

/// Whether a token of the kind ends a plain statement.
#[inline(always)]
#[tactic(auto, using(crate::proofs::Lengths::plain_ends))]
fn ends_plain(kind: SyntaxKind) -> bool
    ensures { result ≡ ends_with Statement.Plain (word_of kind) }
{
    kind == SyntaxKind::SEMICOLON || kind == SyntaxKind::PSQL_TERMINATOR_TEXT
}

/// What a token of the kind is to a statement.
fn word_of(kind: SyntaxKind) -> Word
    ensures { result ≡ word_of kind }
{
    match kind {
        SyntaxKind::WHITESPACE | SyntaxKind::COMMENT => Word::Trivia,
        SyntaxKind::SEMICOLON => Word::Semicolon,
        SyntaxKind::PSQL_TERMINATOR_TEXT => Word::QueryEnd,
        SyntaxKind::PSQL_COMMAND_TEXT => Word::Command,
        SyntaxKind::L_PAREN | SyntaxKind::L_BRACK => Word::Open,
        SyntaxKind::R_PAREN | SyntaxKind::R_BRACK => Word::Close,
        SyntaxKind::DOT => Word::Dot,
        SqlKind::AS_KW => Word::As,
        SqlKind::COPY_KW => Word::Copy,
        SqlKind::FROM_KW => Word::From,
        SqlKind::STDIN_KW | SqlKind::STDOUT_KW => Word::Stdin,
        SqlKind::CREATE_KW => Word::Create,
        SqlKind::OR_KW => Word::Or,
        SqlKind::REPLACE_KW => Word::Replace,
        SqlKind::FUNCTION_KW => Word::Function,
        SqlKind::PROCEDURE_KW => Word::Procedure,
        SqlKind::RULE_KW => Word::Rule,
        SqlKind::BEGIN_KW => Word::Begin,
        SqlKind::ATOMIC_KW => Word::Atomic,
        SqlKind::CASE_KW => Word::Case,
        SqlKind::END_KW => Word::End,
        _ => Word::Other,
    }
}
