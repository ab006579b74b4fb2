//! Which kind of statement begins with which word.
ghost use Rattle.std.specs.Prelude.{◌≡◌, ◌≢◌};
ghost use Rattle.squawk_kinds.specs.Kinds.{TOMBSTONE};
ghost use Rattle.squawk_table.specs.ParserInput.{kinds_in};
ghost use Rattle.squawk_parser.specs.State.{ahead};
ghost use Rattle.sql_grammar.specs.StatementKinds.{statement_kinds};
ghost use Rattle.sql_grammar.specs.Statements.{first_word, is_psql, kind_for, kind_of};

use sql_words::SqlKind;
use squawk_parser::{Parser, SyntaxKind};

/// The numbers of these kinds, in pairs.
macro_rules! numbers {
    ($($word:ident $kind:ident),*) => { [$((SqlKind::$word.0, SqlKind::$kind.0)),*] };
}

#[rattlefmt::skip]
static STATEMENTS: [(u16, u16); 53] = numbers![
    SELECT_KW SELECT, WITH_KW SELECT, VALUES_KW SELECT, TABLE_KW SELECT, INSERT_KW INSERT,
    UPDATE_KW UPDATE, DELETE_KW DELETE, MERGE_KW MERGE, CREATE_KW CREATE, ALTER_KW ALTER, DROP_KW DROP,
    TRUNCATE_KW TRUNCATE, COMMENT_KW COMMENT_ON, SECURITY_KW SECURITY_LABEL,
    IMPORT_KW IMPORT_FOREIGN_SCHEMA, REASSIGN_KW REASSIGN, REFRESH_KW REFRESH, REINDEX_KW REINDEX,
    CLUSTER_KW CLUSTER, VACUUM_KW VACUUM, ANALYZE_KW ANALYZE, ANALYSE_KW ANALYZE, GRANT_KW GRANT,
    REVOKE_KW REVOKE, BEGIN_KW BEGIN, START_KW BEGIN, COMMIT_KW COMMIT, END_KW COMMIT,
    ROLLBACK_KW ROLLBACK, ABORT_KW ROLLBACK, SAVEPOINT_KW SAVEPOINT, RELEASE_KW RELEASE_SAVEPOINT,
    LOCK_KW LOCK, SET_KW SET, RESET_KW RESET, SHOW_KW SHOW, DISCARD_KW DISCARD, LOAD_KW LOAD,
    CHECKPOINT_KW CHECKPOINT, LISTEN_KW LISTEN, NOTIFY_KW NOTIFY, UNLISTEN_KW UNLISTEN, COPY_KW COPY,
    CALL_KW CALL, DO_KW DO, EXPLAIN_KW EXPLAIN, PREPARE_KW PREPARE, EXECUTE_KW EXECUTE,
    DEALLOCATE_KW DEALLOCATE, DECLARE_KW DECLARE, FETCH_KW FETCH, MOVE_KW MOVE, CLOSE_KW CLOSE
];

/// The first words of statements, each with the kind of the statement.
fn statements() -> &'static [(u16, u16)]
    ensures { result.now ≡ statement_kinds }
{
    &STATEMENTS
}

/// The kind of the statement at the position: a command of psql is one by itself, and the others are told
/// by their first word, which may stand in parentheses.
pub(crate) fn kind_of(p: &Parser<'_>) -> SyntaxKind
    ensures is { result ≡ kind_of (kinds_in (ahead p.now 0)) }
    ensures kind { result ≢ TOMBSTONE }
{
    if is_psql(p.current()) {
        SqlKind::PSQL_COMMAND
    } else {
        kind_for(first_word(p), statements())
    }
}

fn is_psql(kind: SyntaxKind) -> bool
    ensures { result ≡ is_psql kind }
{
    kind == SyntaxKind::PSQL_COMMAND_TEXT || kind == SyntaxKind::PSQL_TERMINATOR_TEXT
}

/// The first kind behind opening parentheses.
fn first_word(p: &Parser<'_>) -> SyntaxKind
    ensures { result ≡ first_word (kinds_in (ahead p.now 0)) }
{
    // The position shows that so many can be counted.
    let _ = p.position();
    let mut parens = 0usize;
    while p.nth(parens) == SyntaxKind::L_PAREN {
        parens += 1;
    }
    p.nth(parens)
}

/// The kind for a word in a table.
fn kind_for(word: SyntaxKind, table: &[(u16, u16)]) -> SyntaxKind
    ensures { result ≡ kind_for word table.now }
{
    for (first, kind) in table {
        if *first == word.0 {
            return SyntaxKind(*kind);
        }
    }
    SqlKind::STATEMENT
}
