//! Statements of a file.
ghost use Rattle.std.specs.Prelude.{◌≡◌, ◌≢◌, ◌<◌, ◌==◌, ◌&&◌, nat_lt, not};
ghost use Rattle.squawk_kinds.specs.Kinds.{EOF, TOMBSTONE};
ghost use Rattle.squawk_table.specs.ParserInput.{kinds_in};
ghost use Rattle.squawk_parser.specs.State.{ahead, kind_at};
ghost use Rattle.sql_grammar.specs.Files.{AddsStatement, Runs};
ghost use Rattle.sql_grammar.specs.Kinds.{PSQL_COMMAND};
ghost use Rattle.sql_grammar.specs.Statements.{first_statement};

use crate::Detail;
use crate::cut::{content_len, first_len};
use crate::statement_kinds::kind_of;
use rule_grammar::RuleGrammar;
use sql_words::SqlKind;
use squawk_parser::{Parser, Part, SyntaxKind};

/// A statement with what ends it, or a command of psql.
pub(crate) fn statement(p: &mut Parser<'_>, detail: Detail<'_>)
    requires { kind_at p.old 0 ≢ EOF }
    ensures adds { AddsStatement detail.entry (first_statement (kinds_in (ahead p.old 0))) p.old p.new }
    ensures eats { p.old.position < p.new.position }
    ensures runs { Runs detail.entry 3 0 p.old p.new }
{
    let kind = kind_of(p);
    let len = first_len(p);
    let content = StatementContent {
        kind,
        len: content_len(len, p),
        detail,
    };
    let node = p.start();
    let kind = p.with_limit(len, content);
    node.complete(p, kind);
}

/// All that a parser under a statement's limit sees.
#[derive(Clone, Copy)]
struct StatementContent<'r> {
    /// The kind of the statement by its first word.
    kind: SyntaxKind,
    /// How many tokens stand before the sign that ends it.
    len: usize,
    detail: Detail<'r>,
    ghost node: { kind ≢ TOMBSTONE },
}

impl Part for StatementContent<'_> {
    ghost use Rattle.sql_grammar.specs.Files.{AddsRest};

    /// The kind of the statement.
    type Answer = SyntaxKind;

    ghost does = { λ content before after kind. AddsRest content.detail content.kind content.len kind before after };

    fn run(self, p: &mut Parser<'_>) -> SyntaxKind {
        let StatementContent { kind, len, detail } = self;
        let kind = match detail {
            Detail::Nodes(rules) if is_parsed(kind, len) => p.with_limit(len, Ruled { rules }),
            _ => kind,
        };
        while p.current() != SyntaxKind::EOF {
            p.bump_any();
        }
        kind
    }
}

/// Whether rules are asked: not where nothing stands before the sign, nor for a command of psql.
fn is_parsed(kind: SyntaxKind, len: usize) -> bool
    ensures { result ≡ nat_lt 0 len && not (kind == PSQL_COMMAND) }
{
    len > 0 && kind != SqlKind::PSQL_COMMAND
}

/// The tokens of a statement before its sign, by rules.
#[derive(Clone, Copy)]
struct Ruled<'r> {
    rules: &'r RuleGrammar<'r>,
}

impl Part for Ruled<'_> {
    ghost use Rattle.sql_grammar.specs.Files.{IsRuled};

    /// The kind of the statement.
    type Answer = SyntaxKind;

    ghost does = { λ ruled before after kind. IsRuled ruled.rules kind before after };

    fn run(self, p: &mut Parser<'_>) -> SyntaxKind {
        self.rules.content(p)
    }
}
