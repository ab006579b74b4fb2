//! A grammar of statements of words with lists in parentheses.
//!
//! ```text
//! file := {';' | statement}
//! statement := word {item} ';'
//! item := name | literal | list | any other token but ';'
//! list := '(' {item [',']} ')'
//! ```
ghost use Rattle.std.specs.Prelude.{◌≡◌, ◌≢◌, ◌<◌, ◌==◌, ◌||◌, List};
ghost use Rattle.squawk_kinds.specs.Kinds.{EOF, L_PAREN, R_PAREN, SEMICOLON, TOMBSTONE};
ghost use Rattle.squawk_output.specs.Steps.{Step};
ghost use Rattle.squawk_parser.specs.Recorded.{Puts};
ghost use Rattle.squawk_parser.specs.State.{IsSound, kind_at};

use squawk_parser::{Grammar, Parser, SyntaxKind, TokenSet, WholeGrammar, Words};
use std::alloc::AllocError;

const SOURCE_FILE: SyntaxKind = SyntaxKind(700);

const STATEMENT: SyntaxKind = SyntaxKind(701);

const LIST: SyntaxKind = SyntaxKind(702);

const NAME: SyntaxKind = SyntaxKind(703);

const LITERAL: SyntaxKind = SyntaxKind(704);

/// Statements. Errors name kinds by these names.
#[derive(Clone, Copy)]
pub struct Statements<'n> {
    pub names: &'n [(SyntaxKind, &'n str)],
}

impl<'n> Grammar for Statements<'n> {
    ghost use Rattle.std.specs.Prelude.{map};
    ghost use Rattle.squawk_kinds.specs.TokenSets.{no_kinds};
    ghost use Rattle.squawk_parser.specs.Whole.{IsWholeFile};

    // One node over all tokens.
    ghost leaves = { λ _ _ input draft. IsWholeFile input draft };

    ghost runs = { λ _ _ _ _. Unit {0} };

    ghost meaning = { λ s. record { operator_first = no_kinds; names = map (λ pair. (pair.0, pair.1.now)) s.names.now } };

    #[tactic(auto, using(squawk_parser::specs::Words::no_words_has_no_end))]
    fn words(&self) -> Words<'_> {
        Words {
            operator_first: TokenSet::EMPTY,
            names: self.names,
        }
    }

    fn entry_point(&self, p: &mut Parser<'_>) -> Result<(), AllocError> {
        let file = p.start();
        while p.current() != SyntaxKind::EOF {
            statement(p);
        }
        file.complete(p, SOURCE_FILE);
        Ok(())
    }

    fn plpgsql_entry_point(&self, p: &mut Parser<'_>) -> Result<(), AllocError> {
        self.entry_point(p)
    }
}

impl<'n> WholeGrammar for Statements<'n> {
    ghost leaves_whole = { λ _ _ _ _ _ left. left };
}

/// A statement, or a semicolon alone.
fn statement(p: &mut Parser<'_>)
    requires { kind_at p.old 0 ≢ EOF }
    ensures puts { (steps : List Step) × Puts steps p.old p.new }
    ensures eats { p.old.position < p.new.position }
{
    let node = p.start();
    p.bump_any();
    rest(p);
    p.expect(SyntaxKind::SEMICOLON);
    node.complete(p, STATEMENT);
}

/// What stands behind the first word of a statement.
fn rest(p: &mut Parser<'_>)
    requires { IsSound p.old }
    ensures puts { (steps : List Step) × Puts steps p.old p.new }
{
    while !is_end(p.current()) {
        item(p);
    }
}

/// A name, a literal, a list, or a token by itself. A closing parenthesis is an error.
#[cycle(statements)]
fn item(p: &mut Parser<'_>)
    requires { kind_at p.old 0 ≢ EOF }
    ensures puts { (steps : List Step) × Puts steps p.old p.new }
    ensures eats { p.old.position < p.new.position }
{
    match p.current() {
        SyntaxKind::L_PAREN => list(p),
        SyntaxKind::IDENT => one(p, NAME),
        SyntaxKind::STRING | SyntaxKind::INT_NUMBER => one(p, LITERAL),
        SyntaxKind::R_PAREN => p.err_and_bump("expected an item"),
        _ => p.bump_any(),
    }
}

/// A token in a node of its own.
fn one(p: &mut Parser<'_>, kind: SyntaxKind)
    requires token { kind_at p.old 0 ≢ EOF }
    requires node { kind ≢ TOMBSTONE }
    ensures puts { (steps : List Step) × Puts steps p.old p.new }
    ensures eats { p.old.position < p.new.position }
{
    let node = p.start();
    p.bump_any();
    node.complete(p, kind);
}

/// A list, from its opening parenthesis on.
#[cycle(statements)]
fn list(p: &mut Parser<'_>)
    requires { kind_at p.old 0 ≡ L_PAREN }
    ensures puts { (steps : List Step) × Puts steps p.old p.new }
    ensures eats { p.old.position < p.new.position }
{
    let node = p.start();
    p.bump_any();
    items(p);
    p.expect(SyntaxKind::R_PAREN);
    node.complete(p, LIST);
}

/// The items of a list.
#[cycle(statements)]
fn items(p: &mut Parser<'_>)
    requires { IsSound p.old }
    ensures puts { (steps : List Step) × Puts steps p.old p.new }
{
    while !is_list_end(p.current()) {
        next_item(p);
    }
}

/// An item, and a comma behind it if there is one.
#[cycle(statements)]
fn next_item(p: &mut Parser<'_>)
    requires { kind_at p.old 0 ≢ EOF }
    ensures puts { (steps : List Step) × Puts steps p.old p.new }
    ensures eats { p.old.position < p.new.position }
{
    item(p);
    comma(p);
}

/// A comma, if it comes next.
fn comma(p: &mut Parser<'_>)
    requires { IsSound p.old }
    ensures puts { (steps : List Step) × Puts steps p.old p.new }
{
    p.eat(SyntaxKind::COMMA);
}

/// Whether a statement ends where a token of the kind stands.
fn is_end(kind: SyntaxKind) -> bool
    ensures { result ≡ (kind == EOF || kind == SEMICOLON) }
{
    kind == SyntaxKind::EOF || kind == SyntaxKind::SEMICOLON
}

/// Whether a list has no more items where a token of the kind stands.
fn is_list_end(kind: SyntaxKind) -> bool
    ensures { result ≡ (kind == EOF || (kind == SEMICOLON || kind == R_PAREN)) }
{
    kind == SyntaxKind::EOF || kind == SyntaxKind::SEMICOLON || kind == SyntaxKind::R_PAREN
}
