//! Rules as a grammar.
ghost use Rattle.std.specs.Prelude.{◌≡◌, ◌≢◌, IsSome};
ghost use Rattle.squawk_kinds.specs.Kinds.{EOF, TOMBSTONE};
ghost use Rattle.squawk_output.specs.Draft.{errors_of};
ghost use Rattle.squawk_parser.specs.SomeSteps.{AddsSome};
ghost use Rattle.squawk_parser.specs.State.{HasNotFailed, IsSound, kind_at};
ghost use Rattle.rule_grammar.specs.Derivations.{Counts, Derived, Derives, IfClean, text_of};
ghost use Rattle.rule_grammar.specs.Derivations.Span.{block};

use crate::open::Open;
use crate::root::root;
use crate::table::{Block, Table};
use crate::told::Told;
use squawk_parser::{Grammar, Parser, SyntaxKind, WholeGrammar, Words};
use std::alloc::AllocError;

/// How many rules may be called in one another.
pub const DEPTH: u32 = 500;

/// A table of rules as a grammar: a file is the rule in some of its rows.
#[derive(Clone, Copy)]
pub struct RuleGrammar<'r> {
    pub table: Table<'r>,
    /// The first row of the rule of a file.
    pub start: u16,
    /// The row after its last one.
    pub end: u16,
    /// The kind of the root, unless the rule names another. Where the rule is one node, also by calls and choices, that
    /// is the root.
    pub root: SyntaxKind,
    /// How many rules may be called in one another. A call takes stack, and so does each part inside of another.
    pub depth: u32,
    /// What errors call kinds.
    pub names: &'r [(SyntaxKind, &'r str)],
}

impl<'r> Grammar for RuleGrammar<'r> {
    ghost use Rattle.std.specs.Prelude.{map};
    ghost use Rattle.rule_grammar.specs.Derivations.{IsFile, operators_of};

    // One node over all tokens, whatever the numbers of the table are. If there is no error in it, the rule of a file
    // derives the tokens.
    ghost leaves = { λ rules _ input draft. IsFile rules.table.rows.now rules.table.sets.now rules.table.hidden.tokens.now
        (record { operator_first = operators_of rules.table.operators; names = map (λ pair. (pair.0, pair.1.now)) rules.names.now }) rules.start rules.end input draft };

    ghost runs = { λ _ _ _ _. Unit {0} };

    ghost meaning = { λ rules. record { operator_first = operators_of rules.table.operators; names = map (λ pair. (pair.0, pair.1.now)) rules.names.now } };

    #[tactic(auto, using(crate::proofs::Operators::operators_have_no_end))]
    fn words(&self) -> Words<'_> {
        Words {
            operator_first: self.table.operator_kinds(),
            names: self.names,
        }
    }

    fn entry_point(&self, p: &mut Parser<'_>) -> Result<(), AllocError> {
        let file = p.start();
        let kind = self.content(p);
        file.complete(p, kind);
        Ok(())
    }

    fn plpgsql_entry_point(&self, p: &mut Parser<'_>) -> Result<(), AllocError> {
        self.entry_point(p)
    }
}

impl<'r> WholeGrammar for RuleGrammar<'r> {
    ghost leaves_whole = { λ _ _ _ _ _ left. left.whole };
}

impl RuleGrammar<'_> {
    /// The rule of a file from the position on, and the tokens after it up to the limit, without the node around them.
    /// Returns the kind of that node.
    ///
    /// A grammar in code parses a part of a text so, under [`Parser::with_limit`].
    pub fn content(&self, p: &mut Parser<'_>) -> SyntaxKind
        requires { IsSound p.old }
        ensures kind { result ≢ TOMBSTONE }
        ensures adds { AddsSome p.old p.new }
        ensures all { kind_at p.new 0 ≡ EOF }
        // If no error is recorded, the rule derives the tokens.
        ensures derives { HasNotFailed p.new → errors_of p.new.draft.items ≡ errors_of p.old.draft.items
            → Derives (text_of self.now.table p.old) (block self.now.start self.now.end) p.old.position p.new.position }
    {
        let rows = Block {
            start: self.start,
            end: self.end,
        };
        let mut told = Told::new(self.root);
        root(&Open::file(&self.table, self.depth), rows, &mut told, p);
        left_over(&self.table, &mut told, p);
        told.leave(SyntaxKind::ERROR)
    }
}

/// The tokens after the rule of a file: an error with all of them.
fn left_over(table: &Table<'_>, told: &mut Told, p: &mut Parser<'_>)
    requires { IsSound p.old }
    ensures adds { AddsSome p.old p.new }
    ensures all { kind_at p.new 0 ≡ EOF }
    ensures told { IfClean told.old.place told.new.place (p.new.position ≡ p.old.position) }
    ensures counts { Counts told.old.place told.new.place p.old p.new }
{
    if p.current() != SyntaxKind::EOF {
        error_to_end(table, told, p);
    }
}

fn error_to_end(table: &Table<'_>, told: &mut Told, p: &mut Parser<'_>)
    ensures adds { AddsSome p.old p.new }
    ensures all { kind_at p.new 0 ≡ EOF }
    ensures tells { IsSome told.new.place }
    ensures counts { Counts told.old.place told.new.place p.old p.new }
{
    let node = p.start();
    let message = table.unexpected(p);
    told.error(message, p);
    bump_all(p);
    node.complete(p, SyntaxKind::ERROR);
}

fn bump_all(p: &mut Parser<'_>)
    requires { IsSound p.old }
    ensures adds { AddsSome p.old p.new }
    ensures all { kind_at p.new 0 ≡ EOF }
{
    while p.current() != SyntaxKind::EOF {
        p.bump_any();
    }
}
