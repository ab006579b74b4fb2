//! The node of a file.
ghost use Rattle.std.specs.Prelude.{◌≡◌, IfSome};
ghost use Rattle.rule_grammar.specs.Derivations.{AreInside, Counts, Derived, text_of};
ghost use Rattle.rule_grammar.specs.Derivations.Span.{block};
ghost use Rattle.squawk_parser.specs.SomeSteps.{AddsSome};
ghost use Rattle.squawk_parser.specs.State.{IsSound};

use crate::open::Open;
use crate::part::Part;
use crate::rules::DEPTH;
use crate::run::block;
use crate::table::{Block, Table};
use crate::told::Told;
use squawk_parser::Parser;

/// The rule of a file. Where it is one node at the position, also by calls and choices, that is the root.
pub(crate) fn root(rule: &Open<'_>, rows: Block, told: &mut Told, p: &mut Parser<'_>)
    requires { IsSound p.old }
    ensures adds { AddsSome p.old p.new }
    ensures derives { Derived (text_of rule.now.table.now p.old) (block rows.start rows.end) told.old.place told.new.place p.old.position p.new.position }
    ensures counts { Counts told.old.place told.new.place p.old p.new }
{
    let innermost = rule.table.innermost(rows, told, p);
    let inside = rule.table.in_node(innermost, told);
    block(rule, inside, told, p);
}

impl Table<'_> {
    /// The rows that some rows are at the position, through calls and choices.
    fn innermost(&self, rows: Block, told: &mut Told, p: &Parser<'_>) -> Block
        ensures inside { AreInside self.now.rows.now result.start result.end rows.start rows.end }
        ensures told { told.new.place ≡ told.old.place }
    {
        let mut at = rows;
        for _ in 0..DEPTH {
            match self.further_in(at, told, p) {
                Some(inner) => at = inner,
                None => return at,
            }
        }
        at
    }

    /// The rows of the rule that some rows call, or those of the arm that stands at the position, if that is all they
    /// are.
    fn further_in(&self, rows: Block, told: &mut Told, p: &Parser<'_>) -> Option<Block>
        ensures inside { IfSome result (λ inner. AreInside self.now.rows.now inner.start inner.end rows.start rows.end) }
        ensures told { told.new.place ≡ told.old.place }
    {
        let row = self.only(rows)?;
        match self.part(row) {
            Part::Call { start, end } => Some(Block { start, end }),
            Part::Choice { end } => {
                let start = row + 1;
                self.arm(Block { start, end }, told, p)
            }
            _ => None,
        }
    }

    /// What is in the node that some rows are, whose kind is noted; else these rows.
    fn in_node(&self, rows: Block, told: &mut Told) -> Block
        ensures inside { AreInside self.now.rows.now result.start result.end rows.start rows.end }
        ensures told { told.new.place ≡ told.old.place }
    {
        let Some(row) = self.only(rows) else {
            return rows;
        };
        match self.part(row) {
            Part::Node { end, kind } => {
                told.becomes(kind);
                let start = row + 1;
                Block { start, end }
            }
            _ => rows,
        }
    }
}
