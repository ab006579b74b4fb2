//! What is drawn of steps on the way over them.
ghost use Rattle.std.specs.Prelude.{◌≡◌, ◌+◌, ◌<◌, ◌^◌, ℕ, List, [], ◌∷◌, ◌++◌, IfOk, OnOk, map, string_bytes};
ghost use Rattle.squawk_kinds.specs.KindNames.{Names};
ghost use Rattle.squawk_table.specs.SinkViews.{owned_step_of};
ghost use Rattle.squawk_table.specs.declared.shortcuts.str_step.OwnedStep.{OwnedStep};
ghost use Rattle.squawk_tree.specs.TreeText.{bytes_in};
ghost use Rattle.sql_report.specs.Drawn.{drawn};
ghost use Rattle.sql_report.specs.OnTheWay.{DrawsBefore, asked_of};

use crate::json_writer::JsonWriter;
use crate::one_walk::Asked;
use squawk_kinds::{KindNames, SyntaxKind};
use squawk_table::{StepSink, StrStep};
use squawk_tree::TreeText;
use std::alloc::{AllocError, Global};
use std::mem;

/// What is asked for, with what is drawn so far.
#[derive(Drop)]
pub(crate) enum Drawing {
    Nothing,
    Tree(TreeText),
    Json(JsonWriter),
}

impl Drawing {
    /// Nothing, before the first step.
    pub(crate) fn new(alloc: Global, asked: Asked) -> Drawing
        ensures asked { asked_of result ≡ asked }
        ensures draws { (names : Names) (steps : List OwnedStep) → DrawsBefore names [] steps result 0 steps }
    {
        match asked {
            Asked::Nothing => Drawing::Nothing,
            Asked::Tree => Drawing::Tree(TreeText::new(alloc)),
            Asked::Json => Drawing::Json(JsonWriter::new(alloc)),
        }
    }

    /// Takes a step that stands at a byte.
    pub(crate) fn step(
        &mut self,
        names: &mut KindNames<'_, '_>,
        at: usize,
        step: &StrStep<'_>,
    ) -> Result<(), AllocError>
        requires { at + bytes_in (owned_step_of step.now) < 2 ^ 64 }
        ensures asked { asked_of self.new ≡ asked_of self.old }
        ensures draws { OnOk result ((given : List ℕ) (all rest : List OwnedStep) → DrawsBefore names.old given all self.old at (owned_step_of step.now ∷ rest)
            → DrawsBefore names.old given all self.new (at + bytes_in (owned_step_of step.now)) rest) }
        ensures same { names.new ≡ names.old }
    {
        match self {
            Drawing::Nothing => Ok(()),
            Drawing::Tree(tree) => {
                tree.step(same(step))?;
                Ok(())
            }
            Drawing::Json(writer) => writer.step(names, at, step),
        }
    }

    /// Hands out what was drawn since it was asked before. Of a tree nothing is.
    pub(crate) fn take(&mut self, alloc: Global) -> String
        ensures asked { asked_of self.new ≡ asked_of self.old }
        ensures draws { (names : Names) (given : List ℕ) (all rest : List OwnedStep) (at : ℕ) → DrawsBefore names given all self.old at rest
            → DrawsBefore names (given ++ string_bytes result) all self.new at rest }
    {
        match self {
            Drawing::Nothing | Drawing::Tree(_) => String::new(alloc),
            Drawing::Json(writer) => mem::replace(&mut writer.lines, String::new(alloc)),
        }
    }

    /// The text that is drawn.
    pub(crate) fn finish(
        self,
        alloc: Global,
        names: &[(SyntaxKind, &str)],
    ) -> Result<String, AllocError>
        ensures { IfOk result (λ text. let names = map (λ pair. (pair.0, pair.1.now)) names.now in (given : List ℕ) (all : List OwnedStep) (at : ℕ)
            → DrawsBefore names given all self at [] → given ++ string_bytes text ≡ drawn (asked_of self) names all) }
    {
        match self {
            Drawing::Nothing => Ok(String::new(alloc)),
            Drawing::Tree(tree) => tree.finish(alloc, names),
            Drawing::Json(writer) => Ok(writer.lines),
        }
    }
}

/// The same step.
fn same<'s>(step: &StrStep<'s>) -> StrStep<'s>
    ensures { owned_step_of result ≡ owned_step_of step.now }
{
    match *step {
        StrStep::Token { kind, text } => StrStep::Token { kind, text },
        StrStep::Enter { kind } => StrStep::Enter { kind },
        StrStep::Exit => StrStep::Exit,
        StrStep::Error { msg, pos } => StrStep::Error { msg, pos },
    }
}
