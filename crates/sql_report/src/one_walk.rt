//! What is drawn of a script: its tree as text or as JSON, in one walk over what is sent for its parts.
ghost use Rattle.std.specs.Prelude.{◌≡◌, ◌+◌, ◌<◌, ◌^◌};
ghost use Rattle.squawk_table.specs.SinkViews.{owned_step_of};
ghost use Rattle.sql_grammar.specs.Parts.{moved_by};
ghost use Rattle.sql_report.specs.OnTheWay.{MovesWithin};

use crate::drawing::Drawing;
use crate::statement_list::{bytes_in, steps_of};
use squawk_kinds::{KindNames, SyntaxKind};
use squawk_output::Output;
use squawk_table::{LexedStr, StrStep, StrSteps};
use std::alloc::{AllocError, Global};

/// What is drawn of a script.
#[derive(Clone, Copy, Debug, PartialEq, Eq)]
pub enum Asked {
    /// Nothing.
    Nothing,
    /// The tree as indented text.
    Tree,
    /// A line of JSON for each statement: its tree, with each error of the parse in the innermost
    /// node around it. Lexical errors are no part of a tree.
    ///
    /// ```text
    /// {"kind":"COMMIT","start":0,"children":[{"kind":"COMMIT_KW","start":0,"end":6}],"end":6,"errors":[]}
    /// ```
    ///
    /// A kind is the name of its first pair, else its number, which is a string, too. Starts and ends are
    /// bytes.
    Json,
}

/// A walk over what is sent for a script, part by part.
#[derive(Drop)]
pub struct Walk<'n> {
    alloc: Global,
    asked: Asked,
    names: &'n [(SyntaxKind, &'n str)],
    kind_names: KindNames<'n, 'n>,
    at: usize,
    drawing: Drawing,
}

impl<'n> Walk<'n> {
    ghost use Rattle.std.specs.Prelude.{◌≡◌, ◌+◌, ◌<◌, ◌≤◌, ◌^◌, ℕ, List, [], ◌∷◌, ◌++◌, IfOk, OnOk, length, map, string_bytes};
    ghost use Rattle.squawk_table.specs.RawTable.{Table};
    ghost use Rattle.squawk_table.specs.Sent.{bytes_of, sent_list};
    ghost use Rattle.squawk_table.specs.Shape.{Fits};
    ghost use Rattle.squawk_table.specs.SinkViews.{owned_step_of};
    ghost use Rattle.squawk_table.specs.declared.shortcuts.str_step.OwnedStep.{OwnedStep};
    ghost use Rattle.squawk_table.specs.declared.shortcuts.str_step.OwnedStep.TheVariants.{Enter, Exit};
    ghost use Rattle.squawk_output.specs.Steps.{Step};
    ghost use Rattle.squawk_tree.specs.TreeText.{bytes_in};
    ghost use Rattle.sql_grammar.specs.Parts.{moved_by};
    ghost use Rattle.sql_grammar.specs.ReadParts.{ErrorsBelow};
    ghost use Rattle.sql_report.specs.Drawn.{drawn};
    ghost use Rattle.sql_report.specs.JsonTrees.{HasTreeLines};
    ghost use Rattle.sql_report.specs.OnTheWay.{HasWalked, IsSame, MovesWithin};

    /// A walk that has entered a root of this kind.
    pub fn new(
        alloc: Global,
        names: &'n [(SyntaxKind, &'n str)],
        asked: Asked,
        root: SyntaxKind,
    ) -> Result<Walk<'n>, AllocError>
        ensures asked { IfOk result (λ walk. walk.asked ≡ asked) }
        ensures names { IfOk result (λ walk. walk.kind_names ≡ map (λ pair. (pair.0, pair.1.now)) names.now) }
        ensures begins { IfOk result (λ walk. HasWalked [] walk (Enter root ∷ [])) }
    {
        let mut walk = Walk {
            alloc,
            asked,
            names,
            kind_names: KindNames::new(alloc, names),
            at: 0,
            drawing: Drawing::new(alloc, asked),
        };
        walk.step(&StrStep::Enter { kind: root })?;
        Ok(walk)
    }

    /// Takes what is sent in the root of the next part, which begins at a byte of the script.
    pub fn part(
        &mut self,
        table: &LexedStr<'_>,
        output: &Output,
        start: usize,
    ) -> Result<(), AllocError>
        requires fits { Fits table.now output.now.steps }
        requires short { start + length table.now.text < 2 ^ 64 }
        ensures same { OnOk result (IsSame self.old self.new) }
        ensures walks { OnOk result ((given : List ℕ) (done inner : List OwnedStep) (kind : ℕ)
            → sent_list table.now output.now.steps ≡ Enter kind ∷ inner ++ Exit ∷ [] → bytes_of done ≡ start
            → HasWalked given self.old done → HasWalked given self.new (done ++ map (moved_by start) inner)) }
    {
        if let Asked::Nothing = self.asked {
            return Ok(());
        }
        self.at = start;
        let mut steps = steps_of(table, output);
        steps.next();
        self.inside(steps, start)
    }

    /// Takes steps but the last.
    fn inside(&mut self, steps: StrSteps<'_>, start: usize) -> Result<(), AllocError>
        requires short { start + bytes_of steps.steps < 2 ^ 64 }
        requires at { self.old.at ≡ start }
        requires within { (n : ℕ) × (start + n ≤ 2 ^ 64) × ErrorsBelow n steps.steps }
        ensures same { OnOk result (IsSame self.old self.new) }
        ensures walks { OnOk result ((given : List ℕ) (done inner : List OwnedStep) (last : OwnedStep) → steps.entry.steps ≡ inner ++ last ∷ []
            → HasWalked given self.old done → HasWalked given self.new (done ++ map (moved_by start) inner)) }
    {
        let mut held = None;
        for step in steps {
            if let Some(before) = held {
                self.step(&moved(&before, start))?;
            }
            held = Some(step);
        }
        Ok(())
    }

    /// Takes a step.
    #[inline(always)]
    fn step(&mut self, step: &StrStep<'_>) -> Result<(), AllocError>
        requires { self.old.at + bytes_in (owned_step_of step.now) < 2 ^ 64 }
        ensures same { IsSame self.old self.new }
        ensures at { OnOk result (self.new.at ≡ self.old.at + bytes_in (owned_step_of step.now)) }
        ensures walks { OnOk result ((given : List ℕ) (done : List OwnedStep) → HasWalked given self.old done → HasWalked given self.new (done ++ owned_step_of step.now ∷ [])) }
    {
        let at = self.at;
        self.at = at + bytes_in(step);
        self.drawing.step(&mut self.kind_names, at, step)
    }

    /// Hands out what was drawn since it was asked before. Of a tree nothing is, until the walk is finished.
    pub fn take_drawn(&mut self) -> String
        ensures same { IsSame self.old self.new }
        ensures hands_out { (given : List ℕ) (done : List OwnedStep) → HasWalked given self.old done → HasWalked (given ++ string_bytes result) self.new done }
    {
        self.drawing.take(self.alloc)
    }

    /// Leaves the root. Hands out what wasn't yet.
    pub fn finish(mut self) -> Result<String, AllocError>
        ensures drawn { IfOk result (λ text. (given : List ℕ) (done : List OwnedStep) → HasWalked given self.entry done
            → given ++ string_bytes text ≡ drawn self.entry.asked self.entry.kind_names (done ++ Exit ∷ [])) }
        // Each line of JSON is a value.
        ensures values { IfOk result (λ text. (given : List ℕ) (done : List OwnedStep) (table : Table) (steps : List Step) → HasWalked given self.entry done → self.entry.asked ≡ Asked.Json
            → Fits table steps → sent_list table steps ≡ done ++ Exit ∷ [] → HasTreeLines self.entry.kind_names (done ++ Exit ∷ []) (given ++ string_bytes text)) }
    {
        self.step(&StrStep::Exit)?;
        self.drawing.finish(self.alloc, self.names)
    }
}

/// The step in a text in which so many bytes stand before it.
fn moved<'s>(step: &StrStep<'s>, start: usize) -> StrStep<'s>
    requires { MovesWithin start (owned_step_of step.now) }
    ensures { owned_step_of result ≡ moved_by start (owned_step_of step.now) }
{
    match *step {
        StrStep::Token { kind, text } => StrStep::Token { kind, text },
        StrStep::Enter { kind } => StrStep::Enter { kind },
        StrStep::Exit => StrStep::Exit,
        StrStep::Error { msg, pos } => StrStep::Error {
            msg,
            pos: start + pos,
        },
    }
}
