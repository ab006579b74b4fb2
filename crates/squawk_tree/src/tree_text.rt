//! A sink that writes a tree as indented text.
ghost use Rattle.std.specs.Prelude.{List, map, string_bytes, IfOk};
ghost use Rattle.squawk_table.specs.declared.shortcuts.str_step.OwnedStep.{OwnedStep};
ghost use Rattle.squawk_tree.specs.TreeText.{tree_text};
ghost use Rattle.squawk_tree.specs.Forest.{Forest, forest_text, forest_steps};
ghost use Rattle.squawk_tree.specs.Drawing.{StandsAfter};

use crate::line::{Line, Shown};
use crate::shown::{write_indentation, write_shown};
use squawk_kinds::{KindNames, SyntaxKind};
use squawk_output::Text;
use squawk_table::{StepSink, StrStep};
use std::alloc::{AllocError, Global};
use std::marker::Model;

/// A sink that writes a tree as indented text: a line for each node, token and error.
///
/// ```text
/// SOURCE@0..3
///   OPERAND@0..1
///     IDENT@0..1 "a"
///   639@1..2 " "
///   27@2..3 "+"
///   error@3 "expected operand"
/// ```
///
/// It refuses a step only if an allocation fails.
#[derive(Drop)]
pub struct TreeText {
    alloc: Global,
    lines: Vec<Line>,
    /// The indices of the lines that show open nodes.
    open_lines: Vec<usize>,
    /// The texts of all tokens, joined.
    texts: String,
}

impl Model for TreeText {
    ghost use Rattle.std.specs.Prelude.{string_bytes};
    ghost use Rattle.squawk_tree.specs.Drawing.{Drawing};
    ghost use Rattle.squawk_tree.specs.SoundDrawings.{IsSoundDrawing};

    ghost Value = { Drawing };

    ghost view = { λ t. record { lines = t.lines.items; open_lines = t.open_lines.items; texts = string_bytes t.texts } };

    ghost invariant = { λ t. IsSoundDrawing (record { lines = t.lines.items; open_lines = t.open_lines.items; texts = string_bytes t.texts }) };
}

impl TreeText {
    ghost use Rattle.std.specs.Prelude.{◌≡◌, [], ◌∷◌, ◌++◌, OnErr, OnOk};
    ghost use Rattle.std.specs.Str.{chars};
    ghost use Rattle.squawk_table.specs.declared.shortcuts.str_step.OwnedStep.TheVariants.{Token, Enter, Exit, Error};
    ghost use Rattle.squawk_tree.specs.Drawing.{StandsAfter};

    /// A tree without steps.
    pub fn new(alloc: Global) -> TreeText
        ensures { StandsAfter result [] }
    {
        TreeText {
            alloc,
            lines: Vec::new(alloc),
            open_lines: Vec::new(alloc),
            texts: String::new(alloc),
        }
    }

    /// The text of the tree so far.
    ///
    /// A kind is shown by the name of its first pair, or by its number.
    pub fn finish(&self, alloc: Global, names: &[(SyntaxKind, &str)]) -> Result<String, AllocError>
        ensures text { IfOk result (λ text. (steps : List OwnedStep) → StandsAfter self.now steps
            → string_bytes text ≡ tree_text (map (λ pair. (pair.0, pair.1.now)) names.now) steps) }
        ensures forest { IfOk result (λ text. (forest : Forest) → StandsAfter self.now (forest_steps forest)
            → string_bytes text ≡ forest_text (map (λ pair. (pair.0, pair.1.now)) names.now) 0 0 forest) }
    {
        let mut text = String::new(alloc);
        let mut names = KindNames::new(alloc, names);
        for line in &self.lines {
            write_indentation(&mut text, line.depth)?;
            write_shown(&mut text, &mut names, &self.texts, &line.shown)?;
            text.push('\n')?;
        }
        Ok(text)
    }

    /// Takes a token.
    fn token(&mut self, kind: SyntaxKind, text: &str) -> Result<(), AllocError>
        ensures ok { OnOk result ((steps : List OwnedStep) → StandsAfter self.old steps
            → StandsAfter self.new (steps ++ Token kind (chars text.now) ∷ [])) }
        ensures err { OnErr result (self.new ≡ self.old) }
    {
        self.lines.reserve(1)?;
        let start = self.texts.len();
        self.texts.push_str(text)?;
        let end = self.texts.len();
        self.lines.push_reserved(Line {
            depth: self.open_lines.len(),
            shown: Shown::Token { kind, start, end },
        });
        Ok(())
    }

    /// Takes the beginning of a node.
    fn enter(&mut self, kind: SyntaxKind) -> Result<(), AllocError>
        ensures ok { OnOk result ((steps : List OwnedStep) → StandsAfter self.old steps
            → StandsAfter self.new (steps ++ Enter kind ∷ [])) }
        ensures err { OnErr result (self.new ≡ self.old) }
    {
        self.lines.reserve(1)?;
        self.open_lines.reserve(1)?;
        let depth = self.open_lines.len();
        let start = self.texts.len();
        self.open_lines.push_reserved(self.lines.len());
        self.lines.push_reserved(Line {
            depth,
            shown: Shown::Node {
                kind,
                start,
                end: None,
            },
        });
        Ok(())
    }

    /// Takes the end of a node. If none is open it changes nothing.
    fn exit(&mut self)
        ensures { (steps : List OwnedStep) → StandsAfter self.old steps → StandsAfter self.new (steps ++ Exit ∷ []) }
    {
        if let Some(line) = self.open_lines.pop() {
            let end = self.texts.len();
            self.lines[line].close(end);
        }
    }

    /// Takes an error.
    fn error(&mut self, msg: &str, pos: usize) -> Result<(), AllocError>
        ensures ok { OnOk result ((steps : List OwnedStep) → StandsAfter self.old steps
            → StandsAfter self.new (steps ++ Error (chars msg.now) pos ∷ [])) }
        ensures err { OnErr result (self.new ≡ self.old) }
    {
        let msg = Text::new(String::from_str(self.alloc, msg)?);
        self.lines.reserve(1)?;
        self.lines.push_reserved(Line {
            depth: self.open_lines.len(),
            shown: Shown::Error { msg, pos },
        });
        Ok(())
    }
}

impl StepSink for TreeText {
    ghost use Rattle.squawk_tree.specs.Drawing.{StandsAfter};

    type Refusal = AllocError;

    ghost stands_after = { StandsAfter };

    ghost refuses = { λ _ _ _. Unit {0} };

    fn step(&mut self, step: StrStep<'_>) -> Result<(), AllocError> {
        match step {
            StrStep::Token { kind, text } => self.token(kind, text)?,
            StrStep::Enter { kind } => self.enter(kind)?,
            StrStep::Exit => self.exit(),
            StrStep::Error { msg, pos } => self.error(msg, pos)?,
        }
        Ok(())
    }
}
