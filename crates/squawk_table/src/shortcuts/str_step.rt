//! The steps that are sent for an output over its text, and the trait of sinks.
ghost use Rattle.std.specs.Prelude.{List, [], ◌∷◌, ◌++◌, MatchResult};

use squawk_kinds::SyntaxKind;
use squawk_output::Text;

/// A step of a walk over a syntax tree, with the texts of its tokens.
#[derive(Clone, Copy, Debug, PartialEq, Eq)]
pub enum StrStep<'a> {
    /// A token and the part of the source under it.
    Token { kind: SyntaxKind, text: &'a str },
    /// The beginning of a node.
    Enter { kind: SyntaxKind },
    /// The end of the innermost open node.
    Exit,
    /// An error, with its text and its position: the number of bytes of the source before it.
    Error { msg: &'a str, pos: usize },
}

/// A [`StrStep`] that owns its texts.
#[derive(Debug, Drop)]
pub enum OwnedStep {
    Token { kind: SyntaxKind, text: Text },
    Enter { kind: SyntaxKind },
    Exit,
    Error { msg: Text, pos: usize },
}

/// What steps are sent to: a builder of trees, a printer, a list.
///
/// A sink may refuse a step. It then keeps the state that it had before.
pub trait StepSink {
    ghost use Rattle.squawk_table.specs.declared.shortcuts.str_step.OwnedStep.{OwnedStep};
    ghost use Rattle.squawk_table.specs.SinkViews.{owned_step_of};

    /// Why a step was refused.
    type Refusal;

    /// Whether the sink stands after the steps of a list.
    ghost stands_after: { Self → List OwnedStep → Type 0 };

    /// Whether a step that came after the steps of a list may be refused with this refusal.
    ghost refuses: { List OwnedStep → OwnedStep → Self.Refusal → Type 0 };

    /// Takes a step, or refuses it.
    fn step(&mut self, step: StrStep<'_>) -> Result<(), Self::Refusal>
        ensures { (l : List OwnedStep) → stands_after self.old l → MatchResult result
            (λ _. stands_after self.new (l ++ owned_step_of step.entry ∷ []))
            (λ answer. stands_after self.new l × refuses l (owned_step_of step.entry) answer) };
}
