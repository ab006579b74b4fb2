//! A sink that builds a syntax tree.
ghost use Rattle.std.specs.Prelude.{◌≡◌, ◌≤◌, [], ◌∷◌, ◌++◌, List, length, slice_range, nat_eq, MatchResult, IfErr, IfOk};
ghost use Rattle.std.specs.List.{starts_with};
ghost use Rattle.std.specs.Str.{chars};
ghost use Rattle.squawk_table.specs.declared.shortcuts.str_step.OwnedStep.{OwnedStep};
ghost use Rattle.squawk_table.specs.declared.shortcuts.str_step.OwnedStep.TheVariants.{Token, Enter, Exit, Error};
ghost use Rattle.squawk_tree.specs.Forest.{Forest, forest_steps};
ghost use Rattle.syntax_tree.specs.Drafts.{StandsAfter, StandsOver};
ghost use Rattle.syntax_tree.specs.Layout.{IsTree};
ghost use Rattle.syntax_tree.specs.Trees.{IsOneRoot};
ghost use Rattle.syntax_tree.specs.Refusals.{RefusesToken, RefusesNode, RefusesExit, RefusesError, RefusesOver};

use crate::blocks;
use crate::element::{Element, NONE};
use crate::tree::{SyntaxTree, TreeError};
use squawk_kinds::SyntaxKind;
use squawk_output::Text;
use squawk_table::{StepSink, StrStep};
use squawk_tokens::LexError;
use std::alloc::{AllocError, Global};
use std::marker::Model;

/// Why a step was refused. If several reasons apply, the first one listed is returned.
#[derive(Clone, Copy, Debug, PartialEq, Eq)]
pub enum TreeRefusal {
    /// A token stands in no node, or a second root begins.
    OutsideOfRoot,
    /// A node ends where none is open.
    NothingOpen,
    /// A token's text is empty, or isn't the next part of the source.
    OtherText,
    /// The tree would have more than `u32::MAX` elements, errors or bytes.
    TooLarge,
    OutOfMemory,
}

impl From<AllocError> for TreeRefusal {
    ghost from_gives = { λ _ refusal. refusal ≡ OutOfMemory };

    ghost use Rattle.syntax_tree.specs.declared.builder.TreeRefusal.TheVariants.{OutOfMemory};

    fn from(_: AllocError) -> TreeRefusal {
        TreeRefusal::OutOfMemory
    }
}

/// The steps that the builder took aren't those of one root: none was entered, or a node is open.
#[derive(Drop)]
pub struct Unfinished<'s> {
    /// The builder, as it stood.
    pub builder: TreeBuilder<'s>,
}

/// A sink that builds a syntax tree over a source that it borrows.
#[derive(Drop)]
pub struct TreeBuilder<'s> {
    alloc: Global,
    source: &'s str,
    /// How many bytes of the source were sent as tokens.
    sent: usize,
    elements: Vec<Element>,
    /// For each block of the bytes that were sent, the place of the first element that begins behind it.
    blocks: Vec<u32>,
    /// The place of the innermost open node. Those around it are its ancestors.
    innermost: u32,
    errors: Vec<TreeError>,
    /// How many steps were taken.
    steps: usize,
}

impl<'s> Model for TreeBuilder<'s> {
    ghost use Rattle.syntax_tree.specs.Drafts.{Growing};
    ghost use Rattle.syntax_tree.specs.Blocks.{IsGrowingIndexed};

    ghost Value = { Growing };

    ghost view = { λ t. record {
      source = t.source.now;
      sent = t.sent;
      elements = t.elements.items;
      innermost = t.innermost;
      errors = t.errors.items;
      steps = t.steps;
    } };

    ghost invariant = { λ t. IsGrowingIndexed (view t) t.blocks.items };
}

impl<'s> TreeBuilder<'s> {
    /// A builder that took no step, over the source of the tokens that it will take.
    pub fn new(alloc: Global, source: &'s str) -> TreeBuilder<'s>
        ensures after { StandsAfter result [] }
        ensures source { result.source ≡ source.now }
    {
        TreeBuilder::with_capacity(alloc, source, 0)
    }

    /// The same with room for this many nodes and tokens. Where that memory is refused, it comes step by step.
    pub fn with_capacity(alloc: Global, source: &'s str, elements: usize) -> TreeBuilder<'s>
        ensures after { StandsAfter result [] }
        ensures source { result.source ≡ source.now }
    {
        let mut room = Vec::new(alloc);
        let _ = room.reserve(elements);
        TreeBuilder {
            alloc,
            source,
            sent: 0,
            elements: room,
            blocks: blocks::room(alloc, source.len()),
            innermost: NONE,
            errors: Vec::new(alloc),
            steps: 0,
        }
    }

    /// The tree, if the steps so far are those of one root with all that is in it, and of errors.
    ///
    /// Its text is the part of the source that was sent. It has no lexical errors.
    pub fn finish(self) -> Result<SyntaxTree<'s>, Unfinished<'s>>
        ensures tree { IfOk result (λ tree. (steps : List OwnedStep) → StandsAfter self.entry steps
            → (forest : Forest) × IsTree tree forest × (forest_steps forest ≡ steps)) }
        ensures lexical { IfOk result (λ tree. tree.lexical ≡ []) }
        ensures refused { IfErr result (λ unfinished. (unfinished.builder ≡ self.entry) × ((steps : List OwnedStep) (forest : Forest)
            → StandsAfter self.entry steps → IsOneRoot forest → forest_steps forest ≡ steps → ⊥)) }
    {
        let none = Vec::new(self.alloc);
        self.finish_with(none)
    }

    /// The same with the lexical errors of a text.
    pub(crate) fn finish_with(
        self,
        lexical: Vec<LexError>,
    ) -> Result<SyntaxTree<'s>, Unfinished<'s>>
        ensures tree { IfOk result (λ tree. (steps : List OwnedStep) → StandsAfter self.entry steps
            → (forest : Forest) × IsTree tree forest × (forest_steps forest ≡ steps)) }
        ensures lexical { IfOk result (λ tree. tree.lexical ≡ lexical.items) }
        ensures refused { IfErr result (λ unfinished. (unfinished.builder ≡ self.entry) × ((steps : List OwnedStep) (forest : Forest)
            → StandsAfter self.entry steps → IsOneRoot forest → forest_steps forest ≡ steps → ⊥)) }
    {
        if self.innermost != NONE || self.elements.len() == 0 {
            return Err(Unfinished { builder: self });
        }
        let TreeBuilder {
            alloc: _,
            source,
            sent,
            elements,
            blocks,
            innermost: _,
            errors,
            steps: _,
        } = self;
        Ok(SyntaxTree {
            text: &source[..sent],
            elements,
            blocks,
            errors,
            lexical,
        })
    }

    /// Adds a token to the innermost open node.
    pub fn token(&mut self, kind: SyntaxKind, text: &str) -> Result<(), TreeRefusal>
        ensures step { (steps : List OwnedStep) → StandsAfter self.old steps → MatchResult result
            (λ _. StandsAfter self.new (steps ++ Token kind (chars text.now) ∷ []))
            (λ answer. (self.new ≡ self.old) × RefusesToken self.old.source steps (chars text.now) answer) }
        ensures source { self.new.source ≡ self.old.source }
    {
        if self.innermost == NONE {
            return Err(TreeRefusal::OutsideOfRoot);
        }
        let start = self.sent;
        if text.is_empty() || !comes_next(self.source.as_bytes(), start, text.as_bytes()) {
            return Err(TreeRefusal::OtherText);
        }
        let end = start + text.len();
        let at = self.elements.len();
        if at >= NONE as usize || end > u32::MAX as usize {
            return Err(TreeRefusal::TooLarge);
        }
        self.elements.reserve(1)?;
        blocks::fill(&mut self.blocks, end, at as u32 + 1)?;
        self.elements.push_reserved(Element {
            kind,
            is_token: true,
            start: start as u32,
            parent: self.innermost,
            behind: at as u32 + 1,
            last: at as u32,
        });
        self.sent = end;
        self.steps += 1;
        Ok(())
    }

    /// Begins a node, in the innermost open node.
    pub fn start_node(&mut self, kind: SyntaxKind) -> Result<(), TreeRefusal>
        ensures step { (steps : List OwnedStep) → StandsAfter self.old steps → MatchResult result
            (λ _. StandsAfter self.new (steps ++ Enter kind ∷ []))
            (λ answer. (self.new ≡ self.old) × RefusesNode steps answer) }
        ensures source { self.new.source ≡ self.old.source }
    {
        let at = self.elements.len();
        if self.innermost == NONE && at > 0 {
            return Err(TreeRefusal::OutsideOfRoot);
        }
        if at >= NONE as usize {
            return Err(TreeRefusal::TooLarge);
        }
        self.elements.reserve(1)?;
        self.elements.push_reserved(Element {
            kind,
            is_token: false,
            start: self.sent as u32,
            parent: self.innermost,
            behind: 0,
            last: at as u32,
        });
        self.innermost = at as u32;
        self.steps += 1;
        Ok(())
    }

    /// Ends the innermost open node.
    pub fn finish_node(&mut self) -> Result<(), TreeRefusal>
        ensures step { (steps : List OwnedStep) → StandsAfter self.old steps → MatchResult result
            (λ _. StandsAfter self.new (steps ++ Exit ∷ []))
            (λ answer. (self.new ≡ self.old) × RefusesExit steps answer) }
        ensures source { self.new.source ≡ self.old.source }
    {
        let node = self.innermost;
        if node == NONE {
            return Err(TreeRefusal::NothingOpen);
        }
        // The last element is a token, or a node without children. So far it ends with the node's last child.
        let behind = self.elements.len();
        let last = self.elements[behind - 1].last;
        self.elements[behind - 1].last = node;
        let element = &mut self.elements[node as usize];
        element.behind = behind as u32;
        element.last = last;
        self.innermost = element.parent;
        self.steps += 1;
        Ok(())
    }

    /// Adds an error to the innermost open node, or outside of the root. `pos` is the number of bytes of the text that
    /// stand before it.
    pub fn error(&mut self, msg: &str, pos: usize) -> Result<(), TreeRefusal>
        ensures step { (steps : List OwnedStep) → StandsAfter self.old steps → MatchResult result
            (λ _. StandsAfter self.new (steps ++ Error (chars msg.now) pos ∷ []))
            (λ answer. (self.new ≡ self.old) × RefusesError steps answer) }
        ensures source { self.new.source ≡ self.old.source }
    {
        if self.errors.len() >= u32::MAX as usize {
            return Err(TreeRefusal::TooLarge);
        }
        self.errors.reserve(1)?;
        let msg = Text::new(String::from_str(self.alloc, msg)?);
        let next = self.elements.len() as u32;
        self.errors.push_reserved(TreeError {
            msg,
            pos,
            node: self.innermost,
            next,
            step: self.steps,
        });
        self.steps += 1;
        Ok(())
    }
}

/// Whether a text comes next in a source. Most tokens have one byte.
#[inline(always)]
fn comes_next(source: &[u8], start: usize, text: &[u8]) -> bool
    requires { start ≤ length source.now }
    ensures { result ≡ starts_with nat_eq (slice_range source.now start (length source.now)) text.now }
{
    if text.len() == 1 && start < source.len() {
        return text[0] == source[start];
    }
    source[start..].starts_with(text)
}

impl StepSink for TreeBuilder<'_> {
    type Refusal = TreeRefusal;

    // A list begins with an error that was never sent: its text is the source, which refusals speak of.
    ghost stands_after = { StandsOver };

    ghost refuses = { RefusesOver };

    fn step(&mut self, step: StrStep<'_>) -> Result<(), TreeRefusal> {
        match step {
            StrStep::Token { kind, text } => self.token(kind, text),
            StrStep::Enter { kind } => self.start_node(kind),
            StrStep::Exit => self.finish_node(),
            StrStep::Error { msg, pos } => self.error(msg, pos),
        }
    }
}
