//! The input of a parser.
ghost use Rattle.std.specs.Prelude.{◌≡◌, ◌==◌, ◌<◌, ◌+◌, List, [], length, IfOk, IsTrue};
ghost use Rattle.squawk_output.specs.Steps.{Step};
ghost use Rattle.squawk_table.specs.ParserInput.{HasNoEndToken, input_of, kind_in, contextual_kind_in, contextual_kind_of, is_joint_in};
ghost use Rattle.squawk_table.specs.RawTable.{raw_at};
ghost use Rattle.squawk_table.specs.Shape.{IsOver, no_keywords};

mod joints;

use crate::input::joints::Joints;
use crate::lexed_str::LexedStr;
use squawk_kinds::{SyntaxKind, Vocabulary};
use std::alloc::{AllocError, Global};
use std::marker::Model;

/// The tokens that a parser sees: the raw tokens of a text that aren't trivia, without their texts.
///
/// Indices count tokens of the input, from 0.
#[derive(Drop)]
pub struct Input {
    kinds: Vec<SyntaxKind>,
    contextual_kinds: Vec<SyntaxKind>,
    /// Whether each token is joint: whether the next raw token is one of the input, too.
    joints: Joints,
}

impl Model for Input {
    ghost use Rattle.std.specs.Prelude.{List};
    ghost use Rattle.squawk_table.specs.ParserInput.{Entry};

    ghost Value = { List Entry };

    ghost use Rattle.squawk_table.specs.InputView.{IsEven, entries_in};
    ghost use Rattle.squawk_table.specs.ParserInput.{HasNoEndToken};

    ghost view = { λ input. entries_in input.kinds.items input.contextual_kinds.items input.joints };

    ghost invariant = { λ input. IsEven input.kinds.items input.contextual_kinds.items input.joints
        × HasNoEndToken (entries_in input.kinds.items input.contextual_kinds.items input.joints) };
}

impl Input {
    /// An input without tokens.
    pub fn empty(alloc: Global) -> Input
        ensures { result ≡ [] }
    {
        Input {
            kinds: Vec::new(alloc),
            contextual_kinds: Vec::new(alloc),
            joints: Joints::new(alloc),
        }
    }

    /// The number of tokens. None of them is [`SyntaxKind::EOF`].
    pub fn len(&self) -> usize
        ensures len { result ≡ length self.now }
        ensures no_end { HasNoEndToken self.now }
    {
        self.kinds.len()
    }

    /// Whether there are no tokens.
    pub fn is_empty(&self) -> bool
        ensures { result ≡ (length self.now == 0) }
    {
        self.len() == 0
    }

    /// The kind of token `i`; [`SyntaxKind::EOF`] past the end.
    pub fn kind(&self, i: usize) -> SyntaxKind
        ensures { result ≡ kind_in self.now i }
    {
        match self.kinds.get(i) {
            Some(kind) => *kind,
            None => SyntaxKind::EOF,
        }
    }

    /// The contextual kind of token `i`.
    ///
    /// For an identifier it is the contextual keyword that it spells, or [`SyntaxKind::IDENT`]; for every
    /// other token, and past the end, [`SyntaxKind::EOF`].
    pub fn contextual_kind(&self, i: usize) -> SyntaxKind
        ensures { result ≡ contextual_kind_in self.now i }
    {
        match self.contextual_kinds.get(i) {
            Some(kind) => *kind,
            None => SyntaxKind::EOF,
        }
    }

    /// Whether token `i` is joint with the next: nothing, not even trivia, stands between them. The last token
    /// has no next one.
    pub fn is_joint(&self, i: usize) -> bool
        requires { i < length self.now }
        ensures { result ≡ is_joint_in self.now i }
    {
        self.joints.get(i)
    }
}

impl LexedStr<'_> {
    /// The input of a parser: the raw tokens that aren't trivia. It takes one pass.
    pub fn to_input<V: Vocabulary>(
        &self,
        alloc: Global,
        vocabulary: &V,
    ) -> Result<Input, AllocError>
        ensures input { IfOk result (λ input. input ≡ input_of (V.contextual_keyword vocabulary.now) self.now) }
        // So an output of a parse over it fits the table if it stands in one root.
        ensures over { IfOk result (λ input. (steps : List Step) → IsOver steps input → IsOver steps (input_of no_keywords self.now)) }
    {
        let len = self.len();
        let mut kinds = vec![in alloc; SyntaxKind::EOF; len]?;
        let mut contextual_kinds = vec![in alloc; SyntaxKind::EOF; len]?;
        let mut joints = Joints::with_len(alloc, len)?;
        // The first `count` items are the input so far. Trivia is written behind them, too, and then
        // overwritten by the next raw token: a branch on trivia mispredicts.
        let mut count = 0;
        // Where the previous raw token was written, and whether the input has it: then it is joint with this
        // one, if the input has this one, too.
        let mut last = 0;
        let mut was_token = false;
        for i in 0..len {
            let kind = self.kind(i);
            let is_token = !kind.is_trivia();
            let contextual_kind = self.contextual_kind(i, vocabulary);
            joints.set(last, was_token & is_token);
            kinds[count] = kind;
            contextual_kinds[count] = contextual_kind;
            last = count;
            count += usize::from(is_token);
            was_token = is_token;
        }
        kinds.truncate(count);
        contextual_kinds.truncate(count);
        joints.truncate(count);
        Ok(Input {
            kinds,
            contextual_kinds,
            joints,
        })
    }

    /// The contextual kind of raw token `i`.
    fn contextual_kind<V: Vocabulary>(&self, i: usize, vocabulary: &V) -> SyntaxKind
        requires { i < length self.now.kinds }
        ensures { result ≡ contextual_kind_of (V.contextual_keyword vocabulary.now) (raw_at self.now i) }
    {
        if self.kind(i) == SyntaxKind::IDENT {
            vocabulary
                .from_contextual_keyword(self.text(i))
                .unwrap_or(SyntaxKind::IDENT)
        } else {
            SyntaxKind::EOF
        }
    }
}
