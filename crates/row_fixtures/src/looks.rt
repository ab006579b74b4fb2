//! A grammar that looks at what it is asked for, and tells the answers by the kinds of empty nodes.
ghost use Rattle.std.specs.Prelude.{◌≡◌, ◌≢◌};
ghost use Rattle.squawk_kinds.specs.Kinds.{TOMBSTONE};
ghost use Rattle.squawk_output.specs.Draft.{HasNoOpenMarker};
ghost use Rattle.squawk_parser.specs.State.{HasNotFailed, IsSound, Keeps};

use crate::call_list::set_of;
use crate::notes::{note, yes_or_no};
use crate::words::without_end;
use squawk_parser::{Grammar, Parser, Part, SyntaxKind, TokenSet, Words};
use std::alloc::AllocError;

/// A look. A place is counted from the position.
#[derive(Clone, Copy)]
pub enum Look {
    /// The kind of the current token.
    Current,
    /// The kind at a place.
    Kind(usize),
    /// The contextual kind at a place.
    ContextualKind(usize),
    /// Whether the kind, which may be a composite one, stands at the place.
    At(usize, u16),
    /// Whether the kind at the place is in the set of this kind.
    AtSet(usize, u16),
    /// Whether the contextual kind at the place is this one.
    AtContextualKeyword(usize, u16),
    /// Whether the contextual kind at the place is in the set of this kind.
    AtContextualSet(usize, u16),
    /// How long the operator at the position is.
    OpLen,
    /// Whether no operator joins the current token and the next.
    NextNotJoinedOp,
}

impl Look {
    /// The kind of the node that tells the answer: `YES` or `NO`, 720 and a length, or the kind itself.
    fn answer(self, p: &Parser<'_>) -> u16
        ensures { result ≢ TOMBSTONE }
    {
        match self {
            Look::Current => telling(p.current()),
            Look::Kind(n) => telling(p.nth(n)),
            Look::ContextualKind(n) => telling(p.nth_contextual_kind(n)),
            Look::OpLen => length(p.op_len()),
            _ => yes_or_no(self.holds(p)),
        }
    }

    /// Whether what is asked holds.
    fn holds(self, p: &Parser<'_>) -> bool {
        match self {
            Look::At(0, kind) => p.at(SyntaxKind::from(kind)),
            Look::At(n, kind) => p.nth_at(n, SyntaxKind::from(kind)),
            Look::AtSet(0, kind) => p.at_ts(set_of(SyntaxKind::from(kind))),
            Look::AtSet(n, kind) => p.nth_at_ts(n, set_of(SyntaxKind::from(kind))),
            Look::AtContextualKeyword(0, kind) => p.at_contextual_kw(SyntaxKind::from(kind)),
            Look::AtContextualKeyword(n, kind) => p.nth_at_contextual_kw(n, SyntaxKind::from(kind)),
            Look::AtContextualSet(n, kind) => {
                p.nth_at_contextual_ts(n, set_of(SyntaxKind::from(kind)))
            }
            Look::NextNotJoinedOp => p.next_not_joined_op(),
            _ => false,
        }
    }
}

impl Part for Look {
    ghost use Rattle.std.specs.Prelude.{◌≡◌, ◌≢◌};
    ghost use Rattle.squawk_kinds.specs.Kinds.{TOMBSTONE};

    type Answer = u16;

    ghost does = { λ _ before after answer. (after ≡ before) × (answer ≢ TOMBSTONE) };

    fn run(self, p: &mut Parser<'_>) -> u16 {
        self.answer(p)
    }
}

/// The kind of the node that tells a kind. No node has the kind of a tombstone.
fn telling(kind: SyntaxKind) -> u16
    ensures { result ≢ TOMBSTONE }
{
    if kind == SyntaxKind::TOMBSTONE {
        u16::from(SyntaxKind::ERROR)
    } else {
        u16::from(kind)
    }
}

/// The kind of the node that tells a length.
pub fn length(len: usize) -> u16
    ensures { result ≢ TOMBSTONE }
{
    if len < 60000 {
        720 + len as u16
    } else {
        u16::MAX
    }
}

/// A look, how many tokens are eaten before it, and the limit under which it is answered.
#[derive(Clone, Copy)]
pub struct Question {
    pub behind: usize,
    pub limit: Option<usize>,
    pub look: Look,
}

/// The look at the position, without a limit.
pub fn ask(look: Look) -> Question {
    Question {
        behind: 0,
        limit: None,
        look,
    }
}

impl Question {
    fn tell(self, p: &mut Parser<'_>)
        requires { IsSound p.old }
        ensures keeps { Keeps p.old p.new }
        ensures went { HasNotFailed p.new → HasNotFailed p.old }
        ensures closed { HasNoOpenMarker p.old.draft.items → HasNotFailed p.new → HasNoOpenMarker p.new.draft.items }
    {
        skip(p, self.behind);
        let kind = match self.limit {
            Some(limit) => p.with_limit(limit, self.look),
            None => self.look.answer(p),
        };
        note(p, kind);
    }
}

/// Eats so many tokens.
fn skip(p: &mut Parser<'_>, count: usize)
    requires { IsSound p.old }
    ensures keeps { Keeps p.old p.new }
    ensures closed { HasNoOpenMarker p.old.draft.items → HasNotFailed p.new → HasNoOpenMarker p.new.draft.items }
{
    for _ in 0..count {
        p.bump_any();
    }
}

/// A grammar that answers questions at the first token. A set of operators' kinds that has the end
/// counts as the empty one.
#[derive(Clone, Copy)]
pub struct Answering<'a> {
    pub operator_first: TokenSet,
    pub questions: &'a [Question],
}

impl<'a> Grammar for Answering<'a> {
    ghost use Rattle.std.specs.Prelude.{[], if◌then◌else◌};
    ghost use Rattle.squawk_kinds.specs.Kinds.{EOF};
    ghost use Rattle.squawk_kinds.specs.TokenSets.{has, no_kinds};

    ghost leaves = { λ _ _ _ _. Unit {0} };

    ghost runs = { λ _ _ _ _. Unit {0} };

    ghost meaning = { λ g. record { operator_first = if has g.operator_first EOF then no_kinds else g.operator_first; names = [] } };

    fn words(&self) -> Words<'_> {
        Words {
            operator_first: without_end(self.operator_first),
            names: &[],
        }
    }

    fn entry_point(&self, p: &mut Parser<'_>) -> Result<(), AllocError> {
        for question in self.questions {
            question.tell(p);
        }
        Ok(())
    }

    fn plpgsql_entry_point(&self, p: &mut Parser<'_>) -> Result<(), AllocError> {
        self.entry_point(p)
    }
}
