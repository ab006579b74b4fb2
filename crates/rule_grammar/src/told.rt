//! What a run keeps.
ghost use Rattle.std.specs.Prelude.{◌≡◌, ◌≢◌, None, Some, false, true};
ghost use Rattle.squawk_kinds.specs.Kinds.{TOMBSTONE};
ghost use Rattle.squawk_parser.specs.SomeSteps.{AddsSome};
ghost use Rattle.squawk_parser.specs.State.{IsSound};
ghost use Rattle.rule_grammar.specs.Derivations.{Counts};
ghost use Rattle.rule_grammar.specs.Errors.{is_new_after};

use crate::guard::{Guard, Guarded};
use crate::table::Table;
use squawk_parser::{Parser, SyntaxKind};

/// How many tokens after an error no other one is told.
const QUIET: usize = 3;

/// What a run keeps: the place of its last error, the last place whose token was judged, the kind of the innermost node
/// so far, that of the node that ended last, and what is known of a guard.
#[derive(Drop)]
pub(crate) struct Told {
    place: Option<usize>,
    /// Whether tokens were skipped up to that place.
    has_skipped: bool,
    seen: Option<usize>,
    kind: SyntaxKind,
    ended: SyntaxKind,
    guarded: Guarded,
    /// The symbol of the token at a place.
    symbol: SyntaxKind,
    symbol_at: usize,
}

impl Told {
    /// Nothing is told yet, and the root is to have this kind.
    pub(crate) fn new(root: SyntaxKind) -> Told
        ensures { result.place ≡ None }
    {
        Told {
            place: None,
            has_skipped: false,
            seen: None,
            kind: root,
            ended: SyntaxKind::EOF,
            guarded: Guarded::NOTHING,
            symbol: SyntaxKind::EOF,
            symbol_at: usize::MAX,
        }
    }

    /// The symbol at the position, which is worked out once for each place.
    #[inline(always)]
    pub(crate) fn symbol(&mut self, table: &Table<'_>, p: &Parser<'_>) -> SyntaxKind
        ensures { self.new.place ≡ self.old.place }
    {
        let place = p.position();
        if self.symbol_at != place {
            self.symbol = table.symbol(p);
            self.symbol_at = place;
        }
        self.symbol
    }

    /// Tells an error at the position, unless one stands there or shortly before it.
    pub(crate) fn error(&mut self, message: &str, p: &mut Parser<'_>)
        requires sound { IsSound p.old }
        ensures place { self.new.place ≡ Some p.old.position }
        ensures none { is_new_after self.old.place p.old.position ≡ false → p.new ≡ p.old }
        ensures adds { AddsSome p.old p.new }
        ensures counts { Counts self.old.place self.new.place p.old p.new }
    {
        if self.is_new(p.position()) {
            p.error(message);
        }
    }

    /// Whether an error at a place is told: as yacc's parsers do, none is until [`QUIET`] tokens stand between it and the
    /// last one. From now on the place has one.
    fn is_new(&mut self, place: usize) -> bool
        ensures place { self.new.place ≡ Some place }
        ensures is { result ≡ is_new_after self.old.place place }
    {
        let is_new = match self.place {
            Some(last) => place.saturating_sub(last) > QUIET,
            None => true,
        };
        self.has_skipped = self.has_skipped && self.place == Some(place);
        self.place = Some(place);
        is_new
    }

    /// Notes that a place has an error: up to it tokens were skipped, if it is another than before.
    pub(crate) fn move_to(&mut self, place: usize)
        ensures { self.new.place ≡ Some place }
    {
        self.has_skipped = self.has_skipped || self.place != Some(place);
        self.place = Some(place);
    }

    /// Whether an error was told of the token at a place.
    pub(crate) fn is_blamed(&self, place: usize) -> bool {
        self.has_error_at(place) && !self.has_skipped
    }

    /// Whether the token at a place was judged already, or an error was told at it.
    #[inline(always)]
    pub(crate) fn is_settled(&self, place: usize) -> bool {
        self.seen == Some(place) || self.has_error_at(place)
    }

    /// Whether an error was told at a place.
    pub(crate) fn has_error_at(&self, place: usize) -> bool
        ensures { result ≡ true → self.now.place ≡ Some place }
    {
        self.place == Some(place)
    }

    /// Notes that the token at a place is judged.
    pub(crate) fn settle(&mut self, place: usize)
        ensures { self.new.place ≡ self.old.place }
    {
        self.seen = Some(place);
    }

    /// Enters a node that is to have this kind. Returns the kind of the node around it.
    #[inline(always)]
    pub(crate) fn enter(&mut self, kind: SyntaxKind) -> SyntaxKind
        ensures { self.new.place ≡ self.old.place }
    {
        let outer = self.kind;
        self.kind = kind;
        outer
    }

    /// Leaves a node for the one around it. Returns the kind of the node.
    #[inline(always)]
    pub(crate) fn leave(&mut self, outer: SyntaxKind) -> SyntaxKind
        ensures kind { result ≢ TOMBSTONE }
        ensures place { self.new.place ≡ self.old.place }
    {
        let kind = match self.kind {
            SyntaxKind::TOMBSTONE => SyntaxKind::ERROR,
            kind => kind,
        };
        self.kind = outer;
        self.ended = kind;
        kind
    }

    /// The kind of the node that ended last.
    pub(crate) fn ended(&self) -> SyntaxKind {
        self.ended
    }

    /// The innermost node gets this kind.
    pub(crate) fn becomes(&mut self, kind: SyntaxKind)
        ensures { self.new.place ≡ self.old.place }
    {
        self.kind = kind;
    }

    /// Whether a guard holds at the position.
    pub(crate) fn holds(&mut self, table: &Table<'_>, guard: Guard, p: &Parser<'_>) -> bool
        ensures { self.new.place ≡ self.old.place }
    {
        self.guarded.holds(table, guard, p)
    }
}
