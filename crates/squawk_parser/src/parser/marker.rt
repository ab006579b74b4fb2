//! Markers of open nodes, and of completed ones. What is inlined runs at each node.
ghost use Rattle.std.specs.Prelude.{◌≡◌, ◌≢◌, ◌<◌, ◌↔◌, IsTrue};
ghost use Rattle.squawk_kinds.specs.Kinds.{TOMBSTONE};
ghost use Rattle.squawk_output.specs.Edits.{abandoned, extended};
ghost use Rattle.squawk_parser.specs.Recorded.{Completes, Precedes};
ghost use Rattle.squawk_parser.specs.SomeSteps.{ClosesNode, EndsFile, OpensBefore, Spends};
ghost use Rattle.squawk_parser.specs.State.{Changes, HasOpenMarker, HasNode, HasNotFailed};

use crate::parser::Parser;
use crate::parser::recording::fail_if_refused;
use squawk_kinds::SyntaxKind;
use squawk_output::Made;
use std::marker::Model;

/// An open node, which has no kind yet.
///
/// A marker must be completed, abandoned or extended to: it can't be dropped.
pub struct Marker {
    pub(super) id: u32,
    pub(super) made: Made,
}

impl Model for Marker {
    ghost use Rattle.squawk_output.specs.Draft.{Mark};

    ghost Value = { Mark };

    ghost view = { λ m. record { id = m.id; made = m.made } };
}

/// A completed node, which has a kind and an end.
#[derive(Debug, Drop)]
pub struct CompletedMarker {
    id: u32,
    kind: SyntaxKind,
}

impl Model for CompletedMarker {
    ghost use Rattle.squawk_output.specs.Draft.{Node};

    ghost Value = { Node };

    ghost view = { λ m. record { id = m.id; kind = m.kind } };
}

impl Marker {
    /// Completes the node: it ends here and has this kind.
    ///
    /// If markers are completed in the order of nesting, the node has all that was recorded since this one was
    /// started. The kind isn't [`SyntaxKind::TOMBSTONE`]. The marker is open in the parser's draft, or the
    /// parser has failed.
    #[inline(always)]
    pub fn complete(self, p: &mut Parser<'_>, kind: SyntaxKind) -> CompletedMarker
        requires open_marker { HasOpenMarker p.old self }
        requires kind { kind ≢ TOMBSTONE }
        ensures node { result ≡ record { id = self.id; kind = kind } }
        ensures completes { Completes self.id kind p.old p.new }
        ensures closes { ClosesNode self result p.old p.new }
        ensures file { EndsFile self p.old p.new }
        ensures at_hand { HasNode p.new result }
        ensures spends { Spends 0 1 p.old p.new }
    {
        let Marker { id, made: _ } = self;
        if p.has_room() {
            fail_if_refused(&mut p.first_reason, p.log.complete(id, kind));
        }
        p.witness_sound();
        CompletedMarker { id, kind }
    }

    /// Abandons the marker: what was recorded since it was started stays where it is.
    ///
    /// This allocates nothing, and never makes a parser fail. The marker is open in the parser's draft, or the
    /// parser has failed.
    pub fn abandon(self, p: &mut Parser<'_>)
        requires { HasOpenMarker p.old self }
        ensures { Changes p.old p.new (abandoned p.old.draft self.id) }
    {
        let Marker { id, made } = self;
        if p.first_reason.is_none() {
            p.log.abandon(id, made);
        }
        p.witness_sound();
    }

    /// Whether the marker was started before the node's.
    ///
    /// Meaningless for markers that a failed parser returned.
    pub fn started_before(&self, node: &CompletedMarker) -> bool
        ensures { IsTrue result ↔ (self.now.id < node.now.id) }
    {
        self.id < node.id
    }
}

impl CompletedMarker {
    /// Starts a node in front of this one, as its parent.
    ///
    /// [`squawk_output::Event`] draws the link to it, the forward parent. A node can be preceded once: it is
    /// in the parser's draft and hasn't been preceded, or the parser has failed.
    pub fn precede(self, p: &mut Parser<'_>) -> Marker
        requires { HasNode p.old self }
        ensures precedes { Precedes self result p.old p.new }
        ensures opens { OpensBefore self result p.old p.new }
        ensures open_marker { HasOpenMarker p.new result }
        ensures spends { Spends 0 1 p.old p.new }
    {
        let CompletedMarker { id: node, kind } = self;
        let id = p.next_id();
        if p.has_room() {
            fail_if_refused(&mut p.first_reason, p.log.precede(node, kind));
        }
        p.witness_sound();
        let made = Made::ByPrecede;
        Marker { id, made }
    }

    /// Extends the node to the left: it begins where the marker was started, and the marker is gone.
    ///
    /// [`squawk_output::Event`] draws the link from the marker to the node. This allocates nothing, and never
    /// makes a parser fail. The node is in the parser's draft and hasn't been preceded, and the marker is open
    /// there and was started before the node's; or the parser has failed.
    pub fn extend_to(self, p: &mut Parser<'_>, m: Marker) -> CompletedMarker
        requires node { HasNode p.old self }
        requires open_marker { HasOpenMarker p.old m }
        requires older { HasNotFailed p.old → m.id < self.id }
        ensures node { result ≡ self }
        ensures changes { Changes p.old p.new (extended p.old.draft self m.id) }
        ensures at_hand { HasNode p.new result }
    {
        let CompletedMarker { id: node, kind } = self;
        let Marker { id, made: _ } = m;
        if p.first_reason.is_none() {
            p.log.extend(node, id);
        }
        p.witness_sound();
        CompletedMarker { id: node, kind }
    }

    /// The kind of the node.
    pub fn kind(&self) -> SyntaxKind
        ensures { result ≡ self.now.kind }
    {
        self.kind
    }
}
