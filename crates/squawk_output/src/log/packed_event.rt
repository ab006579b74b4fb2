//! Events as a log keeps them. What is inlined runs for each event.
ghost use Rattle.std.specs.Prelude.{◌≡◌, ◌≢◌, ℕ, List, ◌<◌, ◌+◌, ◌^◌, IfSome, is_some};
ghost use Rattle.squawk_kinds.specs.Kinds.{TOMBSTONE};
ghost use Rattle.squawk_output.specs.Chain.{forward_parent, node_kind};
ghost use Rattle.squawk_output.specs.PackedEvents.{IsPlain, IsStarting, is_aside, is_error, is_plain, plain_event};
ghost use Rattle.squawk_output.specs.StoredEvents.{Error, Finish, OpenMarker, Start, Token, event_of, link_of};
ghost use Rattle.squawk_output.specs.StoredSteps.{unpacked};

use crate::output::stored::StoredStep;
use squawk_kinds::SyntaxKind;
use std::marker::Model;

/// The operand of an event that gives no step. No link has this distance: a log has fewer events.
const ASIDE: u32 = u32::MAX;

/// The word of an open marker: with the kind TOMBSTONE, which no node has, and a tag that isn't an opening's.
const OPEN_MARKER: u32 = 0x0001_0001;

/// An event in eight bytes, ready for the pass.
///
/// | event | `word` | `operand` |
/// |---|---|---|
/// | a token, the end of a node, a `Start` of a node without a link | that of its step | 0 |
/// | a `Start` with a link | that of its opening | by how many events the link leads forward |
/// | a `Start` of TOMBSTONE, without a link | that of its opening | `ASIDE` |
/// | an open marker | `OPEN_MARKER` | `ASIDE` |
/// | an error | 0 | one more than its number |
///
/// So an event with operand 0 gives exactly the step of its word, where it stands.
#[derive(Drop)]
pub(crate) struct PackedEvent {
    word: u32,
    operand: u32,
}

impl Model for PackedEvent {
    ghost use Rattle.squawk_output.specs.StoredEvents.{StoredEvent};

    ghost Value = { StoredEvent };

    ghost use Rattle.squawk_output.specs.PackedEvents.{IsPacked, event_in};

    ghost view = { λ e. event_in e.word e.operand };

    ghost invariant = { λ e. IsPacked e.word e.operand };
}

impl PackedEvent {
    /// An open marker.
    #[inline(always)]
    pub(crate) fn open_marker() -> PackedEvent
        ensures { result ≡ OpenMarker }
    {
        PackedEvent {
            word: OPEN_MARKER,
            operand: ASIDE,
        }
    }

    /// The `Start` of TOMBSTONE, without a link.
    #[inline(always)]
    pub(crate) fn tombstone() -> PackedEvent
        ensures { result ≡ Start TOMBSTONE 0 }
    {
        PackedEvent {
            word: StoredStep::Enter {
                kind: SyntaxKind::TOMBSTONE,
            }
            .pack(),
            operand: ASIDE,
        }
    }

    /// The beginning of a node, without a link.
    #[inline(always)]
    pub(crate) fn start(kind: SyntaxKind) -> PackedEvent
        requires { kind ≢ TOMBSTONE }
        ensures { result ≡ Start kind 0 }
    {
        PackedEvent {
            word: StoredStep::Enter { kind }.pack(),
            operand: 0,
        }
    }

    /// A `Start` whose link leads forward by `distance` events.
    #[inline(always)]
    pub(crate) fn linked(kind: SyntaxKind, distance: u32) -> PackedEvent
        requires leads { 0 < distance }
        requires near { distance + 1 < 2 ^ 32 }
        ensures { result ≡ Start kind distance }
    {
        PackedEvent {
            word: StoredStep::Enter { kind }.pack(),
            operand: distance,
        }
    }

    /// The end of a node.
    #[inline(always)]
    pub(crate) fn finish() -> PackedEvent
        ensures { result ≡ Finish }
    {
        PackedEvent {
            word: StoredStep::Exit.pack(),
            operand: 0,
        }
    }

    /// A token.
    #[inline(always)]
    pub(crate) fn token(kind: SyntaxKind, n_raw_tokens: u8) -> PackedEvent
        ensures { result ≡ Token kind n_raw_tokens }
    {
        PackedEvent {
            word: StoredStep::Token {
                kind,
                n_input_tokens: n_raw_tokens,
            }
            .pack(),
            operand: 0,
        }
    }

    /// The error with this number.
    #[inline(always)]
    pub(crate) fn error(number: u32) -> PackedEvent
        requires { number + 1 < 2 ^ 32 }
        ensures { result ≡ Error number }
    {
        PackedEvent {
            word: 0,
            operand: number + 1,
        }
    }

    /// The word of the step that the event gives, if it gives exactly one, where it stands.
    #[inline(always)]
    pub(crate) fn plain_word(&self) -> Option<u32>
        ensures word { IfSome result (λ word. IsPlain word × (self.now ≡ plain_event (unpacked word))) }
        ensures plain { is_some result ≡ is_plain self.now }
    {
        if self.operand == 0 {
            Some(self.word)
        } else {
            None
        }
    }

    /// The number of an error.
    #[inline(always)]
    pub(crate) fn error_number(&self) -> Option<u32>
        ensures number { IfSome result (λ number. self.now ≡ Error number) }
        ensures error { is_some result ≡ is_error self.now }
    {
        if self.word == 0 {
            Some(self.operand - 1)
        } else {
            None
        }
    }

    /// Whether the event gives no step. An event that a link has reached becomes such a one.
    #[inline(always)]
    pub(crate) fn is_aside(&self) -> bool
        ensures { result ≡ is_aside self.now }
    {
        self.operand == ASIDE && self.word != 0
    }

    /// The kind of a `Start`: TOMBSTONE for an open marker.
    #[inline(always)]
    pub(crate) fn kind(&self) -> SyntaxKind
        requires { IsStarting self.now }
        ensures { (texts : List (List ℕ)) → node_kind (event_of texts self.now) ≡ result }
    {
        SyntaxKind((self.word >> 16) as u16)
    }

    /// By how many events the link of a `Start` leads forward, or 0.
    #[inline(always)]
    pub(crate) fn distance(&self) -> u32
        requires { IsStarting self.now }
        ensures { (texts : List (List ℕ)) → forward_parent (event_of texts self.now) ≡ link_of result }
    {
        if self.operand == ASIDE {
            0
        } else {
            self.operand
        }
    }
}

#[cfg(test)]
mod tests {
    use super::PackedEvent;
    use std::mem::size_of;

    #[test]
    fn an_event_has_eight_bytes(rt: HostRuntime) {
        assert_eq!(rt; size_of::<PackedEvent>(), 8);
    }
}
