//! Events, and the output of a log of them.
ghost use Rattle.std.specs.Prelude.{◌≡◌, ◌+◌, ◌<◌, ◌≤◌, ◌^◌, ◌∷◌, ◌++◌, [], length, IfOk, OnErr, OnOk};
ghost use Rattle.squawk_output.specs.EventLog.{LinksLead, errors_logged, list_of, turns_of};
ghost use Rattle.squawk_output.specs.StoredEvents.{HaveEventTexts, LeadsOn, Start, log_in};

use crate::log::packed_event::PackedEvent;
use crate::log::push_error;
use crate::output::{Output, Text};
use crate::pass::pass;
use squawk_kinds::SyntaxKind;
use std::alloc::{AllocError, Global};
use std::marker::Model;

/// An event of a parse.
///
/// `CompletedMarker::precede` begins a node's parent when the node is complete. The parent's `Start` then
/// stands behind the node's, and the node's `Start` has a link to it, the forward parent: the difference of
/// their indices in the log. Here B precedes A:
///
/// ```text
///  0        1   2        3        4   5                 B
///  Start A  a   Finish   Start B  b   Finish          /   \
///     |                     ^                        A     b
///     +------ link 3 -------+                        |
///                                                    a
/// ```
///
/// `CompletedMarker::extend_to` makes a node begin earlier, where an older marker was started. The marker's
/// `Start` then begins no node, and has a link to the node's:
///
/// ```text
///  0                1   2        3   4                  N
///  Start TOMBSTONE  a   Start N  b   Finish           /   \
///     |                    ^                         a     b
///     +------ link 2 ------+
/// ```
#[derive(Debug, Drop)]
pub enum Event {
    /// The beginning of a node; of none, if the kind is `TOMBSTONE`. `forward_parent` is by how many events
    /// the `Start` of the node's parent stands behind this one, if it does.
    Start {
        kind: SyntaxKind,
        forward_parent: Option<u32>,
    },
    /// The end of a node.
    Finish,
    /// A token of a kind, made of `n_raw_tokens` input tokens.
    Token {
        kind: SyntaxKind,
        n_raw_tokens: u8,
    },
    /// An error, with its text.
    Error {
        msg: Text,
    },
}

/// The output of a log of events. Its [`Output::recorded`] is `recorded`.
///
/// Each event gives its step where it stands; a `Start` of `TOMBSTONE` gives none. If a `Start` has a link,
/// all nodes along the links begin there, the farthest first, and none begins where those stand. If links
/// from two events lead to one `Start`, its node begins at the first of them. Every link leads to a later
/// `Start`, and the log has at most `u32::MAX` events, of which at most 2^31 are errors.
///
/// A turn is an event visited, a link followed, or a kind taken of those that a visit has found. An event
/// that a link has reached is visited, too. The turns are one for each event, one for each `Start`, and two
/// for each link.
pub fn process(alloc: Global, events: Vec<Event>, recorded: u32) -> Result<Output, AllocError>
    requires few { length events.items < 2 ^ 32 }
    requires links { LinksLead events.items }
    requires errors { errors_logged events.items ≤ 2147483648 }
    ensures { IfOk result (λ output. output ≡ record { steps = list_of events.items; recorded = recorded; turns = turns_of events.items }) }
{
    let mut list = EventList::with_capacity(alloc, events.len())?;
    for event in events {
        list.push(event)?;
    }
    list.process(alloc, recorded)
}

/// A log of events that come one by one, in eight bytes each.
#[derive(Drop)]
pub struct EventList {
    stored: Vec<PackedEvent>,
    /// The texts of the errors, at their numbers.
    errors: Vec<Text>,
}

impl Model for EventList {
    ghost use Rattle.squawk_output.specs.EventLog.{Log};
    ghost use Rattle.squawk_output.specs.StoredEvents.{AreStored, log_in};

    ghost Value = { Log };

    ghost view = { λ list. log_in list.errors.items list.stored.items };

    ghost invariant = { λ list. AreStored list.errors.items list.stored.items };
}

impl EventList {
    /// A log without events, with room for `events` of them.
    pub fn with_capacity(alloc: Global, events: usize) -> Result<EventList, AllocError>
        ensures { IfOk result (λ list. list ≡ []) }
    {
        Ok(EventList {
            stored: Vec::with_capacity(alloc, events)?,
            errors: Vec::new(alloc),
        })
    }

    /// Appends an event. Its link, if it has one, leads forward, and not past the last index of a log.
    #[inline(always)]
    pub fn push(&mut self, event: Event) -> Result<(), AllocError>
        requires leads { LeadsOn event }
        requires few { length self.old + 1 < 2 ^ 32 }
        ensures ok { OnOk result (self.new ≡ self.old ++ event ∷ []) }
        ensures err { OnErr result (self.new ≡ self.old) }
    {
        store(&mut self.stored, &mut self.errors, event)
    }

    /// The output of the log, as [`process`] makes it.
    pub fn process(self, alloc: Global, recorded: u32) -> Result<Output, AllocError>
        requires few { length self < 2 ^ 32 }
        requires links { LinksLead self }
        requires errors { errors_logged self ≤ 2147483648 }
        ensures { IfOk result (λ output. output ≡ record { steps = list_of self; recorded = recorded; turns = turns_of self }) }
    {
        let EventList { stored, errors } = self;
        pass(alloc, stored, errors, recorded)
    }
}

/// Appends an event to the log, and the text of an error to the texts, or neither.
#[inline(always)]
fn store(
    events: &mut Vec<PackedEvent>,
    errors: &mut Vec<Text>,
    event: Event,
) -> Result<(), AllocError>
    requires leads { LeadsOn event }
    requires few { length errors.old.items + 1 < 2 ^ 32 }
    requires texts { HaveEventTexts errors.old.items events.old.items }
    ensures events { IfOk result (λ _. log_in errors.new.items events.new.items ≡ log_in errors.old.items events.old.items ++ event ∷ []) }
    ensures texts { IfOk result (λ _. HaveEventTexts errors.new.items events.new.items) }
    ensures errors { IfOk result (λ _. length errors.new.items ≡ length errors.old.items + errors_logged (event ∷ [])) }
    ensures err { OnErr result ((events.new.items ≡ events.old.items) × (errors.new.items ≡ errors.old.items)) }
{
    match event {
        Event::Start {
            kind,
            forward_parent,
        } => {
            let link = forward_parent.unwrap_or(0);
            events.push(start(kind, link))?;
        }
        Event::Finish => events.push(PackedEvent::finish())?,
        Event::Token { kind, n_raw_tokens } => {
            events.push(PackedEvent::token(kind, n_raw_tokens))?;
        }
        Event::Error { msg } => return push_error(events, errors, msg),
    }
    Ok(())
}

/// A `Start` with this link, or without one if that is 0.
fn start(kind: SyntaxKind, link: u32) -> PackedEvent
    requires { link + 1 < 2 ^ 32 }
    ensures { result ≡ Start kind link }
{
    if link > 0 {
        return PackedEvent::linked(kind, link);
    }
    if kind == SyntaxKind::TOMBSTONE {
        return PackedEvent::tombstone();
    }
    PackedEvent::start(kind)
}
