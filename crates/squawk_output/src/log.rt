//! The log of events in which a parser records. What is inlined runs for each event.
ghost use Rattle.std.specs.Prelude.{ℕ, ◌≡◌, ◌≢◌, ◌+◌, ◌<◌, ◌≤◌, ◌∷◌, ◌++◌, ◌^◌, [], false, true, map, Contains, IfOk, OnOk, OnErr, length};
ghost use Rattle.squawk_kinds.specs.Kinds.{TOMBSTONE};
ghost use Rattle.squawk_output.specs.Draft.{OpenMarker, IsLogged, Open, errors_of, nothing, plain};
ghost use Rattle.squawk_output.specs.Edits as spec;
ghost use Rattle.squawk_output.specs.Edits.{abandoned, completed, extended, preceded, started, with_error, with_token};
ghost use Rattle.squawk_output.specs.LogDraft.{HasOpenMarkerOf, HasNodeOf};
ghost use Rattle.squawk_output.specs.StoredEvents.{HaveEventTexts, is_open_event, log_in};
ghost use Rattle.squawk_output.specs.declared.event.Event.{Event};

pub(crate) mod packed_event;

use crate::output::{Output, Text};
use crate::pass::pass;
use packed_event::PackedEvent;
use squawk_kinds::SyntaxKind;
use std::alloc::{AllocError, Global};
use std::marker::Model;

/// How an open marker was made: by which call of the parser.
#[derive(Clone, Copy, Debug)]
pub enum Made {
    /// At the end.
    ByStart,
    /// In front of a completed node.
    ByPrecede,
}

/// What a parser has recorded, as a log of events, of eight bytes each.
///
/// Contracts see it as a draft, in which every node begins where it begins in the output. An open marker is an item of
/// the draft, until it is completed or abandoned. An id is the index of an event; an event that was removed frees its
/// index.
///
/// The events of open and of abandoned markers differ. No code reads the difference, but contracts do.
#[derive(Drop)]
pub struct EventLog {
    events: Vec<PackedEvent>,
    /// The texts of the errors, at their numbers.
    errors: Vec<Text>,
    recorded: u32,
}

impl Model for EventLog {
    ghost use Rattle.squawk_output.specs.Draft.{Draft};
    ghost use Rattle.squawk_output.specs.KeptLogs.{IsKeptRecord, draft_in};

    ghost Value = { Draft };

    ghost view = { λ log. draft_in log.errors.items log.events.items log.recorded };

    ghost invariant = { λ log. IsKeptRecord log.errors.items log.events.items log.recorded };
}

impl EventLog {
    /// An empty log, with room for `events` events if that allocation succeeds.
    pub fn with_room(alloc: Global, events: usize) -> EventLog
        ensures { result ≡ nothing }
    {
        let events = match Vec::with_capacity(alloc, events) {
            Ok(events) => events,
            Err(AllocError) => Vec::new(alloc),
        };
        EventLog {
            events,
            errors: Vec::new(alloc),
            recorded: 0,
        }
    }

    /// The number of recorded events.
    pub fn recorded(&self) -> u32
        ensures { result ≡ self.now.recorded }
    {
        self.recorded
    }

    /// The number of recorded errors.
    pub fn errors(&self) -> u32
        ensures { result ≡ errors_of self.now.items }
    {
        self.errors.len() as u32
    }

    /// The id of the next open marker: the number of entries.
    pub fn next_id(&self) -> u32
        ensures id { result ≡ self.now.entries }
        ensures logged { IsLogged self.now }
    {
        self.events.len() as u32
    }

    /// Appends an open marker.
    #[inline(always)]
    pub fn start(&mut self) -> Result<(), AllocError>
        requires { self.old.recorded + 1 < 2 ^ 32 }
        ensures ok { OnOk result (self.new ≡ started self.old) }
        ensures err { OnErr result (self.new ≡ self.old) }
        ensures logged { IsLogged self.new }
    {
        self.events.push(PackedEvent::open_marker())?;
        self.recorded += 1;
        Ok(())
    }

    /// Makes the open marker the opening of a node, and appends the closing.
    #[inline(always)]
    pub fn complete(&mut self, id: u32, kind: SyntaxKind) -> Result<(), AllocError>
        requires open_marker { HasOpenMarkerOf self.old.items id }
        requires kind { kind ≢ TOMBSTONE }
        requires room { self.old.recorded + 1 < 2 ^ 32 }
        ensures ok { OnOk result (self.new ≡ completed self.old id kind) }
        ensures err { OnErr result (self.new ≡ self.old) }
        ensures logged { IsLogged self.new }
    {
        self.events.push(PackedEvent::finish())?;
        self.events[id as usize] = PackedEvent::start(kind);
        self.recorded += 1;
        Ok(())
    }

    /// Appends a token.
    #[inline(always)]
    pub fn token(&mut self, kind: SyntaxKind, n_raw_tokens: u8) -> Result<(), AllocError>
        requires { self.old.recorded + 1 < 2 ^ 32 }
        ensures ok { OnOk result (self.new ≡ with_token self.old kind n_raw_tokens) }
        ensures err { OnErr result (self.new ≡ self.old) }
        ensures logged { IsLogged self.new }
    {
        self.events.push(PackedEvent::token(kind, n_raw_tokens))?;
        self.recorded += 1;
        Ok(())
    }

    /// Appends an error.
    pub fn error(&mut self, msg: Text) -> Result<(), AllocError>
        requires { self.old.recorded + 1 < 2 ^ 32 }
        ensures ok { OnOk result (self.new ≡ with_error self.old msg) }
        ensures err { OnErr result (self.new ≡ self.old) }
        ensures logged { IsLogged self.new }
    {
        push_error(&mut self.events, &mut self.errors, msg)?;
        self.recorded += 1;
        Ok(())
    }

    /// Puts an open marker directly before the opening of a node of this kind, which can't be preceded again.
    pub fn precede(&mut self, node: u32, kind: SyntaxKind) -> Result<(), AllocError>
        requires node { Contains self.old.items (Open node kind true) }
        requires room { self.old.recorded + 1 < 2 ^ 32 }
        ensures ok { OnOk result (self.new ≡ preceded self.old node) }
        ensures err { OnErr result (self.new ≡ self.old) }
        ensures logged { IsLogged self.new }
    {
        let open_marker = PackedEvent::open_marker();
        let link = (self.events.len() - node as usize) as u32;
        self.events.push(open_marker)?;
        self.events[node as usize] = PackedEvent::linked(kind, link);
        self.recorded += 1;
        Ok(())
    }

    /// Removes the open marker, and its event too, if that is the last one and was made by a start.
    pub fn abandon(&mut self, id: u32, made: Made)
        requires { Contains self.old.items (OpenMarker id made) }
        ensures abandoned { self.new ≡ abandoned self.old id }
        ensures logged { IsLogged self.new }
    {
        if is_last_start(self.events.len(), id, made) {
            let _ = self.events.pop();
        } else {
            self.events[id as usize] = PackedEvent::tombstone();
        }
    }

    /// Moves the opening of a node to the open marker's position, if that stands before it, and removes the open marker.
    /// The open marker is older than the node's.
    pub fn extend(&mut self, node: u32, id: u32)
        requires node { HasNodeOf self.old.items node }
        requires open_marker { HasOpenMarkerOf self.old.items id }
        requires older { id < node }
        ensures extended { (kind : ℕ) → Contains self.old.items (Open node kind true) → self.new ≡ extended self.old (record { id = node; kind = kind }) id }
        ensures logged { IsLogged self.new }
    {
        let start = &mut self.events[id as usize];
        *start = PackedEvent::linked(SyntaxKind::TOMBSTONE, node - id);
    }

    /// The output of the log, made in one pass: the items without the open markers.
    pub fn finish(self, alloc: Global) -> Result<Output, AllocError>
        requires { errors_of self.items ≤ 2147483648 }
        ensures output { IfOk result (λ o. o ≡ record { steps = plain self.items; recorded = self.recorded; turns = self.turns_due }) }
        ensures logged { IsLogged self }
    {
        let EventLog {
            events,
            errors,
            recorded,
        } = self;
        pass(alloc, events, errors, recorded)
    }
}

/// Whether the event of an open marker is the last of `entries`, and the open marker was made by a start.
fn is_last_start(entries: usize, id: u32, made: Made) -> bool
    ensures { result ≡ spec.is_last_start entries (OpenMarker id made) }
{
    match made {
        Made::ByStart => id as usize + 1 == entries,
        Made::ByPrecede => false,
    }
}

/// Appends an error to the events and its text to the texts, or neither.
pub(crate) fn push_error(
    events: &mut Vec<PackedEvent>,
    errors: &mut Vec<Text>,
    msg: Text,
) -> Result<(), AllocError>
    requires few { length errors.old.items + 1 < 2 ^ 32 }
    requires texts { HaveEventTexts errors.old.items events.old.items }
    ensures events { OnOk result (log_in errors.new.items events.new.items ≡ log_in errors.old.items events.old.items ++ Event.Error msg ∷ []) }
    ensures marks { OnOk result (map is_open_event events.new.items ≡ map is_open_event events.old.items ++ false ∷ []) }
    ensures texts { HaveEventTexts errors.new.items events.new.items }
    ensures count { OnOk result (length errors.new.items ≡ length errors.old.items + 1) }
    ensures err { OnErr result ((events.new.items ≡ events.old.items) × (errors.new.items ≡ errors.old.items)) }
{
    events.reserve(1)?;
    let number = errors.len() as u32;
    errors.push(msg)?;
    events.push_reserved(PackedEvent::error(number));
    Ok(())
}
