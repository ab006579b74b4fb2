//! The pass that makes an output of a log of events. What is inlined runs for each event.
ghost use Rattle.std.specs.Prelude.{◌≡◌, ◌<◌, ◌≤◌, ◌+◌, ◌*◌, ◌^◌, length, not, slice_index_or, true, IfOk, IsTrue, ◌++◌, []};
ghost use Rattle.squawk_output.specs.Chain.{entered_back};
ghost use Rattle.squawk_output.specs.EventLog.{LinksLead, entering, has_link, list_of, steps_of_event, turns_of};
ghost use Rattle.squawk_output.specs.Pass.{GivesPlain, HasRoom, Visits, VisitsTo};
ghost use Rattle.squawk_output.specs.StoredEvents.{HasEventText, HaveEventTexts, event_of, log_in};
ghost use Rattle.squawk_output.specs.declared.event.Event.{Event};

use crate::log::packed_event::PackedEvent;
use crate::output::builder::OutputBuilder;
use crate::output::stored::StoredStep;
use crate::output::{Output, Text};
use squawk_kinds::SyntaxKind;
use std::alloc::{AllocError, Global};

/// The output of events whose errors have these texts.
///
/// The errors keep their numbers, so the output takes the texts as they are. A log has at most as many steps
/// as events, so room for all is reserved at once.
pub(crate) fn pass(
    alloc: Global,
    mut events: Vec<PackedEvent>,
    errors: Vec<Text>,
    recorded: u32,
) -> Result<Output, AllocError>
    requires few { length events.items < 2 ^ 32 }
    requires links { LinksLead (log_in errors.items events.items) }
    requires texts { HaveEventTexts errors.items events.items }
    requires errors { length errors.items ≤ 2147483648 }
    ensures { IfOk result (λ output. output ≡ record { steps = list_of (log_in errors.items events.items); recorded = recorded; turns = turns_of (log_in errors.items events.items) }) }
{
    let mut builder = OutputBuilder::with_capacity(alloc, events.len(), errors)?;
    let mut kinds = Vec::new(alloc);
    let mut index = 0;
    while index < events.len() {
        index = visit_plain(&events, &mut builder, index);
        if index < events.len() {
            visit_linked(&mut events, &mut kinds, &mut builder, index)?;
            index += 1;
        }
    }
    Ok(Output::new(builder, recorded))
}

/// Visits events from an index on, up to one with a link, and returns that one's index, or the log's length.
fn visit_plain(events: &[PackedEvent], builder: &mut OutputBuilder, index: usize) -> usize
    requires few { length events.now < 2 ^ 32 }
    requires turns { builder.old.turns < 2 ^ 35 }
    requires within { index ≤ length events.now }
    requires texts { HaveEventTexts builder.old.texts events.now }
    requires errors { length builder.old.texts ≤ 2147483648 }
    requires room { HasRoom (log_in builder.old.texts events.now) builder.old index }
    ensures visits { VisitsTo (log_in builder.old.texts events.now) builder.old builder.new index result }
    ensures stops { result < length events.now
        → has_link (slice_index_or (log_in builder.old.texts events.now) result Event.Finish) ≡ true }
{
    let mut at = index;
    while at < events.len() && gives_plain(&events[at], builder) {
        at += 1;
    }
    at
}

/// Visits an event, unless it has a link, and returns whether it did.
#[inline(always)]
fn gives_plain(event: &PackedEvent, builder: &mut OutputBuilder) -> bool
    requires turns { builder.old.turns + 2 < 2 ^ 64 }
    requires text { HasEventText builder.old.texts event.now }
    requires errors { length builder.old.texts ≤ 2147483648 }
    requires room { length builder.old.steps + length (steps_of_event (event_of builder.old.texts event.now)) ≤ builder.old.room }
    ensures visits { result ≡ not (has_link (event_of builder.old.texts event.now)) }
    ensures gives { IsTrue result → GivesPlain (event_of builder.old.texts event.now) builder.old builder.new }
    ensures stays { IsTrue (not result) → builder.new ≡ builder.old }
{
    if let Some(word) = event.plain_word() {
        builder.put_plain(word);
        return true;
    }
    if let Some(number) = event.error_number() {
        builder.put_error(number);
        return true;
    }
    if event.is_aside() {
        builder.pass_by();
        return true;
    }
    false
}

/// Visits the event at an index, which has a link, and follows the links from there.
///
/// The events to which they lead become tombstones. The event itself stays, since the pass doesn't come back
/// to it.
#[inline(never)]
fn visit_linked(
    events: &mut Vec<PackedEvent>,
    kinds: &mut Vec<SyntaxKind>,
    builder: &mut OutputBuilder,
    index: usize,
) -> Result<(), AllocError>
    requires few { length events.old.items < 2 ^ 32 }
    requires turns { builder.old.turns < 2 ^ 35 }
    requires within { index < length events.old.items }
    requires links { LinksLead (log_in builder.old.texts events.old.items) }
    requires texts { HaveEventTexts builder.old.texts events.old.items }
    requires room { HasRoom (log_in builder.old.texts events.old.items) builder.old index }
    requires linked { has_link (slice_index_or (log_in builder.old.texts events.old.items) index Event.Finish) ≡ true }
    requires none { kinds.old.items ≡ [] }
    ensures visits { IfOk result (λ _. Visits (log_in builder.old.texts events.old.items) builder.old (log_in builder.old.texts events.new.items) builder.new index) }
    ensures texts { IfOk result (λ _. HaveEventTexts builder.old.texts events.new.items) }
    ensures none { IfOk result (λ _. kinds.new.items ≡ []) }
{
    builder.turn();
    let mut at = index;
    let event = &events[at];
    let mut next = event.distance();
    kinds.push(event.kind())?;
    while next > 0 {
        builder.turn();
        at += next as usize;
        let event = &events[at];
        let kind = event.kind();
        next = event.distance();
        events[at] = PackedEvent::tombstone();
        kinds.push(kind)?;
    }
    enter_all(builder, kinds);
    Ok(())
}

/// Takes the kinds, from the last to the first, and enters a node of each.
fn enter_all(builder: &mut OutputBuilder, kinds: &mut Vec<SyntaxKind>)
    requires turns { builder.old.turns + length kinds.old.items < 2 ^ 64 }
    requires room { length builder.old.steps + length (entered_back kinds.old.items) ≤ builder.old.room }
    ensures kinds { kinds.new.items ≡ [] }
    ensures builder { builder.new ≡ record builder.old { steps = builder.old.steps ++ entered_back kinds.old.items; turns = builder.old.turns + length kinds.old.items } }
{
    while let Some(kind) = kinds.pop() {
        builder.turn();
        enter(builder, kind);
    }
}

/// Enters a node of the kind, unless that is TOMBSTONE.
fn enter(builder: &mut OutputBuilder, kind: SyntaxKind)
    requires room { length builder.old.steps + length (entering kind) ≤ builder.old.room }
    ensures { builder.new ≡ record builder.old { steps = builder.old.steps ++ entering kind } }
{
    if kind != SyntaxKind::TOMBSTONE {
        builder.put(StoredStep::Enter { kind }.pack());
    }
}
