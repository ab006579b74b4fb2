//! Events as numbers.
ghost use Rattle.std.specs.Prelude.{◌≡◌, ◌==◌, ◌≤◌, length, map, option_map, IfOk, IfErr, MatchOption, None, Some, if◌then◌else◌};
ghost use Rattle.squawk_output.specs.EventLog.{LinksLead};
ghost use Rattle.caliperdock_c.specs.Events.{event_of, log_of, message_in};
ghost use Rattle.caliperdock_c.specs.Refusals.{IsFirstUnknown, RefusesLog};

use crate::answer::Refusal;
use crate::links::lands;
use squawk_parser::{Event, EventList, SyntaxKind, Text};
use std::alloc::{AllocError, Global};

/// An event as numbers: 0 a start of a kind, with how many places further on its parent's start is
/// in `a`, or 0; 1 a finish; 2 a token of a kind, with how many raw tokens it has in `a`; 3 an error,
/// whose message is the bytes from `a` to `b` of the messages. Fields that the event doesn't have
/// aren't read.
#[repr(C)]
#[derive(Clone, Copy)]
pub struct CEvent {
    pub tag: u16,
    pub kind: u16,
    pub a: u32,
    pub b: u32,
}

/// The most events of a log.
const MOST_EVENTS: usize = 2147483648;

/// The log that is written so, whose links lead to later starts.
// Not inlined, so that its locals are in registers.
#[inline(never)]
pub fn log_of(alloc: Global, events: &[CEvent], messages: &[u8]) -> Result<EventList, Refusal>
    ensures few { IfOk result (λ log. length log ≤ 2147483648) }
    ensures log { IfOk result (λ log. map Some log ≡ map (event_of messages.now) events.now) }
    ensures links { IfOk result LinksLead }
    ensures refused { IfErr result (RefusesLog messages.now events.now) }
{
    if events.len() > MOST_EVENTS {
        return Err(Refusal::TooManyEvents);
    }
    let mut log = EventList::with_capacity(alloc, events.len())?;
    for (index, event) in events.iter().enumerate() {
        if !lands(event, &events[index + 1..]) {
            match first_unknown(alloc, events, messages)? {
                Some(index) => return Err(Refusal::UnknownEvent { index }),
                None => return Err(Refusal::BadLink { index }),
            }
        }
        match read_event(alloc, event, messages)? {
            Some(event) => log.push(event)?,
            None => return Err(Refusal::UnknownEvent { index }),
        }
    }
    Ok(log)
}

/// The first place whose numbers aren't an event's.
// Not inlined, since few logs are refused.
#[inline(never)]
fn first_unknown(
    alloc: Global,
    events: &[CEvent],
    messages: &[u8],
) -> Result<Option<usize>, AllocError>
    ensures { IfOk result (λ place. MatchOption place
        (map Some (log_of messages.now events.now) ≡ map (event_of messages.now) events.now)
        (IsFirstUnknown (event_of messages.now) events.now)) }
{
    for (index, event) in events.iter().enumerate() {
        if read_event(alloc, event, messages)?.is_none() {
            return Ok(Some(index));
        }
    }
    Ok(None)
}

/// The event that is written so.
// Runs for each event.
#[inline(always)]
fn read_event(alloc: Global, event: &CEvent, messages: &[u8]) -> Result<Option<Event>, AllocError>
    ensures { IfOk result (λ read. read ≡ event_of messages.now event.now) }
{
    match event.tag {
        0 => Ok(Some(Event::Start {
            kind: SyntaxKind(event.kind),
            forward_parent: link(event.a),
        })),
        1 => Ok(Some(Event::Finish)),
        2 => match u8::try_from(event.a) {
            Ok(n_raw_tokens) => Ok(Some(Event::Token {
                kind: SyntaxKind(event.kind),
                n_raw_tokens,
            })),
            Err(_) => Ok(None),
        },
        3 => match message(messages, event.a as usize, event.b as usize) {
            Some(text) => {
                let msg = Text::new(String::from_str(alloc, text)?);
                Ok(Some(Event::Error { msg }))
            }
            None => Ok(None),
        },
        4.. => Ok(None),
    }
}

/// A link of this length; one of no length is none.
fn link(distance: u32) -> Option<u32>
    ensures { result ≡ (if distance == 0 then None else Some distance) }
{
    if distance == 0 { None } else { Some(distance) }
}

/// The text of these bytes.
// Not inlined, since few events are errors.
#[inline(never)]
fn message(messages: &[u8], start: usize, end: usize) -> Option<&str>
    ensures { option_map (λ text. text.now) result ≡ message_in messages.now start end }
{
    if start > end || end > messages.len() {
        return None;
    }
    match str::from_utf8(&messages[start..end]) {
        Ok(text) => Some(text),
        Err(_) => None,
    }
}
