//! Logs of events, and the outputs that the one pass makes of them.
ghost use Rattle.std.specs.Prelude.{◌≡◌};

use row_fixtures::kinds::{CALL, NAME, NAME_REF, PAREN, ROOT};
use row_fixtures::output::written;
use squawk_parser::{Event, EventList, Output, SyntaxKind, Text, process};
use std::process::Abort;
use std::test::Fail;

/// The start of a node of this kind, whose forward parent is so many places on.
fn start(kind: u16, forward_parent: Option<u32>) -> Event
    ensures { result ≡ Event.Start kind forward_parent }
{
    Event::Start {
        kind: SyntaxKind::from(kind),
        forward_parent,
    }
}

/// Ends the test unless the steps of the output have the line, so many events were recorded for it, and
/// it was made in so many turns.
fn assert_passed(
    rt: &(impl Abort + AllocGlobal),
    output: &Output,
    wanted: &str,
    recorded: u32,
    turns: u64,
) -> Result<(), Fail> {
    let steps = written(rt.alloc(), output)?;
    assert_eq!(rt; steps.line.as_str(), wanted);
    assert!(rt; steps.is_counted, "{wanted}");
    assert_eq!(rt;
        (output.recorded(), output.turns()),
        (recorded, turns),
        "{wanted}"
    );
    Ok(())
}

#[test]
fn empty_log_has_no_steps(rt: HostRuntime) -> Result<(), Fail> {
    let output = process(rt.alloc(), Vec::new(rt.alloc()), 0)?;
    assert_passed(&rt, &output, "", 0, 0)
}

#[test]
fn links_from_two_places_lead_to_one_node(rt: HostRuntime) -> Result<(), Fail> {
    let events = vec![in rt.alloc();
        start(NAME, Some(3)),
        start(1, Some(2)),
        Event::Finish,
        start(NAME_REF, None),
        Event::Finish,
    ]?;
    // Five events, three of them a start, and two links.
    let output = process(rt.alloc(), events, 5)?;
    assert_passed(&rt, &output, "NAME_REF(NAME())", 5, 12)
}

#[test]
fn chain_begins_with_its_last_node(rt: HostRuntime) -> Result<(), Fail> {
    let events = vec![in rt.alloc();
        start(NAME, Some(3)),
        Event::Token {
            kind: SyntaxKind::IDENT,
            n_raw_tokens: 1,
        },
        Event::Finish,
        start(NAME_REF, Some(2)),
        Event::Finish,
        start(PAREN, None),
        Event::Finish,
    ]?;
    // Seven events, three of them a start, and two links.
    let output = process(rt.alloc(), events, 7)?;
    assert_passed(&rt, &output, "PAREN(NAME_REF(NAME(IDENT)))", 7, 14)
}

#[test]
fn first_link_to_a_node_takes_what_lies_beyond(rt: HostRuntime) -> Result<(), Fail> {
    let events = vec![in rt.alloc();
        start(ROOT, Some(2)),
        start(NAME, Some(1)),
        start(NAME_REF, Some(1)),
        start(CALL, None),
    ]?;
    // Four events, each a start, and three links.
    let output = process(rt.alloc(), events, 4)?;
    assert_passed(&rt, &output, "CALL(NAME_REF(ROOT(NAME(", 4, 14)
}

/// A token of so many input tokens.
fn token(kind: SyntaxKind, n_raw_tokens: u8) -> Event
    ensures { result ≡ Event.Token kind n_raw_tokens }
{
    Event::Token { kind, n_raw_tokens }
}

#[test]
fn tokens_have_one_to_three_input_tokens(rt: HostRuntime) -> Result<(), Fail> {
    let events = vec![in rt.alloc();
        start(ROOT, None),
        token(SyntaxKind::COLON_EQ, 2),
        token(SyntaxKind::LONG_ARROW, 3),
        token(SyntaxKind::IDENT, 1),
        Event::Finish,
    ]?;
    // Five events, one of them a start.
    let output = process(rt.alloc(), events, 5)?;
    assert_passed(&rt, &output, "ROOT(COLON_EQ*2 LONG_ARROW*3 IDENT)", 5, 6)
}

#[test]
fn start_without_a_kind_begins_no_node(rt: HostRuntime) -> Result<(), Fail> {
    let msg = Text::new(String::from_str(rt.alloc(), "e")?);
    let events = vec![in rt.alloc(); start(1, None), Event::Error { msg }]?;
    // What was recorded is handed in. Two events, one of them a start.
    let output = process(rt.alloc(), events, 9)?;
    assert_eq!(&rt; output.error_count(), 1);
    assert_passed(&rt, &output, "!'e'", 9, 3)
}

#[test]
fn events_come_one_by_one(rt: HostRuntime) -> Result<(), Fail> {
    let mut list = EventList::with_capacity(rt.alloc(), 0)?;
    list.push(start(NAME, Some(2)))?;
    list.push(Event::Finish)?;
    list.push(start(ROOT, None))?;
    list.push(Event::Finish)?;
    // Four events, two of them a start, and a link.
    let output = list.process(rt.alloc(), 7)?;
    assert_passed(&rt, &output, "ROOT(NAME())", 7, 8)
}
