//! What the exports write and refuse.

use crate::answer::CAnswer;
use crate::errors::CError;
use crate::event::CEvent;
use crate::part::CPartCounts;
use crate::sent::CCounts;
use crate::sql_lists::CSqlCounts;
use crate::statement::CStatement;
use crate::steps::CStep;
use crate::token::CToken;
use crate::{caliperdock_events, caliperdock_part, caliperdock_sql, caliperdock_statements};
use std::alloc::Global;
use std::test::Fail;

/// What buffers hold before a call.
const NO_TOKEN: CToken = CToken {
    kind: 9,
    len: 9,
    a: 9,
    b: 9,
    flags: 9,
};

const NO_STATEMENT: CStatement = CStatement {
    kind: 9,
    start: 9,
    end: 9,
};

const NO_STEP: CStep = CStep {
    tag: 9,
    kind: 9,
    start: 9,
    end: 9,
};

const NO_ERROR: CError = CError {
    start: 9,
    end: 9,
    message_start: 9,
    message_end: 9,
    hint_end: 9,
};

/// The buffers of a call.
#[derive(Drop)]
struct Rooms {
    tokens: [CToken; 8],
    statements: [CStatement; 2],
    steps: [CStep; 32],
    errors: [CError; 2],
    texts: [u8; 80],
}

impl Rooms {
    fn new() -> Rooms {
        Rooms {
            tokens: [NO_TOKEN; 8],
            statements: [NO_STATEMENT; 2],
            steps: [NO_STEP; 32],
            errors: [NO_ERROR; 2],
            texts: [9; 80],
        }
    }

    fn sql(&mut self, alloc: Global, text: &[u8], counts: &mut CSqlCounts) -> CAnswer {
        caliperdock_sql(
            alloc,
            text,
            &mut self.tokens,
            &mut self.statements,
            &mut self.steps,
            &mut self.errors,
            &mut self.texts,
            counts,
        )
    }

    fn part(
        &mut self,
        alloc: Global,
        text: &[u8],
        place: u32,
        last: u32,
        counts: &mut CPartCounts,
    ) -> CAnswer {
        caliperdock_part(
            alloc,
            text,
            place,
            last,
            &mut self.statements,
            &mut self.steps,
            &mut self.errors,
            &mut self.texts,
            counts,
        )
    }

    /// The steps of events; their messages are parts of `?oh?`.
    fn events(
        &mut self,
        alloc: Global,
        text: &[u8],
        tokens: &[CToken],
        events: &[CEvent],
        counts: &mut CCounts,
    ) -> CAnswer {
        caliperdock_events(
            alloc,
            text,
            tokens,
            events,
            b"?oh?",
            &mut self.steps,
            &mut self.errors,
            &mut self.texts,
            counts,
        )
    }
}

fn token(kind: u32, len: u32) -> CToken {
    CToken {
        kind,
        len,
        a: 0,
        b: 0,
        flags: 0,
    }
}

fn event(tag: u16, kind: u16, a: u32, b: u32) -> CEvent {
    CEvent { tag, kind, a, b }
}

fn is_step(found: CStep, tag: u16, kind: u16, start: u32, end: u32) -> bool {
    found.tag == tag && found.kind == kind && found.start == start && found.end == end
}

#[test]
fn writes_sql(rt: HostRuntime) -> Result<(), Fail> {
    let mut rooms = Rooms::new();
    let mut counts = CSqlCounts::none();
    let answer = rooms.sql(rt.alloc(), b"select 1", &mut counts);
    assert_eq!(rt; answer.status, 0);
    assert_eq!(rt; counts.tokens, 3);
    assert_eq!(rt; counts.statements, 1);
    assert_eq!(rt; counts.sent.steps, 15);
    assert_eq!(rt; counts.sent.errors, 0);
    assert_eq!(rt; counts.sent.whole, 1);
    assert_eq!(rt; rooms.tokens[2].kind, 36);
    assert_eq!(rt; rooms.tokens[2].a, 1);
    assert_eq!(rt; rooms.tokens[2].b, 10);
    assert_eq!(rt; rooms.statements[0].kind, 818);
    assert_eq!(rt; rooms.statements[0].end, 8);
    assert!(rt; is_step(rooms.steps[0], 1, 700, 0, 0));
    assert!(rt; is_step(rooms.steps[1], 1, 818, 0, 0));
    assert!(rt; is_step(rooms.steps[2], 1, 703, 0, 0));
    assert_eq!(rt; rooms.steps[3].end, 6);
    assert_eq!(rt; rooms.steps[4].start, 6);
    assert!(rt; is_step(rooms.steps[5], 1, 823, 7, 7));
    assert_eq!(rt; rooms.steps[8].end, 8);
    assert!(rt; is_step(rooms.steps[14], 2, 0, 8, 8));
    assert!(rt; is_step(rooms.steps[15], 9, 9, 9, 9));
    Ok(())
}

/// The error of the grammar stands after all of the text, the lexical one is about the string.
#[test]
fn writes_errors(rt: HostRuntime) -> Result<(), Fail> {
    let mut rooms = Rooms::new();
    let mut counts = CSqlCounts::none();
    let answer = rooms.sql(rt.alloc(), b"select f(1, 'a", &mut counts);
    assert_eq!(rt; answer.status, 0);
    assert_eq!(rt; counts.sent.errors, 2);
    assert_eq!(rt; counts.sent.step_errors, 1);
    assert_eq!(rt; counts.sent.texts, 69);
    assert_eq!(rt; rooms.errors[0].start, 14);
    assert_eq!(rt; rooms.errors[0].message_end, 10);
    assert_eq!(rt; rooms.errors[0].hint_end, 10);
    assert_eq!(rt; rooms.errors[1].start, 12);
    assert_eq!(rt; rooms.errors[1].end, 14);
    assert_eq!(rt; rooms.errors[1].message_start, 10);
    assert_eq!(rt; rooms.errors[1].message_end, 69);
    assert!(rt; rooms.texts.starts_with(b"expected )missing trailing `'`"));
    Ok(())
}

#[test]
fn writes_events(rt: HostRuntime) -> Result<(), Fail> {
    let mut rooms = Rooms::new();
    let mut counts = CCounts::none();
    let tokens = [token(4, 1), token(3, 1), token(4, 1)];
    let node = [
        event(0, 700, 0, 0),
        event(2, 3, 1, 0),
        event(2, 3, 1, 0),
        event(3, 0, 1, 3),
        event(1, 0, 0, 0),
    ];
    let answer = rooms.events(rt.alloc(), b"a b", &tokens, &node, &mut counts);
    assert_eq!(rt; answer.status, 0);
    assert_eq!(rt; counts.steps, 6);
    assert_eq!(rt; counts.texts, 2);
    assert_eq!(rt; counts.whole, 1);
    assert!(rt; is_step(rooms.steps[1], 0, 3, 0, 1));
    assert_eq!(rt; rooms.steps[2].start, 1);
    assert!(rt; is_step(rooms.steps[3], 0, 3, 2, 3));
    assert!(rt; is_step(rooms.steps[4], 3, 0, 0, 3));
    assert!(rt; is_step(rooms.steps[5], 2, 0, 3, 3));
    assert!(rt; rooms.texts.starts_with(b"oh"));
    let answer = rooms.events(rt.alloc(), b"a b", &tokens, &node[..4], &mut counts);
    assert_eq!(rt; answer.status, 11);
    assert_eq!(rt; counts.steps, 0);
    Ok(())
}

/// Of several refusals the first is told, with its least place, and nothing is written.
#[test]
fn refuses_the_first(rt: HostRuntime) -> Result<(), Fail> {
    let mut rooms = Rooms::new();
    let mut counts = CCounts::none();
    let good = [token(4, 1), token(3, 1), token(4, 1)];
    let bad = [token(4, 1), token(45, 1), token(99, 1)];
    let link = [event(0, 700, 0, 0), event(0, 701, 1, 0), event(1, 0, 0, 0)];
    let unread = [event(0, 700, 7, 0), event(2, 3, 256, 0)];
    let alloc = rt.alloc();
    let answer = rooms.events(alloc, b"a \xff", &bad, &link, &mut counts);
    assert_eq!(rt; answer.status, 3);
    assert_eq!(rt; answer.place, 2);
    let answer = rooms.events(alloc, b"a b", &bad, &link, &mut counts);
    assert_eq!(rt; answer.status, 4);
    assert_eq!(rt; answer.place, 1);
    let answer = rooms.events(alloc, b"a b", &good[..2], &link, &mut counts);
    assert_eq!(rt; answer.status, 7);
    assert_eq!(rt; answer.place, 2);
    let answer = rooms.events(alloc, b"a b", &good, &unread, &mut counts);
    assert_eq!(rt; answer.status, 9);
    assert_eq!(rt; answer.place, 1);
    let answer = rooms.events(alloc, b"a b", &good, &link, &mut counts);
    assert_eq!(rt; answer.status, 10);
    assert_eq!(rt; answer.place, 1);
    assert!(rt; is_step(rooms.steps[0], 9, 9, 9, 9));
    assert_eq!(rt; rooms.texts[0], 9);
    Ok(())
}

/// A semicolon in brackets ends the statement. The kind of each is that of its first word.
#[test]
fn writes_statements(rt: HostRuntime) -> Result<(), Fail> {
    let mut statements = [NO_STATEMENT; 2];
    let mut count = 9;
    let text = b"select (1; drop table t";
    let answer = caliperdock_statements(rt.alloc(), text, &mut statements, &mut count);
    assert_eq!(rt; answer.status, 0);
    assert_eq!(rt; count, 2);
    assert_eq!(rt; statements[0].kind, 703);
    assert_eq!(rt; statements[0].end, 10);
    assert_eq!(rt; statements[1].kind, 710);
    assert_eq!(rt; statements[1].start, 11);
    assert_eq!(rt; statements[1].end, 23);
    let answer = caliperdock_statements(rt.alloc(), b"a \xff", &mut statements, &mut count);
    assert_eq!(rt; answer.status, 3);
    assert_eq!(rt; answer.place, 2);
    assert_eq!(rt; count, 0);
    Ok(())
}

/// The line of the second statement doesn't end, so it may go on in the next text.
#[test]
fn writes_parts(rt: HostRuntime) -> Result<(), Fail> {
    let alloc = rt.alloc();
    let mut rooms = Rooms::new();
    let mut counts = CPartCounts::none(9);
    let answer = rooms.part(alloc, b"select 1;\nselect '\xff", 0, 0, &mut counts);
    assert_eq!(rt; answer.status, 0);
    assert_eq!(rt; counts.bytes, 9);
    assert_eq!(rt; counts.place, 1);
    assert_eq!(rt; counts.statements, 1);
    assert_eq!(rt; counts.sent.steps, 16);
    assert_eq!(rt; rooms.statements[0].end, 9);
    let answer = rooms.part(alloc, b"\nselect", 1, 0, &mut counts);
    assert_eq!(rt; answer.status, 0);
    assert_eq!(rt; counts.bytes, 0);
    assert_eq!(rt; counts.place, 1);
    assert_eq!(rt; counts.sent.steps, 0);
    let answer = rooms.part(alloc, b"\nselect", 1, 1, &mut counts);
    assert_eq!(rt; answer.status, 0);
    assert_eq!(rt; counts.bytes, 7);
    assert_eq!(rt; rooms.statements[0].start, 1);
    let answer = rooms.part(alloc, b"a \xff", 7, 1, &mut counts);
    assert_eq!(rt; answer.status, 3);
    assert_eq!(rt; answer.place, 2);
    assert_eq!(rt; counts.place, 7);
    Ok(())
}
