//! The calls that take accepted tokens.

use super::{assert_begun, assert_error, assert_line, tokens};
use crate::cases::SELECT;
use names_grammar::Names;
use row_fixtures::tokens::{literal, space, token};
use squawk_parser::{
    EntryPoint, LexedStr, LiteralKind, NoKeywords, Sent, StepList, SyntaxKind, Token, check_tokens,
    parse_accepted_into, parse_accepted_whole_into,
};
use std::process::Abort;

/// The table of a text with accepted tokens.
fn table<'a>(rt: &(impl Abort + AllocGlobal), text: &'a str, tokens: &[Token]) -> LexedStr<'a> {
    assert!(rt;
        check_tokens(text, tokens).is_ok(),
        "{text:?} has other tokens"
    );
    for _ in 0..2 {
        if let Ok(table) = LexedStr::from_accepted(rt.alloc(), text, tokens, &SELECT) {
            return table;
        }
    }
    panic!(rt; "memory is wanting twice")
}

#[test]
fn table_is_whole(rt: HostRuntime) {
    let bits = token(literal(LiteralKind::BitStr { terminated: true }), 6);
    let table = table(&rt, "B'102' ", &[bits, space(1)]);
    assert_eq!(rt; table.len(), 2);
    assert_eq!(rt; table.kind(0), SyntaxKind::BIT_STRING);
    let mut errors = table.errors();
    let wanted = (4, 5, "\"2\" is not a valid binary digit", None);
    assert_error(&rt, errors.next(), wanted);
    assert!(rt; errors.next().is_none());
}

const TEXT: &str = "a , b";

const LINE: &str = "SOURCE_FILE(NAME_REF(a) _ ERROR(!'expected a name'@2 ,) _ NAME_REF(b))";

/// Whether the list was sent the text's tree; else memory was wanting, and it has a beginning of that.
fn is_sent<E: Drop>(
    rt: &(impl Abort + AllocGlobal),
    list: &StepList,
    sent: Result<Sent, E>,
) -> bool {
    let Ok(sent) = sent else {
        assert_begun(rt, list.steps(), LINE);
        return false;
    };
    // The file's two events, two names of three, and an error of four. Four of the starts are nodes, with a
    // turn more each.
    let wanted = Sent {
        all: true,
        recorded: 12,
        turns: 16,
    };
    assert_eq!(rt; sent, wanted);
    assert_line(rt, list.steps(), LINE);
    true
}

/// Sends the text's tree to a list that is empty.
fn send(rt: &(impl Abort + AllocGlobal), tokens: &[Token], is_whole: bool) -> bool {
    assert!(rt; check_tokens(TEXT, tokens).is_ok());
    let (alloc, entry) = (rt.alloc(), EntryPoint::SourceFile);
    let mut list = StepList::new(alloc);
    if is_whole {
        let sent = parse_accepted_whole_into(
            alloc,
            TEXT,
            tokens,
            &NoKeywords,
            &Names,
            entry,
            &mut list,
        );
        is_sent(rt, &list, sent)
    } else {
        let sent = parse_accepted_into(alloc, TEXT, tokens, &NoKeywords, &Names, entry, &mut list);
        is_sent(rt, &list, sent)
    }
}

#[test]
fn tree_is_sent_whole(rt: HostRuntime) {
    let tokens = tokens(&rt, TEXT);
    assert!(rt; send(&rt, &tokens, true) || send(&rt, &tokens, true));
}

#[test]
fn tree_with_one_root_is_sent_whole(rt: HostRuntime) {
    let tokens = tokens(&rt, TEXT);
    assert!(rt; send(&rt, &tokens, false) || send(&rt, &tokens, false));
}
