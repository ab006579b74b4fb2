//! The words of steps, worked out by their layout: the kind above four hexadecimal digits, then two
//! digits with the number of input tokens, one with the tag, and a 1.

ghost use Rattle.std.specs.Prelude.{◌≡◌, None};

use crate::event::{Event, process};
use crate::output::stored::StoredStep;
use crate::output::text::Text;
use squawk_kinds::SyntaxKind;
use std::test::Fail;

#[test]
fn each_step_has_its_word(rt: HostRuntime) {
    let enter = StoredStep::Enter {
        kind: SyntaxKind::from(700u16),
    };
    let ident = StoredStep::Token {
        kind: SyntaxKind::IDENT,
        n_input_tokens: 1,
    };
    let colon_eq = StoredStep::Token {
        kind: SyntaxKind::COLON_EQ,
        n_input_tokens: 2,
    };
    assert_eq!(rt; enter.pack(), 0x02bc0011);
    assert_eq!(rt; ident.pack(), 0x00030101);
    assert_eq!(rt; colon_eq.pack(), 0x002d0201);
    assert_eq!(rt; StoredStep::Exit.pack(), 0x00000021);
    assert_eq!(rt; StoredStep::Error { number: 1 }.pack(), 0x00000002);
}

#[test]
fn token_of_three_has_its_word(rt: HostRuntime) {
    let long_arrow = StoredStep::Token {
        kind: SyntaxKind::LONG_ARROW,
        n_input_tokens: 3,
    };
    assert_eq!(rt; long_arrow.pack(), 0x00350301);
}

/// The start of a node of this kind, without a link.
fn start(kind: u16) -> Event
    ensures { result ≡ Event.Start kind None }
{
    Event::Start {
        kind: SyntaxKind(kind),
        forward_parent: None,
    }
}

#[test]
fn an_output_has_a_word_for_each_step(rt: HostRuntime) -> Result<(), Fail> {
    let msg = Text::new(String::from_str(rt.alloc(), "e")?);
    let ident = Event::Token {
        kind: SyntaxKind::IDENT,
        n_raw_tokens: 1,
    };
    let events = vec![in rt.alloc();
        start(700),
        start(701),
        ident,
        Event::Finish,
        Event::Error { msg },
        Event::Finish,
    ]?;
    let output = process(rt.alloc(), events, 6)?;
    let wanted = [
        0x02bc0011, 0x02bd0011, 0x00030101, 0x00000021, 0x00000000, 0x00000021,
    ];
    assert_eq!(rt; output.builder.words.as_slice(), wanted.as_slice());
    Ok(())
}
