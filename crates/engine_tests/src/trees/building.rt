//! What a builder refuses. A tree or a text that is too large, and want of memory, aren't reached here.

use super::{NAME, ROOT, take};
use squawk_parser::StrStep;
use std::fmt::Write;
use std::test::Fail;
use syntax_tree::TreeBuilder;

/// Steps of which a builder over `ab` takes five.
const OFFERED: [StrStep<'static>; 13] = [
    // Outside of a root.
    StrStep::Token {
        kind: NAME,
        text: "a",
    },
    StrStep::Exit,
    StrStep::Error {
        msg: "early",
        pos: 0,
    },
    StrStep::Enter { kind: ROOT },
    // Not the next part of the source.
    StrStep::Token {
        kind: NAME,
        text: "b",
    },
    StrStep::Token {
        kind: NAME,
        text: "",
    },
    StrStep::Token {
        kind: NAME,
        text: "abc",
    },
    StrStep::Token {
        kind: NAME,
        text: "a",
    },
    StrStep::Exit,
    // After the root.
    StrStep::Enter { kind: ROOT },
    StrStep::Token {
        kind: NAME,
        text: "b",
    },
    StrStep::Exit,
    StrStep::Error {
        msg: "late",
        pos: 1,
    },
];

#[test]
fn builder_refuses_what_is_no_tree(rt: HostRuntime) -> Result<(), Fail> {
    let mut builder = TreeBuilder::new(rt.alloc(), "ab");
    let mut answers = String::new(rt.alloc());
    for step in &OFFERED {
        match take(&mut builder, step) {
            Ok(()) => write!(answers, "taken\n")?,
            Err(reason) => write!(answers, "{reason:?}\n")?,
        }
    }
    let wanted = "OutsideOfRoot
NothingOpen
taken
taken
OtherText
OtherText
OtherText
taken
taken
OutsideOfRoot
OutsideOfRoot
NothingOpen
taken
";
    assert_eq!(rt; answers.as_str(), wanted);
    Ok(())
}

#[test]
fn open_node_is_no_tree(rt: HostRuntime) -> Result<(), Fail> {
    let mut builder = TreeBuilder::new(rt.alloc(), "ab");
    // Without a root there is no tree either.
    if let Err(unfinished) = builder.finish() {
        builder = unfinished.builder;
        builder.start_node(ROOT)?;
        builder.token(NAME, "a")?;
        if let Err(unfinished) = builder.finish() {
            builder = unfinished.builder;
            builder.finish_node()?;
            if let Ok(tree) = builder.finish() {
                assert_eq!(rt; tree.text(), "a");
                return Ok(());
            }
        }
    }
    Err(Fail::from("finished too early, or never"))
}
