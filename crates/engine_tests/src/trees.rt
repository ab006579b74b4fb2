//! Trees by hand, read in every way.

mod building;
mod elements;
mod finding;
mod kinds;
mod walking;

use squawk_parser::{StrStep, SyntaxKind};
use std::alloc::{AllocError, Global};
use std::fmt::Write;
use std::test::Fail;
use syntax_tree::{SyntaxElement, SyntaxTree, TreeBuilder, TreeRefusal};

const ROOT: SyntaxKind = SyntaxKind(700);

const SUM: SyntaxKind = SyntaxKind(701);

const EMPTY: SyntaxKind = SyntaxKind(702);

const NAME: SyntaxKind = SyntaxKind(3);

const PLUS: SyntaxKind = SyntaxKind(27);

const SPACE: SyntaxKind = SyntaxKind(639);

/// The steps of [`sum`].
const SUM_STEPS: [StrStep<'static>; 21] = [
    StrStep::Error {
        msg: "early",
        pos: 0,
    },
    StrStep::Enter { kind: ROOT },
    StrStep::Token {
        kind: NAME,
        text: "a",
    },
    StrStep::Error {
        msg: "before",
        pos: 1,
    },
    StrStep::Enter { kind: SUM },
    StrStep::Error {
        msg: "begins",
        pos: 1,
    },
    StrStep::Enter { kind: EMPTY },
    StrStep::Exit,
    StrStep::Token {
        kind: PLUS,
        text: "+",
    },
    StrStep::Token {
        kind: NAME,
        text: "é",
    },
    StrStep::Enter { kind: EMPTY },
    StrStep::Error {
        msg: "missing",
        pos: 4,
    },
    StrStep::Exit,
    StrStep::Error {
        msg: "ends",
        pos: 4,
    },
    StrStep::Exit,
    StrStep::Error {
        msg: "after",
        pos: 4,
    },
    StrStep::Token {
        kind: SPACE,
        text: " ",
    },
    StrStep::Token {
        kind: NAME,
        text: "b",
    },
    StrStep::Error {
        msg: "late",
        pos: 6,
    },
    StrStep::Exit,
    StrStep::Error {
        msg: "behind",
        pos: 6,
    },
];

fn name(kind: SyntaxKind) -> &'static str {
    match kind {
        ROOT => "ROOT",
        SUM => "SUM",
        EMPTY => "EMPTY",
        NAME => "NAME",
        PLUS => "PLUS",
        SPACE => "SPACE",
        _ => "?",
    }
}

/// Writes an element as ` KIND START..END`, or ` -` where there is none.
fn put(text: &mut String, element: Option<SyntaxElement<'_>>) -> Result<(), AllocError> {
    let Some(element) = element else {
        return write!(text, " -");
    };
    let range = element.text_range();
    let kind = name(element.kind());
    write!(text, " {kind} {}..{}", range.start, range.end)
}

/// Has a builder take a step.
fn take(builder: &mut TreeBuilder<'_>, step: &StrStep<'_>) -> Result<(), TreeRefusal> {
    match step {
        StrStep::Token { kind, text } => builder.token(*kind, *text),
        StrStep::Enter { kind } => builder.start_node(*kind),
        StrStep::Exit => builder.finish_node(),
        StrStep::Error { msg, pos } => builder.error(*msg, *pos),
    }
}

/// The tree of these steps.
fn built<'s>(
    alloc: Global,
    source: &'s str,
    steps: &[StrStep<'_>],
) -> Result<SyntaxTree<'s>, Fail> {
    let mut builder = TreeBuilder::new(alloc, source);
    for step in steps {
        take(&mut builder, step)?;
    }
    match builder.finish() {
        Ok(tree) => Ok(tree),
        Err(_unfinished) => Err(Fail::from("unfinished")),
    }
}

/// Empty nodes stand at both ends of a node. A part of the source isn't sent.
///
/// ```text
/// ROOT 0..6
///   NAME 0..1 "a"
///   SUM 1..4
///     EMPTY 1..1
///     PLUS 1..2 "+"
///     NAME 2..4 "é"
///     EMPTY 4..4
///   SPACE 4..5 " "
///   NAME 5..6 "b"
/// ```
fn sum(alloc: Global) -> Result<SyntaxTree<'static>, Fail> {
    built(alloc, "a+é b;", &SUM_STEPS)
}
