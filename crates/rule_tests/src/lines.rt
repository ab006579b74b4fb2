//! Trees as lines.
use squawk_kinds::SyntaxKind;
use squawk_parser::OwnedStep;
use std::alloc::{AllocError, Global};
use std::fmt::Write;

/// What a node of the kind is called.
fn called<'n>(nodes: &[(&'n str, SyntaxKind)], kind: SyntaxKind) -> &'n str {
    for (name, node) in nodes {
        if *node == kind {
            return *name;
        }
    }
    "ERROR"
}

/// The line of steps: `NAME{a}` is a node with a token in it, and `!expected ;!` an error.
pub(crate) fn line_of(
    alloc: Global,
    nodes: &[(&str, SyntaxKind)],
    steps: &[OwnedStep],
) -> Result<String, AllocError> {
    let mut line = String::new(alloc);
    for step in steps {
        match step {
            OwnedStep::Enter { kind } => write!(line, "{}{{", called(nodes, *kind))?,
            OwnedStep::Token { kind: _, text } => line.push_str(text.as_str())?,
            OwnedStep::Error { msg, pos: _ } => write!(line, "!{}!", msg.as_str())?,
            OwnedStep::Exit => line.push('}')?,
        }
    }
    Ok(line)
}
