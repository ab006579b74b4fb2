//! The linter: a tree as text, and the tables without a primary key.
use crate::error::LintError;
use crate::tables::{CREATE_TABLE, NAME, NODES, PRIMARY_KEY, rules};
use sql_lexer::tokenize;
use sql_words::{names, vocabulary};
use squawk_parser::{EntryPoint, StepSink, SyntaxKind};
use squawk_tree::TreeText;
use std::alloc::{AllocError, Global};
use std::fmt::Write;
use syntax_tree::{SyntaxElement, SyntaxTree, parse_tree};

/// The tree of a text, and a line for each table without a primary key.
pub fn report(alloc: Global, text: &str) -> Result<String, LintError> {
    let words = vocabulary(alloc)?;
    let rules = rules(alloc, &words)?;
    let tokens = tokenize(alloc, text)?;
    let tree = parse_tree(alloc, text, &tokens, &words, &rules, EntryPoint::SourceFile)?;
    let mut told = drawn(alloc, &tree)?;
    for statement in tree.root().children() {
        if statement.kind() == CREATE_TABLE && !has_key(statement) {
            writeln!(told, "table {} has no primary key", name_of(statement))?;
        }
    }
    Ok(told)
}

/// The tree as text.
fn drawn(alloc: Global, tree: &SyntaxTree<'_>) -> Result<String, AllocError> {
    let mut drawing = TreeText::new(alloc);
    for step in tree.steps() {
        drawing.step(step)?;
    }
    drawing.finish(alloc, &kinds(alloc, &NODES, &names(alloc)?)?)
}

/// The names of nodes and of other kinds.
fn kinds<'n>(
    alloc: Global,
    nodes: &[(&'n str, SyntaxKind)],
    others: &[(SyntaxKind, &'n str)],
) -> Result<Vec<(SyntaxKind, &'n str)>, AllocError> {
    let mut kinds: Vec<(SyntaxKind, &'n str)> = nodes
        .iter()
        .map(|pair| (pair.1, pair.0))
        .collect(alloc)?;
    kinds.extend_from_slice(others)?;
    Ok(kinds)
}

/// Whether a statement or one of its columns has a primary key.
fn has_key(statement: SyntaxElement<'_>) -> bool {
    statement
        .descendants()
        .any(|node| node.kind() == PRIMARY_KEY)
}

/// The name of a table.
fn name_of<'t>(statement: SyntaxElement<'t>) -> &'t str {
    match statement.children().find(|node| node.kind() == NAME) {
        Some(name) => name.text(),
        None => "without a name",
    }
}
