//! The tree of what is sent, read in every way: by `syntax_tree`, and by nested lists that are walked plainly.

use squawk_parser::StrStep;
use std::alloc::{AllocError, Global};
use std::fmt::Write;
use syntax_tree::{SyntaxElement, SyntaxTree, TreeBuilder};

/// Writes an element as ` KIND START..END`, or ` -` where there is none.
pub fn put(lines: &mut String, seen: Option<(u16, usize, usize)>) -> Result<(), AllocError> {
    match seen {
        Some((kind, start, end)) => write!(lines, " {kind} {start}..{end}"),
        None => write!(lines, " -"),
    }
}

fn put_element(lines: &mut String, element: Option<SyntaxElement<'_>>) -> Result<(), AllocError> {
    match element {
        Some(element) => {
            let range = element.text_range();
            put(
                lines,
                Some((u16::from(element.kind()), range.start, range.end)),
            )
        }
        None => put(lines, None),
    }
}

/// What `syntax_tree` reads of the tree of steps, a line for each element; none where its builder refuses them.
pub fn lines_of_tree(
    alloc: Global,
    text: &str,
    steps: &[StrStep<'_>],
) -> Result<Option<String>, AllocError> {
    let mut builder = TreeBuilder::new(alloc, text);
    for step in steps {
        let taken = match step {
            StrStep::Token { kind, text } => builder.token(*kind, text),
            StrStep::Enter { kind } => builder.start_node(*kind),
            StrStep::Exit => builder.finish_node(),
            StrStep::Error { msg, pos } => builder.error(msg, *pos),
        };
        if taken.is_err() {
            return Ok(None);
        }
    }
    match builder.finish() {
        Ok(tree) => Ok(Some(lines(alloc, &tree)?)),
        Err(_unfinished) => Ok(None),
    }
}

fn lines(alloc: Global, tree: &SyntaxTree<'_>) -> Result<String, AllocError> {
    let mut lines = String::new(alloc);
    for element in tree.root().descendants_with_tokens() {
        put_around(&mut lines, element)?;
        put_children(&mut lines, element)?;
        write!(lines, " of {} at {}\n", size_of(element), depth_of(element))?;
    }
    Ok(lines)
}

/// Writes an element, what is around it, and the tokens in it and beside it.
fn put_around(lines: &mut String, element: SyntaxElement<'_>) -> Result<(), AllocError> {
    let sign = if element.is_token() { "token" } else { "node" };
    write!(lines, "{sign}")?;
    put_element(lines, Some(element))?;
    put_element(lines, element.parent())?;
    put_element(lines, element.prev_sibling_or_token())?;
    put_element(lines, element.next_sibling_or_token())?;
    put_element(lines, element.first_token())?;
    put_element(lines, element.last_token())?;
    put_element(lines, element.prev_token())?;
    put_element(lines, element.next_token())
}

/// Writes the first and the last of its children, all of them, and the nodes among them.
fn put_children(lines: &mut String, element: SyntaxElement<'_>) -> Result<(), AllocError> {
    put_element(lines, element.first_child_or_token())?;
    put_element(lines, element.last_child_or_token())?;
    write!(lines, " has")?;
    for child in element.children_with_tokens() {
        put_element(lines, Some(child))?;
    }
    write!(lines, " nodes")?;
    for child in element.children() {
        put_element(lines, Some(child))?;
    }
    Ok(())
}

/// How many elements it is with all that is in it.
fn size_of(element: SyntaxElement<'_>) -> usize {
    let mut size = 0usize;
    for _inside in element.descendants_with_tokens() {
        size = size.wrapping_add(1);
    }
    size
}

/// In how many nodes it is, and one.
fn depth_of(element: SyntaxElement<'_>) -> usize {
    let mut depth = 0usize;
    for _around in element.ancestors() {
        depth = depth.wrapping_add(1);
    }
    depth
}
