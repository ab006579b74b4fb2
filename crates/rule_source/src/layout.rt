//! Lists as `rt fmt` lays them out.
use std::alloc::{AllocError, Global};

/// How many characters a line of items has at most.
const LINE: usize = 99;

/// How many of them a list in one line has at most, without its brackets.
const ONE_LINE: usize = 60;

/// Items of so many characters at most are set side by side.
const SHORT: usize = 10;

/// Items of Rust, as they stand between brackets in a line of this indent.
pub(crate) fn list(alloc: Global, items: &[String], indent: usize) -> Result<String, AllocError> {
    if width(items) <= ONE_LINE {
        one_line(alloc, items)
    } else if items.iter().all(|item| len(item) <= SHORT) {
        filled(alloc, items, indent)
    } else {
        one_each(alloc, items, indent)
    }
}

/// How many characters an item has.
fn len(item: &String) -> usize {
    item.as_str().chars().count()
}

/// How many characters items have in one line.
fn width(items: &[String]) -> usize {
    let mut width = 0usize;
    for item in items {
        width = width.saturating_add(len(item)).saturating_add(2);
    }
    width.saturating_sub(2)
}

fn one_line(alloc: Global, items: &[String]) -> Result<String, AllocError> {
    let mut text = String::new(alloc);
    for (index, item) in items.iter().enumerate() {
        if index > 0 {
            text.push_str(", ")?;
        }
        text.push_str(item.as_str())?;
    }
    Ok(text)
}

/// As many items in a line as it has room for.
fn filled(alloc: Global, items: &[String], indent: usize) -> Result<String, AllocError> {
    let mut text = String::new(alloc);
    let mut column = LINE;
    for item in items {
        let end = column.saturating_add(len(item)).saturating_add(2);
        if end > LINE {
            begin_line(&mut text, indent.saturating_add(4))?;
            column = indent.saturating_add(len(item)).saturating_add(5);
        } else {
            text.push_str(" ")?;
            column = end;
        }
        text.push_str(item.as_str())?;
        text.push_str(",")?;
    }
    begin_line(&mut text, indent)?;
    Ok(text)
}

/// An item in each line.
fn one_each(alloc: Global, items: &[String], indent: usize) -> Result<String, AllocError> {
    let mut text = String::new(alloc);
    for item in items {
        begin_line(&mut text, indent.saturating_add(4))?;
        text.push_str(item.as_str())?;
        text.push_str(",")?;
    }
    begin_line(&mut text, indent)?;
    Ok(text)
}

fn begin_line(text: &mut String, indent: usize) -> Result<(), AllocError> {
    text.push_str("\n")?;
    for _ in 0..indent {
        text.push_str(" ")?;
    }
    Ok(())
}
