//! A tree as a list of elements, each with the list of its children, read by plain walks over them.

use crate::trees::put;
use squawk_parser::StrStep;
use std::alloc::{AllocError, Global};
use std::fmt::Write;

/// A node or a token.
#[derive(Drop)]
struct Element {
    kind: u16,
    is_token: bool,
    start: usize,
    end: usize,
    parent: Option<usize>,
    children: Vec<usize>,
}

/// Elements in the order in which they begin.
#[derive(Drop)]
struct Nested {
    elements: Vec<Element>,
    /// The nodes that are open, the innermost last.
    open: Vec<usize>,
    end: usize,
}

impl Nested {
    /// Takes a step.
    fn take(&mut self, alloc: Global, step: &StrStep<'_>) -> Result<(), AllocError> {
        match step {
            StrStep::Enter { kind } => {
                let index = self.add(alloc, u16::from(*kind), false)?;
                self.open.push(index)?;
            }
            StrStep::Token { kind, text } => {
                let index = self.add(alloc, u16::from(*kind), true)?;
                self.end = self.end.saturating_add(text.len());
                self.end_at(index);
            }
            StrStep::Exit => {
                if let Some(index) = self.open.pop() {
                    self.end_at(index);
                }
            }
            StrStep::Error { .. } => {}
        }
        Ok(())
    }

    /// Adds an element to the innermost open node, and returns its index.
    fn add(&mut self, alloc: Global, kind: u16, is_token: bool) -> Result<usize, AllocError> {
        let index = self.elements.len();
        let parent = self.open.last().copied();
        if let Some(node) = parent {
            if let Some(node) = self.elements.get_mut(node) {
                node.children.push(index)?;
            }
        }
        self.elements.push(Element {
            kind,
            is_token,
            start: self.end,
            end: self.end,
            parent,
            children: Vec::new(alloc),
        })?;
        Ok(index)
    }

    fn end_at(&mut self, index: usize) {
        if let Some(element) = self.elements.get_mut(index) {
            element.end = self.end;
        }
    }

    /// Writes an element.
    fn put(&self, lines: &mut String, element: Option<usize>) -> Result<(), AllocError> {
        match element.and_then(|index| self.elements.get(index)) {
            Some(element) => put(lines, Some((element.kind, element.start, element.end))),
            None => put(lines, None),
        }
    }

    fn is_token(&self, index: usize) -> bool {
        self.elements
            .get(index)
            .is_some_and(|element| element.is_token)
    }

    fn children(&self, index: usize) -> &[usize] {
        match self.elements.get(index) {
            Some(element) => &element.children,
            None => &[],
        }
    }

    /// In how many nodes an element is, and whether this one is among them.
    fn around(&self, index: usize, node: usize) -> (usize, bool) {
        let mut depth = 0usize;
        let mut is_in = false;
        let mut at = self.elements.get(index).and_then(|element| element.parent);
        for _ in 0..self.elements.len() {
            let Some(around) = at else { break };
            depth = depth.saturating_add(1);
            is_in = is_in || around == node;
            at = self.elements.get(around).and_then(|element| element.parent);
        }
        (depth, is_in)
    }

    /// The index of the first element behind one that isn't in it.
    fn behind(&self, index: usize) -> usize {
        let next = index.saturating_add(1);
        (next..self.elements.len())
            .find(|other| !self.around(*other, index).1)
            .unwrap_or(self.elements.len().max(next))
    }

    /// The first token from an index on, up to another.
    fn first_token(&self, from: usize, stop: usize) -> Option<usize> {
        (from..stop).find(|index| self.is_token(*index))
    }

    fn last_token(&self, from: usize, stop: usize) -> Option<usize> {
        (from..stop).rev().find(|index| self.is_token(*index))
    }

    /// The index in its node's list of children, one on or back.
    fn sibling(&self, index: usize, is_next: bool) -> Option<usize> {
        let node = self.elements.get(index)?.parent?;
        let mut last = None;
        for child in self.children(node) {
            if is_next && last == Some(index) {
                return Some(*child);
            }
            if !is_next && *child == index {
                return last;
            }
            last = Some(*child);
        }
        None
    }

    /// Writes an element, what is around it, and the tokens in it and beside it.
    fn put_around(
        &self,
        lines: &mut String,
        index: usize,
        element: &Element,
    ) -> Result<(), AllocError> {
        let behind = self.behind(index);
        let sign = if element.is_token { "token" } else { "node" };
        write!(lines, "{sign}")?;
        self.put(lines, Some(index))?;
        self.put(lines, element.parent)?;
        self.put(lines, self.sibling(index, false))?;
        self.put(lines, self.sibling(index, true))?;
        self.put(lines, self.first_token(index, behind))?;
        self.put(lines, self.last_token(index, behind))?;
        self.put(lines, self.last_token(0, index))?;
        self.put(lines, self.first_token(behind, self.elements.len()))
    }

    /// Writes the first and the last of its children, all of them, and the nodes among them.
    fn put_children(&self, lines: &mut String, element: &Element) -> Result<(), AllocError> {
        self.put(lines, element.children.first().copied())?;
        self.put(lines, element.children.last().copied())?;
        write!(lines, " has")?;
        for child in &element.children {
            self.put(lines, Some(*child))?;
        }
        write!(lines, " nodes")?;
        for child in &element.children {
            if !self.is_token(*child) {
                self.put(lines, Some(*child))?;
            }
        }
        Ok(())
    }
}

/// What is read of the tree of steps, a line for each element.
pub fn lines_of_nested(alloc: Global, steps: &[StrStep<'_>]) -> Result<String, AllocError> {
    let mut nested = Nested {
        elements: Vec::new(alloc),
        open: Vec::new(alloc),
        end: 0,
    };
    for step in steps {
        nested.take(alloc, step)?;
    }
    let mut lines = String::new(alloc);
    for (index, element) in nested.elements.iter().enumerate() {
        nested.put_around(&mut lines, index, element)?;
        nested.put_children(&mut lines, element)?;
        let size = nested.behind(index).saturating_sub(index);
        let depth = nested.around(index, index).0.saturating_add(1);
        write!(lines, " of {size} at {depth}\n")?;
    }
    Ok(lines)
}
