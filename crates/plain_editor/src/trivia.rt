//! Trivia and errors put back into the editor's list, by the words of the rules.

use crate::draft::Item;
use crate::source::{Raw, Source};
use squawk_parser::{StrStep, SyntaxKind};
use std::alloc::{AllocError, Global};

/// Steps that are sent, and whether they have the whole text.
#[derive(Debug, PartialEq, Drop)]
pub struct Sent<'i> {
    pub steps: Vec<StrStep<'i>>,
    pub is_whole: bool,
}

/// Whether the items, errors aside, begin with an opening, no beginning has more closings than openings, and of
/// the beginnings that aren't empty only the whole has as many.
pub fn stands_in_one_root(items: &[Item]) -> bool {
    let mut depth = 0u64;
    let mut is_ended = false;
    for item in items {
        match item {
            Item::Error { .. } => continue,
            _ if is_ended => return false,
            Item::Open { .. } => depth = depth.saturating_add(1),
            _ if depth == 0 => return false,
            Item::Close => depth = depth.saturating_sub(1),
            Item::Token { .. } | Item::OpenMarker { .. } => {}
        }
        is_ended = depth == 0;
    }
    is_ended
}

/// The places of the items, each run of errors directly behind a closing directly before it. What was moved stays.
fn with_errors_moved(alloc: Global, items: &[Item]) -> Result<Vec<usize>, AllocError> {
    let mut moved = Vec::new(alloc);
    // Where the closing stands, if nothing but errors stood behind it.
    let mut closing = None;
    for (place, item) in items.iter().enumerate() {
        match (item, closing) {
            (Item::Error { .. }, Some(at)) if at < moved.len() => {
                moved.insert(at, place)?;
                closing = Some(at.saturating_add(1));
            }
            (Item::Close, _) => {
                closing = Some(moved.len());
                moved.push(place)?;
            }
            _ => {
                closing = None;
                moved.push(place)?;
            }
        }
    }
    Ok(moved)
}

/// A step with places in place of texts: where a token starts and ends, and which item an error is.
#[derive(Clone, Copy)]
enum Placed {
    Token {
        kind: SyntaxKind,
        start: usize,
        end: usize,
    },
    Enter {
        kind: SyntaxKind,
    },
    Exit,
    Error {
        place: usize,
        pos: usize,
    },
}

/// What is sent of the items over a text.
pub fn send<'i>(
    alloc: Global,
    source: &'i Source,
    items: &'i [Item],
) -> Result<Sent<'i>, AllocError> {
    let Source {
        text,
        tokens,
        trivia,
        ..
    } = source;
    let order = with_errors_moved(alloc, items)?;
    let mut placed = Vec::new(alloc);
    let mut eaten = 0usize;
    // The least run of trivia that doesn't stand yet. Run c is what lies behind c tokens.
    let mut next_run = 0usize;
    for (n, place) in order.iter().enumerate() {
        if receives_trivia(items, &order, n) && next_run <= eaten {
            put_run(&mut placed, trivia, eaten)?;
            next_run = eaten.saturating_add(1);
        }
        let (place, pos) = (*place, bytes_of(&placed));
        placed.push(match items.get(place) {
            None | Some(Item::OpenMarker { .. }) => continue,
            Some(Item::Open { kind, .. }) => Placed::Enter { kind: *kind },
            Some(Item::Close) => Placed::Exit,
            Some(Item::Error { .. }) => Placed::Error { place, pos },
            Some(Item::Token { kind, count }) => {
                let start = tokens.get(eaten).map_or(0, |token| token.start);
                eaten = eaten.saturating_add(*count);
                let last = tokens.get(eaten.saturating_sub(1));
                let end = last.map_or(0, |token| token.end);
                Placed::Token {
                    kind: *kind,
                    start,
                    end,
                }
            }
        })?;
    }
    let text = text.as_str();
    let steps = placed
        .iter()
        .map(|it| step_of(it, text, items))
        .collect(alloc)?;
    Ok(Sent {
        steps,
        is_whole: eaten == tokens.len(),
    })
}

/// The step with its text.
fn step_of<'i>(placed: &Placed, text: &'i str, items: &'i [Item]) -> StrStep<'i> {
    match *placed {
        Placed::Enter { kind } => StrStep::Enter { kind },
        Placed::Exit => StrStep::Exit,
        Placed::Token { kind, start, end } => {
            let text = text.get(start..end).unwrap_or("");
            StrStep::Token { kind, text }
        }
        Placed::Error { place, pos } => {
            let msg = match items.get(place) {
                Some(Item::Error { message }) => message.as_str(),
                _ => "",
            };
            StrStep::Error { msg, pos }
        }
    }
}

/// Whether trivia may stand directly before the item at a place of this order: a token, an opening other than
/// the first, or the last closing.
fn receives_trivia(items: &[Item], order: &[usize], n: usize) -> bool {
    let is_open = |place: &usize| matches!(items.get(*place), Some(Item::Open { .. }));
    let is_close = |place: &usize| matches!(items.get(*place), Some(Item::Close));
    let Some(place) = order.get(n) else {
        return false;
    };
    match items.get(*place) {
        Some(Item::Token { .. }) => true,
        Some(Item::Open { .. }) => order.iter().take(n).any(is_open),
        Some(Item::Close) => !order.iter().skip(n.saturating_add(1)).any(is_close),
        _ => false,
    }
}

/// Puts the trivia behind so many tokens.
fn put_run(placed: &mut Vec<Placed>, trivia: &[Raw], eaten: usize) -> Result<(), AllocError> {
    for raw in trivia {
        if raw.before == eaten {
            let Raw {
                kind,
                start,
                end,
                ..
            } = *raw;
            placed.push(Placed::Token { kind, start, end })?;
        }
    }
    Ok(())
}

/// How many bytes are sent.
fn bytes_of(placed: &[Placed]) -> usize {
    let mut bytes = 0usize;
    for it in placed {
        if let Placed::Token { start, end, .. } = it {
            bytes = bytes.saturating_add(end.saturating_sub(*start));
        }
    }
    bytes
}
