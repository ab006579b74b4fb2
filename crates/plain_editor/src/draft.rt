//! The list that the editor edits, and the calls that find a marker or a node in it.
ghost use Rattle.std.specs.Prelude.{◌<◌, IfSome, vec_len};

use squawk_parser::{Step, SyntaxKind};
use std::alloc::{AllocError, Global};

#[derive(Drop)]
pub enum Item {
    /// An open marker: whether `start` made it, and how many entries there were before.
    OpenMarker {
        marker: u32,
        is_started: bool,
        at: u64,
    },
    /// The opening of a node, with its number as long as it can be preceded.
    Open {
        kind: SyntaxKind,
        node: Option<u32>,
    },
    Close,
    Token {
        kind: SyntaxKind,
        count: usize,
    },
    Error {
        message: String,
    },
}

impl Item {
    /// The step of an output that the item is; an open marker is none.
    pub fn step(&self) -> Option<Step<'_>> {
        match self {
            Item::OpenMarker { .. } => None,
            Item::Open { kind, .. } => Some(Step::Enter { kind: *kind }),
            Item::Close => Some(Step::Exit),
            Item::Token { kind, count } => Some(Step::Token {
                kind: *kind,
                n_input_tokens: u8::try_from(*count).unwrap_or(0),
            }),
            Item::Error { message } => Some(Step::Error {
                msg: message.as_str(),
            }),
        }
    }
}

/// A marker is its item in the list, and a node its opening.
#[derive(Drop)]
pub struct Draft {
    pub items: Vec<Item>,
    /// How many markers were made.
    pub markers: u32,
    pub recorded: u64,
    /// The recorded events, less those that were abandoned as the last of them.
    entries: u64,
    /// The turns that are due.
    pub turns: u64,
    /// How many nodes were completed with an open marker behind their opening.
    pub crossings: usize,
}

impl Draft {
    pub fn new(alloc: Global) -> Draft {
        Draft {
            items: Vec::new(alloc),
            markers: 0,
            recorded: 0,
            entries: 0,
            turns: 0,
            crossings: 0,
        }
    }

    /// The place of an open marker.
    pub fn open_marker(&self, number: u32) -> Option<usize>
        ensures { IfSome result (λ place. place < vec_len self.now.items) }
    {
        let is_it =
            |item: &Item| matches!(item, Item::OpenMarker { marker, .. } if *marker == number);
        self.items.iter().position(is_it)
    }

    /// The place of a node that can be preceded.
    fn node(&self, number: u32) -> Option<usize>
        ensures { IfSome result (λ place. place < vec_len self.now.items) }
    {
        let is_it =
            |item: &Item| matches!(item, Item::Open { node: Some(node), .. } if *node == number);
        self.items.iter().position(is_it)
    }

    /// Counts an event, with the turns that it is due.
    fn count(&mut self, turns: u64) {
        self.recorded = self.recorded.saturating_add(1);
        self.entries = self.entries.saturating_add(1);
        self.turns = self.turns.saturating_add(turns);
    }

    /// Puts an item at the end.
    pub fn put(&mut self, item: Item, turns: u64) -> Result<(), AllocError> {
        self.count(turns);
        self.items.push(item)?;
        Ok(())
    }

    /// The item of the next marker.
    fn new_open_marker(&self, is_started: bool) -> Item {
        Item::OpenMarker {
            marker: self.markers,
            is_started,
            at: self.entries,
        }
    }

    /// An open marker at the end.
    pub fn start(&mut self) -> Result<(), AllocError> {
        let open_marker = self.new_open_marker(true);
        self.markers = self.markers.saturating_add(1);
        self.put(open_marker, 2)
    }

    /// The open marker becomes an opening, and a closing stands at the end.
    pub fn complete(&mut self, marker: u32, kind: SyntaxKind) -> Result<bool, AllocError> {
        let Some(place) = self.open_marker(marker) else {
            return Ok(false);
        };
        if kind == SyntaxKind::TOMBSTONE {
            return Ok(false);
        }
        let node = Some(marker);
        self.items[place] = Item::Open { kind, node };
        let mut inside = self.items.iter().skip(place);
        let is_crossing = inside.any(|item| matches!(item, Item::OpenMarker { .. }));
        self.crossings = self.crossings.saturating_add(usize::from(is_crossing));
        self.put(Item::Close, 1)?;
        Ok(true)
    }

    /// The open marker goes, and its entry if that is the last one and `start` made it.
    pub fn abandon(&mut self, marker: u32) -> bool {
        let Some(place) = self.open_marker(marker) else {
            return false;
        };
        let open_marker = self.items.remove(place);
        if let Item::OpenMarker {
            is_started: true,
            at,
            ..
        } = open_marker
        {
            if at.saturating_add(1) == self.entries {
                self.entries = at;
                self.turns = self.turns.saturating_sub(2);
            }
        }
        true
    }

    /// An open marker directly before the node's opening, which can't be preceded again.
    pub fn precede(&mut self, node: u32) -> Result<bool, AllocError> {
        let Some(place) = self.node(node) else {
            return Ok(false);
        };
        let open_marker = self.new_open_marker(false);
        if let Item::Open { node, .. } = &mut self.items[place] {
            *node = None;
        }
        self.items.insert(place, open_marker)?;
        self.markers = self.markers.saturating_add(1);
        self.count(4);
        Ok(true)
    }

    /// The opening moves to the place of an older open marker, if that stands before it: the marker goes.
    pub fn extend_to(&mut self, node: u32, marker: u32) -> bool {
        let (Some(opening), Some(open_marker)) = (self.node(node), self.open_marker(marker)) else {
            return false;
        };
        if marker >= node {
            return false;
        }
        self.turns = self.turns.saturating_add(2);
        if open_marker < opening {
            let moved = self.items.remove(opening);
            self.items[open_marker] = moved;
        } else {
            let _ = self.items.remove(open_marker);
        }
        true
    }
}
