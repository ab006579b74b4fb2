//! The plain editor: it makes each call by the plainest edit of a list.
//!
//! It has no log, no links and no pass. What a call may name is told by looking for it in the list.

use crate::draft::{Draft, Item};
use crate::looks::{Ahead, is_edible, is_normal_form};
use crate::source::Raw;
use squawk_parser::{SyntaxKind, TokenSet, Words};
use squawk_script::{Call, ScriptError};
use std::alloc::{AllocError, Global};

#[derive(Drop)]
struct Editor<'i> {
    alloc: Global,
    draft: Draft,
    /// The tokens that aren't eaten.
    ahead: Ahead<'i>,
    names: &'i [(SyntaxKind, &'i str)],
}

/// What calls leave, or why they are refused.
pub fn edit(
    alloc: Global,
    tokens: &[Raw],
    words: Words<'_>,
    calls: &[Call],
) -> Result<Result<Draft, ScriptError>, AllocError> {
    let Words {
        operator_first,
        names,
    } = words;
    let mut editor = Editor {
        alloc,
        draft: Draft::new(alloc),
        ahead: Ahead {
            tokens,
            operator_first,
        },
        names,
    };
    for (index, call) in calls.iter().enumerate() {
        if !editor.make(call)? {
            return Ok(Err(ScriptError::BadCall { index }));
        }
    }
    let Editor { draft, .. } = editor;
    let unspent = (0..draft.markers).find(|marker| draft.open_marker(*marker).is_some());
    Ok(match unspent {
        Some(marker) => Err(ScriptError::Unspent { marker }),
        None => Ok(draft),
    })
}

impl Editor<'_> {
    /// Makes a call, and tells whether it could be made.
    fn make(&mut self, call: &Call) -> Result<bool, AllocError> {
        let current = self.ahead.kind(0);
        match call {
            Call::Start => self.draft.start()?,
            Call::Complete { marker, kind } => return self.draft.complete(*marker, *kind),
            Call::Abandon { marker } => return Ok(self.draft.abandon(*marker)),
            Call::Precede { node } => return self.draft.precede(*node),
            Call::ExtendTo { node, marker } => return Ok(self.draft.extend_to(*node, *marker)),
            Call::Eat { kind } | Call::Expect { kind } if !is_edible(*kind) => return Ok(false),
            Call::Eat { kind } => {
                self.eat(*kind)?;
            }
            Call::Expect { kind } => self.expect(*kind)?,
            Call::BumpAny => self.bump(current)?,
            Call::BumpRemap { kind } => self.bump(*kind)?,
            Call::Error { message } => self.error(message.as_str())?,
            Call::ErrRecover { message, recovery } => self.recover(message.as_str(), recovery)?,
            Call::ErrAndBump { message } => self.recover(message.as_str(), &TokenSet::EMPTY)?,
        }
        Ok(true)
    }

    /// Puts one token of the first so many that stand ahead.
    fn token(&mut self, kind: SyntaxKind, count: usize) -> Result<(), AllocError> {
        self.ahead.tokens = self.ahead.tokens.get(count..).unwrap_or(&[]);
        self.draft.put(Item::Token { kind, count }, 1)
    }

    /// Puts the current token under a kind; at the end nothing.
    fn bump(&mut self, kind: SyntaxKind) -> Result<(), AllocError> {
        if self.ahead.tokens.is_empty() {
            return Ok(());
        }
        self.token(kind, 1)
    }

    /// Puts the opening of a node that no call names.
    fn open(&mut self, kind: SyntaxKind) -> Result<(), AllocError> {
        self.draft.put(Item::Open { kind, node: None }, 2)
    }

    /// Eats a kind if it stands ahead, and tells whether it did.
    fn eat(&mut self, kind: SyntaxKind) -> Result<bool, AllocError> {
        let standing = self.ahead.standing(kind);
        if standing.len == 0 {
            return Ok(false);
        }
        if !standing.is_node {
            self.token(kind, standing.len)?;
            return Ok(true);
        }
        self.open(kind)?;
        for _ in 0..standing.len {
            self.part()?;
        }
        self.draft.put(Item::Close, 1)?;
        Ok(true)
    }

    /// Puts a token of a composite kind's node, a normal form in a node of its own.
    fn part(&mut self) -> Result<(), AllocError> {
        let kind = self.ahead.kind(0);
        if !is_normal_form(kind) {
            return self.bump(kind);
        }
        self.open(SyntaxKind::UNICODE_NORMAL_FORM)?;
        self.bump(kind)?;
        self.draft.put(Item::Close, 1)
    }

    fn error(&mut self, message: &str) -> Result<(), AllocError> {
        let message = String::from_str(self.alloc, message)?;
        self.draft.put(Item::Error { message }, 1)
    }

    fn expect(&mut self, kind: SyntaxKind) -> Result<(), AllocError> {
        if self.eat(kind)? {
            return Ok(());
        }
        let message = match self.names.iter().find(|(known, _)| *known == kind) {
            Some((_, name)) => format!(in self.alloc; "expected {}", *name)?,
            None => format!(in self.alloc; "expected {}", u16::from(kind))?,
        };
        self.draft.put(Item::Error { message }, 1)
    }

    /// Puts the error alone where the current kind is in the set, and else in a node with the current token.
    fn recover(&mut self, message: &str, recovery: &TokenSet) -> Result<(), AllocError> {
        let kind = self.ahead.kind(0);
        if recovery.contains(kind) {
            return self.error(message);
        }
        self.open(SyntaxKind::ERROR)?;
        self.error(message)?;
        self.bump(kind)?;
        self.draft.put(Item::Close, 1)
    }
}
