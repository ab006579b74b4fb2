//! Texts and calls at random, which are the same for the same seed.

use crate::pieces::{PHRASES, Piece, TRIVIA};
use squawk_parser::{SyntaxKind, Text, TokenSet};
use squawk_script::Call;
use std::alloc::{AllocError, Global};
use std::fmt;

/// Numbers at random: each is the one before, three times shifted and added to itself without carry.
#[derive(Clone, Copy)]
pub struct Random {
    state: u64,
}

impl Random {
    pub fn new(seed: u64) -> Random {
        let state = seed | 1 << 63;
        Random { state }
    }

    /// A number below a bound, or 0.
    pub fn below(&mut self, bound: usize) -> usize {
        self.state ^= self.state << 13;
        self.state ^= self.state >> 7;
        self.state ^= self.state << 17;
        (self.state >> 33) as usize % bound.max(1)
    }

    fn is_one_in(&mut self, bound: usize) -> bool {
        self.below(bound) == 0
    }

    /// Takes a number out of a list.
    fn take(&mut self, numbers: &mut Vec<u32>) -> Option<u32> {
        let place = self.below(numbers.len());
        if place < numbers.len() {
            Some(numbers.remove(place))
        } else {
            None
        }
    }

    fn phrase(&mut self) -> (&'static str, SyntaxKind) {
        match PHRASES.get(self.below(PHRASES.len())) {
            Some((words, kind)) => (*words, *kind),
            None => ("a", SyntaxKind::IDENT),
        }
    }

    /// The kind of a node, or of a token that gets another one.
    fn kind(&mut self) -> SyntaxKind {
        SyntaxKind::from(match self.below(5) {
            0 => 0,
            1 => 3,
            2 => 65535,
            _ => 701,
        })
    }
}

/// A text and calls over it.
#[derive(Drop)]
pub struct Sample {
    alloc: Global,
    /// Which operators there are (`crate::words`).
    pub operators: usize,
    pub pieces: Vec<Piece>,
    pub calls: Vec<Call>,
    /// The markers that are open, without the root's.
    open: Vec<u32>,
    /// The nodes that can be preceded.
    nodes: Vec<u32>,
    markers: u32,
}

impl fmt::Display for Sample {
    fn fmt<W: fmt::Write>(&self, f: &mut fmt::Formatter<W>) -> fmt::Result {
        let operators = self.operators;
        write!(f, "operators {operators}\npieces")?;
        for piece in &self.pieces {
            let text = piece.text.as_str();
            write!(f, " {text:?}")?;
        }
        let calls = &self.calls;
        write!(f, "\ncalls {calls:?}")
    }
}

impl Sample {
    /// A text, and calls over it with a root around them. In one of six, some of the calls may be bad, in one of
    /// twenty markers may be left open, and in others is no root, or something stands beside it.
    pub fn new(alloc: Global, random: &mut Random) -> Result<Sample, AllocError> {
        let mut sample = Sample {
            alloc,
            operators: random.below(3),
            pieces: Vec::new(alloc),
            calls: Vec::new(alloc),
            open: Vec::new(alloc),
            nodes: Vec::new(alloc),
            markers: 0,
        };
        let has_root = !random.is_one_in(20);
        if has_root {
            sample.start()?;
            sample.open.clear();
        }
        sample.fill(random)?;
        if !random.is_one_in(20) {
            sample.spend_all(random)?;
        }
        if has_root {
            let kind = SyntaxKind::from(700);
            sample.calls.push(Call::Complete { marker: 0, kind })?;
        }
        if random.is_one_in(20) {
            sample.act(random)?;
        }
        Ok(sample)
    }

    /// The text, and calls for each phrase of it, that mostly eat it.
    fn fill(&mut self, random: &mut Random) -> Result<(), AllocError> {
        let is_wild = random.is_one_in(6);
        for _ in 0..random.below(9) {
            self.trivia(random)?;
            self.marker_calls(random)?;
            self.phrase(random)?;
            if is_wild && random.is_one_in(5) {
                self.wild_call(random)?;
            }
        }
        self.trivia(random)?;
        let most = if random.is_one_in(4) {
            0
        } else {
            self.pieces.len()
        };
        self.bump(most)
    }

    /// A phrase, in one of three with trivia between its words, and a call that may eat it.
    fn phrase(&mut self, random: &mut Random) -> Result<(), AllocError> {
        let (words, kind) = random.phrase();
        let is_apart = random.is_one_in(3);
        for (n, word) in words.split(' ').enumerate() {
            if is_apart && n > 0 {
                self.trivia(random)?;
            }
            self.pieces.push(Piece::new(self.alloc, word)?)?;
        }
        match random.below(12) {
            0..=6 => self.call(Call::Eat { kind }),
            7 => self.call(Call::Expect { kind }),
            8 => self.bump(words.split(' ').count()),
            _ => self.act(random),
        }
    }

    fn trivia(&mut self, random: &mut Random) -> Result<(), AllocError> {
        if let Some(text) = TRIVIA.get(random.below(2 * TRIVIA.len())) {
            self.pieces.push(Piece::new(self.alloc, *text)?)?;
        }
        Ok(())
    }

    fn call(&mut self, call: Call) -> Result<(), AllocError> {
        self.calls.push(call)?;
        Ok(())
    }

    fn bump(&mut self, len: usize) -> Result<(), AllocError> {
        for _ in 0..len {
            self.call(Call::BumpAny)?;
        }
        Ok(())
    }

    /// A call that puts something at the end.
    fn act(&mut self, random: &mut Random) -> Result<(), AllocError> {
        let message = if random.is_one_in(2) { "e" } else { "é" };
        let message = Text::new(String::from_str(self.alloc, message)?);
        let (_, kind) = random.phrase();
        let recovery = TokenSet::new(&[SyntaxKind::EOF, SyntaxKind::IDENT, SyntaxKind::COLON]);
        self.call(match random.below(8) {
            0..=2 => Call::Error { message },
            3 => Call::ErrRecover { message, recovery },
            4 => Call::ErrAndBump { message },
            5 => Call::BumpRemap {
                kind: random.kind(),
            },
            6 => Call::Expect { kind },
            _ => return self.start(),
        })
    }

    fn start(&mut self) -> Result<(), AllocError> {
        self.add_marker()?;
        self.call(Call::Start)
    }

    fn add_marker(&mut self) -> Result<(), AllocError> {
        self.open.push(self.markers)?;
        self.markers = self.markers.saturating_add(1);
        Ok(())
    }

    /// Some calls with markers and nodes, where there are any.
    fn marker_calls(&mut self, random: &mut Random) -> Result<(), AllocError> {
        for _ in 0..random.below(5) {
            match random.below(10) {
                0..=4 => self.start()?,
                5..=7 => self.spend(random)?,
                _ => self.precede(random)?,
            }
        }
        Ok(())
    }

    fn precede(&mut self, random: &mut Random) -> Result<(), AllocError> {
        let Some(node) = random.take(&mut self.nodes) else {
            return Ok(());
        };
        self.add_marker()?;
        self.call(Call::Precede { node })
    }

    /// Abandons an open marker, extends a newer node to it, or completes it.
    fn spend(&mut self, random: &mut Random) -> Result<(), AllocError> {
        let Some(marker) = random.take(&mut self.open) else {
            return Ok(());
        };
        let newer = self.nodes.iter().copied().find(|node| marker < *node);
        let kind = random.kind();
        match (random.below(5), newer) {
            (0, _) => self.call(Call::Abandon { marker }),
            (1..=2, Some(node)) => self.call(Call::ExtendTo { node, marker }),
            _ => {
                self.nodes.push(marker)?;
                self.call(Call::Complete { marker, kind })
            }
        }
    }

    fn spend_all(&mut self, random: &mut Random) -> Result<(), AllocError> {
        for _ in 0..self.open.len() {
            self.spend(random)?;
        }
        Ok(())
    }

    /// A call that may be bad.
    fn wild_call(&mut self, random: &mut Random) -> Result<(), AllocError> {
        let bound = (self.markers as usize).saturating_add(2);
        let marker = u32::try_from(random.below(bound)).unwrap_or(0);
        let node = u32::try_from(random.below(bound)).unwrap_or(0);
        let kind = random.kind();
        self.call(match random.below(9) {
            0 => Call::Complete { marker, kind },
            1 => Call::Complete {
                marker,
                kind: SyntaxKind::TOMBSTONE,
            },
            2 => Call::Abandon { marker },
            3 => Call::Precede { node },
            4..=5 => Call::ExtendTo { node, marker },
            6 => Call::Eat {
                kind: SyntaxKind::EOF,
            },
            7 => Call::Eat {
                kind: SyntaxKind::IS_NOT_JSON,
            },
            _ => Call::Expect {
                kind: SyntaxKind::OPERATOR_CALL,
            },
        })
    }
}
