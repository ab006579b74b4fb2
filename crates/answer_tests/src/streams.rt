//! Readers and writers of tests.

use std::io;
use std::io::{ErrorKind, Read, Write};

/// What a read or a write does.
#[derive(Clone, Copy)]
pub enum Turn {
    /// Moves so many bytes, or as many as there are.
    Moves(usize),
    /// Moves none, and is refused with this error.
    Refuses(ErrorKind),
}

/// What reads or writes do, one after another.
#[derive(Clone, Copy)]
pub struct Plan<'a> {
    /// The bytes that so many move, before the turns, and all behind them.
    pub most: usize,
    pub before: usize,
    pub turns: &'a [Turn],
    /// How many there were so far.
    pub calls: usize,
}

impl<'a> Plan<'a> {
    /// Each moves so many bytes.
    pub fn of(most: usize) -> Plan<'a> {
        Plan {
            most,
            before: 0,
            turns: &[],
            calls: 0,
        }
    }

    /// Each moves a byte but for these, before which there are so many.
    pub fn at(before: usize, turns: &'a [Turn]) -> Plan<'a> {
        Plan {
            before,
            turns,
            ..Plan::of(1)
        }
    }

    /// How many bytes the next moves at most.
    fn turn(&mut self) -> io::Result<usize> {
        let is_before = self.calls < self.before;
        self.calls = self.calls.saturating_add(1);
        match self.turns.split_first() {
            Some((turn, turns)) if !is_before => {
                self.turns = turns;
                match *turn {
                    Turn::Moves(most) => Ok(most),
                    Turn::Refuses(kind) => Err(io::Error::from(kind)),
                }
            }
            _ => Ok(self.most),
        }
    }
}

/// Gives its bytes by a plan.
#[derive(Drop)]
pub struct Gives<'a> {
    pub rest: &'a [u8],
    pub plan: Plan<'a>,
}

impl Read for Gives<'_> {
    fn read(&mut self, buffer: &mut [u8]) -> io::Result<usize> {
        let most = self.plan.turn()?;
        let n = self.rest.len().min(buffer.len()).min(most);
        let (front, rest) = self.rest.split_at(n);
        buffer[..n].copy_from_slice(front);
        self.rest = rest;
        Ok(n)
    }
}

/// Takes bytes by a plan.
#[derive(Drop)]
pub struct Takes<'a> {
    pub taken: Vec<u8>,
    pub plan: Plan<'a>,
}

impl Write for Takes<'_> {
    fn write(&mut self, bytes: &[u8]) -> io::Result<usize> {
        let most = self.plan.turn()?;
        let n = bytes.len().min(most);
        self.taken.write(&bytes[..n])
    }

    fn flush(&mut self) -> io::Result<()> {
        Ok(())
    }
}

/// Takes what it wants to be given, allocates nothing, and tells whether it was given anything else.
#[derive(Drop)]
pub struct Wants<'a> {
    /// What it is still to be given.
    pub rest: &'a [u8],
    /// Whether it was given anything.
    pub is_begun: bool,
    /// Whether it was given anything else.
    pub is_wrong: bool,
}

impl Write for Wants<'_> {
    fn write(&mut self, bytes: &[u8]) -> io::Result<usize> {
        self.is_begun = true;
        match self.rest.strip_prefix(bytes) {
            Some(rest) => self.rest = rest,
            None => self.is_wrong = true,
        }
        Ok(bytes.len())
    }

    fn flush(&mut self) -> io::Result<()> {
        Ok(())
    }
}
