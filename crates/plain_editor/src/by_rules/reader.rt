//! A plain reader of tokens by rules: sets of positions, and no prediction.
//!
//! A set of positions is a number: it has position `n` if bit `n` is 1.
use crate::by_rules::parts::Parts;
use rule_parts::{Association, Part};

/// The greatest number of tokens.
const MOST: usize = 63;

/// The greatest level of operators, and how many sets there are of the ends of operations, by the greatest level of an
/// operator after them.
const LEVELS: usize = 16;

/// How deep parts may be called in one another.
const DEPTH: u32 = 4000;

/// A token by its name, or one of a class.
#[derive(Clone, Copy)]
enum Wanted<'w> {
    Token(&'w str),
    Class(&'w str),
}

/// Rules, and the names of tokens that are read by them.
#[derive(Clone, Copy)]
pub(crate) struct Reader<'r> {
    pub(crate) parts: Parts<'r>,
    pub(crate) tokens: &'r [&'r str],
}

impl<'r> Reader<'r> {
    /// Whether the first rule says all the tokens.
    pub(crate) fn reads_all(&self) -> bool {
        let file = self.inside(self.parts.file(), 1, DEPTH);
        has(file, self.tokens.len())
    }

    /// Where a part ends that begins at one of these positions.
    #[cycle(reader)]
    fn ends(&self, index: usize, from: u64, depth: u32) -> u64 {
        if depth == 0 || from == 0 {
            return 0;
        }
        let depth = depth - 1;
        match self.parts.part(index) {
            Part::Token { name } => self.over(from, Wanted::Token(name.text)),
            Part::Class { name } => self.over(from, Wanted::Class(name.text)),
            Part::Call { name } => self.inside(self.parts.definition(name.text), from, depth),
            Part::Choice { .. } => self.one_of(index, from, depth),
            Part::Optional { .. } => from | self.inside(index, from, depth),
            Part::Repeat { .. } => self.repeated(index, from, depth),
            Part::Some { .. } => {
                let once = self.inside(index, from, depth);
                self.repeated(index, once, depth)
            }
            Part::List { separator, .. } => self.listed(index, separator.text, from, depth),
            Part::Operators { .. } => self.operation(index, 0, from, depth),
            Part::Operand { floor } => self.operation(
                self.parts.operators(index),
                floor,
                from,
                depth,
            ),
            Part::Node { .. } | Part::Arm { .. } => self.inside(index, from, depth),
            _ => from,
        }
    }

    /// The positions after a wanted token at one of these.
    fn over(&self, from: u64, wanted: Wanted<'_>) -> u64 {
        let mut after = 0u64;
        for (position, token) in self.tokens.iter().enumerate() {
            if has(from, position) && self.is(wanted, token) {
                after |= set_of(position.saturating_add(1));
            }
        }
        after
    }

    fn is(&self, wanted: Wanted<'_>, token: &str) -> bool {
        match wanted {
            Wanted::Token(name) => name == token,
            Wanted::Class(name) => self.parts.is_in(name, token),
        }
    }

    /// What is in a part, one after another.
    #[cycle(reader)]
    fn inside(&self, index: usize, from: u64, depth: u32) -> u64 {
        let mut positions = from;
        let mut next = index.saturating_add(1);
        for at in next..self.parts.after(index) {
            if at == next {
                positions = self.ends(at, positions, depth);
                next = self.parts.after(at);
            }
        }
        positions
    }

    /// One of the arms in a part.
    #[cycle(reader)]
    fn one_of(&self, index: usize, from: u64, depth: u32) -> u64 {
        let mut positions = 0u64;
        let mut next = index.saturating_add(1);
        for at in next..self.parts.after(index) {
            if at == next {
                if matches!(self.parts.part(at), Part::Arm { .. }) {
                    positions |= self.ends(at, from, depth);
                }
                next = self.parts.after(at);
            }
        }
        positions
    }

    /// What is in a part, any number of times.
    #[cycle(reader)]
    fn repeated(&self, index: usize, from: u64, depth: u32) -> u64 {
        let mut positions = from;
        let mut new = from;
        for _ in 0..MOST {
            new = self.inside(index, new, depth) & !positions;
            positions |= new;
        }
        positions
    }

    /// What is in a part, once or more, with separators.
    #[cycle(reader)]
    fn listed(&self, index: usize, separator: &str, from: u64, depth: u32) -> u64 {
        let mut positions = self.inside(index, from, depth);
        let mut new = positions;
        for _ in 0..MOST {
            let next = self.over(new, Wanted::Token(separator));
            new = self.inside(index, next, depth) & !positions;
            positions |= new;
        }
        positions
    }

    /// An operand, and operators of a level from `floor` on after it.
    #[cycle(reader)]
    fn operation(&self, index: usize, floor: usize, from: u64, depth: u32) -> u64 {
        let mut ends = [0u64; LEVELS];
        // Any operator may come after an operand.
        ends[LEVELS - 1] = self.one_of(index, from, depth);
        for _ in 0..MOST {
            let known = ends;
            self.operate(index, floor, &mut ends, depth);
            if ends == known {
                break;
            }
        }
        ends.iter().fold(0, |all, positions| all | *positions)
    }

    /// Adds the ends of operations with one more operator.
    #[cycle(reader)]
    fn operate(&self, index: usize, floor: usize, ends: &mut [u64; LEVELS], depth: u32) {
        for at in index.saturating_add(1)..self.parts.after(index) {
            if let Part::Tail {
                level,
                association,
                ..
            } = self.parts.part(at)
            {
                if floor <= level {
                    let after = self.inside(at, before(ends, level), depth);
                    add(ends, level, association, after);
                }
            }
        }
    }
}

/// Whether a set has a position.
fn has(positions: u64, position: usize) -> bool {
    positions & set_of(position) != 0
}

fn set_of(position: usize) -> u64 {
    1u64 << (position % 64)
}

/// The ends after which an operator of a level may come.
fn before(ends: &[u64; LEVELS], level: usize) -> u64 {
    ends.iter()
        .skip(level)
        .fold(0, |all, positions| all | *positions)
}

/// Adds the ends of an operator of a level.
fn add(ends: &mut [u64; LEVELS], level: usize, association: Association, after: u64) {
    let greatest = match association {
        Association::Neither => level.saturating_sub(1),
        _ => level,
    };
    if let Some(positions) = ends.get_mut(greatest) {
        *positions |= after;
    }
}
