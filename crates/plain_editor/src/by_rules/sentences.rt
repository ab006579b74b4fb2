//! Sentences of rules at random.
use crate::by_rules::grammars::TOKENS;
use crate::by_rules::parts::Parts;
use crate::generator::Random;
use rule_parts::Part;
use squawk_kinds::SyntaxKind;
use std::alloc::{AllocError, Global};
use std::ops::Range;

/// From how many tokens on a sentence takes the shortest way to its end.
const LONG: usize = 24;

/// How deep parts may be in one another.
const DEPTH: u32 = 300;

/// Rules that sentences are made of. The first arm of a choice leads to an end without others.
#[derive(Clone, Copy)]
pub(crate) struct Sentences<'r> {
    pub(crate) alloc: Global,
    pub(crate) parts: Parts<'r>,
}

/// A sentence, and the numbers that it is made with.
#[derive(Drop)]
struct Made<'r, 'n> {
    tokens: Vec<&'r str>,
    random: &'n mut Random,
}

impl<'r> Made<'r, '_> {
    fn push(&mut self, token: &'r str) -> Result<(), AllocError> {
        self.tokens.push(token)?;
        Ok(())
    }

    /// One time in so many, as long as the sentence is short.
    fn is_one_in(&mut self, bound: usize) -> bool {
        self.tokens.len() < LONG && self.random.below(bound) == 0
    }

    /// A number below a bound, or 0 where the sentence is long.
    fn below(&mut self, bound: usize) -> usize {
        if self.tokens.len() < LONG {
            self.random.below(bound)
        } else {
            0
        }
    }
}

impl<'r> Sentences<'r> {
    /// The tokens of a sentence that the first rule says.
    pub(crate) fn next(&self, random: &mut Random) -> Result<Vec<&'r str>, AllocError> {
        let mut made = Made {
            tokens: Vec::new(self.alloc),
            random,
        };
        self.inside(self.parts.file(), &mut made, DEPTH)?;
        Ok(made.tokens)
    }

    /// Adds what a part says.
    #[cycle(sentences)]
    fn part(&self, index: usize, made: &mut Made<'r, '_>, depth: u32) -> Result<(), AllocError> {
        if depth == 0 {
            return Ok(());
        }
        let depth = depth - 1;
        match self.parts.part(index) {
            Part::Token { name } => made.push(name.text),
            Part::Class { name } => self.member(name.text, made),
            Part::Call { name } => self.inside(self.parts.definition(name.text), made, depth),
            Part::Node { .. } | Part::Arm { .. } => self.inside(index, made, depth),
            Part::Choice { .. } => self.one_of(index, made, depth),
            Part::Optional { .. } if made.is_one_in(2) => self.inside(index, made, depth),
            Part::Repeat { .. } => self.again(index, None, made, depth),
            Part::Some { .. } => {
                self.inside(index, made, depth)?;
                self.again(index, None, made, depth)
            }
            Part::List { separator, .. } => {
                self.inside(index, made, depth)?;
                self.again(index, Some(separator.text), made, depth)
            }
            Part::Operators { .. } => self.operation(index, made, depth),
            Part::Operand { .. } => self.operation(self.parts.operators(index), made, depth),
            _ => Ok(()),
        }
    }
    /// Adds what is in a part.
    #[cycle(sentences)]
    fn inside(&self, index: usize, made: &mut Made<'r, '_>, depth: u32) -> Result<(), AllocError> {
        let mut next = index.saturating_add(1);
        for at in next..self.parts.after(index) {
            if at == next {
                self.part(at, made, depth)?;
                next = self.parts.after(at);
            }
        }
        Ok(())
    }

    /// Adds one of the arms in a part.
    #[cycle(sentences)]
    fn one_of(&self, index: usize, made: &mut Made<'r, '_>, depth: u32) -> Result<(), AllocError> {
        let arms = self.ways(index, true);
        let arm = self.way(index, true, made.below(arms));
        self.part(arm, made, depth)
    }

    /// Adds what is in a part some more times, each after a separator.
    #[cycle(sentences)]
    fn again(
        &self,
        index: usize,
        separator: Option<&'r str>,
        made: &mut Made<'r, '_>,
        depth: u32,
    ) -> Result<(), AllocError> {
        for _ in 0..made.below(4) {
            if let Some(separator) = separator {
                made.push(separator)?;
            }
            self.inside(index, made, depth)?;
        }
        Ok(())
    }

    /// Adds an operand, and some operators with theirs.
    #[cycle(sentences)]
    fn operation(
        &self,
        index: usize,
        made: &mut Made<'r, '_>,
        depth: u32,
    ) -> Result<(), AllocError> {
        self.one_of(index, made, depth)?;
        let tails = self.ways(index, false);
        for _ in 0..made.below(3) {
            let tail = self.way(index, false, made.below(tails));
            self.inside(tail, made, depth)?;
        }
        Ok(())
    }

    /// How many arms there are in a part, or operators.
    fn ways(&self, index: usize, arms: bool) -> usize {
        let mut ways = 0usize;
        let mut next = index.saturating_add(1);
        for at in next..self.parts.after(index) {
            if at == next {
                ways = ways.saturating_add(usize::from(is_way(&self.parts.part(at), arms)));
                next = self.parts.after(at);
            }
        }
        ways
    }

    /// The index of an arm or operator by its number.
    fn way(&self, index: usize, arms: bool, number: usize) -> usize {
        let mut ways = 0usize;
        let mut next = index.saturating_add(1);
        for at in next..self.parts.after(index) {
            if at == next {
                if is_way(&self.parts.part(at), arms) {
                    if ways == number {
                        return at;
                    }
                    ways = ways.saturating_add(1);
                }
                next = self.parts.after(at);
            }
        }
        index
    }

    /// Adds a token of a class.
    fn member(&self, class: &str, made: &mut Made<'r, '_>) -> Result<(), AllocError> {
        let number = made.random.below(TOKENS.len());
        match self.first_member(class, number..TOKENS.len()) {
            Some(token) => made.push(token),
            None => match self.first_member(class, 0..TOKENS.len()) {
                Some(token) => made.push(token),
                None => Ok(()),
            },
        }
    }

    /// The first of some tokens that is in a class.
    fn first_member(&self, class: &str, tokens: Range<usize>) -> Option<&'static str> {
        for index in tokens {
            match TOKENS.get(index) {
                Some((name, _)) if self.parts.is_in(class, name) => return Some(*name),
                _ => {}
            }
        }
        None
    }
}

fn is_way(part: &Part<'_>, arms: bool) -> bool {
    if arms {
        matches!(part, Part::Arm { .. })
    } else {
        matches!(part, Part::Tail { .. })
    }
}

/// Leaves out, doubles, exchanges or replaces a token of a sentence.
pub(crate) fn change<'r>(
    sentence: &mut Vec<&'r str>,
    names: &[(&'r str, SyntaxKind)],
    random: &mut Random,
) -> Result<(), AllocError> {
    let place = random.below(sentence.len());
    let Some(token) = sentence.get(place).copied() else {
        return Ok(());
    };
    match random.below(4) {
        0 => {
            let _ = sentence.remove(place);
        }
        1 => sentence.insert(place, token)?,
        2 => {
            let other = random.below(sentence.len());
            if let Some(moved) = sentence.get(other).copied() {
                put(sentence, place, moved);
                put(sentence, other, token);
            }
        }
        _ => {
            if let Some(name) = names.get(random.below(names.len())) {
                put(sentence, place, name.0);
            }
        }
    }
    Ok(())
}

/// Replaces a token.
fn put<'r>(sentence: &mut [&'r str], place: usize, token: &'r str) {
    if let Some(slot) = sentence.get_mut(place) {
        *slot = token;
    }
}
