//! Rules as parts, and what names in them stand for.
use rule_parts::Part;

/// Rules as parts.
#[derive(Clone, Copy)]
pub(crate) struct Parts<'r> {
    pub(crate) list: &'r [Part<'r>],
}

impl<'r> Parts<'r> {
    /// The part at an index.
    pub(crate) fn part(&self, index: usize) -> Part<'r> {
        match self.list.get(index) {
            Some(part) => *part,
            None => Part::Without,
        }
    }

    /// The index after a part with all that is in it.
    pub(crate) fn after(&self, index: usize) -> usize {
        let size = size(&self.part(index));
        index.saturating_add(1).saturating_add(size)
    }

    /// The index of the first rule.
    pub(crate) fn file(&self) -> usize {
        let first = self
            .list
            .iter()
            .position(|part| matches!(part, Part::Rule { .. }));
        first.unwrap_or(usize::MAX)
    }

    /// The index of the rule or class with this name.
    pub(crate) fn definition(&self, name: &str) -> usize {
        let first = self.list.iter().position(|part| defines(part, name));
        first.unwrap_or(usize::MAX)
    }

    /// The index of the operators before an operand of them.
    pub(crate) fn operators(&self, index: usize) -> usize {
        let mut last = index;
        for (at, part) in self.list.iter().enumerate().take(index) {
            if matches!(part, Part::Operators { .. }) {
                last = at;
            }
        }
        last
    }

    /// Whether a class has a token. Its members are tokens, or classes of tokens alone.
    pub(crate) fn is_in(&self, class: &str, token: &str) -> bool {
        let class = self.definition(class);
        let mut is_in = false;
        let mut is_without = false;
        for index in class.saturating_add(1)..self.after(class) {
            let is_one = match self.part(index) {
                Part::Token { name } => name.text == token,
                Part::Class { name } => self.has_token(name.text, token),
                _ => false,
            };
            is_in = if is_without {
                is_in && !is_one
            } else {
                is_in || is_one
            };
            is_without = matches!(self.part(index), Part::Without);
        }
        is_in
    }

    /// Whether a class of tokens alone has a token.
    fn has_token(&self, class: &str, token: &str) -> bool {
        let class = self.definition(class);
        let mut members = class.saturating_add(1)..self.after(class);
        members.any(|index| matches!(self.part(index), Part::Token { name } if name.text == token))
    }
}

/// How many parts are in one.
fn size(part: &Part<'_>) -> usize {
    match part {
        Part::Set { size, .. } | Part::Words { size, .. } | Part::Rule { size, .. } => *size,
        Part::Node { size } | Part::Arm { size } | Part::Is { size } | Part::Look { size } => *size,
        Part::Choice { size, .. } | Part::Optional { size, .. } => *size,
        Part::Repeat { size, .. } | Part::Some { size, .. } => *size,
        Part::List { size, .. } | Part::Operators { size } | Part::Tail { size, .. } => *size,
        _ => 0,
    }
}

/// Whether a part is the rule or class with this name.
fn defines(part: &Part<'_>, name: &str) -> bool {
    match part {
        Part::Rule { name: own, .. } | Part::Set { name: own, .. } => own.text == name,
        _ => false,
    }
}
