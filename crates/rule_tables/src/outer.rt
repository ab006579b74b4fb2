//! What the parts before one say of it.
ghost use Rattle.std.specs.Prelude.{◌≡◌, ◌≤◌, ◌&&◌, Some};
ghost use Rattle.rule_tables.specs.Outer.{is_member, no_outer, outer_after};

use rule_parts::Part;

/// What the parts before one say of it.
#[derive(Clone, Copy)]
pub(crate) struct Outer {
    /// The index of the last class.
    pub(crate) class: usize,
    /// How many members that has: 0 if there is none.
    size: usize,
    /// Whether they are words.
    is_words: bool,
    /// The index of the last operators.
    pub(crate) operators: usize,
}

impl Outer {
    /// What no parts say.
    pub(crate) fn none() -> Outer
        ensures { result ≡ no_outer }
    {
        Outer {
            class: 0,
            size: 0,
            is_words: false,
            operators: 0,
        }
    }

    /// What they and the next part say.
    pub(crate) fn after(&self, index: usize, part: &Part<'_>) -> Outer
        ensures is { result ≡ outer_after self.now index (Some part.now) }
        ensures operators { self.now.operators ≤ index → result.operators ≤ index }
    {
        match part {
            Part::Set { size, .. } => self.after_class(index, *size, false),
            Part::Words { size, .. } => self.after_class(index, *size, true),
            Part::Operators { .. } => Outer {
                class: self.class,
                size: self.size,
                is_words: self.is_words,
                operators: index,
            },
            _ => *self,
        }
    }

    fn after_class(&self, class: usize, size: usize, is_words: bool) -> Outer
        ensures { result ≡ record self.now { class = class; size = size; is_words = is_words } }
    {
        Outer {
            class,
            size,
            is_words,
            operators: self.operators,
        }
    }

    /// Whether the part is a member of the last class.
    pub(crate) fn has(&self, index: usize) -> bool
        ensures { result ≡ is_member self.now index }
    {
        index.saturating_sub(self.class).saturating_sub(1) < self.size
    }

    /// Whether the part is one of words.
    pub(crate) fn has_word(&self, index: usize) -> bool
        ensures { result ≡ (is_member self.now index && self.now.is_words) }
    {
        self.has(index) && self.is_words
    }
}
