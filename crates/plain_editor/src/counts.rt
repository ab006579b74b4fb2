//! What the scripts had that were compared.

use crate::draft::{Draft, Item};
use crate::trivia::stands_in_one_root;
use squawk_script::{Call, ScriptError};

/// How many scripts there were of each kind, and of those that were answered, what they had.
#[derive(Debug, Default, Drop)]
pub struct Counts {
    answered: usize,
    in_one_root: usize,
    bad_call: usize,
    unspent: usize,
    crossing: usize,
    abandoned: usize,
    preceded: usize,
    extended: usize,
    errors: usize,
    glued: usize,
}

impl Counts {
    pub fn note(&mut self, calls: &[Call], draft: &Result<Draft, ScriptError>) {
        match draft {
            Err(ScriptError::BadCall { .. }) => add(&mut self.bad_call, 1),
            Err(_) => add(&mut self.unspent, 1),
            Ok(draft) => {
                let roots = usize::from(stands_in_one_root(&draft.items));
                add(&mut self.answered, 1);
                add(&mut self.in_one_root, roots);
                add(&mut self.crossing, draft.crossings);
                self.note_calls(calls);
                self.note_items(&draft.items);
            }
        }
    }

    fn note_calls(&mut self, calls: &[Call]) {
        for call in calls {
            match call {
                Call::Abandon { .. } => add(&mut self.abandoned, 1),
                Call::Precede { .. } => add(&mut self.preceded, 1),
                Call::ExtendTo { .. } => add(&mut self.extended, 1),
                _ => {}
            }
        }
    }

    fn note_items(&mut self, items: &[Item]) {
        for item in items {
            match item {
                Item::Error { .. } => add(&mut self.errors, 1),
                Item::Token { count, .. } if *count > 1 => add(&mut self.glued, 1),
                _ => {}
            }
        }
    }
}

fn add(count: &mut usize, more: usize) {
    *count = count.saturating_add(more);
}
