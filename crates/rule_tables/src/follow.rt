//! Which kinds come after each part in its rule.
use crate::eats::{kinds_of, separators};
use crate::map::Map;
use crate::place::Place;
use crate::sets::both;
use rule_grammar::Part as Row;
use squawk_kinds::TokenSet;
use std::alloc::{AllocError, Global};

/// What a part may begin with, and what may come after it in its rule.
#[derive(Clone, Copy)]
pub(crate) struct Ahead {
    /// What it begins with.
    pub(crate) begins: Begins,
    /// The kinds that it begins again with, after it or what is in it.
    pub(crate) again: TokenSet,
    /// The kinds that may come next.
    pub(crate) follows: TokenSet,
    /// The kinds that later parts of the rule begin with.
    pub(crate) later: TokenSet,
    /// The kinds that items of the lists around it in its rule begin with.
    pub(crate) items: TokenSet,
    /// Whether the rule may end after it.
    pub(crate) ends: bool,
}

impl Ahead {
    pub(crate) const NOTHING: Ahead = Ahead {
        begins: Begins::NOTHING,
        again: TokenSet::EMPTY,
        follows: TokenSet::EMPTY,
        later: TokenSet::EMPTY,
        items: TokenSet::EMPTY,
        ends: false,
    };
}

/// What a part begins with.
#[derive(Clone, Copy)]
pub(crate) struct Begins {
    pub(crate) kinds: TokenSet,
    /// Whether it may eat nothing.
    pub(crate) is_empty: bool,
}

impl Begins {
    /// Of what is never there.
    const NOTHING: Begins = Begins {
        kinds: TokenSet::EMPTY,
        is_empty: false,
    };

    /// Of what eats nothing.
    const SILENT: Begins = Begins {
        kinds: TokenSet::EMPTY,
        is_empty: true,
    };

    /// Of one of two.
    fn or(self, other: Begins) -> Begins {
        Begins {
            kinds: self.kinds.union(other.kinds),
            is_empty: self.is_empty || other.is_empty,
        }
    }

    /// Of one and another after it.
    fn then(self, next: Begins) -> Begins {
        if self.is_empty {
            Begins {
                kinds: self.kinds.union(next.kinds),
                is_empty: next.is_empty,
            }
        } else {
            self
        }
    }
}

/// What a row and those after it in the same row begin with.
#[derive(Clone, Copy)]
struct Rest {
    own: Begins,
    /// All of them, one after another.
    all: Begins,
    /// One of those that are arms.
    arms: Begins,
    /// One of those that are operators.
    tails: TokenSet,
    /// Any of them.
    any: TokenSet,
}

impl Rest {
    const UNKNOWN: Rest = Rest {
        own: Begins::NOTHING,
        all: Begins::NOTHING,
        arms: Begins::NOTHING,
        tails: TokenSet::EMPTY,
        any: TokenSet::EMPTY,
    };

    /// Of no rows.
    const NONE: Rest = Rest {
        all: Begins::SILENT,
        ..Rest::UNKNOWN
    };
}

/// What comes from each part on, in its rule. After an error, later parts are gone on with at these kinds alone.
pub(crate) fn ahead_of(
    alloc: Global,
    map: &Map<'_>,
    resume: TokenSet,
) -> Result<Vec<Ahead>, AllocError> {
    let mut rests = Vec::new(alloc);
    rests.resize(map.rows.len(), Rest::UNKNOWN)?;
    begin_all(&mut rests, map);
    let mut ahead = Vec::new(alloc);
    for (row, part) in map.rows.iter().enumerate() {
        let known = follow(&ahead, &rests, map, resume, row, part);
        ahead.push(known)?;
    }
    Ok(ahead)
}

/// Works out what each part begins with: once more, until nothing is new.
fn begin_all(rests: &mut [Rest], map: &Map<'_>) {
    for _round in 0..map.rows.len() {
        if !begin_again(rests, map) {
            break;
        }
    }
}

/// Works out once more what each part begins with. Returns whether anything is new.
fn begin_again(rests: &mut [Rest], map: &Map<'_>) -> bool {
    let mut is_new = false;
    for row in (0..map.rows.len()).rev() {
        let rest = begin(rests, map, row);
        if let Some(known) = rests.get_mut(row) {
            is_new = is_new
                || known.own.kinds != rest.own.kinds
                || known.own.is_empty != rest.own.is_empty;
            *known = rest;
        }
    }
    is_new
}

/// What a row and those after it begin with, by what is known of others.
fn begin(rests: &[Rest], map: &Map<'_>, row: usize) -> Rest {
    let next = match map.outer(row) {
        Some(outer) => rest_at(rests, map.next(row, outer)),
        None => Rest::NONE,
    };
    let own = own(rests, map, row);
    let is_arm = matches!(map.rows.get(row), Some(Row::Arm { .. }));
    let is_tail = matches!(map.rows.get(row), Some(Row::Tail { .. }));
    Rest {
        own,
        all: own.then(next.all),
        arms: if is_arm { own.or(next.arms) } else { next.arms },
        tails: if is_tail {
            own.kinds.union(next.tails)
        } else {
            next.tails
        },
        any: own.kinds.union(next.any),
    }
}

fn own(rests: &[Rest], map: &Map<'_>, row: usize) -> Begins {
    let inner = rest_at(rests, map.first(row));
    match map.rows.get(row) {
        Some(Row::Token { .. } | Row::Word { .. } | Row::Class { .. } | Row::Name { .. }) =>
            Begins {
                kinds: kinds_of(map, Place::Before(row)),
                is_empty: false,
            },
        Some(Row::Choice { .. } | Row::Operators { .. }) => inner.arms,
        Some(Row::Optional { .. } | Row::Repeat { .. }) => inner.all.or(Begins::SILENT),
        Some(Row::Call { start, .. }) => known(rests, usize::from(*start).saturating_sub(1)),
        Some(Row::Operand { operators, .. }) => known(rests, usize::from(*operators)),
        Some(
            Row::Becomes { .. }
            | Row::Is { .. }
            | Row::Guard { .. }
            | Row::Look { .. }
            | Row::Nothing,
        ) => { Begins::SILENT }
        _ => inner.all,
    }
}

fn known(rests: &[Rest], row: usize) -> Begins {
    match rests.get(row) {
        Some(rest) => rest.own,
        None => Begins::NOTHING,
    }
}

fn rest_at(rests: &[Rest], row: Option<usize>) -> Rest {
    match row {
        Some(row) => match rests.get(row) {
            Some(rest) => *rest,
            None => Rest::NONE,
        },
        None => Rest::NONE,
    }
}

/// What comes from a row on.
fn follow(
    ahead: &[Ahead],
    rests: &[Rest],
    map: &Map<'_>,
    resume: TokenSet,
    row: usize,
    part: &Row,
) -> Ahead {
    let mut found = Ahead {
        begins: known(rests, row),
        again: again(rests, map, row, part),
        ..Ahead::NOTHING
    };
    let Some(outer) = map.outer(row) else {
        return found;
    };
    let is_way = matches!(
        map.rows.get(outer),
        Some(Row::Choice { .. } | Row::Operators { .. })
    );
    let next = if is_way {
        Rest::NONE
    } else {
        rest_at(rests, map.next(row, outer))
    };
    let after = after_last(ahead, rests, map, outer);
    let end = Begins {
        kinds: after.follows,
        is_empty: after.ends,
    };
    let rest = next.all.then(end);
    found.follows = rest.kinds;
    found.ends = rest.is_empty;
    found.later = both(next.any.union(after.follows), resume).union(after.later);
    found.items = after.items;
    found
}

/// What comes after the last of the rows in one.
fn after_last(ahead: &[Ahead], rests: &[Rest], map: &Map<'_>, row: usize) -> Ahead {
    let mut after = match ahead.get(row) {
        Some(found) => *found,
        None => Ahead::NOTHING,
    };
    after.ends = after.ends || map.outer(row).is_none();
    after.follows = after.follows.union(after.again);
    if let Some(Row::List { .. }) = map.rows.get(row) {
        after.later = after.later.union(after.again);
        after.items = after.items.union(rest_at(rests, map.first(row)).all.kinds);
    }
    after
}

/// The kinds that a row begins again with, after it or what is in it.
fn again(rests: &[Rest], map: &Map<'_>, row: usize, part: &Row) -> TokenSet {
    let inner = rest_at(rests, map.first(row));
    match part {
        Row::Repeat { .. } | Row::Some { .. } => inner.all.kinds,
        Row::List { .. } => separators(part),
        Row::Operators { .. } => inner.tails,
        _ => TokenSet::EMPTY,
    }
}
