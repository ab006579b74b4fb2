//! Places in rules.
ghost use Rattle.std.specs.Prelude.{◌≡◌, min};
ghost use Rattle.rule_tables.specs.Walks.{slot};

/// A place in rules.
#[derive(Clone, Copy)]
pub(crate) enum Place {
    /// Before a part.
    Before(usize),
    /// After a part.
    After(usize),
    /// Before the separator of a list.
    Separator(usize),
    /// The end of the text.
    End,
}

/// How a row leads to another.
#[derive(Clone, Copy)]
pub(crate) enum Way {
    /// As an arm in it.
    Arm,
    /// As an operator in it.
    Tail,
    /// As a call of it.
    Call,
}

/// The number of the mark of a place.
pub(crate) fn slot_of(place: Place) -> usize
    ensures { result ≡ min (slot place) 18446744073709551615 }
{
    match place {
        Place::Before(row) => row.saturating_mul(3).saturating_add(1),
        Place::After(row) => row.saturating_mul(3).saturating_add(2),
        Place::Separator(row) => row.saturating_mul(3).saturating_add(3),
        Place::End => 0,
    }
}
