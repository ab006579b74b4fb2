//! The limits of a parse.

/// The greatest number of events that a parse may record, and of errors among them.
#[derive(Clone, Copy, Debug, PartialEq, Eq)]
pub struct Limits {
    /// Each `start`, `precede`, `complete`, token and error is an event.
    pub events: u32,
    /// At most 2^31.
    pub errors: u32,
}
