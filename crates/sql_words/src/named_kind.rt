//! A kind with its name.

/// The number of a kind, and the name of its constant.
pub struct NamedKind {
    pub kind: u16,
    pub name: &'static str,
}
