//! Categories of keywords.

/// The category of a keyword, by PostgreSQL's documentation, appendix C, "SQL Key Words".
#[derive(Clone, Copy, PartialEq, Eq)]
pub enum Category {
    /// "non-reserved"
    Unreserved,
    /// "non-reserved (cannot be function or type)"
    ColName,
    /// "reserved (can be function or type)"
    TypeFuncName,
    /// "reserved"
    Reserved,
}
