//! Lists of words whose tables are constants.

use squawk_kinds::TokenSet;

/// Words with the tables by which they are looked up without regard to ASCII case.
///
/// `AreReady` says what the tables must be, and the lemma `are-ready` proves it of constants by evaluating a test. The
/// crate `sql_words` has such tables, and the script that writes them.
#[derive(Clone, Copy)]
pub struct ReadyWords<'k> {
    /// The words in the order of their bytes in ASCII lower case, with the numbers of their kinds.
    pub words: &'k [(&'k str, u16)],
    /// These kinds.
    pub set: TokenSet,
    /// 2048 buckets, each of two slots: 0, or one more than the index of a row, or 65535 for a word without a row.
    pub slots: &'k [u16],
    /// The words of at most 16 bytes.
    pub kept: &'k [KeptRow],
}

/// A word of at most 16 bytes by its key in ASCII lower case, and the number of its kind.
#[derive(Clone, Copy)]
pub struct KeptRow {
    pub low: u64,
    pub high: u64,
    pub len: u16,
    pub kind: u16,
}
