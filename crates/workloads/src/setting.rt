//! What all jobs share.

use squawk_document::Document;
use workload_texts::{Maker, Random};

/// A document with the vocabulary, the names of kinds and the kinds of operators, and its text.
#[derive(Drop)]
pub struct Setting<'v> {
    pub document: Document<'v>,
    /// The document from its words on, without the calls.
    pub words: &'v str,
}

impl<'v> Setting<'v> {
    /// A maker of texts from a seed.
    pub fn maker(&self, seed: u64) -> Maker<'_> {
        Maker {
            random: Random::new(seed),
            names: &self.document.names,
        }
    }
}
