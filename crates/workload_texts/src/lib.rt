//! What the jobs that are timed share: texts at random with their raw tokens, and a digest of results.
#![tactic(auto)]

mod awkward;
pub mod digest;
pub mod maker;
pub mod piece;
pub mod random;
pub mod texts;

pub use digest::Digest;
pub use maker::Maker;
pub use piece::Piece;
pub use random::Random;
pub use texts::{file_size, text};
