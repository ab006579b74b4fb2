//! Texts of pieces at random.

use crate::maker::Maker;
use crate::piece::Piece;
use std::alloc::{AllocError, Global};

/// A text of these pieces at random, with about so many raw tokens.
pub fn text(
    alloc: Global,
    maker: &mut Maker<'_>,
    pieces: &[Piece],
    tokens: usize,
) -> Result<Piece, AllocError> {
    let mut text = Piece::with_room(alloc, tokens.saturating_mul(6), tokens.saturating_add(64))?;
    for _ in 0..tokens {
        if text.tokens.len() >= tokens {
            break;
        }
        if let Some(piece) = pieces.get(maker.random.below(pieces.len())) {
            text.append(piece)?;
        }
    }
    Ok(text)
}

/// How many raw tokens a file has: some hundreds, in one of ten some thousands, in one of a hundred more.
pub fn file_size(maker: &mut Maker<'_>) -> usize {
    match maker.random.below(100) {
        0..=49 => maker.random.below(260).saturating_add(200),
        50..=89 => maker.random.below(3500).saturating_add(460),
        90..=98 => maker.random.below(20000).saturating_add(4000),
        _ => maker.random.below(75000).saturating_add(25000),
    }
}
