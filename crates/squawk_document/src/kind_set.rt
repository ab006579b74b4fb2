//! Reads sets of token kinds.
ghost use Rattle.std.specs.Prelude.{◌≡◌, ◌<◌, false, IfOk};
ghost use Rattle.serde_json.specs.View.{view};
ghost use Rattle.squawk_kinds.specs.Kinds.{EOF};
ghost use Rattle.squawk_kinds.specs.TokenSets.{has};
ghost use Rattle.squawk_document.specs.KindSets.{HasExactly, kinds_in, set_in};
ghost use Rattle.squawk_document.specs.Values.{GivesExactly};

use crate::document_error::DocumentError;
use crate::value;
use serde_json::Value;
use squawk_kinds::{SyntaxKind, TokenSet};

/// Reads a set: an array of token kinds, each at least `low`.
pub fn kind_set(value: &Value, low: u64) -> Result<TokenSet, DocumentError>
    ensures set { GivesExactly (λ set. set) result (set_in low (view value.now)) }
    ensures kinds { IfOk result (λ set. HasExactly set (kinds_in low (view value.now))) }
    ensures no_end { 0 < low → IfOk result (λ set. has set EOF ≡ false) }
{
    let items = value::items(value)?;
    let greatest = u64::from(u16::from(SyntaxKind::WHITESPACE));
    let mut words = [0; 10];
    for item in items {
        let kind = value::number(item, low, greatest)? as usize;
        words[kind / 64] |= 1 << (kind % 64);
    }
    Ok(TokenSet::from_words(words))
}
