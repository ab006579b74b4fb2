//! Whole lines in front of a text.
ghost use Rattle.sql_grammar.specs.WholeLines.{AreWholeLines};

/// A text up to the end of the last line that ends: the front of a script that can be read before the rest has come.
#[tactic(auto, using(crate::proofs::WholeLines::stops))]
pub fn whole_lines(text: &[u8]) -> &[u8]
    ensures { AreWholeLines text.now result.now }
{
    let mut end = text.len();
    while end > 0 && text[end - 1] != b'\n' {
        end -= 1;
    }
    &text[..end]
}
