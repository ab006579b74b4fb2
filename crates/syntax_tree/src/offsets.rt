//! The elements at an offset or at a range of the text.
ghost use Rattle.std.specs.Prelude.{◌≡◌, ◌⊎◌, ◌<◌, ◌≤◌, length, true, MatchOption};
ghost use Rattle.squawk_tree.specs.Forest.{Forest, forest_bytes};
ghost use Rattle.syntax_tree.specs.Layout.{IsTree};
ghost use Rattle.syntax_tree.specs.Trees.{start_at, end_at, is_token_at};
ghost use Rattle.syntax_tree.specs.Offsets.{AnswersOffset, CoversRange};

use crate::handle::SyntaxElement;
use crate::tree::SyntaxTree;
use std::ops::Range;

/// The tokens that touch an offset.
#[derive(Clone, Copy)]
pub enum TokenAtOffset<'t> {
    /// The text is empty, or ends before the offset.
    None,
    /// The offset is inside of a token, or at an end of it and of the text.
    Single(SyntaxElement<'t>),
    /// The first token ends at the offset, and the second one begins there.
    Between(SyntaxElement<'t>, SyntaxElement<'t>),
}

impl<'s> SyntaxTree<'s> {
    /// The tokens that touch an offset of the text, in bytes.
    ///
    /// It takes logarithmic time in the number of elements that begin in one block of 32 bytes.
    pub fn token_at_offset<'t>(&'t self, offset: usize) -> TokenAtOffset<'t>
        ensures { (tree : Forest) → IsTree self.now tree → AnswersOffset self.now tree offset result }
    {
        let len = self.text.len();
        if len == 0 || offset > len {
            return TokenAtOffset::None;
        }
        if offset == len {
            return TokenAtOffset::Single(self.token_of_byte(offset - 1));
        }
        let right = self.token_of_byte(offset);
        if offset == 0 || right.text_range().start < offset {
            return TokenAtOffset::Single(right);
        }
        TokenAtOffset::Between(self.token_of_byte(offset - 1), right)
    }

    /// The innermost element that has the bytes of a range, if the text has them.
    ///
    /// Of two tokens that meet at an empty range it is the second one, at the end of the text the last token, and in an
    /// empty text the last element. It takes logarithmic time in the number of elements to find the token at the start,
    /// and then time in the number of nodes from there up to the answer.
    pub fn covering_element<'t>(&'t self, range: Range<usize>) -> Option<SyntaxElement<'t>>
        ensures { (tree : Forest) → IsTree self.now tree → MatchOption result ((range.end < range.start) ⊎ (forest_bytes tree < range.end))
            (λ element. (element.tree.now ≡ self.now) × CoversRange tree range.start range.end element.at) }
    {
        let len = self.text.len();
        if range.start > range.end || range.end > len {
            return None;
        }
        if len == 0 {
            let last = self.elements.len() - 1;
            return Some(SyntaxElement {
                tree: self,
                at: last as u32,
            });
        }
        let mut element = self.token_of_byte(range.start.min(len - 1));
        while element.text_range().end < range.end {
            element = element.parent()?;
        }
        Some(element)
    }

    /// The token that has a byte of the text.
    fn token_of_byte<'t>(&'t self, byte: usize) -> SyntaxElement<'t>
        requires { byte < length self.now.text }
        ensures tree { result.tree.now ≡ self.now }
        ensures token { (tree : Forest) → IsTree self.now tree → (is_token_at tree result.at ≡ true)
            × (start_at tree result.at ≤ byte) × (byte < end_at tree result.at) }
    {
        let from = self.begun_by(byte);
        let behind = from
            + self.elements[from..self.begun_behind(byte)].partition_point(
                |element| element.start as usize <= byte,
            );
        SyntaxElement {
            tree: self,
            at: (behind - 1) as u32,
        }
    }
}
