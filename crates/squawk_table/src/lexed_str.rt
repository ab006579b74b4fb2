//! The table of a text's raw tokens. What is inlined runs for each raw token.
ghost use Rattle.std.specs.Prelude.{◌≡◌, ◌==◌, ◌+◌, ◌<◌, ◌≤◌, length, slice_index, slice_range, IfOk, IfErr};
ghost use Rattle.squawk_tokens.specs.AcceptedTokens.{AreAcceptedTokens, RefusesTokens};
ghost use Rattle.squawk_tokens.specs.ErrorRanges.{StandApart};
ghost use Rattle.squawk_table.specs.RawTable.{Table, IsTable, table_of, piece};

pub mod builder;
mod kind;
pub mod lex_errors;

use crate::lexed_str::kind::syntax_kind;
pub use builder::TableBuilder;
pub use lex_errors::LexErrors;
use squawk_kinds::{SyntaxKind, Vocabulary};
use squawk_tokens::Converter;
pub use squawk_tokens::{Base, LexError, LiteralKind, TableError, Token, TokenKind, check_tokens};
use std::alloc::{AllocError, Global};
use std::marker::Model;
use std::ops::Range;

/// The table of a text's raw tokens: their syntax kinds, their starts, and their lexical errors.
///
/// Indices of raw tokens count from 0, offsets in the text are bytes. The text is borrowed, and what the
/// readers return are parts of it, which live as long.
#[derive(Drop)]
pub struct LexedStr<'a> {
    text: &'a str,
    kinds: Vec<SyntaxKind>,
    starts: Vec<u32>,
    errors: Vec<LexError>,
}

impl<'a> Model for LexedStr<'a> {
    ghost use Rattle.squawk_table.specs.RawTable.{Table, IsTable};

    ghost Value = { Table };

    ghost view = { λ t. record { text = t.text.now; kinds = t.kinds.items; starts = t.starts.items; errors = t.errors.items } };

    ghost invariant = { λ t. IsTable (record { text = t.text.now; kinds = t.kinds.items; starts = t.starts.items; errors = t.errors.items }) };
}

impl<'a> LexedStr<'a> {
    /// The table of these tokens.
    ///
    /// It refuses what [`check_tokens`] refuses, with that error, before it allocates.
    pub fn new<V: Vocabulary>(
        alloc: Global,
        text: &'a str,
        tokens: &[Token],
        vocabulary: &V,
    ) -> Result<LexedStr<'a>, TableError>
        ensures table { IfOk result (λ table. table ≡ table_of (V.keyword vocabulary.now) text.now tokens.now) }
        ensures accepted { IfOk result (λ _. AreAcceptedTokens text.now tokens.now) }
        ensures refused { IfErr result (RefusesTokens text.now tokens.now) }
    {
        check_tokens(text, tokens)?;
        Ok(LexedStr::from_accepted(alloc, text, tokens, vocabulary)?)
    }

    /// The table of tokens that are known to be accepted, as those of a lexer that promises it.
    ///
    /// It checks nothing, so the only error is of an allocation.
    pub fn from_accepted<V: Vocabulary>(
        alloc: Global,
        text: &'a str,
        tokens: &[Token],
        vocabulary: &V,
    ) -> Result<LexedStr<'a>, AllocError>
        requires { AreAcceptedTokens text.now tokens.now }
        ensures { IfOk result (λ table. table ≡ table_of (V.keyword vocabulary.now) text.now tokens.now) }
    {
        let mut kinds = Vec::with_capacity(alloc, tokens.len())?;
        let mut starts = Vec::with_capacity(alloc, tokens.len().saturating_add(1))?;
        let mut converter = Converter::new(alloc, text);
        let mut at = 0u32;
        for token in tokens {
            let end = at + token.len;
            let piece = &text[at as usize..end as usize];
            starts.push_reserved(at);
            kinds.push_reserved(syntax_kind(&token.kind, piece, vocabulary));
            converter.extend_token(token)?;
            at = end;
        }
        starts.push(at)?;
        Ok(LexedStr {
            text,
            kinds,
            starts,
            errors: converter.into_errors(),
        })
    }

    /// The number of raw tokens.
    pub fn len(&self) -> usize
        ensures len { result ≡ length self.now.kinds }
        // What every table keeps.
        ensures table { IsTable self.now }
    {
        self.kinds.len()
    }

    /// Whether there are no raw tokens.
    pub fn is_empty(&self) -> bool
        ensures { result ≡ (length self.now.kinds == 0) }
    {
        self.len() == 0
    }

    /// The syntax kind of raw token `i`.
    #[inline(always)]
    pub fn kind(&self, i: usize) -> SyntaxKind
        requires { i < length self.now.kinds }
        ensures { result ≡ slice_index self.now.kinds i }
    {
        self.kinds[i]
    }

    /// The text of raw token `i`.
    #[inline(always)]
    pub fn text(&self, i: usize) -> &'a str
        requires { i < length self.now.kinds }
        ensures { result.now ≡ piece self.now i }
    {
        let start = self.starts[i] as usize;
        let end = self.starts[i + 1] as usize;
        &self.text[start..end]
    }

    /// The text of the raw tokens in a range, which isn't empty.
    pub fn range_text(&self, r: Range<usize>) -> &'a str
        requires nonempty { r.start < r.end }
        requires within { r.end ≤ length self.now.kinds }
        ensures { result.now ≡ slice_range self.now.text
            (slice_index self.now.starts r.start) (slice_index self.now.starts r.end) }
    {
        let start = self.starts[r.start] as usize;
        let end = self.starts[r.end] as usize;
        &self.text[start..end]
    }

    /// The bytes of raw token `i`.
    pub fn text_range(&self, i: usize) -> Range<usize>
        requires { i < length self.now.kinds }
        ensures start { result.start ≡ slice_index self.now.starts i }
        ensures end { result.end ≡ slice_index self.now.starts (i + 1) }
    {
        self.starts[i] as usize..self.starts[i + 1] as usize
    }

    /// The byte at which raw token `i` starts. If `i` is the number of raw tokens, the end of the text.
    pub fn text_start(&self, i: usize) -> usize
        requires { i ≤ length self.now.kinds }
        ensures { result ≡ slice_index self.now.starts i }
    {
        let start = self.starts[i];
        start as usize
    }

    /// The lexical errors of the raw tokens, in the order of the text.
    pub fn errors(&self) -> LexErrors<'_>
        ensures errors { result ≡ self.now.errors }
        // They ascend without overlapping, and each lies in one raw token.
        ensures apart { StandApart (slice_index self.now.starts) (length self.now.kinds) self.now.errors }
    {
        LexErrors::new(&self.errors)
    }

    /// The same, of a table that isn't needed any more.
    pub fn into_errors(self) -> Vec<LexError>
        ensures { result.items ≡ self.entry.errors }
    {
        let LexedStr {
            text: _,
            kinds: _,
            starts: _,
            errors,
        } = self;
        errors
    }
}
