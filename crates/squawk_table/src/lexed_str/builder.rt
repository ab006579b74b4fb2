//! A table that grows by one raw token after another. What is inlined runs for each raw token.
ghost use Rattle.std.specs.Prelude.{◌≡◌, ◌+◌, ◌^◌, ◌<◌, ◌++◌, [], ◌∷◌, List, length, IfOk, OnOk};
ghost use Rattle.squawk_kinds.specs.Keywords.{Keywords};
ghost use Rattle.squawk_tokens.specs.AcceptedTokens.{IsGoodToken};
ghost use Rattle.squawk_tokens.specs.declared.token.Token.{Token as RawToken};
ghost use Rattle.squawk_table.specs.RawTable.{table_of};
ghost use Rattle.squawk_table.specs.TableBuilding.{AreNext, HasAdded, HasAll};

use crate::lexed_str::LexedStr;
use crate::lexed_str::kind::syntax_kind;
use squawk_kinds::{SyntaxKind, Vocabulary};
use squawk_tokens::{Converter, Token};
use std::alloc::{AllocError, Global};
use std::marker::Model;

/// A table that grows by one raw token after another, so that nobody holds a list of them.
#[derive(Drop)]
pub struct TableBuilder<'a> {
    text: &'a str,
    kinds: Vec<SyntaxKind>,
    starts: Vec<u32>,
    converter: Converter<'a>,
    /// How many bytes the tokens so far have.
    at: u32,
}

impl<'a> Model for TableBuilder<'a> {
    ghost use Rattle.squawk_table.specs.TableBuilding.{Building, CanGrow};

    ghost Value = { Building };

    ghost view = { λ b. record {
      text = b.text.now;
      kinds = b.kinds.items;
      starts = b.starts.items;
      at = b.at;
      read = b.converter;
    } };

    ghost invariant = { λ b. CanGrow b.text.now b.kinds.items b.at };
}

impl<'a> TableBuilder<'a> {
    /// A table of no tokens yet, with room for so many.
    pub fn with_capacity(
        alloc: Global,
        text: &'a str,
        tokens: usize,
    ) -> Result<TableBuilder<'a>, AllocError>
        ensures text { IfOk result (λ table. table.text ≡ text.now) }
        ensures added { IfOk result (λ table. (keyword : Keywords) → HasAdded keyword [] table) }
    {
        let kinds = Vec::with_capacity(alloc, tokens)?;
        let starts = Vec::with_capacity(alloc, tokens.saturating_add(1))?;
        Ok(TableBuilder {
            text,
            kinds,
            starts,
            converter: Converter::new(alloc, text),
            at: 0,
        })
    }

    /// Adds tokens of the text, each of which begins where the one before it ends.
    ///
    /// After an allocation failure the builder is of no use.
    pub fn extend<V: Vocabulary>(
        &mut self,
        tokens: &[Token],
        vocabulary: &V,
    ) -> Result<(), AllocError>
        requires short { length self.old.text < 2 ^ 32 }
        requires good { AreNext self.old tokens.now }
        requires after { (earlier : List RawToken) × HasAdded (V.keyword vocabulary.now) earlier self.old }
        ensures text { self.new.text ≡ self.old.text }
        ensures added { OnOk result ((earlier : List RawToken) → HasAdded (V.keyword vocabulary.now) earlier self.old
            → HasAdded (V.keyword vocabulary.now) (earlier ++ tokens.now) self.new) }
    {
        for token in tokens {
            self.push(token, vocabulary)?;
        }
        Ok(())
    }

    /// The byte at which the next token begins.
    pub fn next_start(&self) -> u32
        ensures { result ≡ self.now.at }
    {
        self.at
    }

    /// The table of the tokens, which are all of the text.
    pub fn finish(self) -> Result<LexedStr<'a>, AllocError>
        requires { (keyword : Keywords) × ((tokens : List RawToken) × HasAll keyword tokens self) }
        ensures { IfOk result (λ table. (keyword : Keywords) (tokens : List RawToken) → HasAll keyword tokens self.entry
            → table ≡ table_of keyword self.entry.text tokens) }
    {
        let TableBuilder {
            text,
            kinds,
            mut starts,
            converter,
            at,
        } = self;
        starts.push(at)?;
        Ok(LexedStr {
            text,
            kinds,
            starts,
            errors: converter.into_errors(),
        })
    }

    /// Adds a token.
    #[inline(always)]
    fn push<V: Vocabulary>(&mut self, token: &Token, vocabulary: &V) -> Result<(), AllocError>
        requires short { length self.old.text < 2 ^ 32 }
        requires good { IsGoodToken self.old.text self.old.at token.now }
        requires after { (tokens : List RawToken) × HasAdded (V.keyword vocabulary.now) tokens self.old }
        ensures at { OnOk result (self.new.at ≡ self.old.at + token.now.len) }
        ensures text { self.new.text ≡ self.old.text }
        ensures added { OnOk result ((tokens : List RawToken) → HasAdded (V.keyword vocabulary.now) tokens self.old
            → HasAdded (V.keyword vocabulary.now) (tokens ++ token.now ∷ []) self.new) }
    {
        let end = self.at + token.len;
        let piece = &self.text[self.at as usize..end as usize];
        let kind = syntax_kind(&token.kind, piece, vocabulary);
        self.starts.push(self.at)?;
        self.converter.extend_token(token)?;
        self.kinds.push(kind)?;
        self.at = end;
        Ok(())
    }
}
