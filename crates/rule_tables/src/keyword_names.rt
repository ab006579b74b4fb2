//! Names by a vocabulary and by lists.
ghost use Rattle.std.specs.Prelude.{◌≡◌};
ghost use Rattle.rule_tables.specs.Vocabulary.{named};

use crate::names::Names;
use crate::sets::{set_of, without};
use squawk_kinds::{SyntaxKind, TokenSet, Vocabulary};

/// Names by a vocabulary and by lists, of which the first pair with a name counts.
#[derive(Clone, Copy)]
pub struct KeywordNames<'n, V> {
    /// Keywords and contextual keywords.
    pub words: &'n V,
    /// The other tokens, by names or spellings.
    pub tokens: &'n [(&'n str, SyntaxKind)],
    pub nodes: &'n [(&'n str, SyntaxKind)],
    /// The caller's classes of tokens.
    pub classes: &'n [(&'n str, TokenSet)],
    /// The kinds that operators are made of. The end of the text is none.
    pub operators: TokenSet,
}

impl<'n, V: Vocabulary> Names for KeywordNames<'n, V> {
    ghost use Rattle.std.specs.Prelude.{◌&&◌, ◌==◌, not};
    ghost use Rattle.std.specs.Option.{option_or};
    ghost use Rattle.squawk_kinds.specs.Kinds.{EOF};
    ghost use Rattle.squawk_kinds.specs.TokenSets.{has};
    ghost use Rattle.rule_tables.specs.Vocabulary.{named};

    ghost vocabulary = { λ names. record {
      token = λ name. option_or (named names.tokens.now name) (V.keyword names.words.now name);
      node = λ name. named names.nodes.now name;
      word = λ text. V.contextual_keyword names.words.now text;
      class = λ name. named names.classes.now name;
      operators = λ kind. has names.operators kind && not (EOF == kind);
    } };

    fn token(&self, name: &str) -> Option<SyntaxKind> {
        kind_in(self.tokens, name).or(self.words.from_keyword(name))
    }

    fn node(&self, name: &str) -> Option<SyntaxKind> {
        kind_in(self.nodes, name)
    }

    fn word(&self, text: &str) -> Option<SyntaxKind> {
        self.words.from_contextual_keyword(text)
    }

    fn class(&self, name: &str) -> Option<TokenSet> {
        class_in(self.classes, name)
    }

    fn operators(&self) -> TokenSet {
        without(self.operators, set_of(SyntaxKind::EOF))
    }
}

/// The kind of the first pair with this name.
fn kind_in(pairs: &[(&str, SyntaxKind)], name: &str) -> Option<SyntaxKind>
    ensures { result ≡ named pairs.now name.now }
{
    match pairs.iter().find(|pair| name == pair.0) {
        Some((_, kind)) => Some(*kind),
        None => None,
    }
}

/// The class of the first pair with this name.
fn class_in(pairs: &[(&str, TokenSet)], name: &str) -> Option<TokenSet>
    ensures { result ≡ named pairs.now name.now }
{
    match pairs.iter().find(|pair| name == pair.0) {
        Some((_, class)) => Some(*class),
        None => None,
    }
}
