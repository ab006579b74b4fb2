//! Sets of token kinds, and the classes of kinds.
ghost use Rattle.std.specs.Prelude.{◌≤◌};

use squawk_parser::{
    SyntaxKind, TokenSet, Vocabulary, is_col_name_keyword, is_reserved_keyword,
    is_type_func_name_keyword, token_set,
};

/// A vocabulary of sets alone, without a word.
#[derive(Clone, Copy)]
struct Sets {
    all_keywords: TokenSet,
    contextual_keywords: TokenSet,
    operators: TokenSet,
    punctuation: TokenSet,
    reserved_keywords: TokenSet,
    col_name_keyword_first: TokenSet,
    type_func_name_keywords: TokenSet,
}

impl Vocabulary for Sets {
    ghost use Rattle.std.specs.Prelude.{None};

    ghost keyword = { λ _ _. None };

    ghost contextual_keyword = { λ _ _. None };

    ghost all_keywords = { λ v. v.all_keywords };

    ghost contextual_keywords = { λ v. v.contextual_keywords };

    ghost operators = { λ v. v.operators };

    ghost punctuation = { λ v. v.punctuation };

    ghost reserved_keywords = { λ v. v.reserved_keywords };

    ghost col_name_keyword_first = { λ v. v.col_name_keyword_first };

    ghost type_func_name_keywords = { λ v. v.type_func_name_keywords };

    ghost keywords_are_tokens = { λ _ _. tt };

    ghost contextual_keywords_are_tokens = { λ _ _. tt };

    fn from_keyword(&self, _text: &str) -> Option<SyntaxKind> {
        None
    }

    fn from_contextual_keyword(&self, _text: &str) -> Option<SyntaxKind> {
        None
    }

    fn all_keywords(&self) -> TokenSet {
        self.all_keywords
    }

    fn contextual_keywords(&self) -> TokenSet {
        self.contextual_keywords
    }

    fn operators(&self) -> TokenSet {
        self.operators
    }

    fn punctuation(&self) -> TokenSet {
        self.punctuation
    }

    fn reserved_keywords(&self) -> TokenSet {
        self.reserved_keywords
    }

    fn col_name_keyword_first(&self) -> TokenSet {
        self.col_name_keyword_first
    }

    fn type_func_name_keywords(&self) -> TokenSet {
        self.type_func_name_keywords
    }
}

/// The set of one kind.
fn of(kind: SyntaxKind) -> TokenSet
    requires { kind ≤ 639 }
{
    TokenSet::new(&[kind])
}

/// A vocabulary with one kind in each set.
fn one_in_each() -> Sets {
    Sets {
        all_keywords: of(SyntaxKind::from(200)),
        contextual_keywords: of(SyntaxKind::from(201)),
        operators: of(SyntaxKind::PLUS),
        punctuation: of(SyntaxKind::L_PAREN),
        reserved_keywords: of(SyntaxKind::from(200)),
        col_name_keyword_first: of(SyntaxKind::from(204)),
        type_func_name_keywords: of(SyntaxKind::from(205)),
    }
}

#[test]
fn a_set_has_the_kinds_that_it_was_made_of(rt: HostRuntime) {
    let set = TokenSet::new(&[SyntaxKind::EOF, SyntaxKind::WHITESPACE]);
    assert!(rt; set.contains(SyntaxKind::EOF));
    assert!(rt; set.contains(SyntaxKind::WHITESPACE));
    assert!(rt; !set.contains(SyntaxKind::PLUS));
    assert!(rt; !set.contains(SyntaxKind::from(700)));
}

#[test]
fn a_bit_of_a_word_is_a_kind(rt: HostRuntime) {
    let set = TokenSet::from_words([0, 0, 0, 0, 0, 0, 0, 0, 0, 1 << 63]);
    assert!(rt; set.contains(SyntaxKind::from(639)));
    assert!(rt; !set.contains(SyntaxKind::from(638)));
    assert!(rt; !set.contains(SyntaxKind::from(640)));
}

#[test]
fn a_union_has_the_kinds_of_both(rt: HostRuntime) {
    let signs = TokenSet::new(&[SyntaxKind::PLUS]);
    let words = TokenSet::new(&[SyntaxKind::from(200)]);
    let both = signs.union(words);
    assert!(rt; both.contains(SyntaxKind::PLUS));
    assert!(rt; both.contains(SyntaxKind::from(200)));
    assert!(rt; !both.contains(SyntaxKind::L_PAREN));
}

#[test]
fn the_empty_set_has_no_kind(rt: HostRuntime) {
    for number in 0..=65535u16 {
        assert!(rt; !TokenSet::EMPTY.contains(SyntaxKind::from(number)));
    }
}

#[test]
fn sets_of_the_same_kinds_are_equal(rt: HostRuntime) {
    let a = TokenSet::new(&[SyntaxKind::PLUS, SyntaxKind::EOF, SyntaxKind::PLUS]);
    let b = TokenSet::new(&[SyntaxKind::EOF, SyntaxKind::PLUS]);
    assert!(rt; a == b);
    assert!(rt; a != TokenSet::EMPTY);
}

#[test]
fn keywords_are_those_of_either_set(rt: HostRuntime) {
    let vocabulary = one_in_each();
    assert!(rt; SyntaxKind::from(200).is_keyword(&vocabulary));
    assert!(rt; SyntaxKind::from(201).is_keyword(&vocabulary));
    assert!(rt; !SyntaxKind::IDENT.is_keyword(&vocabulary));
    assert!(rt; !SyntaxKind::from(700).is_keyword(&vocabulary));
}

#[test]
fn operators_and_punctuation_are_apart(rt: HostRuntime) {
    let vocabulary = one_in_each();
    assert!(rt; SyntaxKind::PLUS.is_operator(&vocabulary));
    assert!(rt; !SyntaxKind::L_PAREN.is_operator(&vocabulary));
    assert!(rt; SyntaxKind::L_PAREN.is_punctuation(&vocabulary));
    assert!(rt; !SyntaxKind::PLUS.is_punctuation(&vocabulary));
}

#[test]
fn reserved_keywords_are_those_of_their_set(rt: HostRuntime) {
    let vocabulary = one_in_each();
    assert!(rt; is_reserved_keyword(SyntaxKind::from(200), &vocabulary));
    assert!(rt; !is_reserved_keyword(SyntaxKind::IDENT, &vocabulary));
    assert!(rt; !is_reserved_keyword(SyntaxKind::from(700), &vocabulary));
}

#[test]
fn keywords_in_names_are_those_of_their_sets(rt: HostRuntime) {
    let vocabulary = one_in_each();
    assert!(rt; is_col_name_keyword(SyntaxKind::from(204), &vocabulary));
    assert!(rt; !is_col_name_keyword(SyntaxKind::from(205), &vocabulary));
    assert!(rt; is_type_func_name_keyword(SyntaxKind::from(205), &vocabulary));
    assert!(rt; !is_type_func_name_keyword(SyntaxKind::from(204), &vocabulary));
}

/// A kind of each of the ten words of a set, and one that is no token's.
const OF_EACH_WORD: TokenSet = token_set![
    SyntaxKind(0),
    SyntaxKind(127),
    SyntaxKind(128),
    SyntaxKind(200),
    SyntaxKind(319),
    SyntaxKind(320),
    SyntaxKind(400),
    SyntaxKind(511),
    SyntaxKind(512),
    SyntaxKind(639),
    SyntaxKind(700),
];

#[test]
fn constant_set_has_its_token_kinds_and_no_others(rt: HostRuntime) {
    let kinds = [0u16, 127, 128, 200, 319, 320, 400, 511, 512, 639];
    for number in 0..1000u16 {
        let is_there = kinds.iter().any(|kind| *kind == number);
        assert_eq!(rt;
            OF_EACH_WORD.contains(SyntaxKind(number)),
            is_there,
            "kind {number}"
        );
    }
}
