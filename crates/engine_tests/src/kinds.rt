//! The numbers of syntax kinds.

use squawk_parser::SyntaxKind;
use std::hash::{DefaultHasher, Hash, Hasher};
use std::process::Abort;

#[test]
fn every_number_is_a_kind(rt: HostRuntime) {
    for number in 0..=65535u16 {
        assert_eq!(rt; u16::from(SyntaxKind::from(number)), number);
    }
}

/// The hash of a kind.
fn hash_of(number: u16) -> u64 {
    let mut state = DefaultHasher::new();
    SyntaxKind::from(number).hash(&mut state);
    state.finish()
}

/// The hash of a number.
fn hash_of_number(number: u16) -> u64 {
    let mut state = DefaultHasher::new();
    number.hash(&mut state);
    state.finish()
}

#[test]
fn kind_has_the_hash_of_its_number(rt: HostRuntime) {
    for number in [0, 1, 639, 640, 65535] {
        assert_eq!(rt; hash_of(number), hash_of_number(number));
    }
    assert!(rt; hash_of(0) != hash_of(1));
}

#[test]
fn kinds_compare_as_their_numbers(rt: HostRuntime) {
    assert!(rt; SyntaxKind::from(639) == SyntaxKind::WHITESPACE);
    assert!(rt; SyntaxKind::from(638) != SyntaxKind::WHITESPACE);
    assert!(rt; SyntaxKind::from(638) < SyntaxKind::WHITESPACE);
    assert!(rt; SyntaxKind::from(640) > SyntaxKind::WHITESPACE);
}

#[test]
fn white_space_and_comments_are_trivia(rt: HostRuntime) {
    assert!(rt; SyntaxKind::WHITESPACE.is_trivia());
    assert!(rt; SyntaxKind::COMMENT.is_trivia());
    assert!(rt; !SyntaxKind::EOF.is_trivia());
    assert!(rt; !SyntaxKind::IDENT.is_trivia());
}
