//! Names among so many that an index of them is made, and a walk where memory for it is refused.

use super::{assert_case, assert_tree};
use crate::cases::{EXPECTED_NAME, EXPECTED_NUMBER};
use squawk_parser::{StepSink, StrStep, SyntaxKind, with_engine_names};
use squawk_tree::TreeText;
use std::process::Abort;

/// Twenty-one names, two of one kind, and the last that of the greatest.
const NAMES: [(SyntaxKind, &str); 21] = [
    (SyntaxKind(216), "KW_216"),
    (SyntaxKind(215), "KW_215"),
    (SyntaxKind(214), "KW_214"),
    (SyntaxKind(213), "KW_213"),
    (SyntaxKind(212), "KW_212"),
    (SyntaxKind(211), "KW_211"),
    (SyntaxKind(210), "KW_210"),
    (SyntaxKind(209), "KW_209"),
    (SyntaxKind(208), "KW_208"),
    (SyntaxKind(207), "KW_207"),
    (SyntaxKind(206), "KW_206"),
    (SyntaxKind(205), "KW_205"),
    (SyntaxKind(204), "KW_204"),
    (SyntaxKind(203), "KW_203"),
    (SyntaxKind(202), "KW_202"),
    (SyntaxKind(201), "KW_201"),
    (SyntaxKind(200), "KW_200"),
    (SyntaxKind::SEMICOLON, "SEMICOLON"),
    (SyntaxKind::COMMA, "COMMA"),
    (SyntaxKind::SEMICOLON, "OTHER"),
    (SyntaxKind(65535), "GREATEST"),
];

#[test]
fn first_of_two_names_is_expected(rt: HostRuntime) {
    assert_case(&rt, EXPECTED_NAME, &NAMES);
}

#[test]
fn number_of_a_kind_without_a_name_is_expected(rt: HostRuntime) {
    assert_case(&rt, EXPECTED_NUMBER, &NAMES[..17]);
}

/// Hands a token of a kind to a tree.
fn take_token(tree: &mut TreeText, kind: SyntaxKind) -> bool {
    tree.step(StrStep::Token { kind, text: "a" }).is_ok()
}

#[test]
fn tree_shows_names_and_numbers(rt: HostRuntime) {
    let mut tree = TreeText::new(rt.alloc());
    for number in [5, 7, 200, 215, 65535] {
        let kind = SyntaxKind(number);
        if !take_token(&mut tree, kind) {
            assert!(rt; take_token(&mut tree, kind));
        }
    }
    let all =
        "SEMICOLON@0..1 \"a\"\n7@1..2 \"a\"\nKW_200@2..3 \"a\"\nKW_215@3..4 \"a\"\nGREATEST@4..5 \"a\"\n";
    assert_tree(&rt, &tree, &NAMES, all);
    let without_the_last =
        "SEMICOLON@0..1 \"a\"\n7@1..2 \"a\"\nKW_200@2..3 \"a\"\nKW_215@3..4 \"a\"\n65535@4..5 \"a\"\n";
    assert_tree(&rt, &tree, &NAMES[..20], without_the_last);
}

/// The names of the engine's kinds, and these behind them.
fn engine_names_and<'n>(
    rt: &(impl Abort + AllocGlobal),
    own: &[(SyntaxKind, &'n str)],
) -> Vec<(SyntaxKind, &'n str)> {
    for _ in 0..2 {
        if let Ok(names) = with_engine_names(rt.alloc(), own) {
            return names;
        }
    }
    panic!(rt; "memory is wanting twice")
}

#[test]
fn own_names_stand_behind_those_of_the_engine(rt: HostRuntime) {
    let own = [(SyntaxKind(200), "ABORT_KW")];
    let names = engine_names_and(&rt, &own);
    assert_eq!(rt; names.len(), 106);
    assert_eq!(rt; names[5], (SyntaxKind::SEMICOLON, "SEMICOLON"));
    assert_eq!(rt; names[105], own[0]);
}
