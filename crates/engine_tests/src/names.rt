//! The notation of steps, where it is no case of `corpus`.

use row_fixtures::kinds::{kind_named, name_of};
use row_fixtures::lines::is_beginning;
use squawk_parser::SyntaxKind;
use std::process::Abort;

#[test]
fn beginning_of_a_line_ends_with_a_step(rt: HostRuntime) {
    let whole = "ROOT(ab !'e'@12 NAME(c))";
    for line in [
        "",
        "ROOT(",
        "ROOT(ab",
        "ROOT(ab !'e'@12 NAME(c",
        "ROOT(ab !'e'@12 NAME(c)",
    ] {
        assert!(rt; is_beginning(line, whole), "{line}");
    }
    for line in [
        "ROOT",
        "ROOT(a",
        "ROOT(b",
        "ROOT(ab !'e'@1",
        "ROOT(ab !'e'@12 NAME",
        whole,
    ] {
        assert!(rt; !is_beginning(line, whole), "{line}");
    }
}

#[test]
fn each_name_is_that_of_one_kind(rt: HostRuntime) {
    let mut named = 0u32;
    for number in 0..u16::MAX {
        let kind = SyntaxKind::from(number);
        if let Some(name) = name_of(kind) {
            assert_eq!(rt; kind_named(name), Some(kind), "{name}");
            named = named.saturating_add(1);
        }
    }
    // As many as there are rows in the tables of names.
    assert_eq!(rt; named, 67 + 17);
    assert_eq!(rt; kind_named("SyntaxKind"), None);
}
