//! The words of joints: inputs of identifiers and spaces of one byte each.

use crate::input::Input;
use crate::lexed_str::{LexedStr, Token, TokenKind};
use squawk_kinds::NoKeywords;
use std::ops::Range;
use std::process::Abort;
use std::test::Fail;

const IDENT: Token = Token {
    kind: TokenKind::Ident,
    len: 1,
};

const SPACE: Token = Token {
    kind: TokenKind::Whitespace,
    len: 1,
};

/// Asserts that the input of the tokens has joints of these words, and that its last tokens, those of `apart`,
/// aren't joint and all others are.
fn assert_joints(
    rt: &(impl Abort + AllocGlobal),
    text: &str,
    tokens: &[Token],
    apart: Range<usize>,
    words: &[u64],
) -> Result<(), Fail> {
    let alloc = rt.alloc();
    let table = LexedStr::new(alloc, text, tokens, &NoKeywords)?;
    assert!(rt; !table.is_empty());
    let input = table.to_input(alloc, &NoKeywords)?;
    assert!(rt; !input.is_empty());
    assert_eq!(rt; input.len(), apart.end);
    for i in 0..input.len() {
        assert_eq!(rt; input.is_joint(i), i < apart.start, "token {i}");
    }
    let joints = &input.joints;
    let packed = &joints.words;
    assert_eq!(rt; packed.as_slice(), words);
    Ok(())
}

#[test]
fn sixty_five_joint_tokens(rt: HostRuntime) -> Result<(), Fail> {
    let text = "a".repeat(rt.alloc(), 65)?;
    assert_joints(
        &rt,
        text.as_str(),
        &[IDENT; 65],
        64..65,
        &[0xffff_ffff_ffff_ffff, 0],
    )
}

#[test]
fn sixty_six_joint_tokens(rt: HostRuntime) -> Result<(), Fail> {
    let text = "a".repeat(rt.alloc(), 66)?;
    assert_joints(
        &rt,
        text.as_str(),
        &[IDENT; 66],
        65..66,
        &[0xffff_ffff_ffff_ffff, 1],
    )
}

#[test]
fn a_space_before_the_sixty_fifth_token(rt: HostRuntime) -> Result<(), Fail> {
    let mut text = "a".repeat(rt.alloc(), 64)?;
    text.push_str(" a")?;
    let mut tokens = [IDENT; 66];
    tokens[64] = SPACE;
    assert_joints(
        &rt,
        text.as_str(),
        &tokens,
        63..65,
        &[0x7fff_ffff_ffff_ffff, 0],
    )
}
