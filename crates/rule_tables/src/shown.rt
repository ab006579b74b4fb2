//! What tokens are called in rules.
ghost use Rattle.std.specs.Prelude.{◌≡◌, IfSome, Some};

use crate::names::Names;
use rule_parts::Part;
use squawk_kinds::SyntaxKind;
use std::alloc::{AllocError, Global};

/// The tokens of the kinds of these numbers by their names in these parts, with commas, up to the end.
pub(crate) fn shown<N: Names>(
    alloc: Global,
    parts: &[Part<'_>],
    names: &N,
    kinds: &[u16; 4],
) -> Result<String, AllocError> {
    let mut text = String::new(alloc);
    for (index, number) in kinds.iter().enumerate() {
        let kind = SyntaxKind(*number);
        if index > 0 {
            text.push_str(", ")?;
        }
        if kind == SyntaxKind::EOF {
            text.push_str("the end")?;
            break;
        }
        push_name(&mut text, name_of(parts, names, kind))?;
    }
    Ok(text)
}

/// Adds a name as rules have it: a spelling in quotes.
fn push_name(text: &mut String, name: &str) -> Result<(), AllocError> {
    let is_word = name
        .as_bytes()
        .first()
        .is_some_and(|byte| byte.is_ascii_alphabetic());
    if is_word {
        text.push_str(name)?;
    } else {
        text.push('\'')?;
        text.push_str(name)?;
        text.push('\'')?;
    }
    Ok(())
}

/// The first name of a token of the kind, else the name of the first class of the caller's that has it.
fn name_of<'t, N: Names>(parts: &[Part<'t>], names: &N, kind: SyntaxKind) -> &'t str {
    match token_in(parts, names, kind) {
        Some(name) => name,
        None => match class_in(parts, names, kind) {
            Some(name) => name,
            None if kind == SyntaxKind::IDENT => "an identifier",
            None => "a token",
        },
    }
}

/// The first name of a token of the kind.
fn token_in<'t, N: Names>(parts: &[Part<'t>], names: &N, kind: SyntaxKind) -> Option<&'t str> {
    for part in parts {
        if let Part::Token { name }
        | Part::List {
            separator: name,
            ..
        } = part
        {
            if names.token(name.text) == Some(kind) {
                return Some(name.text);
            }
        }
    }
    None
}

/// The name of the first class of the caller's that has the kind.
fn class_in<'t, N: Names>(parts: &[Part<'t>], names: &N, kind: SyntaxKind) -> Option<&'t str> {
    for part in parts {
        if let Part::Call { name } = part {
            if let Some(class) = names.class(name.text) {
                if class.contains(kind) {
                    return Some(name.text);
                }
            }
        }
    }
    None
}
