//! The text of a line.
ghost use Rattle.std.specs.Prelude.{◌≡◌, ◌++◌, length, string_bytes, OnOk};
ghost use Rattle.std.specs.Str.{chars};
ghost use Rattle.squawk_kinds.specs.KindNames.{kind_name};
ghost use Rattle.squawk_tree.specs.TreeText.{escaped, indentation, quoted_text, span};
ghost use Rattle.squawk_tree.specs.Drawing.{shown_until};
ghost use Rattle.squawk_tree.specs.SoundDrawings.{IsPart};

use crate::line::Shown;
use squawk_kinds::{KindNames, SyntaxKind};
use std::alloc::AllocError;
use std::fmt::Write;

/// Writes what a line shows. An open node ends at the end of the texts.
pub(crate) fn write_shown(
    out: &mut String,
    names: &mut KindNames<'_, '_>,
    texts: &str,
    shown: &Shown,
) -> Result<(), AllocError>
    requires { IsPart texts.now shown.now }
    ensures shown { OnOk result (string_bytes out.new ≡ string_bytes out.old
        ++ shown_until names.old texts.now (length texts.now) shown.now) }
    ensures same { names.new ≡ names.old }
{
    match shown {
        Shown::Node { kind, start, end } => {
            write_span(out, names, *kind, *start, end.unwrap_or(texts.len()))
        }
        Shown::Token { kind, start, end } => {
            write_span(out, names, *kind, *start, *end)?;
            out.push(' ')?;
            write_quoted(out, &texts[*start..*end])
        }
        Shown::Error { msg, pos } => {
            write!(out, "error@{pos} ")?;
            write_quoted(out, msg.as_str())
        }
    }
}

/// Writes two spaces for each open node.
pub(crate) fn write_indentation(out: &mut String, depth: usize) -> Result<(), AllocError>
    ensures { OnOk result (string_bytes out.new ≡ string_bytes out.old ++ indentation depth) }
{
    for _ in 0..depth {
        out.push_str("  ")?;
    }
    Ok(())
}

/// Writes the name of a kind, and its first byte and the byte behind it.
fn write_span(
    out: &mut String,
    names: &mut KindNames<'_, '_>,
    kind: SyntaxKind,
    start: usize,
    end: usize,
) -> Result<(), AllocError>
    ensures span { OnOk result (string_bytes out.new ≡ string_bytes out.old
        ++ span names.old kind start end) }
    ensures same { names.new ≡ names.old }
{
    write_name(out, names, kind)?;
    write!(out, "@{start}..{end}")
}

/// Writes the name of a kind: that of its first pair, or its number.
pub fn write_name(
    out: &mut String,
    names: &mut KindNames<'_, '_>,
    kind: SyntaxKind,
) -> Result<(), AllocError>
    ensures name { OnOk result (string_bytes out.new ≡ string_bytes out.old
        ++ kind_name names.old kind) }
    ensures same { names.new ≡ names.old }
{
    if let Some(name) = names.name(kind) {
        return out.push_str(name);
    }
    let number = u16::from(kind);
    write!(out, "{number}")
}

/// Writes a text in quotes.
fn write_quoted(out: &mut String, text: &str) -> Result<(), AllocError>
    ensures { OnOk result (string_bytes out.new ≡ string_bytes out.old ++ quoted_text (chars text.now)) }
{
    out.push('"')?;
    for c in text.chars() {
        write_escaped(out, c)?;
    }
    out.push('"')
}

/// Writes a character of a quoted text.
fn write_escaped(out: &mut String, c: char) -> Result<(), AllocError>
    ensures { OnOk result (string_bytes out.new ≡ string_bytes out.old ++ escaped c) }
{
    match c {
        '\n' => out.push_str("\\n"),
        '\r' => out.push_str("\\r"),
        '\t' => out.push_str("\\t"),
        '\\' => out.push_str("\\\\"),
        '"' => out.push_str("\\\""),
        _ => out.push(c),
    }
}
