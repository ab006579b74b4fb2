//! White space without what stands at the ends of lines.
ghost use Rattle.std.specs.Prelude.{◌≡◌, ◌++◌, ◌≤◌, OnOk, drop, length, take};
ghost use Rattle.sql_trim.specs.Trimmed.{is_blank, trimmed, without_blanks};

use std::alloc::AllocError;

/// Puts white space after a text, without the blanks before each end of a line. Where a line ends after it, all its
/// blanks stand before one.
pub fn push_trimmed(
    text: &mut Vec<u8>,
    white_space: &[u8],
    ends_line: bool,
) -> Result<(), AllocError>
    ensures { OnOk result (text.new.items ≡ text.old.items ++ trimmed ends_line white_space.now) }
{
    let (ended, rest) = white_space.split_at(lines_len(white_space, ends_line));
    for byte in ended {
        if !is_blank(*byte) {
            text.push(*byte)?;
        }
    }
    text.extend_from_slice(rest)
}

/// How many bytes of white space stand before an end of a line, line feeds too.
fn lines_len(white_space: &[u8], ends_line: bool) -> usize
    ensures within { result ≤ length white_space.now }
    ensures trimmed { trimmed ends_line white_space.now ≡ without_blanks (take result white_space.now) ++ drop result white_space.now }
{
    if ends_line {
        return white_space.len();
    }
    let mut len = 0;
    for (index, byte) in white_space.iter().enumerate() {
        if *byte == b'\n' {
            len = index + 1;
        }
    }
    len
}

/// Whether a byte is a blank: a space, a tab, a vertical tab or a form feed.
fn is_blank(byte: u8) -> bool
    ensures { result ≡ is_blank byte }
{
    byte == b' ' || byte == b'\t' || byte == 11 || byte == 12
}
