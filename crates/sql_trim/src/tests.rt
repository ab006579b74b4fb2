//! Texts of SQL, and what is left of them.

use crate::format::format;
use crate::trim::push_trimmed;
use sql_words::vocabulary;
use std::test::Fail;

/// White space, whether a line ends behind it, and what is left.
static WHITE_SPACE: [(&str, bool, &str); 10] = [
    ("", true, ""),
    (" ", false, " "),
    (" \t", true, ""),
    (" \t\u{b}\u{c}\n", false, "\n"),
    ("  \n  ", false, "\n  "),
    ("  \n  ", true, "\n"),
    (" \n \n\t\n  ", false, "\n\n\n  "),
    // A carriage return is no blank, and may stand before the line feed.
    (" \r\n \r", false, "\r\n \r"),
    (" \r \n", true, "\r\n"),
    ("\u{feff} \n", false, "\u{feff}\n"),
];

#[test]
fn trims_white_space(rt: HostRuntime) -> Result<(), Fail> {
    for case in &WHITE_SPACE {
        let (white_space, ends_line, wanted) = *case;
        let mut text = Vec::new(rt.alloc());
        // A blank that stands there before stays.
        text.extend_from_slice(b"a ")?;
        push_trimmed(&mut text, white_space.as_bytes(), ends_line)?;
        assert_eq!(rt; &text[..2], &b"a "[..]);
        assert_eq!(rt; &text[2..], wanted.as_bytes());
    }
    Ok(())
}

/// Texts, and what is left.
static TEXTS: [(&str, &str); 9] = [
    ("", ""),
    ("select 1; \t\n\n  select 2  ", "select 1;\n\n  select 2"),
    // The blanks of a comment, of a string and of a quoted name stay.
    (
        "/* a \n b */ \nselect 'c \nd' \n, \"e \nf\" ",
        "/* a \n b */\nselect 'c \nd'\n, \"e \nf\"",
    ),
    ("select -- a \n 1", "select -- a \n 1"),
    ("select 1 \r\n, 2 \r\n", "select 1\r\n, 2\r\n"),
    // Behind COPY the white space up to the line's end is of two tokens. Data keep theirs.
    (
        "copy t from stdin; \n1 \n\n \n\\.\nselect 1; ",
        "copy t from stdin;\n1 \n\n \n\\.\nselect 1;",
    ),
    (
        "copy t from stdin;\t\r\n1\t\r\n\\.\r\n",
        "copy t from stdin;\r\n1\t\r\n\\.\r\n",
    ),
    (" \n copy t from stdin; \t", "\n copy t from stdin;"),
    // Blanks inside of a line stay.
    ("select  1 ,\t2", "select  1 ,\t2"),
];

#[test]
fn formats(rt: HostRuntime) -> Result<(), Fail> {
    let alloc = rt.alloc();
    let words = vocabulary(alloc)?;
    for case in &TEXTS {
        let (text, wanted) = *case;
        assert_eq!(rt; format(alloc, &words, text)?.as_slice(), wanted.as_bytes());
    }
    Ok(())
}
