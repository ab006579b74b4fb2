//! Documents after edits.

use crate::document::Document;
use crate::edit_error::EditError;
use crate::keep::Keep;
use sql_grammar::ScriptPart;
use std::alloc::{AllocError, Global};
use std::test::Fail;

/// Of a part its number of errors is held.
#[derive(Drop)]
struct ErrorCount;

impl Keep for ErrorCount {
    type Kept = usize;

    ghost keeps = { λ _ _ _. Unit {0} };

    fn keep(&self, part: &ScriptPart<'_>) -> Result<usize, AllocError> {
        Ok(part.output.error_count())
    }
}

/// How many errors a document has.
fn errors(document: &Document<ErrorCount>) -> usize {
    let mut count = 0usize;
    for piece in document.pieces() {
        count = count.wrapping_add(piece.kept);
    }
    count
}

/// A document of so many statements of ten bytes.
fn document(alloc: Global, statements: usize) -> Result<Document<ErrorCount>, EditError> {
    let mut text = String::new(alloc);
    for _ in 0..statements {
        text.push_str("select 1;\n")?;
    }
    Document::new(alloc, &text, ErrorCount)
}

/// What is put in the place of some bytes, and how many errors there are then.
struct Edit {
    start: usize,
    end: usize,
    with: &'static str,
    errors: usize,
}

/// Edits of 300 statements, one after another.
static EDITS: [Edit; 9] = [
    Edit {
        start: 1004,
        end: 1005,
        with: "",
        errors: 1,
    },
    Edit {
        start: 1004,
        end: 1004,
        with: "c",
        errors: 0,
    },
    // A quote that reaches to the end: its error is a lexical one. Closed, a word stands after it.
    Edit {
        start: 1507,
        end: 1507,
        with: "'",
        errors: 0,
    },
    Edit {
        start: 2500,
        end: 2500,
        with: "'",
        errors: 1,
    },
    // Data, and their end, in the middle of a word.
    Edit {
        start: 0,
        end: 0,
        with: "copy t from stdin;\n",
        errors: 0,
    },
    Edit {
        start: 1000,
        end: 1000,
        with: "\n\\.\n",
        errors: 2,
    },
    Edit {
        start: 19,
        end: 1000,
        with: "",
        errors: 2,
    },
    Edit {
        start: 0,
        end: 23,
        with: "select 'é' from where;",
        errors: 3,
    },
    Edit {
        start: 0,
        end: 0,
        with: "",
        errors: 3,
    },
];

#[test]
fn an_edited_text_is_parsed_as_a_new_one(rt: HostRuntime) -> Result<(), Fail> {
    let alloc = rt.alloc();
    let mut edited = document(alloc, 300)?;
    for edit in &EDITS {
        let old = edited.text()?;
        edited.edit(edit.start..edit.end, edit.with)?;
        let new = edited.text()?;
        let end = edit.start.wrapping_add(edit.with.len());
        assert_eq!(rt; new.get(..edit.start), old.get(..edit.start));
        assert_eq!(rt; new.get(edit.start..end), Some(edit.with));
        assert_eq!(rt; new.get(end..), old.get(edit.end..));
        assert_eq!(rt; errors(&edited), edit.errors);
        assert_eq!(rt;
            errors(&Document::new(alloc, &new, ErrorCount)?),
            edit.errors
        );
    }
    Ok(())
}

#[test]
fn other_pieces_stay(rt: HostRuntime) -> Result<(), Fail> {
    let mut edited = document(rt.alloc(), 300)?;
    let before = edited.pieces().len();
    edited.edit(1508..1508, "0")?;
    // The piece that is edited is cut in two at most.
    assert!(rt; edited.pieces().len() <= before.saturating_add(1));
    assert!(rt; before > 4);
    Ok(())
}

#[test]
fn ranges_are_refused(rt: HostRuntime) -> Result<(), Fail> {
    let mut edited = Document::new(rt.alloc(), "select 'é'", ErrorCount)?;
    assert_eq!(rt; edited.edit(3..2, ""), Err(EditError::NoRange));
    assert_eq!(rt; edited.edit(0..12, ""), Err(EditError::NoRange));
    assert_eq!(rt; edited.edit(9..9, ""), Err(EditError::NoRange));
    assert_eq!(rt; edited.text()?.as_str(), "select 'é'");
    Ok(())
}

#[test]
fn nothing_is_a_document(rt: HostRuntime) -> Result<(), Fail> {
    let mut edited = Document::new(rt.alloc(), "", ErrorCount)?;
    edited.edit(0..0, "select (1")?;
    assert_eq!(rt; errors(&edited), 1);
    edited.edit(0..9, "")?;
    assert_eq!(rt; edited.text()?.as_str(), "");
    assert_eq!(rt; edited.pieces().len(), 1);
    Ok(())
}
