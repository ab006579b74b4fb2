//! Bytes of a window, and what is shown of their lines.
ghost use Rattle.std.specs.Prelude.{◌≡◌, ◌+◌, ◌≤◌, length, take, drop};
ghost use Rattle.std.specs.List.{prefix_len, take_while};
ghost use Rattle.sql_report.specs.Places.{is_continuation, is_in_line, last_line};

use crate::line_column::{LineColumn, is_continuation};
use std::marker::Model;

/// So many bytes of a line are shown before a place, and so many after it.
const MOST_SHOWN: usize = 100;

/// A byte of a window on a script, with its line and its column in the script.
///
/// A window is some bytes of the script: earlier ones may be gone, and later ones not read yet. Going on to
/// a byte takes a walk over those between, so that places in ascending order take one walk over the window.
#[derive(Drop)]
pub struct Place<'w> {
    window: &'w [u8],
    before: LineColumn,
    at: usize,
    here: LineColumn,
}

impl<'w> Model for Place<'w> {
    ghost use Rattle.sql_report.specs.Places.{IsCounted, Spot};

    ghost Value = { Spot };

    ghost view = { λ p. record { window = p.window.now; before = p.before; at = p.at } };

    ghost invariant = { λ p. IsCounted p.window.now p.before p.at p.here };
}

impl<'w> Place<'w> {
    ghost use Rattle.std.specs.Prelude.{◌≡◌, ◌++◌, ◌+◌, [], List, ℕ, min, take, length};
    ghost use Rattle.sql_report.specs.Places.{AreCountable, IsLineColumn, IsSameWindow, IsWindowOf, shown_before, shown_behind};

    /// The beginning of a window, where the script has this line and column.
    pub fn new(window: &'w [u8], before: LineColumn) -> Place<'w>
        ensures { result ≡ record { window = window.entry.now; before = before; at = 0 } }
    {
        Place {
            window,
            before,
            at: 0,
            here: before,
        }
    }

    /// The beginning of a window that is all of a script.
    pub fn whole(script: &'w str) -> Place<'w>
        ensures window { result.window ≡ script.entry.now }
        ensures of { IsWindowOf script.entry.now [] [] result }
    {
        Place::new(script.as_bytes(), LineColumn::start())
    }

    /// Goes to a byte of the window, or to its end where that comes before the byte.
    pub fn go_to(&mut self, at: usize)
        ensures window { IsSameWindow self.old self.new }
        ensures at { self.new.at ≡ min at (length self.new.window) }
    {
        let end = at.min(self.window.len());
        if end < self.at {
            self.at = 0;
            self.here = self.before;
        }
        self.here.pass(&self.window[self.at..end]);
        self.at = end;
    }

    /// Goes to the byte that stands so many bytes after another, or to the end of the window.
    pub fn go_on(&mut self, start: usize, at: usize)
        ensures window { IsSameWindow self.old self.new }
        ensures at { self.new.at ≡ min (start + at) (length self.new.window) }
    {
        let end = self.window.len();
        self.go_to(start.saturating_add(at).min(end));
    }

    /// The line and the column in the script.
    pub fn line_column(&self) -> LineColumn
        ensures { (passed : List ℕ) → IsLineColumn passed self.now.before → AreCountable (passed ++ self.now.window)
            → IsLineColumn (passed ++ take self.now.at self.now.window) result }
    {
        self.here
    }

    /// What stands in the line before the place: its last 100 bytes, from the beginning of a character.
    pub fn before(&self) -> &'w [u8]
        ensures { result.now ≡ shown_before self.now.window self.now.at }
    {
        let front = &self.window[..self.at];
        let near = last_line(&front[front.len().saturating_sub(MOST_SHOWN)..]);
        &near[continuation_len(near)..]
    }

    /// What stands in the line from the place on: its first 100 bytes, up to the end of a character.
    pub fn behind(&self) -> &'w [u8]
        ensures { result.now ≡ shown_behind self.now.window self.now.at }
    {
        line_of(whole_characters(&self.window[self.at..]))
    }
}

/// What stands after the last line feed.
fn last_line(text: &[u8]) -> &[u8]
    ensures { result.now ≡ last_line text.now }
{
    let mut start = text.len();
    while start > 0 && text[start - 1] != b'\n' {
        start -= 1;
    }
    &text[start..]
}

/// The first 100 bytes, with those that end the last of their characters.
fn whole_characters(text: &[u8]) -> &[u8]
    ensures { result.now ≡ take (100 + prefix_len is_continuation (drop 100 text.now)) text.now }
{
    if text.len() <= MOST_SHOWN {
        return text;
    }
    &text[..MOST_SHOWN + continuation_len(&text[MOST_SHOWN..])]
}

/// What stands before the first line feed.
fn line_of(text: &[u8]) -> &[u8]
    ensures { result.now ≡ take_while is_in_line text.now }
{
    &text[..line_len(text)]
}

/// How many bytes stand before the first line feed.
fn line_len(text: &[u8]) -> usize
    ensures len { result ≡ prefix_len is_in_line text.now }
    ensures within { result ≤ length text.now }
{
    text.iter().take_while(|byte| is_in_line(**byte)).count()
}

/// Whether a byte ends no line.
fn is_in_line(byte: u8) -> bool
    ensures { result ≡ is_in_line byte }
{
    byte != b'\n'
}

/// How many bytes at the front belong to a character that begins before them.
fn continuation_len(text: &[u8]) -> usize
    ensures len { result ≡ prefix_len is_continuation text.now }
    ensures within { result ≤ length text.now }
{
    text.iter()
        .take_while(|byte| is_continuation(**byte))
        .count()
}
