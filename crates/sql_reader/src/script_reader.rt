//! A reader of a script.
ghost use Rattle.std.specs.Prelude.{◌≡◌, ◌⊎◌, ℕ, ◌<◌, ◌≤◌, List, [], ◌++◌, Ok, length};
ghost use Rattle.std.specs.Str.{IsValidUpTo};
ghost use Rattle.sql_reader.specs.Readers.{IsNext, NoCharBegins};

use crate::read_error::ReadError;
use crate::script_text::{Next, ScriptText};
use crate::window::Window;
use sql_lexer::ScriptPlace;
use std::alloc::{AllocError, Global};
use std::io::{ErrorKind, Read};
use std::marker::Model;
use std::{io, str};

/// A text has so many bytes at least, if the script has them and nothing else is asked for.
const LEAST: usize = 64 * 1024;

/// How the input stands.
#[derive(Clone, Copy, PartialEq, Eq)]
enum Input {
    Open,
    Ended,
    Failed(ErrorKind),
}

/// Reads a script, a text at a time. What a text leaves unread begins the next one.
#[derive(Drop)]
pub struct ScriptReader<R: Read + Drop> {
    reader: R,
    least: usize,
    window: Window,
    passed: usize,
    place: ScriptPlace,
    input: Input,
}

impl<R: Read + Drop> Model for ScriptReader<R> {
    ghost use Rattle.sql_reader.specs.Readers.{Script};
    ghost use Rattle.sql_reader.specs.Windows.{kept, unread};

    ghost Value = { Script };

    ghost view = { λ s. record { least = s.least; kept = kept s.window; unread = unread s.window; passed = s.passed; place = s.place; input = s.input; remaining = R.remaining s.reader } };
}

impl<R: Read + Drop> ScriptReader<R> {
    ghost use Rattle.std.specs.Prelude.{◌≡◌, ◌≤◌, [], length, OnOk};
    ghost use Rattle.sql_lexer.specs.declared.script.script_place.ScriptPlace.TheVariants.{Front};
    ghost use Rattle.sql_reader.specs.Readers.{GoesOn, HasEnough, IsTextOf, ReadsOn};
    ghost use Rattle.sql_reader.specs.declared.script_reader.Input.TheVariants.{Open};

    /// At the front of the script that a reader gives. Texts have 65,536 bytes at least, if the script has them.
    pub fn new(alloc: Global, reader: R) -> ScriptReader<R>
        ensures { result ≡ record { least = 65536; kept = []; unread = []; passed = 0; place = Front; input = Open; remaining = R.remaining reader } }
    {
        ScriptReader::with_least(alloc, LEAST, reader)
    }

    /// The same, where texts have so many bytes at least, if the script has them.
    pub fn with_least(alloc: Global, least: usize, reader: R) -> ScriptReader<R>
        ensures { result ≡ record { least = least; kept = []; unread = []; passed = 0; place = Front; input = Open; remaining = R.remaining reader } }
    {
        ScriptReader {
            reader,
            least,
            window: Window::new(alloc),
            passed: 0,
            place: ScriptPlace::Front,
            input: Input::Open,
        }
    }

    /// Reads on, until what is unread has twice the bytes that it has and enough for a text, or the input ends or fails. A read that
    /// is interrupted is tried again. At want of memory all is as before, but for what was read until then.
    pub fn read(&mut self) -> Result<(), AllocError>
        ensures reads { ReadsOn self.old self.new }
        ensures enough { OnOk result (HasEnough self.old self.new) }
    {
        let wanted = self.window.unread().len().saturating_mul(2).max(self.least);
        for _ in 0..u64::MAX {
            if self.window.unread().len() >= wanted || self.input != Input::Open {
                return Ok(());
            }
            let read = self.window.read_from(&mut self.reader)?;
            self.input = input_after(read);
        }
        self.input = Input::Failed(ErrorKind::Interrupted);
        Ok(())
    }

    /// What is unread, up to the first byte that is no character.
    pub fn text(&self) -> ScriptText<'_>
        ensures { IsTextOf self.now result }
    {
        let unread = self.window.unread();
        let text = valid_front(unread);
        let start = self.window.start();
        let at = self.passed.saturating_add(start).saturating_add(text.len());
        ScriptText {
            text,
            place: self.place,
            next: next(self.input, at, unread.len() - text.len()),
            window: self.window.bytes(),
            start,
            passed: self.passed,
        }
    }

    /// Goes over so many bytes of what is unread, after which the script stands at a place.
    pub fn go_on(&mut self, count: usize, place: ScriptPlace)
        requires { count ≤ length self.old.unread }
        ensures { GoesOn self.old count place self.new }
    {
        let gone = self.window.go_on(count);
        self.passed = self.passed.saturating_add(gone);
        self.place = place;
    }
}

/// How the input stands after a read. One that is interrupted is tried again.
fn input_after(read: io::Result<usize>) -> Input
    ensures { result ≡ Input.Ended → read ≡ Ok 0 }
{
    match read {
        Ok(0) => Input::Ended,
        Ok(_) => Input::Open,
        Err(error) => match error.kind() {
            ErrorKind::Interrupted => Input::Open,
            kind => Input::Failed(kind),
        },
    }
}

/// The longest front of bytes that is text.
fn valid_front(bytes: &[u8]) -> &str
    ensures front { (left : List ℕ) × (bytes.now ≡ result.now ++ left) × (left ≡ [] ⊎ IsValidUpTo bytes.now (length result.now)) }
{
    match str::from_utf8(bytes) {
        Ok(text) => text,
        Err(error) => match str::from_utf8(&bytes[..error.valid_up_to()]) {
            Ok(text) => text,
            Err(_) => unreachable!(),
        },
    }
}

/// What comes after a text that ends at a place and leaves so many bytes. A character has four at most.
fn next(input: Input, at: usize, left: usize) -> Next
    ensures { (bytes : List ℕ) → length bytes ≡ left → (0 < left → (input ≡ Input.Ended) ⊎ (4 ≤ left) → NoCharBegins input bytes) → IsNext input at bytes result }
{
    match input {
        Input::Open if left < 4 => Next::More,
        Input::Failed(kind) if left < 4 => Next::Fault(ReadError::Io(kind)),
        Input::Ended if left == 0 => Next::End,
        _ => Next::Fault(ReadError::NotUtf8 { at }),
    }
}
