//! Scripts from readers of all kinds.

use crate::read_error::ReadError;
use crate::script_reader::ScriptReader;
use crate::script_text::Next;
use sql_lexer::ScriptPlace;
use std::alloc::Global;
use std::io;
use std::io::{ErrorKind, Read};
use std::test::Fail;

/// A reader that gives some bytes at a time.
#[derive(Drop)]
struct Slow<'b> {
    bytes: &'b [u8],
    size: usize,
    /// Each read of so many is interrupted.
    interrupted: usize,
    reads: usize,
    /// What comes after the last byte.
    end: Option<ErrorKind>,
}

impl Read for Slow<'_> {
    fn read(&mut self, buf: &mut [u8]) -> io::Result<usize> {
        self.reads = self.reads.wrapping_add(1);
        if self.reads.is_multiple_of(self.interrupted) {
            return Err(io::Error::from(ErrorKind::Interrupted));
        }
        if let (true, Some(kind)) = (self.bytes.is_empty(), self.end) {
            return Err(io::Error::from(kind));
        }
        let count = self.size.min(buf.len()).min(self.bytes.len());
        let (front, rest) = self.bytes.split_at(count);
        buf[..count].copy_from_slice(front);
        self.bytes = rest;
        Ok(count)
    }
}

/// A reader of bytes.
fn reader(bytes: &[u8], size: usize, end: Option<ErrorKind>) -> Slow<'_> {
    Slow {
        bytes,
        size,
        interrupted: 3,
        reads: 0,
        end,
    }
}

/// A script with characters of one to four bytes.
const SCRIPT: &str = "select 'é', '→', '🦀';\nselect 2;\n";

/// All text that a reader gives, and what comes after it.
fn all(alloc: Global, from: Slow<'_>) -> Result<(String, Next), Fail> {
    let mut script = ScriptReader::new(alloc, from);
    let mut all = String::new(alloc);
    for _ in 0..100 {
        script.read()?;
        let text = script.text();
        all.push_str(text.text)?;
        let (len, next) = (text.text.len(), text.next);
        if next != Next::More {
            return Ok((all, next));
        }
        script.go_on(len, ScriptPlace::Front);
    }
    Ok((all, Next::More))
}

#[test]
fn a_script_comes_in_pieces_of_any_size(rt: HostRuntime) -> Result<(), Fail> {
    for size in 1..SCRIPT.len() {
        let (text, next) = all(rt.alloc(), reader(SCRIPT.as_bytes(), size, None))?;
        assert_eq!(rt; text.as_str(), SCRIPT);
        assert_eq!(rt; next, Next::End);
    }
    Ok(())
}

#[test]
fn what_stands_before_a_fault_is_text(rt: HostRuntime) -> Result<(), Fail> {
    let (text, next) = all(
        rt.alloc(),
        reader(SCRIPT.as_bytes(), 5, Some(ErrorKind::ConnectionReset)),
    )?;
    assert_eq!(rt; text.as_str(), SCRIPT);
    assert_eq!(rt;
        next,
        Next::Fault(ReadError::Io(ErrorKind::ConnectionReset))
    );

    // 0xFF begins no character, and the input goes on.
    let (text, next) = all(rt.alloc(), reader(b"select 1;\xFF select", 4, None))?;
    assert_eq!(rt; text.as_str(), "select 1;");
    assert_eq!(rt; next, Next::Fault(ReadError::NotUtf8 { at: 9 }));

    // The input ends within a character.
    let (text, next) = all(rt.alloc(), reader(b"'\xC3", 1, None))?;
    assert_eq!(rt; text.as_str(), "'");
    assert_eq!(rt; next, Next::Fault(ReadError::NotUtf8 { at: 1 }));
    Ok(())
}

/// Goes over so many bytes of a text, if it has them.
fn go_over(script: &mut ScriptReader<Slow<'_>>, count: usize) {
    let len = script.text().text.len();
    script.go_on(count.min(len), ScriptPlace::Inside { waiting: 2 });
}

/// Where a text begins in its window, how many bytes stand before the window, and how many leave it where 940 of the text are read.
fn places(script: &ScriptReader<Slow<'_>>) -> (usize, usize, usize) {
    let text = script.text();
    (text.start, text.passed, text.leaving(940).len())
}

#[test]
fn some_of_what_was_read_stays(rt: HostRuntime) -> Result<(), Fail> {
    let alloc = rt.alloc();
    let bytes = b"select 1;\n".repeat(alloc, 10_000)?;
    let mut script = ScriptReader::new(alloc, reader(&bytes, 1000, None));
    script.read()?;
    assert!(rt; script.text().text.len() >= 65_536);
    assert_eq!(rt; places(&script), (0, 0, 812));
    go_over(&mut script, 60);
    assert_eq!(rt; places(&script), (60, 0, 872));
    go_over(&mut script, 940);
    // Of 1,000 bytes that are read 128 stay.
    script.read()?;
    assert_eq!(rt; places(&script), (128, 872, 940));
    assert!(rt; script.text().window.starts_with(b"lect 1;\n"));
    assert!(rt; script.text().text.starts_with("select 1;\n"));
    Ok(())
}
