//! A script in parts: what is told of them is told of the whole.
ghost use Rattle.std.specs.Prelude.{◌≡◌, ◌≤◌, ◌<◌, ◌^◌, length};
ghost use Rattle.squawk_table.specs.Shape.{Fits};

use rule_grammar::RuleGrammar;
use sql_grammar::{Detail, ScriptParts, parse_table, stray_strings};
use sql_lexer::{ScriptPlace, tokenize_script};
use sql_reader::{Next, ScriptReader};
use sql_report::{Asked, ErrorLines, LineColumn, Place, Walk};
use sql_rules::{hiding, rules};
use sql_words::{SqlKind, names, vocabulary};
use squawk_output::Output;
use squawk_table::LexedStr;
use std::alloc::{AllocError, Global};
use std::io;
use std::io::Read;
use std::process::Abort;
use std::test::Fail;

/// Statements with and without errors, a string that goes on, one that doesn't, and data of COPY.
const PIECE: &str =
    "select f(1;\nselect 'a'\n'b', 'c' 'd', 1x;\ncopy t from stdin;\nit's\n\\.\n\\x\n";

/// What is told of a text.
#[derive(Drop)]
struct Told {
    drawn: String,
    errors: Vec<u8>,
}

/// Nothing was told yet.
fn nothing(alloc: Global) -> Told {
    Told {
        drawn: String::new(alloc),
        errors: Vec::new(alloc),
    }
}

/// What is told of a parse of all of a text.
fn whole(
    alloc: Global,
    asked: Asked,
    text: &str,
    table: &LexedStr<'_>,
    output: &Output,
) -> Result<Told, AllocError>
    requires fits { Fits table.now output.now.steps }
    requires short { length table.now.text < 2 ^ 64 }
{
    let all_names = names(alloc)?;
    let mut errors = ErrorLines::new(alloc, "x");
    errors.part(&mut Place::whole(text), table, output, 0)?;
    let mut walk = Walk::new(alloc, &all_names, asked, SqlKind::SOURCE_FILE)?;
    walk.part(table, output, 0)?;
    Ok(Told {
        drawn: walk.finish()?,
        errors: errors.lines,
    })
}

/// What is told of the parts of a text, of so many bytes at least, and how many there are.
fn in_parts(
    alloc: Global,
    asked: Asked,
    rules: &RuleGrammar<'_>,
    text: &str,
    least: usize,
) -> Result<(Told, usize), Fail> {
    let words = vocabulary(alloc)?;
    let all_names = names(alloc)?;
    let mut parts = ScriptParts::new(alloc, text, ScriptPlace::Front, true)?;
    let mut errors = ErrorLines::new(alloc, "x");
    let mut place = Place::whole(text);
    let mut walk = Walk::new(alloc, &all_names, asked, SqlKind::SOURCE_FILE)?;
    let mut count = 0usize;
    while let Some(part) = parts.next_part(least, &words, rules)? {
        errors.part(&mut place, &part.table, &part.output, part.start)?;
        walk.part(&part.table, &part.output, part.start)?;
        count = count.saturating_add(1);
    }
    let drawn = walk.finish()?;
    let errors = errors.lines;
    Ok((Told { drawn, errors }, count))
}

/// A reader that gives so many bytes at a time.
#[derive(Drop)]
struct Few<'b> {
    bytes: &'b [u8],
    size: usize,
}

impl Read for Few<'_> {
    fn read(&mut self, buf: &mut [u8]) -> io::Result<usize> {
        let count = self.size.min(buf.len()).min(self.bytes.len());
        let (front, rest) = self.bytes.split_at(count);
        buf[..count].copy_from_slice(front);
        self.bytes = rest;
        Ok(count)
    }
}

/// Hands out what is told so far.
fn hand_out(
    told: &mut Told,
    walk: &mut Walk<'_>,
    errors: &mut ErrorLines<'_>,
) -> Result<(), AllocError> {
    told.drawn.push_str(walk.take_drawn().as_str())?;
    told.errors.extend_from_slice(&errors.lines)?;
    errors.lines.clear();
    Ok(())
}

/// What is told of a script from a reader that gives so many bytes at a time. All that can be is handed out after each text.
fn in_texts(
    alloc: Global,
    asked: Asked,
    rules: &RuleGrammar<'_>,
    script: &str,
    size: usize,
) -> Result<Told, Fail> {
    let words = vocabulary(alloc)?;
    let all_names = names(alloc)?;
    let mut errors = ErrorLines::new(alloc, "x");
    let mut walk = Walk::new(alloc, &all_names, asked, SqlKind::SOURCE_FILE)?;
    let mut told = nothing(alloc);
    let mut before = LineColumn::start();
    let bytes = script.as_bytes();
    let mut reader = ScriptReader::with_least(alloc, size, Few { bytes, size });
    for _ in 0..=script.len() {
        reader.read()?;
        let text = reader.text();
        let mut place = Place::new(text.window, before);
        let mut parts = ScriptParts::new(alloc, text.text, text.place, text.next == Next::End)?;
        while let Some(part) = parts.next_part(usize::MAX, &words, rules)? {
            let in_window = text.start.saturating_add(part.start);
            let start = text.passed.saturating_add(in_window).min(u32::MAX as usize);
            errors.part(&mut place, &part.table, &part.output, in_window)?;
            walk.part(&part.table, &part.output, start)?;
        }
        hand_out(&mut told, &mut walk, &mut errors)?;
        if text.next != Next::More {
            break;
        }
        let count = parts.position().min(text.text.len());
        before.pass(text.leaving(count));
        let next = parts.place().unwrap_or(text.place);
        reader.go_on(count, next);
    }
    told.drawn.push_str(walk.finish()?.as_str())?;
    Ok(told)
}

/// Asserts that the same is told.
fn assert_told(rt: &impl Abort, told: &Told, wanted: &Told) -> Result<(), Fail> {
    assert_eq!(rt; told.drawn.as_str(), wanted.drawn.as_str());
    assert_eq!(rt; told.errors.as_slice(), wanted.errors.as_slice());
    Ok(())
}

/// Asserts that parts of so many bytes at least, of which there are so many, are told as the whole, and that a script from a reader
/// is, which gives so many bytes at a time.
fn assert_parts(
    rt: &(impl Abort + AllocGlobal),
    text: &str,
    parts: &[(usize, usize)],
    sizes: &[usize],
) -> Result<(), Fail> {
    let alloc = rt.alloc();
    let tokens = tokenize_script(alloc, text)?;
    let words = vocabulary(alloc)?;
    let table = LexedStr::new(alloc, text, &tokens, &words)?;
    let strays = stray_strings(alloc, text, &tokens)?;
    let ready = rules();
    let rules = hiding(&ready, &strays);
    let output = parse_table(alloc, &table, &words, Detail::Nodes(&rules))?;
    for asked in [Asked::Tree, Asked::Json] {
        let all = whole(alloc, asked, text, &table, &output)?;
        for (least, wanted) in parts {
            let (told, count) = in_parts(alloc, asked, &ready, text, *least)?;
            assert_told(rt, &told, &all)?;
            assert_eq!(rt; count, *wanted);
        }
        for size in sizes {
            let told = in_texts(alloc, asked, &ready, text, *size)?;
            assert_told(rt, &told, &all)?;
        }
    }
    Ok(())
}

#[test]
fn parts_are_told_as_the_whole(rt: HostRuntime) -> Result<(), Fail> {
    assert_parts(&rt, "", &[(0, 1), (1, 1), (usize::MAX, 1)], &[])?;
    // A piece has 71 bytes, and its statements end at 11, 40, 59 (COPY), 64 (data), 67 (their end) and 70. The line end after the
    // last one is one more part, where it isn't read with others.
    let sizes = [1, 2, 3, 7, 20, 64, 1000];
    assert_parts(
        &rt,
        PIECE,
        &[(0, 7), (1, 7), (12, 3), (usize::MAX, 1)],
        &sizes,
    )?;
    // The first part of three ends with the semicolon of COPY in piece 113, at byte 8,011, before its data; the second at 16,015.
    let text = PIECE.repeat(rt.alloc(), 250)?;
    assert_parts(&rt, text.as_str(), &[(8000, 3), (usize::MAX, 1)], &[10_000])
}

#[test]
fn long_lines_are_told_as_the_whole(rt: HostRuntime) -> Result<(), Fail> {
    let alloc = rt.alloc();
    // Four statements in each line of 269 bytes. With the line end after the last one there are 25 parts.
    let many = "é".repeat(alloc, 55)?;
    let line = format!(in alloc; "select f(1; select '{many}', 1x; select '{many}'; select 2y;\n")?;
    let text = line.as_str().repeat(alloc, 6)?;
    assert_parts(&rt, text.as_str(), &[(0, 25)], &[1, 100, 300])
}
