//! What is told of a text, by its name and a reader of it.
ghost use Rattle.std.specs.Prelude.{◌≡◌, ℕ, List, IfErr, IfOk, OnErr, true};
ghost use Rattle.std.specs.Io.KnownBytes.{Appends};
ghost use Rattle.sql_tree.specs.OnTheWay.{IfOutput, IfUnread};
ghost use Rattle.sql_tree.specs.Told.{TellsParts, TellsReader, unread_report};

use crate::options::Listing;
use crate::printer::Printer;
use crate::sql::Sql;
use crate::stop::Stop;
use crate::telling::Telling;
use crate::unread::Unread;
use sql_lexer::tokenize_script;
use sql_report::token_lines;
use std::alloc::Global;
use std::io::{Read, Write};
use std::{io, str};

/// What was told of a text.
#[derive(Clone, Copy, Debug, PartialEq, Eq)]
pub struct Report {
    /// How many statements there are; none are counted where only errors are told.
    pub statement_count: usize,
    /// How many errors there are.
    pub error_count: usize,
    /// Why the text isn't read to its end, if it isn't.
    pub unread: Option<Unread>,
}

impl Report {
    ghost use Rattle.std.specs.Prelude.{◌≡◌};
    ghost use Rattle.sql_tree.specs.Told.{unread_report};

    /// Nothing was told of a text, for this reason.
    pub fn unread(reason: Unread) -> Report
        ensures { result ≡ unread_report reason }
    {
        Report {
            statement_count: 0,
            error_count: 0,
            unread: Some(reason),
        }
    }
}

/// Tells of a text that is called by a name. What stands before a place from which it can't be read is told, but its raw tokens are
/// told of a whole text alone.
pub fn tell_text<R: Read + Drop, W: Write + Drop, E: Write + Drop>(
    alloc: Global,
    sql: &Sql,
    listing: Listing,
    name: &str,
    reader: R,
    printer: &mut Printer<W, E>,
) -> io::Result<Report>
    ensures told { IfOk result (λ report. (out errs : List ℕ) × (Appends (W.contents printer.old.out) (W.contents printer.new.out) out
        × (Appends (E.contents printer.old.errors) (E.contents printer.new.errors) errs
        × TellsReader (R.remaining reader) sql.now listing name.now out errs report))) }
    ensures failed { OnErr result (printer.new.has_failed ≡ true) }
{
    let told = match listing {
        Listing::Tokens => tell_tokens(alloc, sql, name, reader, printer),
        _ => tell_script(alloc, sql, listing, name, reader, printer),
    };
    match told {
        Ok(report) => Ok(report),
        Err(Stop::Unread(reason)) => Ok(Report::unread(reason)),
        Err(Stop::Output(error)) => Err(error),
    }
}

/// Tells of a script, text by text.
fn tell_script<R: Read + Drop, W: Write + Drop, E: Write + Drop>(
    alloc: Global,
    sql: &Sql,
    listing: Listing,
    name: &str,
    reader: R,
    printer: &mut Printer<W, E>,
) -> Result<Report, Stop>
    ensures told { IfOk result (λ report. (out errs : List ℕ) × (Appends (W.contents printer.old.out) (W.contents printer.new.out) out
        × (Appends (E.contents printer.old.errors) (E.contents printer.new.errors) errs
        × TellsParts (R.remaining reader) sql.now listing name.now out errs report))) }
    ensures unread { IfErr result (λ stop. IfUnread stop (λ reason. (out errs : List ℕ) × (Appends (W.contents printer.old.out) (W.contents printer.new.out) out
        × (Appends (E.contents printer.old.errors) (E.contents printer.new.errors) errs
        × TellsParts (R.remaining reader) sql.now listing name.now out errs (unread_report reason))))) }
    ensures failed { IfErr result (λ stop. IfOutput stop (printer.new.has_failed ≡ true)) }
{
    let mut telling = Telling::new(alloc, sql, listing, name)?;
    let unread = match telling.read(reader, printer) {
        Ok(()) => None,
        Err(Stop::Unread(Unread::OutOfMemory)) => return Err(Stop::Unread(Unread::OutOfMemory)),
        Err(Stop::Unread(reason)) => Some(reason),
        Err(Stop::Output(error)) => return Err(Stop::Output(error)),
    };
    let (statement_count, error_count) = telling.finish(printer)?;
    Ok(Report {
        statement_count,
        error_count,
        unread,
    })
}

/// Tells the raw tokens of a text, and its errors.
fn tell_tokens<R: Read + Drop, W: Write + Drop, E: Write + Drop>(
    alloc: Global,
    sql: &Sql,
    name: &str,
    mut reader: R,
    printer: &mut Printer<W, E>,
) -> Result<Report, Stop>
    ensures told { IfOk result (λ report. (out errs : List ℕ) × (Appends (W.contents printer.old.out) (W.contents printer.new.out) out
        × (Appends (E.contents printer.old.errors) (E.contents printer.new.errors) errs
        × TellsReader (R.remaining reader) sql.now Listing.Tokens name.now out errs report))) }
    ensures unread { IfErr result (λ stop. IfUnread stop (λ reason. (out errs : List ℕ) × (Appends (W.contents printer.old.out) (W.contents printer.new.out) out
        × (Appends (E.contents printer.old.errors) (E.contents printer.new.errors) errs
        × TellsReader (R.remaining reader) sql.now Listing.Tokens name.now out errs (unread_report reason))))) }
    ensures failed { IfErr result (λ stop. IfOutput stop (printer.new.has_failed ≡ true)) }
{
    let mut bytes = Vec::new(alloc);
    if let Err(error) = reader.read_to_end(&mut bytes) {
        return Err(Stop::Unread(Unread::Io(error.kind())));
    }
    match str::from_utf8(&bytes) {
        Ok(text) => {
            let tokens = tokenize_script(alloc, text)?;
            printer.print(token_lines(alloc, &tokens)?.as_bytes())?;
            tell_script(alloc, sql, Listing::Tokens, name, text.as_bytes(), printer)
        }
        Err(error) => Err(Stop::Unread(Unread::NotUtf8 {
            at: error.valid_up_to(),
        })),
    }
}
