//! The texts that are named, one after another.
ghost use Rattle.std.specs.Prelude.{◌≡◌, IfOk, OnErr, OnOk, length, map, true};
ghost use Rattle.std.specs.Io.KnownBytes.{Appends};
ghost use Rattle.sql_tree.specs.Printed.{has_headings, heading, reason_line};
ghost use Rattle.sql_tree.specs.Told.{TellsAll, TellsText, TellsTexts, Told, last_line};

use crate::options::Listing;
use crate::printer::Printer;
use crate::report::{Report, tell_text};
use crate::sql::Sql;
use crate::texts::{Files, StandardInput, Texts};
use crate::totals::Totals;
use crate::unread::Unread;
use std::alloc::Global;
use std::io;
use std::io::Write;

/// What a text from the standard input is called.
const STANDARD_INPUT: &str = "<stdin>";

/// Tells what the options ask of each file, or of the standard input if none is named. Returns the status to end with.
pub fn tell_files(rt: &HostRuntime, listing: Listing, files: &[&str]) -> io::Result<u8> {
    let alloc = rt.alloc();
    let sql = Sql::new(alloc)?;
    let mut printer = Printer::new(io::writer(rt), rt.stderr());
    if files.is_empty() {
        let input = StandardInput(rt);
        tell_all(
            alloc,
            &sql,
            listing,
            &input,
            &[STANDARD_INPUT],
            &mut printer,
        )
    } else {
        tell_all(alloc, &sql, listing, &Files(rt), files, &mut printer)
    }
}

/// Tells of each text in turn, and prints the last line. Returns the status to end with.
pub fn tell_all<T: Texts, W: Write + Drop, E: Write + Drop>(
    alloc: Global,
    sql: &Sql,
    listing: Listing,
    texts: &T,
    names: &[&str],
    printer: &mut Printer<W, E>,
) -> io::Result<u8>
    ensures told { IfOk result (TellsAll (T.gives texts.now) T.Reader.remaining sql.now listing (map (λ name. name.now) names.now)
        (W.contents printer.old.out) (W.contents printer.new.out) (E.contents printer.old.errors) (E.contents printer.new.errors)) }
    ensures failed { OnErr result (printer.new.has_failed ≡ true) }
{
    let totals = tell_texts(alloc, sql, listing, texts, names, printer)?;
    print_last(printer, listing, totals)?;
    Ok(totals.status())
}

/// Tells of each text in turn. Returns what is counted.
fn tell_texts<T: Texts, W: Write + Drop, E: Write + Drop>(
    alloc: Global,
    sql: &Sql,
    listing: Listing,
    texts: &T,
    names: &[&str],
    printer: &mut Printer<W, E>,
) -> io::Result<Totals>
    ensures told { IfOk result (λ totals. TellsTexts (T.gives texts.now) T.Reader.remaining sql.now listing (has_headings listing (length names.now)) (map (λ name. name.now) names.now)
        totals (W.contents printer.old.out) (W.contents printer.new.out) (E.contents printer.old.errors) (E.contents printer.new.errors)) }
    ensures failed { OnErr result (printer.new.has_failed ≡ true) }
{
    let has_heading = has_headings(listing, names.len());
    let mut totals = Totals::new();
    for name in names {
        let report = tell(alloc, sql, listing, texts, has_heading, name, printer)?;
        totals.count(&report);
    }
    Ok(totals)
}

/// Prints the last line, but not where only errors are told.
fn print_last<W: Write + Drop, E: Write + Drop>(
    printer: &mut Printer<W, E>,
    listing: Listing,
    totals: Totals,
) -> io::Result<()>
    ensures ok { OnOk result (Appends (E.contents printer.old.errors) (E.contents printer.new.errors) (last_line listing totals)) }
    ensures failed { OnErr result (printer.new.has_failed ≡ true) }
    ensures out { printer.new.out ≡ printer.old.out }
{
    match listing {
        Listing::Quiet => Ok(()),
        _ => printer.print_totals(totals),
    }
}

/// Whether the name of each of so many texts stands over what is listed of it.
pub fn has_headings(listing: Listing, count: usize) -> bool
    ensures { result ≡ has_headings listing count }
{
    match listing {
        Listing::Json | Listing::Quiet => false,
        _ => count > 1,
    }
}

/// Tells of a text of a name, and why it isn't read to its end.
fn tell<T: Texts, W: Write + Drop, E: Write + Drop>(
    alloc: Global,
    sql: &Sql,
    listing: Listing,
    texts: &T,
    has_heading: bool,
    name: &str,
    printer: &mut Printer<W, E>,
) -> io::Result<Report>
    ensures told { IfOk result (λ report. (t : Told T.Reader) × ((t.name ≡ name.now) × ((t.report ≡ report) × (T.gives texts.now name.now t.opened
        × (TellsText T.Reader.remaining sql.now listing has_heading t
        × (Appends (W.contents printer.old.out) (W.contents printer.new.out) t.out × Appends (E.contents printer.old.errors) (E.contents printer.new.errors) t.errs)))))) }
    ensures failed { OnErr result (printer.new.has_failed ≡ true) }
{
    let report = match texts.open(name) {
        Ok(reader) => {
            print_heading(printer, has_heading, name)?;
            tell_text(alloc, sql, listing, name, reader, printer)?
        }
        Err(error) => Report::unread(Unread::Io(error.kind())),
    };
    print_reason(printer, name, report.unread)?;
    Ok(report)
}

/// Prints why a text of a name isn't read to its end, if it isn't.
fn print_reason<W: Write + Drop, E: Write + Drop>(
    printer: &mut Printer<W, E>,
    name: &str,
    unread: Option<Unread>,
) -> io::Result<()>
    ensures ok { OnOk result (Appends (E.contents printer.old.errors) (E.contents printer.new.errors) (reason_line name.now unread)) }
    ensures failed { OnErr result (printer.new.has_failed ≡ true) }
    ensures out { printer.new.out ≡ printer.old.out }
{
    match unread {
        None => Ok(()),
        Some(reason) => printer.print_unread(name, reason),
    }
}

/// Prints a text's name, where it has a heading.
fn print_heading<W: Write + Drop, E: Write + Drop>(
    printer: &mut Printer<W, E>,
    has_heading: bool,
    name: &str,
) -> io::Result<()>
    ensures ok { OnOk result (Appends (W.contents printer.old.out) (W.contents printer.new.out) (heading has_heading name.now)) }
    ensures failed { OnErr result (printer.new.has_failed ≡ true) }
    ensures errors { printer.new.errors ≡ printer.old.errors }
{
    if !has_heading {
        return Ok(());
    }
    printer.print(name.as_bytes())?;
    printer.print(b":\n")
}
