//! What is printed, and whether printing failed.
ghost use Rattle.std.specs.Prelude.{◌≡◌, ◌++◌, ◌||◌, codes, is_err, Bool, false, true};
ghost use Rattle.std.specs.Io.KnownBytes.{Appends};
ghost use Rattle.sql_tree.specs.Printed.{heading, totals_line};
ghost use Rattle.sql_tree.specs.Refusals.{unread_line};

use crate::totals::Totals;
use crate::unread::Unread;
use std::io;
use std::io::Write;

/// The standard output and the standard error output, and whether a write to one of them failed.
#[derive(Drop)]
pub struct Printer<W: Drop, E: Drop> {
    pub out: W,
    pub errors: E,
    has_failed: bool,
}

impl<W: Write + Drop, E: Write + Drop> Printer<W, E> {
    ghost use Rattle.std.specs.Prelude.{OnErr, OnOk};

    /// Nothing was printed yet.
    pub fn new(out: W, errors: E) -> Printer<W, E>
        ensures outputs { (result.out ≡ out) × (result.errors ≡ errors) }
        ensures failed { result.has_failed ≡ false }
    {
        Printer {
            out,
            errors,
            has_failed: false,
        }
    }

    /// Prints bytes of a listing.
    pub fn print(&mut self, bytes: &[u8]) -> io::Result<()>
        ensures ok { OnOk result (Appends (W.contents self.old.out) (W.contents self.new.out) bytes.now) }
        ensures failed { OnErr result (self.new.has_failed ≡ true) }
        ensures errors { self.new.errors ≡ self.old.errors }
    {
        let written = self.out.write_all(bytes);
        self.has_failed |= written.is_err();
        written
    }

    /// Prints bytes of errors.
    pub fn print_errors(&mut self, bytes: &[u8]) -> io::Result<()>
        ensures ok { OnOk result (Appends (E.contents self.old.errors) (E.contents self.new.errors) bytes.now) }
        ensures failed { OnErr result (self.new.has_failed ≡ true) }
        ensures out { self.new.out ≡ self.old.out }
    {
        let written = self.errors.write_all(bytes);
        self.has_failed |= written.is_err();
        written
    }

    /// Prints why a text of this name can't be read.
    pub fn print_unread(&mut self, name: &str, unread: Unread) -> io::Result<()>
        ensures ok { OnOk result (Appends (E.contents self.old.errors) (E.contents self.new.errors) (name.now ++ codes ": " ++ unread_line unread ++ codes "\n")) }
        ensures failed { OnErr result (self.new.has_failed ≡ true) }
        ensures out { self.new.out ≡ self.old.out }
    {
        let written = writeln!(self.errors, "{name}: {unread}");
        self.has_failed |= written.is_err();
        written
    }

    /// Prints the last line.
    pub fn print_totals(&mut self, totals: Totals) -> io::Result<()>
        ensures ok { OnOk result (Appends (E.contents self.old.errors) (E.contents self.new.errors) (totals_line totals)) }
        ensures failed { OnErr result (self.new.has_failed ≡ true) }
        ensures out { self.new.out ≡ self.old.out }
    {
        let Totals {
            files,
            statements,
            errors,
            ..
        } = totals;
        let written = writeln!(
            self.errors,
            "files: {files}, statements: {statements}, errors: {errors}"
        );
        self.has_failed |= written.is_err();
        written
    }
}
