//! What is printed of files, one after another.
ghost use Rattle.std.specs.Prelude.{◌≡◌, IfErr, IfOk, List, ℕ, map, string_bytes};
ghost use Rattle.sql_syntax.specs.Printed.{ArePrinted, IsPrinted, RefusesFile, StopsAt, status_of};

use crate::error::{FileError, SqlError};
use std::alloc::Global;
use std::fs;
use std::io::{self, Write};

/// What gives the texts of files by their names.
pub trait Texts {
    ghost use Rattle.std.specs.Prelude.{Result};
    ghost use Rattle.std.specs.declared.alloc.Global.{Global};
    ghost use Rattle.std.specs.declared.io.Error.{Error};
    ghost use Rattle.std.specs.declared.string.String.{String};

    /// Whether reading the text of the file with a name may give this.
    ghost gives: { Self → List ℕ → Result (String Global) Error → Type 0 };

    /// Reads the text of the file with a name.
    fn read(&self, name: &str) -> io::Result<String>
        ensures { gives self.now name.now result };
}

/// The files of the system by their paths. No clause can say what stands in them, so that reading may give anything.
impl Texts for HostRuntime {
    ghost gives = { λ _ _ _. Unit {0} };

    fn read(&self, name: &str) -> io::Result<String> {
        fs::read_to_string(self, name)
    }
}

/// What a program tells of texts.
pub trait Reporter {
    ghost use Rattle.sql_syntax.specs.declared.error.SqlError.{SqlError};

    /// Whether a text with a name may have these lines.
    ghost reports: { Self → List ℕ → List ℕ → List ℕ → Type 0 };

    /// Whether a text may be refused for this reason.
    ghost refuses: { Self → List ℕ → SqlError → Type 0 };

    /// Returns the lines that are printed of a text with a name; none where there is nothing to tell.
    fn report(&self, alloc: Global, name: &str, text: &str) -> Result<Vec<u8>, SqlError>
        ensures lines { IfOk result (λ lines. reports self.now name.now text.now lines.items) }
        ensures refused { IfErr result (refuses self.now text.now) };
}

/// The status to end with: 0 where nothing was told, 1 where something was, and 3 at an error.
pub fn status(is_clean: &Result<bool, FileError<'_>>) -> u8
    ensures { result ≡ status_of is_clean.now }
{
    match is_clean {
        Ok(true) => 0,
        Ok(false) => 1,
        Err(_) => 3,
    }
}

/// Prints what is told of each file, in order, up to the first that is refused. Returns whether nothing was told.
pub fn print_files<'n, T: Texts, R: Reporter, W: Write>(
    alloc: Global,
    texts: &T,
    reporter: &R,
    names: &'n [String],
    out: &mut W,
) -> Result<bool, FileError<'n>>
    ensures printed { IfOk result
        (ArePrinted (T.gives texts.now) (R.reports reporter.now) (map string_bytes names.now) (W.contents out.old) (W.contents out.new)) }
    ensures refused { IfErr result
        (StopsAt (T.gives texts.now) (R.reports reporter.now) (R.refuses reporter.now) (map string_bytes names.now) (W.contents out.old) (W.contents out.new)) }
{
    let mut is_clean = true;
    for name in names {
        let name = name.as_str();
        match print_file(alloc, texts, reporter, name, out) {
            Ok(is_file_clean) => is_clean &= is_file_clean,
            Err(error) => return Err(FileError { name, error }),
        }
    }
    Ok(is_clean)
}

/// Prints what is told of a file. Returns whether nothing was told.
fn print_file<T: Texts, R: Reporter, W: Write>(
    alloc: Global,
    texts: &T,
    reporter: &R,
    name: &str,
    out: &mut W,
) -> Result<bool, SqlError>
    ensures printed { IfOk result (IsPrinted (T.gives texts.now) (R.reports reporter.now) name.now (W.contents out.old) (W.contents out.new)) }
    ensures refused { IfErr result
        (RefusesFile (T.gives texts.now) (R.reports reporter.now) (R.refuses reporter.now) name.now (W.contents out.old) (W.contents out.new)) }
{
    let text = texts.read(name)?;
    let lines = reporter.report(alloc, name, text.as_str())?;
    out.write_all(&lines)?;
    Ok(lines.is_empty())
}
