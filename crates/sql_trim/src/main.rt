//! A formatter to copy: it removes blanks at the ends of lines, but not inside of comments, strings, names and data of
//! COPY. It reads SQL from the standard input, and prints it.
#![tactic(auto)]

mod format;
#[cfg(test)]
mod tests;
mod trim;

use crate::format::format;
use sql_syntax::SqlError;
use sql_words::vocabulary;
use std::io::{self, Write};
use std::process::ExitCode;

fn main(rt: HostRuntime) -> ExitCode {
    match run(&rt) {
        Ok(()) => ExitCode::SUCCESS,
        Err(error) => {
            let _ = eprintln!(&rt; "sql_trim: {error}");
            ExitCode::FAILURE
        }
    }
}

/// Prints the standard input without blanks at the ends of lines.
fn run(rt: &HostRuntime) -> Result<(), SqlError> {
    let alloc = rt.alloc();
    let text = io::read_to_string(alloc, rt.reader())?;
    let words = vocabulary(alloc)?;
    let formatted = format(alloc, &words, text.as_str())?;
    io::writer(rt).write_all(&formatted)?;
    Ok(())
}
